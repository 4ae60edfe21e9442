// Call 43: many steps of a walk at once, on one line.

ghost use Rattle.green.specs.View.{view};

use files::out::Output;
use green::Store;
use preorder_many::state::Given;
use preorder_many::walk;
use questions::walk::Walk;
use replies::many;
use replies::many::Steps;

// As many steps of a walk as there are places for events of seven words, unless it is over.
fn step_many(store: Store<'_, '_>, it: &mut Walk, events: &mut [u64]) -> Given {
    let coming = it.coming;
    let given = walk::next_many(
        store,
        it.root,
        it.tokens,
        it.start,
        &mut it.path,
        it.depth,
        coming,
        events,
    );
    it.go_to(given.coming, given.depth);
    given
}

// The replies of `n` steps, up to and with the first that is no event.
pub fn put(out: &mut Output, store: Store<'_, '_>, it: &mut Walk, n: usize) {
    let mut events = [0u64; 448];
    for done in (0..n).step_by(64) {
        let asked = (n - done).min(64);
        let path = it.path;
        let given = step_many(store, it, &mut events[..7 * asked]);
        let last = many::last_of(given, asked);
        out.put(Steps {
            is_first: done == 0,
            events: &events,
            count: given.count,
            path: &path,
            last,
        });
        if last.is_some() {
            break;
        }
    }
    out.put_line("");
}
