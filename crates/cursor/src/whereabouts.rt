// Where-is: the path of an occurrence of a number under a root.

ghost use Rattle.std.specs.Prelude.{◌≡◌, ◌≤◌, length};
ghost use Rattle.green.specs.Store.{entries};
ghost use Rattle.green.specs.View.{view};
ghost use Rattle.cursor.specs.Position.{Placed, Inner};
ghost use Rattle.cursor.specs.Occurs.{Occurs, WhereIsAnswer};

use crate::position::Cursor;
use crate::{path, position};
use green::Store;
use utility_types::{NodeOrToken, Refusal};

// How many indexes lead to an occurrence at or below an element, if there is one. What stands below a record has a lower number, so a lower record is not entered.
// The store comes by reference, since its words would go by memory at each level.
#[cycle(occurrence_below_occurrence_in)]
fn occurrence_in(
    store: &Store<'_, '_>,
    number: usize,
    at: Cursor,
    path: &mut [u32],
) -> Option<usize>
    requires { Placed (view store.now) at × (64 ≤ length path.old) }
    ensures { Occurs (entries (view store.now)) number at path.old path.new result }
{
    if at.number == number {
        return Some(at.depth);
    }
    if at.number < number {
        return None;
    }
    let NodeOrToken::Node(_) = position::node_or_token(*store, at) else {
        return None;
    };
    occurrence_below(store, number, at, path)
}

// Below a node that is not the one looked for.
#[cycle(occurrence_below_occurrence_in)]
fn occurrence_below(
    store: &Store<'_, '_>,
    number: usize,
    at: Cursor,
    path: &mut [u32],
) -> Option<usize>
    requires inner { Inner (view store.now) at × (at.number ≡ number → ⊥) }
    requires in_bounds { 64 ≤ length path.old }
    ensures { Occurs (entries (view store.now)) number at path.old path.new result }
{
    let count = position::child_count(*store, at);
    let depth = at.depth;
    for i in 0..count {
        let child = position::child(*store, at, i);
        let found = occurrence_in(store, number, child, path);
        if let Some(d) = found {
            path[depth] = i as u32;
            return Some(d);
        }
    }
    None
}

// An occurrence of a number under a root, which must be a node; the path comes back in the lent place.
pub fn where_is(
    store: Store<'_, '_>,
    number: usize,
    root: usize,
    path: &mut [u32; 64],
) -> Result<Option<usize>, Refusal>
    ensures { WhereIsAnswer (entries (view store.entry)) number root path.old path.new result }
{
    if store.used[0] <= number {
        return Err(Refusal::NoSuchElement);
    }
    let at = path::root_node(store, root)?;
    let found = occurrence_in(&store, number, at, path);
    Ok(found)
}
