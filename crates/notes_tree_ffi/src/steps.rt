// The calls that carry on a walk, or the chunks of a text, from a lent state that they leave for the next one.

ghost use Rattle.green.specs.View.{view};
ghost use Rattle.syntax_text_chunks.specs.Chunks.{ChunkKept};
ghost use Rattle.sheet_run.specs.RunDone.{list};
ghost use Rattle.abi.specs.Codes.{flag};
ghost use Rattle.abi.specs.WalkWords.{WalkInWords};
ghost use Rattle.notes_tree_ffi.specs.Exports.{WalkBegins, WalkSteps, WalkSkips, WalkGives, chunk_given, chunk_kept, ChunkGives};

use abi::{Words, answer, walk as words_of_walk};
use cursor::path::Path;
use green::Store;
use preorder::walk as preorder_walk;
use preorder_many::walk as many;
use syntax_text::text::SyntaxText;
use syntax_text_chunks::chunks;
use syntax_text_chunks::chunks::Chunks;

// Does nothing: an array that is lent as a slice shows its length to the proof.
fn show(_words: &[usize]) {}

fn show_path(_path: &[u32]) {}

// A new walk of the node that a path names. A refused one leaves the words as they were.
pub fn notes_walk_begin(
    store: Store<'_, '_>,
    root: usize,
    with_tokens: usize,
    path: &[u32; 64],
    depth: usize,
    walk: &mut Words,
) -> usize
    ensures { WalkBegins (view store.entry) root (flag with_tokens) depth path.now (list walk) result }
{
    show(walk);
    let node = Path {
        root,
        indexes: path,
        depth,
    };
    let moved = preorder_walk::begin(store, node);
    let tokens = words_of_walk::flag(with_tokens);
    words_of_walk::begin(walk, root, tokens, moved);
    answer::moved(moved)
}

// The next event; its element is at the indexes that the path held before the call.
pub fn notes_walk_next(
    store: Store<'_, '_>,
    walk: &mut Words,
    path: &mut [u32; 64],
    words: &mut Words,
) -> usize
    requires { WalkInWords walk.old }
    ensures { WalkSteps (view store.entry) (list walk) (list path) (list words) result }
{
    show(walk);
    let coming = words_of_walk::coming(walk);
    let tokens = words_of_walk::with_tokens(walk);
    let step = preorder_walk::next(store, walk[3], tokens, walk[2], path, walk[1], coming);
    show_path(path);
    let then = step.coming;
    words_of_walk::move_on(walk, then, step.depth);
    let answer = step.answer;
    answer::put_walk(words, answer)
}

// A coming Enter becomes Leave of that element's parent.
pub fn notes_walk_skip(walk: &mut Words) -> usize
    requires { WalkInWords walk.old }
    ensures { WalkSkips (list walk) result }
{
    show(walk);
    let coming = words_of_walk::coming(walk);
    let moved = preorder_walk::skip_subtree(coming, walk[1]);
    words_of_walk::skip(walk, moved);
    answer::moved(moved)
}

// As many calls of next as there is place for.
pub fn notes_walk_many(
    store: Store<'_, '_>,
    walk: &mut Words,
    path: &mut [u32; 64],
    events: &mut [u64],
    words: &mut Words,
) -> usize
    requires { WalkInWords walk.old }
    ensures { WalkGives (view store.entry) (list walk) (list path) (list events) (list words) result }
{
    show(walk);
    let coming = words_of_walk::coming(walk);
    let tokens = words_of_walk::with_tokens(walk);
    let given = many::next_many(
        store, walk[3], tokens, walk[2], path, walk[1], coming, events,
    );
    let then = given.coming;
    words_of_walk::move_on(walk, then, given.depth);
    let stop = given.stop;
    answer::put_given(words, stop, given.count)
}

// The next chunk of a text: where it lies in the store's text.
pub fn notes_next_chunk(
    store: Store<'_, '_>,
    root: usize,
    path: &[u32; 64],
    depth: usize,
    start: usize,
    end: usize,
    state: &mut [usize; 2],
    place: &mut [u32; 64],
    words: &mut Words,
) -> usize
    requires { ChunkKept (view store) root depth path.now start end (chunk_given state.old) place.old (chunk_kept state.old) }
    ensures { ChunkGives (view store.entry) root depth path.now start end (list state) (list place) (view store.entry).text (list words) result }
{
    show(state);
    let text = SyntaxText {
        node: Path {
            root,
            indexes: path,
            depth,
        },
        start,
        end,
    };
    let mut carried = Chunks {
        given: state[0],
        place,
        kept: state[1],
    };
    let came = chunks::next_part(store, text, &mut carried);
    show_path(carried.place);
    state[0] = carried.given;
    state[1] = carried.kept;
    answer::put_chunk(words, came)
}
