// The calls that carry on a walk, or the chunks of a text, from a lent state that they leave for the next one.

ghost use Rattle.green.specs.Store.{here, entered};
ghost use Rattle.green.specs.Valid.{Valid};
ghost use Rattle.syntax_text_chunks.specs.Chunks.{ChunkKept};
ghost use Rattle.sheet_run.specs.RunDone.{list};
ghost use Rattle.abi.specs.Codes.{flag};
ghost use Rattle.abi.specs.WalkWords.{WalkInWords};
ghost use Rattle.notes_tree_ffi.specs.Exports.{WalkBegins, WalkSteps, WalkSkips, WalkGives, chunk_given, chunk_kept, ChunkGives};

use abi::Words;
use green::{Counts, Store};

// A new walk of the node that a path names. A refused one leaves the words as they were.
#[unsafe(no_mangle)]
pub extern "C" fn notes_walk_begin<'a>(
    records: &'a [u64],
    children: &'a [u64],
    text: &'a [u8],
    used: &'a Counts,
    root: usize,
    with_tokens: usize,
    path: &[u32; 64],
    depth: usize,
    walk: &mut Words,
) -> usize
    requires { Valid (here records children text used) }
    ensures { WalkBegins (entered records children text used) root (flag with_tokens) depth path.now (list walk) result }
{
    notes_tree_ffi::steps::notes_walk_begin(
        Store {
            records,
            children,
            text,
            used,
        },
        root,
        with_tokens,
        path,
        depth,
        walk,
    )
}

// The next event; its element is at the indexes that the path held before the call.
#[unsafe(no_mangle)]
pub extern "C" fn notes_walk_next<'a>(
    records: &'a [u64],
    children: &'a [u64],
    text: &'a [u8],
    used: &'a Counts,
    walk: &mut Words,
    path: &mut [u32; 64],
    words: &mut Words,
) -> usize
    requires { Valid (here records children text used) × WalkInWords walk.old }
    ensures { WalkSteps (entered records children text used) (list walk) (list path) (list words) result }
{
    notes_tree_ffi::steps::notes_walk_next(
        Store {
            records,
            children,
            text,
            used,
        },
        walk,
        path,
        words,
    )
}

// A coming Enter becomes Leave of that element's parent.
#[unsafe(no_mangle)]
pub extern "C" fn notes_walk_skip(walk: &mut Words) -> usize
    requires { WalkInWords walk.old }
    ensures { WalkSkips (list walk) result }
{
    notes_tree_ffi::steps::notes_walk_skip(walk)
}

// As many calls of next as there is place for.
#[unsafe(no_mangle)]
pub extern "C" fn notes_walk_many<'a>(
    records: &'a [u64],
    children: &'a [u64],
    text: &'a [u8],
    used: &'a Counts,
    walk: &mut Words,
    path: &mut [u32; 64],
    events: &mut [u64],
    words: &mut Words,
) -> usize
    requires { Valid (here records children text used) × WalkInWords walk.old }
    ensures { WalkGives (entered records children text used) (list walk) (list path) (list events) (list words) result }
{
    notes_tree_ffi::steps::notes_walk_many(
        Store {
            records,
            children,
            text,
            used,
        },
        walk,
        path,
        events,
        words,
    )
}

// The next chunk of a text: where it lies in the store's text.
#[unsafe(no_mangle)]
pub extern "C" fn notes_next_chunk<'a>(
    records: &'a [u64],
    children: &'a [u64],
    text: &'a [u8],
    used: &'a Counts,
    root: usize,
    path: &[u32; 64],
    depth: usize,
    start: usize,
    end: usize,
    state: &mut [usize; 2],
    place: &mut [u32; 64],
    words: &mut Words,
) -> usize
    requires valid { Valid (here records children text used) }
    requires chunk_kept { ChunkKept (here records children text used) root depth path.now start end (chunk_given state.old) place.old (chunk_kept state.old) }
    ensures { ChunkGives (entered records children text used) root depth path.now start end (list state) (list place) text.now (list words) result }
{
    notes_tree_ffi::steps::notes_next_chunk(
        Store {
            records,
            children,
            text,
            used,
        },
        root,
        path,
        depth,
        start,
        end,
        state,
        place,
        words,
    )
}
