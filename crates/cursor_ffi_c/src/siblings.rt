// An element's parent and siblings, with tokens or nodes only.

ghost use Rattle.std.specs.Prelude.{true, false};
ghost use Rattle.definitions.specs.Query.{Question};
ghost use Rattle.green.specs.Store.{here, entered, entries};
ghost use Rattle.green.specs.Valid.{Valid};
ghost use Rattle.cursor.specs.Answers.{answer_at_path};
ghost use Rattle.cursor_ffi.specs.Exports.{Asks, QuestionExported};

use abi::Words;
use green::{Counts, Store};

#[unsafe(no_mangle)]
pub extern "C" fn notes_parent<'a>(
    records: &'a [u64],
    children: &'a [u64],
    text: &'a [u8],
    used: &'a Counts,
    root: usize,
    path: &[u32; 64],
    depth: usize,
    words: &mut Words,
) -> usize
    requires { Valid (here records children text used) }
    ensures { QuestionExported (answer_at_path (entries (entered records children text used)) root depth path.now Question.parent) path.now path.now words.old words.new result }
{
    cursor_ffi::siblings::notes_parent(
        Store {
            records,
            children,
            text,
            used,
        },
        root,
        path,
        depth,
        words,
    )
}

#[unsafe(no_mangle)]
pub extern "C" fn notes_next_sibling<'a>(
    records: &'a [u64],
    children: &'a [u64],
    text: &'a [u8],
    used: &'a Counts,
    root: usize,
    path: &mut [u32; 64],
    depth: usize,
    words: &mut Words,
) -> usize
    requires { Valid (here records children text used) }
    ensures { Asks (entered records children text used) root depth path (Question.next_sibling false) words result }
{
    cursor_ffi::siblings::notes_next_sibling(
        Store {
            records,
            children,
            text,
            used,
        },
        root,
        path,
        depth,
        words,
    )
}

#[unsafe(no_mangle)]
pub extern "C" fn notes_prev_sibling<'a>(
    records: &'a [u64],
    children: &'a [u64],
    text: &'a [u8],
    used: &'a Counts,
    root: usize,
    path: &mut [u32; 64],
    depth: usize,
    words: &mut Words,
) -> usize
    requires { Valid (here records children text used) }
    ensures { Asks (entered records children text used) root depth path (Question.prev_sibling false) words result }
{
    cursor_ffi::siblings::notes_prev_sibling(
        Store {
            records,
            children,
            text,
            used,
        },
        root,
        path,
        depth,
        words,
    )
}

#[unsafe(no_mangle)]
pub extern "C" fn notes_next_sibling_or_token<'a>(
    records: &'a [u64],
    children: &'a [u64],
    text: &'a [u8],
    used: &'a Counts,
    root: usize,
    path: &mut [u32; 64],
    depth: usize,
    words: &mut Words,
) -> usize
    requires { Valid (here records children text used) }
    ensures { Asks (entered records children text used) root depth path (Question.next_sibling true) words result }
{
    cursor_ffi::siblings::notes_next_sibling_or_token(
        Store {
            records,
            children,
            text,
            used,
        },
        root,
        path,
        depth,
        words,
    )
}

#[unsafe(no_mangle)]
pub extern "C" fn notes_prev_sibling_or_token<'a>(
    records: &'a [u64],
    children: &'a [u64],
    text: &'a [u8],
    used: &'a Counts,
    root: usize,
    path: &mut [u32; 64],
    depth: usize,
    words: &mut Words,
) -> usize
    requires { Valid (here records children text used) }
    ensures { Asks (entered records children text used) root depth path (Question.prev_sibling true) words result }
{
    cursor_ffi::siblings::notes_prev_sibling_or_token(
        Store {
            records,
            children,
            text,
            used,
        },
        root,
        path,
        depth,
        words,
    )
}
