// A node's first and last child, with tokens or nodes only.

ghost use Rattle.std.specs.Prelude.{true, false};
ghost use Rattle.definitions.specs.Query.{Question};
ghost use Rattle.green.specs.Store.{here, entered};
ghost use Rattle.green.specs.Valid.{Valid};
ghost use Rattle.cursor_ffi.specs.Exports.{Asks};

use abi::Words;
use green::{Counts, Store};

#[unsafe(no_mangle)]
pub extern "C" fn notes_first_child<'a>(
    records: &'a [u64],
    children: &'a [u64],
    text: &'a [u8],
    used: &'a Counts,
    root: usize,
    path: &mut [u32; 64],
    depth: usize,
    words: &mut Words,
) -> usize
    requires { Valid (here records children text used) }
    ensures { Asks (entered records children text used) root depth path (Question.first_child false) words result }
{
    cursor_ffi::children::notes_first_child(
        Store {
            records,
            children,
            text,
            used,
        },
        root,
        path,
        depth,
        words,
    )
}

#[unsafe(no_mangle)]
pub extern "C" fn notes_last_child<'a>(
    records: &'a [u64],
    children: &'a [u64],
    text: &'a [u8],
    used: &'a Counts,
    root: usize,
    path: &mut [u32; 64],
    depth: usize,
    words: &mut Words,
) -> usize
    requires { Valid (here records children text used) }
    ensures { Asks (entered records children text used) root depth path (Question.last_child false) words result }
{
    cursor_ffi::children::notes_last_child(
        Store {
            records,
            children,
            text,
            used,
        },
        root,
        path,
        depth,
        words,
    )
}

#[unsafe(no_mangle)]
pub extern "C" fn notes_first_child_or_token<'a>(
    records: &'a [u64],
    children: &'a [u64],
    text: &'a [u8],
    used: &'a Counts,
    root: usize,
    path: &mut [u32; 64],
    depth: usize,
    words: &mut Words,
) -> usize
    requires { Valid (here records children text used) }
    ensures { Asks (entered records children text used) root depth path (Question.first_child true) words result }
{
    cursor_ffi::children::notes_first_child_or_token(
        Store {
            records,
            children,
            text,
            used,
        },
        root,
        path,
        depth,
        words,
    )
}

#[unsafe(no_mangle)]
pub extern "C" fn notes_last_child_or_token<'a>(
    records: &'a [u64],
    children: &'a [u64],
    text: &'a [u8],
    used: &'a Counts,
    root: usize,
    path: &mut [u32; 64],
    depth: usize,
    words: &mut Words,
) -> usize
    requires { Valid (here records children text used) }
    ensures { Asks (entered records children text used) root depth path (Question.last_child true) words result }
{
    cursor_ffi::children::notes_last_child_or_token(
        Store {
            records,
            children,
            text,
            used,
        },
        root,
        path,
        depth,
        words,
    )
}
