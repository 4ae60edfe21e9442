// The first, last, next and previous token, and where a token's text lies.

ghost use Rattle.definitions.specs.Query.{Question};
ghost use Rattle.green.specs.Store.{here, entered};
ghost use Rattle.green.specs.Valid.{Valid};
ghost use Rattle.cursor_ffi.specs.Exports.{Asks, AsksText};

use abi::Words;
use green::{Counts, Store};

#[unsafe(no_mangle)]
pub extern "C" fn notes_first_token<'a>(
    records: &'a [u64],
    children: &'a [u64],
    text: &'a [u8],
    used: &'a Counts,
    root: usize,
    path: &mut [u32; 64],
    depth: usize,
    words: &mut Words,
) -> usize
    requires { Valid (here records children text used) }
    ensures { Asks (entered records children text used) root depth path Question.first_token words result }
{
    cursor_ffi::tokens::notes_first_token(
        Store {
            records,
            children,
            text,
            used,
        },
        root,
        path,
        depth,
        words,
    )
}

#[unsafe(no_mangle)]
pub extern "C" fn notes_last_token<'a>(
    records: &'a [u64],
    children: &'a [u64],
    text: &'a [u8],
    used: &'a Counts,
    root: usize,
    path: &mut [u32; 64],
    depth: usize,
    words: &mut Words,
) -> usize
    requires { Valid (here records children text used) }
    ensures { Asks (entered records children text used) root depth path Question.last_token words result }
{
    cursor_ffi::tokens::notes_last_token(
        Store {
            records,
            children,
            text,
            used,
        },
        root,
        path,
        depth,
        words,
    )
}

#[unsafe(no_mangle)]
pub extern "C" fn notes_next_token<'a>(
    records: &'a [u64],
    children: &'a [u64],
    text: &'a [u8],
    used: &'a Counts,
    root: usize,
    path: &mut [u32; 64],
    depth: usize,
    words: &mut Words,
) -> usize
    requires { Valid (here records children text used) }
    ensures { Asks (entered records children text used) root depth path Question.next_token words result }
{
    cursor_ffi::tokens::notes_next_token(
        Store {
            records,
            children,
            text,
            used,
        },
        root,
        path,
        depth,
        words,
    )
}

#[unsafe(no_mangle)]
pub extern "C" fn notes_prev_token<'a>(
    records: &'a [u64],
    children: &'a [u64],
    text: &'a [u8],
    used: &'a Counts,
    root: usize,
    path: &mut [u32; 64],
    depth: usize,
    words: &mut Words,
) -> usize
    requires { Valid (here records children text used) }
    ensures { Asks (entered records children text used) root depth path Question.prev_token words result }
{
    cursor_ffi::tokens::notes_prev_token(
        Store {
            records,
            children,
            text,
            used,
        },
        root,
        path,
        depth,
        words,
    )
}

#[unsafe(no_mangle)]
pub extern "C" fn notes_token_text<'a>(
    records: &'a [u64],
    children: &'a [u64],
    text: &'a [u8],
    used: &'a Counts,
    root: usize,
    path: &[u32; 64],
    depth: usize,
    words: &mut Words,
) -> usize
    requires { Valid (here records children text used) }
    ensures { AsksText (entered records children text used) root depth path words result }
{
    cursor_ffi::tokens::notes_token_text(
        Store {
            records,
            children,
            text,
            used,
        },
        root,
        path,
        depth,
        words,
    )
}
