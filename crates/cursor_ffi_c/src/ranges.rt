// The elements at an offset or a range.

ghost use Rattle.definitions.specs.Query.{Question};
ghost use Rattle.green.specs.Store.{here, entered};
ghost use Rattle.green.specs.Valid.{Valid};
ghost use Rattle.cursor_ffi.specs.Exports.{Asks, AsksTokens};

use abi::Words;
use green::{Counts, Store};

#[unsafe(no_mangle)]
pub extern "C" fn notes_child_or_token_at_range<'a>(
    records: &'a [u64],
    children: &'a [u64],
    text: &'a [u8],
    used: &'a Counts,
    root: usize,
    path: &mut [u32; 64],
    depth: usize,
    start: usize,
    end: usize,
    words: &mut Words,
) -> usize
    requires { Valid (here records children text used) }
    ensures { Asks (entered records children text used) root depth path (Question.child_at_range start end) words result }
{
    cursor_ffi::ranges::notes_child_or_token_at_range(
        Store {
            records,
            children,
            text,
            used,
        },
        root,
        path,
        depth,
        start,
        end,
        words,
    )
}

#[unsafe(no_mangle)]
pub extern "C" fn notes_covering_element<'a>(
    records: &'a [u64],
    children: &'a [u64],
    text: &'a [u8],
    used: &'a Counts,
    root: usize,
    path: &mut [u32; 64],
    depth: usize,
    start: usize,
    end: usize,
    words: &mut Words,
) -> usize
    requires { Valid (here records children text used) }
    ensures { Asks (entered records children text used) root depth path (Question.covering_element start end) words result }
{
    cursor_ffi::ranges::notes_covering_element(
        Store {
            records,
            children,
            text,
            used,
        },
        root,
        path,
        depth,
        start,
        end,
        words,
    )
}

#[unsafe(no_mangle)]
pub extern "C" fn notes_token_at_offset<'a>(
    records: &'a [u64],
    children: &'a [u64],
    text: &'a [u8],
    used: &'a Counts,
    root: usize,
    left: &mut [u32; 64],
    right: &mut [u32; 64],
    depth: usize,
    offset: usize,
    words: &mut Words,
) -> usize
    requires { Valid (here records children text used) }
    ensures { AsksTokens (entered records children text used) root depth left right offset words result }
{
    cursor_ffi::ranges::notes_token_at_offset(
        Store {
            records,
            children,
            text,
            used,
        },
        root,
        left,
        right,
        depth,
        offset,
        words,
    )
}
