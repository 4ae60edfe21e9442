// The elements at an offset or a range.

ghost use Rattle.definitions.specs.Query.{Question};
ghost use Rattle.green.specs.View.{view};
ghost use Rattle.cursor_ffi.specs.Exports.{Asks, AsksTokens};

use abi::{Words, answer};
use cursor_range::{cover, offset, range};
use green::Store;

pub fn notes_child_or_token_at_range(
    store: Store<'_, '_>,
    root: usize,
    path: &mut [u32; 64],
    depth: usize,
    start: usize,
    end: usize,
    words: &mut Words,
) -> usize
    ensures { Asks (view store.entry) root depth path (Question.child_at_range start end) words result }
{
    let found = range::child_or_token_at_range(store, root, path, depth, start, end);
    answer::put_answer(words, found)
}

pub fn notes_covering_element(
    store: Store<'_, '_>,
    root: usize,
    path: &mut [u32; 64],
    depth: usize,
    start: usize,
    end: usize,
    words: &mut Words,
) -> usize
    ensures { Asks (view store.entry) root depth path (Question.covering_element start end) words result }
{
    let found = cover::covering_element(store, root, path, depth, start, end);
    answer::put_answer(words, found)
}

pub fn notes_token_at_offset(
    store: Store<'_, '_>,
    root: usize,
    left: &mut [u32; 64],
    right: &mut [u32; 64],
    depth: usize,
    offset: usize,
    words: &mut Words,
) -> usize
    ensures { AsksTokens (view store.entry) root depth left right offset words result }
{
    let found = offset::token_at_offset(store, root, left, right, depth, offset);
    answer::put_tokens(words, found)
}
