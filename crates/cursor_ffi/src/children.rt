// A node's first and last child, with tokens or nodes only.

ghost use Rattle.std.specs.Prelude.{true, false};
ghost use Rattle.definitions.specs.Query.{Question};
ghost use Rattle.green.specs.View.{view};
ghost use Rattle.cursor_ffi.specs.Exports.{Asks};

use abi::{Words, answer};
use cursor_node::children as kids;
use green::Store;

pub fn notes_first_child(
    store: Store<'_, '_>,
    root: usize,
    path: &mut [u32; 64],
    depth: usize,
    words: &mut Words,
) -> usize
    ensures { Asks (view store.entry) root depth path (Question.first_child false) words result }
{
    let found = kids::first_child(store, root, path, depth);
    answer::put_answer(words, found)
}

pub fn notes_last_child(
    store: Store<'_, '_>,
    root: usize,
    path: &mut [u32; 64],
    depth: usize,
    words: &mut Words,
) -> usize
    ensures { Asks (view store.entry) root depth path (Question.last_child false) words result }
{
    let found = kids::last_child(store, root, path, depth);
    answer::put_answer(words, found)
}

pub fn notes_first_child_or_token(
    store: Store<'_, '_>,
    root: usize,
    path: &mut [u32; 64],
    depth: usize,
    words: &mut Words,
) -> usize
    ensures { Asks (view store.entry) root depth path (Question.first_child true) words result }
{
    let found = kids::first_child_or_token(store, root, path, depth);
    answer::put_answer(words, found)
}

pub fn notes_last_child_or_token(
    store: Store<'_, '_>,
    root: usize,
    path: &mut [u32; 64],
    depth: usize,
    words: &mut Words,
) -> usize
    ensures { Asks (view store.entry) root depth path (Question.last_child true) words result }
{
    let found = kids::last_child_or_token(store, root, path, depth);
    answer::put_answer(words, found)
}
