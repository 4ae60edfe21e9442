// An element's parent and siblings, with tokens or nodes only.

ghost use Rattle.std.specs.Prelude.{true, false};
ghost use Rattle.definitions.specs.Query.{Question};
ghost use Rattle.green.specs.Store.{entries};
ghost use Rattle.green.specs.View.{view};
ghost use Rattle.cursor.specs.Answers.{answer_at_path};
ghost use Rattle.cursor_ffi.specs.Exports.{Asks, QuestionExported};

use abi::{Words, answer};
use cursor::path::Path;
use cursor_node::{element, siblings};
use green::Store;

pub fn notes_parent(
    store: Store<'_, '_>,
    root: usize,
    path: &[u32; 64],
    depth: usize,
    words: &mut Words,
) -> usize
    ensures { QuestionExported (answer_at_path (entries (view store.entry)) root depth path.now Question.parent) path.now path.now words.old words.new result }
{
    let from = Path {
        root,
        indexes: path,
        depth,
    };
    let found = element::parent(store, from);
    answer::put_answer(words, found)
}

pub fn notes_next_sibling(
    store: Store<'_, '_>,
    root: usize,
    path: &mut [u32; 64],
    depth: usize,
    words: &mut Words,
) -> usize
    ensures { Asks (view store.entry) root depth path (Question.next_sibling false) words result }
{
    let found = siblings::next_sibling(store, root, path, depth);
    answer::put_answer(words, found)
}

pub fn notes_prev_sibling(
    store: Store<'_, '_>,
    root: usize,
    path: &mut [u32; 64],
    depth: usize,
    words: &mut Words,
) -> usize
    ensures { Asks (view store.entry) root depth path (Question.prev_sibling false) words result }
{
    let found = siblings::prev_sibling(store, root, path, depth);
    answer::put_answer(words, found)
}

pub fn notes_next_sibling_or_token(
    store: Store<'_, '_>,
    root: usize,
    path: &mut [u32; 64],
    depth: usize,
    words: &mut Words,
) -> usize
    ensures { Asks (view store.entry) root depth path (Question.next_sibling true) words result }
{
    let found = siblings::next_sibling_or_token(store, root, path, depth);
    answer::put_answer(words, found)
}

pub fn notes_prev_sibling_or_token(
    store: Store<'_, '_>,
    root: usize,
    path: &mut [u32; 64],
    depth: usize,
    words: &mut Words,
) -> usize
    ensures { Asks (view store.entry) root depth path (Question.prev_sibling true) words result }
{
    let found = siblings::prev_sibling_or_token(store, root, path, depth);
    answer::put_answer(words, found)
}
