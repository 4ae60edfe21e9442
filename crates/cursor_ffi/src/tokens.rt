// The first, last, next and previous token, and where a token's text lies.

ghost use Rattle.definitions.specs.Query.{Question};
ghost use Rattle.green.specs.View.{view};
ghost use Rattle.cursor_ffi.specs.Exports.{Asks, AsksText};

use abi::{Words, answer};
use cursor::path::{Path, Remember};
use cursor::position;
use cursor_token::{adjacent, edge};
use green::Store;
use utility_types::{NodeOrToken, Refusal};

pub fn notes_first_token(
    store: Store<'_, '_>,
    root: usize,
    path: &mut [u32; 64],
    depth: usize,
    words: &mut Words,
) -> usize
    ensures { Asks (view store.entry) root depth path Question.first_token words result }
{
    let found = edge::first_token(store, root, path, depth);
    answer::put_answer(words, found)
}

pub fn notes_last_token(
    store: Store<'_, '_>,
    root: usize,
    path: &mut [u32; 64],
    depth: usize,
    words: &mut Words,
) -> usize
    ensures { Asks (view store.entry) root depth path Question.last_token words result }
{
    let found = edge::last_token(store, root, path, depth);
    answer::put_answer(words, found)
}

pub fn notes_next_token(
    store: Store<'_, '_>,
    root: usize,
    path: &mut [u32; 64],
    depth: usize,
    words: &mut Words,
) -> usize
    ensures { Asks (view store.entry) root depth path Question.next_token words result }
{
    let found = adjacent::next_token(store, root, path, depth);
    answer::put_answer(words, found)
}

pub fn notes_prev_token(
    store: Store<'_, '_>,
    root: usize,
    path: &mut [u32; 64],
    depth: usize,
    words: &mut Words,
) -> usize
    ensures { Asks (view store.entry) root depth path Question.prev_token words result }
{
    let found = adjacent::prev_token(store, root, path, depth);
    answer::put_answer(words, found)
}

pub fn notes_token_text(
    store: Store<'_, '_>,
    root: usize,
    path: &[u32; 64],
    depth: usize,
    words: &mut Words,
) -> usize
    ensures { AsksText (view store.entry) root depth path words result }
{
    let named = Path {
        root,
        indexes: path,
        depth,
    };
    let found = named.locate(store, Remember::Parent);
    let Ok(place) = found else {
        return answer::refused(Refusal::NoSuchElement);
    };
    let at = place.at;
    let NodeOrToken::Token(_) = position::node_or_token(store, at) else {
        return answer::refused(Refusal::NoSuchElement);
    };
    let n = at.number;
    let from = store.first_of(n);
    let to = from + store.count_of(n);
    answer::put_part(words, from, to)
}
