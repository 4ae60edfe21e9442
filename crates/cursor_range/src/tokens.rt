// For this crate only: the tokens at an offset, below a node that holds it.

ghost use Rattle.std.specs.Prelude.{◌≡◌, ◌≤◌, ◌<◌, length};
ghost use Rattle.green.specs.Store.{entries};
ghost use Rattle.green.specs.View.{view};
ghost use Rattle.cursor.specs.Position.{Inner};
ghost use Rattle.cursor_range.specs.Offset.{InClosedRange, ChildInRange, Touched, TokensFound, ChildTokensFound, left_put, right_put, both_of};

use crate::search;
use cursor::position;
use cursor::position::Cursor;
use green::Store;
use utility_types::NodeOrToken;

// The children of a node that are not empty and whose closed range holds an offset, by their indexes.
#[derive(Clone, Copy)]
enum Touching {
    NoChild,
    Child(usize),
    Children(usize, usize),
}

// The tokens that are found; the indexes that lead to them are lent beside.
#[derive(Clone, Copy)]
pub enum Hits {
    Nothing,
    Single(Cursor),
    Between(Cursor, Cursor),
}

// The last child that starts before the offset reaches it, as the next one starts no earlier than it.
// Of the children that start at the offset, all but the last are empty.
fn touching_children(store: Store<'_, '_>, at: Cursor, x: usize) -> Touching
    requires inner { Inner (view store) at }
    requires in_closed_range { InClosedRange (entries (view store)) at x }
    ensures { Touched (entries (view store.entry)) at x result }
{
    let before = search::partition_point(store, at, x);
    let through = search::partition_point(store, at, x + 1);
    if before < through {
        let last = position::child(store, at, through - 1);
        if 0 < position::text_len(store, last) {
            if 0 < before {
                return Touching::Children(before - 1, through - 1);
            }
            return Touching::Child(through - 1);
        }
    }
    if 0 < before {
        return Touching::Child(before - 1);
    }
    Touching::NoChild
}

// Writes the index of the child below which tokens are found.
fn put_index(found: Hits, depth: usize, k: u32, left: &mut [u32], right: &mut [u32])
    requires { (depth < length left.old) × (depth < length right.old) }
    ensures { (left.new ≡ left_put found depth k left.old) × (right.new ≡ right_put found depth k right.old) }
{
    match found {
        Hits::Nothing => {}
        Hits::Single(_) => {
            left[depth] = k;
        }
        Hits::Between(_, _) => {
            left[depth] = k;
            right[depth] = k;
        }
    }
}

// Two children that meet at an offset have one token there each: no other case occurs.
fn both(before: Hits, after: Hits) -> Hits
    ensures { result ≡ both_of before after }
{
    match before {
        Hits::Nothing => Hits::Nothing,
        Hits::Single(left) => match after {
            Hits::Nothing => Hits::Nothing,
            Hits::Single(right) => Hits::Between(left, right),
            Hits::Between(_, _) => Hits::Nothing,
        },
        Hits::Between(_, _) => Hits::Nothing,
    }
}

// The tokens at an offset that a node holds: those of the children that hold it, one level lower.
// The right one of two children leaves its indexes in `right`. The store comes by reference, since its words would go by memory at each level.
#[cycle(element_tokens_node_tokens)]
pub fn node_tokens(
    store: &Store<'_, '_>,
    at: Cursor,
    x: usize,
    left: &mut [u32],
    right: &mut [u32],
) -> Hits
    requires inner { Inner (view store.now) at × InClosedRange (entries (view store.now)) at x }
    requires in_bounds { (64 ≤ length left.old) × (64 ≤ length right.old) }
    ensures { TokensFound (view store.now) at x left.old left.new right.old right.new result }
{
    let touching = touching_children(*store, at, x);
    match touching {
        Touching::NoChild => Hits::Nothing,
        Touching::Child(k) => element_tokens(store, at, k, x, left, right),
        Touching::Children(k, m) => {
            let before = element_tokens(store, at, k, x, left, right);
            let after = element_tokens(store, at, m, x, right, left);
            both(before, after)
        }
    }
}

// Those of child `k` of a node, if it is not empty and holds the offset: a token is its own answer.
// Its index is written once the tokens below it are found.
#[cycle(element_tokens_node_tokens)]
fn element_tokens(
    store: &Store<'_, '_>,
    parent: Cursor,
    k: usize,
    x: usize,
    left: &mut [u32],
    right: &mut [u32],
) -> Hits
    requires inner { Inner (view store.now) parent × ChildInRange (entries (view store.now)) parent x k }
    requires in_bounds { (64 ≤ length left.old) × (64 ≤ length right.old) }
    ensures { ChildTokensFound (view store.now) parent k x left.old left.new right.old right.new result }
{
    let depth = parent.depth;
    let at = position::child(*store, parent, k);
    let NodeOrToken::Node(_) = position::node_or_token(*store, at) else {
        left[depth] = k as u32;
        return Hits::Single(at);
    };
    let found = node_tokens(store, at, x, left, right);
    put_index(found, depth, k as u32, left, right);
    found
}
