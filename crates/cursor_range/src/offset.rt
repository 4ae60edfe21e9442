// rowan's token_at_offset. The left or only token's path is lent as `left`, the right one's as `right`.

ghost use Rattle.std.specs.Prelude.{◌≡◌, ◌++◌, ◌≤◌, length, take, drop};
ghost use Rattle.definitions.specs.Refusal.{is_outside};
ghost use Rattle.green.specs.Store.{entries};
ghost use Rattle.green.specs.View.{view};
ghost use Rattle.cursor_range.specs.Answers.{AllPlaced, right_path, Told, AnswersTokens};

use crate::tokens;
use crate::tokens::Hits;
use cursor::path::Path;
use cursor::position;
use green::Store;
use utility_types::{Refusal, TokenAtOffset};

fn is_outside(from: usize, to: usize, x: usize) -> bool
    ensures { result ≡ is_outside from to x }
{
    if x < from {
        return true;
    }
    to < x
}

// Copies the first `n` indexes. It is `copy_from_slice` written out, which calls a function for the few that there are: a token at an offset took a third longer.
fn copy_indexes(from: &[u32], to: &mut [u32], n: usize)
    requires { (n ≤ length from.now) × (n ≤ length to.old) }
    ensures { to.new ≡ take n from.now ++ drop n to.old }
{
    for i in 0..n {
        to[i] = from[i];
    }
}

// The tokens as answers name them. The right one of two gets the path, of `depth` indexes, that they have in common.
fn tell(
    store: Store<'_, '_>,
    found: Hits,
    depth: usize,
    left: &[u32],
    right: &mut [u32],
) -> TokenAtOffset
    requires { AllPlaced (view store) found × (depth ≤ length left.now) × (depth ≤ length right.old) }
    ensures { Told (entries (view store.entry)) found result × (right.new ≡ right_path found depth left.now right.old) }
{
    match found {
        Hits::Nothing => TokenAtOffset::None,
        Hits::Single(a) => TokenAtOffset::Single(position::syntax_element(store, a)),
        Hits::Between(a, b) => {
            copy_indexes(left, right, depth);
            let before = position::syntax_element(store, a);
            let after = position::syntax_element(store, b);
            TokenAtOffset::Between(before, after)
        }
    }
}

// The tokens that have an offset inside or at an end, empty ones left out, in the node that the first `depth` indexes of `left` name.
pub fn token_at_offset(
    store: Store<'_, '_>,
    root: usize,
    left: &mut [u32; 64],
    right: &mut [u32; 64],
    depth: usize,
    offset: usize,
) -> Result<TokenAtOffset, Refusal>
    ensures { AnswersTokens (view store.entry) root depth left right offset result }
{
    let from = Path {
        root,
        indexes: left,
        depth,
    };
    let at = from.locate_node(store)?;
    let len = position::text_len(store, at);
    if is_outside(at.start, at.start + len, offset) {
        return Err(Refusal::OutOfRange);
    }
    let found = tokens::node_tokens(&store, at, offset, left, right);
    Ok(tell(store, found, depth, left, right))
}
