// A walk's state as words. The path of what comes next is lent beside them.

ghost use Rattle.std.specs.Prelude.{◌≡◌, get_or};
ghost use Rattle.abi.specs.Codes.{flag as flag_of};
ghost use Rattle.abi.specs.WalkWords.{walk_coming, walk_tokens, coming_in, coming_word, moved_on, begun_in, skipped_in};

use crate::{Words, answer};
use preorder::state::{Ahead, Coming};
use utility_types::Refusal;

// Two functions in place of conversions, as the numbers are C's and the type is another crate's.
fn coming_in(word: usize) -> Coming
    ensures { result ≡ coming_in word }
{
    match word {
        0 => Coming::First,
        1 => Coming::Enter,
        2 => Coming::Leave,
        _ => Coming::Ended,
    }
}

fn coming_word(coming: Coming) -> usize
    ensures { result ≡ coming_word coming }
{
    match coming {
        Coming::First => 0,
        Coming::Enter => 1,
        Coming::Leave => 2,
        Coming::Ended => 3,
    }
}

// Whether a number says with tokens.
pub fn flag(word: usize) -> bool
    ensures { result ≡ flag_of word }
{
    word != 0
}

// What comes next.
pub fn coming(walk: &Words) -> Coming
    ensures { result ≡ walk_coming walk.now }
{
    coming_in(walk[0])
}

pub fn with_tokens(walk: &Words) -> bool
    ensures { result ≡ walk_tokens walk.now }
{
    flag(walk[4])
}

pub fn move_on(walk: &mut Words, coming: Coming, depth: usize)
    ensures { walk.new ≡ moved_on walk.old coming depth }
{
    walk[0] = coming_word(coming);
    walk[1] = depth;
}

// A walk of a root that has begun; one that has not leaves the words as they were.
pub fn begin(walk: &mut Words, root: usize, with_tokens: bool, moved: Result<Ahead, Refusal>)
    ensures { walk.new ≡ begun_in walk.old root with_tokens moved }
{
    match moved {
        Ok(ahead) => {
            let then = ahead.coming;
            let depth = ahead.depth;
            walk[0] = coming_word(then);
            walk[1] = depth;
            walk[2] = depth;
            walk[3] = root;
            walk[4] = answer::bit(with_tokens);
        }
        Err(_) => {}
    }
}

// A walk that was skipped on; a refused skip leaves the words as they were.
pub fn skip(walk: &mut Words, moved: Result<Ahead, Refusal>)
    ensures { walk.new ≡ skipped_in walk.old moved }
{
    match moved {
        Ok(ahead) => {
            let then = ahead.coming;
            move_on(walk, then, ahead.depth);
        }
        Err(_) => {}
    }
}
