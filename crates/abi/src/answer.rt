// Answers as an outcome, which is returned, and words in a lent place. Words that an answer does not have are left as they were.
//
// For the crates above. Each function takes any answer.

ghost use Rattle.std.specs.Prelude.{◌≡◌, [], ◌∷◌, ◌+◌};
ghost use Rattle.utility_types.specs.Numbers.{refusal_number};
ghost use Rattle.utility_types.specs.declared.TokenAtOffset.TheVariants.{Between};
ghost use Rattle.abi.specs.Outcomes.{with_words, element_kind, element_told, step_words, bit as bit_of, at_offset_told, answer_told, tokens_told, truth_told, reply_told, made_told, ended_told, event_told, moved_told, given_told, chunk_told, part_told, summary_told, child_told, Puts};

use crate::Words;
use green::element::Summary;
use green::node::Child;
use preorder::state::Ahead;
use preorder_many::state::Stop;
use query::reply::Reply;
use sheet::Ended;
use syntax_text_chunks::chunks::Part;
use utility_types::{Refusal, SyntaxElement, TokenAtOffset, WalkEvent};

// The outcome of a code that no call or question has.
pub const UNKNOWN: usize = 99;

pub fn refused(why: Refusal) -> usize
    ensures { result ≡ 100 + refusal_number why }
{
    100 + u64::from(why) as usize
}

fn kind_of(is_node: bool) -> usize
    ensures { result ≡ element_kind is_node }
{
    if is_node { 2 } else { 1 }
}

pub fn bit(b: bool) -> usize
    ensures { result ≡ bit_of b }
{
    if b { 1 } else { 0 }
}

fn put_element(words: &mut Words, e: SyntaxElement) -> usize
    ensures { Puts words (element_told e) result }
{
    let kind = e.kind;
    words[0] = e.start;
    words[1] = e.end;
    words[2] = e.depth;
    words[3] = kind.0 as usize;
    kind_of(e.is_node)
}

pub fn put_answer(words: &mut Words, answer: Result<Option<SyntaxElement>, Refusal>) -> usize
    ensures { Puts words (answer_told answer) result }
{
    match answer {
        Ok(Some(e)) => put_element(words, e),
        Ok(None) => 0,
        Err(why) => refused(why),
    }
}

fn put_pair(words: &mut Words, e: SyntaxElement, f: SyntaxElement) -> usize
    ensures { Puts words (at_offset_told (Between e f)) result }
{
    put_element(words, e);
    let kind = f.kind;
    words[4] = f.start;
    words[5] = f.end;
    words[6] = f.depth;
    words[7] = kind.0 as usize;
    3
}

fn put_at_offset(words: &mut Words, tokens: TokenAtOffset) -> usize
    ensures { Puts words (at_offset_told tokens) result }
{
    match tokens {
        TokenAtOffset::None => 0,
        TokenAtOffset::Single(e) => {
            put_element(words, e);
            1
        }
        TokenAtOffset::Between(e, f) => put_pair(words, e, f),
    }
}

pub fn put_tokens(words: &mut Words, tokens: Result<TokenAtOffset, Refusal>) -> usize
    ensures { Puts words (tokens_told tokens) result }
{
    match tokens {
        Ok(found) => put_at_offset(words, found),
        Err(why) => refused(why),
    }
}

fn put_two(words: &mut Words, outcome: usize, a: usize, b: usize) -> usize
    ensures { Puts words (with_words outcome (a ∷ b ∷ [])) result }
{
    words[0] = a;
    words[1] = b;
    outcome
}

fn put_one(words: &mut Words, outcome: usize, a: usize) -> usize
    ensures { Puts words (with_words outcome (a ∷ [])) result }
{
    words[0] = a;
    outcome
}

// A truth has no words.
fn put_truth(_words: &mut Words, b: bool) -> usize
    ensures { Puts _words (truth_told b) result }
{
    if b { 6 } else { 7 }
}

pub fn put_reply(words: &mut Words, reply: Result<Reply, Refusal>) -> usize
    ensures { Puts words (reply_told reply) result }
{
    match reply {
        Ok(Reply::None) => 0,
        Ok(Reply::Element(e)) => put_element(words, e),
        Ok(Reply::Tokens(tokens)) => put_at_offset(words, tokens),
        Ok(Reply::Text(from, to)) => put_two(words, 4, from, to),
        Ok(Reply::Number(n)) => put_one(words, 5, n),
        Ok(Reply::Truth(b)) => put_truth(words, b),
        Ok(Reply::Walk(_)) => 8,
        Ok(Reply::Path(depth)) => put_one(words, 9, depth),
        Err(why) => refused(why),
    }
}

pub fn put_made(words: &mut Words, made: Result<usize, Refusal>) -> usize
    ensures { Puts words (made_told made) result }
{
    match made {
        Ok(n) => put_one(words, 5, n),
        Err(why) => refused(why),
    }
}

pub fn put_ended(words: &mut Words, ended: Ended) -> usize
    ensures { Puts words (ended_told ended) result }
{
    match ended {
        Ok(n) => put_one(words, 5, n),
        Err((why, i)) => put_one(words, refused(why), i),
    }
}

fn put_event(words: &mut Words, outcome: usize, e: SyntaxElement) -> usize
    ensures { Puts words (with_words outcome (step_words e)) result }
{
    put_element(words, e);
    words[4] = bit(e.is_node);
    outcome
}

pub fn put_walk(words: &mut Words, answer: Result<Option<WalkEvent>, Refusal>) -> usize
    ensures { Puts words (event_told answer) result }
{
    match answer {
        Ok(Some(WalkEvent::Enter(e))) => put_event(words, 10, e),
        Ok(Some(WalkEvent::Leave(e))) => put_event(words, 11, e),
        Ok(None) => 0,
        Err(why) => refused(why),
    }
}

// A walk that begins or is skipped on; it has no words.
pub fn moved(moved: Result<Ahead, Refusal>) -> usize
    ensures { result ≡ (moved_told moved).outcome }
{
    match moved {
        Ok(_) => 8,
        Err(why) => refused(why),
    }
}

// Why no more events came, and how many did; a refusal has no words.
pub fn put_given(words: &mut Words, stop: Stop, count: usize) -> usize
    ensures { Puts words (given_told stop count) result }
{
    match stop {
        Stop::Full => put_one(words, 13, count),
        Stop::Over => put_one(words, 0, count),
        Stop::Refused(why) => refused(why),
    }
}

// Where bytes lie in the store's text: a chunk, or a token's text.
pub fn put_part(words: &mut Words, from: usize, to: usize) -> usize
    ensures { Puts words (chunk_told 0 from to) result }
{
    put_two(words, 12, from, to)
}

// What a chunk step answered.
pub fn put_chunk(words: &mut Words, came: Result<Option<Part>, Refusal>) -> usize
    ensures { Puts words (part_told came) result }
{
    match came {
        Ok(Some(part)) => put_part(words, part.from, part.to),
        Ok(None) => 0,
        Err(why) => refused(why),
    }
}

pub fn put_summary(words: &mut Words, of: Result<Summary, Refusal>) -> usize
    ensures { Puts words (summary_told of) result }
{
    match of {
        Ok(it) => {
            let kind = it.kind;
            words[0] = kind.0 as usize;
            words[1] = it.len;
            words[2] = it.size;
            words[3] = it.height;
            words[4] = it.children;
            kind_of(it.is_node)
        }
        Err(why) => refused(why),
    }
}

pub fn put_child(words: &mut Words, of: Result<Child, Refusal>) -> usize
    ensures { Puts words (child_told of) result }
{
    match of {
        Ok(child) => put_two(words, 5, child.number, child.offset),
        Err(why) => refused(why),
    }
}
