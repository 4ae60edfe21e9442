// Calls 20 to 40: what is asked of a path that is among the call's words.

use crate::asked::{Asked, Keeping};
use crate::slots::{Slot, Slots};
use query::question::Question;
use script::call::Call;
use script::fault::Fault;
use script::op::Op;

// A question put to the path that a call's last words are.
fn by_path(call: &mut Call, question: Question, path: &mut [u32; 64]) -> Result<Asked, Fault> {
    let of = call.last_path(path)?;
    Ok(Asked::new(question, of.root, of.depth))
}

// An offset comes before the path.
fn by_offset(call: &mut Call, path: &mut [u32; 64]) -> Result<Asked, Fault> {
    let offset = call.word()? as usize;
    by_path(call, Question::TokenAtOffset(offset), path)
}

// A range's start and end come before the path.
fn by_range(call: &mut Call, op: Op, path: &mut [u32; 64]) -> Result<Asked, Fault> {
    let start = call.word()? as usize;
    let end = call.word()? as usize;
    let question = match op {
        Op::CoveringElement => Question::CoveringElement(start, end),
        _ => Question::ChildOrTokenAtRange(start, end),
    };
    by_path(call, question, path)
}

// Two paths.
fn by_two_paths(
    call: &mut Call,
    path: &mut [u32; 64],
    other: &mut [u32; 64],
) -> Result<Asked, Fault> {
    let first = call.path(path)?;
    let second = call.last_path(other)?;
    let question = Question::SameElement(second.root, second.depth);
    Ok(Asked::new(question, first.root, first.depth))
}

// A number, and a root's.
fn by_number(call: &mut Call) -> Result<Asked, Fault> {
    let number = call.word()? as usize;
    let root = call.last_word()? as usize;
    Ok(Asked::new(Question::WhereIs(number), root, 0))
}

// What a call asks of its path alone, if it is one of those that do.
fn question_of(op: Op) -> Option<Question> {
    Some(match op {
        Op::Here => Question::Here,
        Op::Parent => Question::Parent,
        Op::FirstChild => Question::FirstChild(false),
        Op::LastChild => Question::LastChild(false),
        Op::FirstChildOrToken => Question::FirstChild(true),
        Op::LastChildOrToken => Question::LastChild(true),
        Op::NextSibling => Question::NextSibling(false),
        Op::PrevSibling => Question::PrevSibling(false),
        Op::NextSiblingOrToken => Question::NextSibling(true),
        Op::PrevSiblingOrToken => Question::PrevSibling(true),
        Op::FirstToken => Question::FirstToken,
        Op::LastToken => Question::LastToken,
        Op::NextToken => Question::NextToken,
        Op::PrevToken => Question::PrevToken,
        _ => return None,
    })
}

// Calls 20 to 38. One that is none of these asks nothing.
pub fn read(
    call: &mut Call,
    op: Op,
    path: &mut [u32; 64],
    other: &mut [u32; 64],
) -> Result<Asked, Fault> {
    match op {
        Op::TokenAtOffset => by_offset(call, path),
        Op::ChildOrTokenAtRange | Op::CoveringElement => by_range(call, op, path),
        Op::SameElement => by_two_paths(call, path, other),
        Op::WhereIs => by_number(call),
        _ => by_path(call, question_of(op).ok_or(Fault::NoQuestion)?, path),
    }
}

// Call 40: a slot, a mode and a path. The slot is empty until the walk begins.
pub fn read_walk(call: &mut Call, slots: &mut Slots, path: &mut [u32; 64]) -> Result<Asked, Fault> {
    let slot = Slot::read(call)?;
    let tokens = call.below(2)? == 1;
    let of = call.last_path(path)?;
    slots.set_walk(slot, None);
    Ok(Asked {
        question: Question::Walk(tokens),
        root: of.root,
        depth: of.depth,
        keeping: Keeping::Walk(slot, tokens),
    })
}
