// Calls 50 to 52 and 55 to 58: what is asked of a node's text, or of texts in slots. Where there is no text in a slot that a call
// reads, nothing is asked.

use crate::asked::{Asked, Keeping};
use crate::slots::{Slot, Slots};
use crate::text::Text;
use query::question::Question;
use script::call::Call;
use script::fault::Fault;
use script::op::Op;

// Call 50: a slot and a path. The slot is empty until the text is known.
fn of_node(call: &mut Call, slots: &mut Slots, path: &mut [u32; 64]) -> Result<Asked, Fault> {
    let slot = Slot::read(call)?;
    let of = call.last_path(path)?;
    slots.set_text(slot, None);
    Ok(Asked {
        question: Question::Text,
        root: of.root,
        depth: of.depth,
        keeping: Keeping::Text(slot),
    })
}

// Call 51: two slots, a start and an end. The first slot is empty until the slice is known; it may be the second one, too.
fn slice(call: &mut Call, slots: &mut Slots, path: &mut [u32; 64]) -> Result<Option<Asked>, Fault> {
    let to = Slot::read(call)?;
    let of = Slot::read(call)?;
    call.exactly(2)?;
    let from = call.word()? as usize;
    let until = call.word()? as usize;
    let text = slots.text(of);
    slots.set_text(to, None);
    Ok(text.map(|text| {
        path.copy_from_slice(&text.path);
        Asked {
            question: Question::Slice(text.start, text.end, from, until),
            root: text.root,
            depth: text.depth,
            keeping: Keeping::Text(to),
        }
    }))
}

// What comes after the slot: nothing, a byte or an offset.
fn read_argument(call: &mut Call, op: Op) -> Result<u32, Fault> {
    match op {
        Op::TextLength => Ok(0),
        Op::TextCharAt => call.word(),
        _ => call.below(256),
    }
}

fn question_of(op: Op, text: Text, argument: u32) -> Question {
    let Text { start, end, .. } = text;
    match op {
        Op::TextLength => Question::TextLen(start, end),
        Op::TextContains => Question::Contains(start, end, argument),
        Op::TextFind => Question::Find(start, end, argument),
        _ => Question::CharAt(start, end, argument as usize),
    }
}

// Calls 52 and 55 to 57: a slot, and at most one word.
fn of_slot(
    call: &mut Call,
    op: Op,
    slots: &Slots,
    path: &mut [u32; 64],
) -> Result<Option<Asked>, Fault> {
    let of = Slot::read(call)?;
    let argument = read_argument(call, op)?;
    call.exactly(0)?;
    Ok(
        slots.text(of).map(|text| {
            path.copy_from_slice(&text.path);
            Asked::new(question_of(op, text, argument), text.root, text.depth)
        }),
    )
}

// Whether the text `one` is equal to `two`.
fn equal(one: Text, two: Text) -> Asked {
    let question = Question::EqualText(one.start, one.end, two.root, two.depth, two.start, two.end);
    Asked::new(question, one.root, one.depth)
}

// Call 58: two slots.
fn of_slots(
    call: &mut Call,
    slots: &Slots,
    path: &mut [u32; 64],
    other: &mut [u32; 64],
) -> Result<Option<Asked>, Fault> {
    let one = Slot::read(call)?;
    let two = Slot::read_last(call)?;
    Ok(
        slots.text(one).zip(slots.text(two)).map(|(one, two)| {
            path.copy_from_slice(&one.path);
            other.copy_from_slice(&two.path);
            equal(one, two)
        }),
    )
}

// The question that a call asks, if there is a text in each slot that it reads.
pub fn read(
    call: &mut Call,
    op: Op,
    slots: &mut Slots,
    path: &mut [u32; 64],
    other: &mut [u32; 64],
) -> Result<Option<Asked>, Fault> {
    match op {
        Op::TextOf => Ok(Some(of_node(call, slots, path)?)),
        Op::TextSlice => slice(call, slots, path),
        Op::TextEqual => of_slots(call, slots, path, other),
        _ => of_slot(call, op, slots, path),
    }
}
