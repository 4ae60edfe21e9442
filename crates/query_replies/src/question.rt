// Calls 20 to 40, 50 to 52 and 55 to 58: what a call asks is read, put to the port, and its reply printed.

ghost use Rattle.green.specs.View.{view};

use files::out::Output;
use green::Store;
use questions::asked::Asked;
use questions::slots::Slots;
use questions::{path_calls, text_calls};
use replies::line::Replied;
use script::call::Call;
use script::fault::Fault;
use script::op::Op;

// What is asked, unless a text that it is asked of is not there.
fn read(
    call: &mut Call,
    op: Op,
    slots: &mut Slots,
    path: &mut [u32; 64],
    other: &mut [u32; 64],
) -> Result<Option<Asked>, Fault> {
    match op {
        Op::WalkBegin => Ok(Some(path_calls::read_walk(call, slots, path)?)),
        Op::TextOf
        | Op::TextSlice
        | Op::TextLength
        | Op::TextContains
        | Op::TextFind
        | Op::TextCharAt
        | Op::TextEqual => text_calls::read(call, op, slots, path, other),
        // the others are the calls of a path: `path_calls` asks nothing where one is none of these
        _ => Ok(Some(path_calls::read(call, op, path, other)?)),
    }
}

pub fn answer(
    call: &mut Call,
    op: Op,
    out: &mut Output,
    store: Store<'_, '_>,
    slots: &mut Slots,
) -> Result<(), Fault> {
    let mut path = [0u32; 64];
    let mut other = [0u32; 64];
    let Some(asked) = read(call, op, slots, &mut path, &mut other)? else {
        out.put_line("no text");
        return Ok(());
    };
    let question = asked.question;
    let reply = query::query(
        store,
        asked.root,
        &mut path,
        &mut other,
        asked.depth,
        question,
    );
    asked.keep(slots, &path, reply);
    out.put_line(Replied {
        op,
        reply,
        path: &path,
        other: &other,
    });
    Ok(())
}
