// Calls 41 to 43: a walk that has begun, which stays in its slot.

ghost use Rattle.green.specs.View.{view};

use crate::many;
use files::out::Output;
use green::Store;
use preorder::walk;
use questions::slots::{Slot, Slots};
use questions::walk::Walk;
use replies::line::Walked;
use replies::show::Shown;
use script::call::Call;
use script::fault::Fault;

// Call 41. What comes has the path that the walk had before.
fn step(out: &mut Output, store: Store<'_, '_>, it: &mut Walk) {
    let path = it.path;
    let coming = it.coming;
    let step = walk::next(
        store,
        it.root,
        it.tokens,
        it.start,
        &mut it.path,
        it.depth,
        coming,
    );
    out.put_line(Walked {
        answer: step.answer,
        path: &path,
    });
    it.go_to(step.coming, step.depth);
}

// Call 42.
fn skip(out: &mut Output, it: &mut Walk) {
    match walk::skip_subtree(it.coming, it.depth) {
        Ok(ahead) => {
            it.go_to(ahead.coming, ahead.depth);
            out.put_line("ok");
        }
        Err(why) => out.put_line(Shown(why)),
    }
}

#[derive(Clone, Copy)]
enum Steps {
    Next,
    Skip,
    Many(usize),
}

// The walk in a slot, so much further.
fn go_on(out: &mut Output, store: Store<'_, '_>, slots: &mut Slots, slot: Slot, steps: Steps) {
    let Some(mut it) = slots.walk(slot) else {
        out.put_line("no walk");
        return;
    };
    match steps {
        Steps::Next => step(out, store, &mut it),
        Steps::Skip => skip(out, &mut it),
        Steps::Many(count) => many::put(out, store, &mut it, count),
    }
    slots.set_walk(slot, Some(it));
}

pub fn answer_next(
    call: &mut Call,
    out: &mut Output,
    store: Store<'_, '_>,
    slots: &mut Slots,
) -> Result<(), Fault> {
    let slot = Slot::read_last(call)?;
    go_on(out, store, slots, slot, Steps::Next);
    Ok(())
}

pub fn answer_skip(
    call: &mut Call,
    out: &mut Output,
    store: Store<'_, '_>,
    slots: &mut Slots,
) -> Result<(), Fault> {
    let slot = Slot::read_last(call)?;
    go_on(out, store, slots, slot, Steps::Skip);
    Ok(())
}

// A slot, and how many steps of its walk.
pub fn answer_many(
    call: &mut Call,
    out: &mut Output,
    store: Store<'_, '_>,
    slots: &mut Slots,
) -> Result<(), Fault> {
    let slot = Slot::read(call)?;
    let count = call.last_word()? as usize;
    go_on(out, store, slots, slot, Steps::Many(count));
    Ok(())
}
