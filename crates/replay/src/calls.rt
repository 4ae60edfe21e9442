// The calls on one store.

ghost use Rattle.std.specs.Prelude.{◌≡◌, ◌<◌, ◌≤◌, IfOk, IfSome};
ghost use Rattle.green.specs.Valid.{Valid};
ghost use Rattle.green.specs.View.{view_events, SameEventPlaces};

use crate::room::Room;
use crate::turns::Turns;
use files::out::Output;
use green::store_mut::EventStore;
use questions::slots::Slots;
use script::call::Call;
use script::calls::Head;
use script::fault::{Complaint, Fault};
use script::op::Op;
use script::store::Store;

// Call 1: the store that comes next.
fn next_store(call: &mut Call, out: &mut Output) -> Result<Store, Fault> {
    let store = Store::read(call)?;
    out.put_line("ok");
    Ok(store)
}

// A call on a store: all its words are read before anything is written or printed. The store that comes next, if it asks for one.
fn answer(
    call: &mut Call,
    out: &mut Output,
    store: &mut EventStore<'_>,
    slots: &mut Slots,
) -> Result<Option<Store>, Fault>
    requires { Valid (view_events store.old) }
    ensures valid { Valid (view_events store.new) }
    ensures same { SameEventPlaces store.old store.new }
{
    if let Some(Op::Store) = call.op {
        return next_store(call, out).map(Some);
    }
    if let Some(answered) = edit_replies::answer(call, out, store) {
        return answered.map(|()| None);
    }
    query_replies::answer(call, out, store.read(), slots)?;
    Ok(None)
}

// The same with those of its words that have come, none at first, and again when more have: from a pipe they come bit by bit, and a call that is at fault
// is told as soon as the word has come that shows it.
fn answer_coming(
    turns: &mut Turns,
    head: Head,
    room: &mut Room,
    out: &mut Output,
    store: &mut EventStore<'_>,
    slots: &mut Slots,
) -> Result<Option<Store>, Fault>
    requires { Valid (view_events store.old) }
    ensures valid { Valid (view_events store.new) }
    ensures same { SameEventPlaces store.old store.new }
    ensures kept { turns.new.next ≡ turns.old.next }
{
    let mut came = 0;
    let mut answered = answer(&mut head.call(&[]), out, store, slots);
    while let Err(Fault::Ends) = answered {
        let words = match room.place(came, head.size()) {
            Ok(words) => words,
            Err(error) => {
                turns.read = Err(error);
                break;
            }
        };
        let more = turns.words(&mut words[came..]);
        if more == 0 {
            break;
        }
        came += more;
        answered = answer(&mut head.call(&words[..came]), out, store, slots);
    }
    answered
}

// The calls on a store that is empty at first, as its slots are, up to the call that asks for the next one. That store, unless the
// script is over.
fn answer_all(
    turns: &mut Turns,
    room: &mut Room,
    out: &mut Output,
    store: &mut EventStore<'_>,
) -> Result<Option<Store>, Complaint>
    requires { Valid (view_events store.old) }
    ensures later { IfOk result (λ next. IfSome next (λ _. turns.old.next.byte < turns.new.next.byte)) }
    ensures most { IfOk result (λ next. IfSome next (λ _. turns.new.next.byte ≤ 1000000)) }
    ensures same { SameEventPlaces store.old store.new }
{
    let mut slots = Slots::default();
    while let Some(head) = turns.next_head()? {
        let place = head.place;
        let next = answer_coming(turns, head, room, out, store, &mut slots).map_err(
            |fault| Complaint { place, fault },
        )?;
        if next.is_some() {
            return Ok(next);
        }
    }
    Ok(None)
}

// The same in as many of the places as the script asks for and there are. They are slices here and no struct's: the borrow checker does not follow
// a part of a slice from one struct into another.
pub fn on_store(
    turns: &mut Turns,
    room: &mut Room,
    out: &mut Output,
    records: &mut [u64],
    children: &mut [u64],
    text: &mut [u8],
    asked: Store,
) -> Result<Option<Store>, Complaint>
    ensures later { IfOk result (λ next. IfSome next (λ _. turns.old.next.byte < turns.new.next.byte)) }
    ensures most { IfOk result (λ next. IfSome next (λ _. turns.new.next.byte ≤ 1000000)) }
{
    let r = asked.records.min(records.len() / 8);
    let c = asked.children.min(children.len());
    let t = asked.text.min(text.len());
    let mut used = [0usize; 8];
    let mut store = EventStore {
        records: &mut records[..8 * r],
        children: &mut children[..c],
        text: &mut text[..t],
        used: &mut used,
    };
    answer_all(turns, room, out, &mut store)
}
