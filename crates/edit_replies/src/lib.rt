// What `replay` answers to the calls of a script that make records: the run of a sheet, in `runs`, and edits, in `edit`.

#![tactic(auto)]

ghost use Rattle.green.specs.Valid.{Valid};
ghost use Rattle.green.specs.View.{view_events, SameEventPlaces};

use files::out::Output;
use green::store_mut::{EventStore, NodeStore};
use script::call::Call;
use script::fault::Fault;
use script::op::Op;

mod edit;
mod runs;

// Calls 2, 3 and 10 to 14; none where it is another call.
pub fn answer(
    call: &mut Call,
    out: &mut Output,
    store: &mut EventStore<'_>,
) -> Option<Result<(), Fault>>
    requires { Valid (view_events store.old) }
    ensures valid { Valid (view_events store.new) }
    ensures same { SameEventPlaces store.old store.new }
{
    let op = call.op?;
    match op {
        Op::Run => Some(runs::run(call, out, store)),
        Op::RunEvents => Some(runs::run_events(call, out, store)),
        _ => {
            // the text is lent as the other places are: a `&` of it would read the struct while they are lent
            let mut store = NodeStore {
                records: &mut *store.records,
                children: &mut *store.children,
                text: &mut *store.text,
                used: &mut *store.used,
            };
            edit::answer(call, op, out, &mut store)
        }
    }
}
