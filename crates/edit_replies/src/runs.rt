// Calls 2 and 3: the run of a sheet, each with a builder of its own.

ghost use Rattle.green.specs.View.{view_events, event_stores, SameEventPlaces};
ghost use Rattle.green.specs.Valid.{Valid};
ghost use Rattle.sheet_run.specs.RunDone.{RunDone};

use builder::state::{EventAnswer, GreenNodeBuilder};
use files::out::Output;
use green::Counts;
use green::store_mut::EventStore;
use replies::show::Shown;
use script::call::Call;
use script::fault::Fault;
use sheet::{Ended, format};
use utility_types::{Refusal, number};

// Any sheet and text: as the run, with a line for each accepted event.
fn run_each(out: &mut Output, store: &mut EventStore<'_>, sheet: &[u8], source: &[u8]) -> Ended
    requires { Valid (view_events store.old) }
    ensures run_done { RunDone (event_stores store) sheet.now source.now result }
    ensures same { SameEventPlaces store.old store.new }
{
    if format::is_malformed(sheet, source) {
        return Err((Refusal::Malformed, 0));
    }
    let mut builder = GreenNodeBuilder::new();
    let n = number::u32_at(sheet, 0) as usize;
    let mut at: usize = 0;
    for i in 0..n {
        let done = sheet_run::step(store, &mut builder, sheet, source, i, at);
        let answer = done.answer;
        if let EventAnswer::Refused(why) = answer {
            return Err((why, i));
        }
        let lent = store.read();
        out.put_line(format_args!("{} {}", Shown(answer), Shown(lent.used)));
        at += done.taken as usize;
    }
    let lent = store.read();
    sheet_run::end_run(lent, &builder, &source[at..], n)
}

// How a run ended, and the counts in use after it.
fn put_ended(out: &mut Output, ended: Ended, used: &Counts) {
    out.put_line(format_args!("{} store {}", Shown(ended), Shown(used)));
}

// What a run reads. The longest sheet and text of a script are somewhat longer than any that runs.
#[derive(Clone, Copy)]
struct Source<'a> {
    sheet: &'a [u8],
    text: &'a [u8],
}

impl<'a> Source<'a> {
    fn read(call: &mut Call<'a>) -> Result<Source<'a>, Fault> {
        let sheet = call.bytes(33000)?;
        let text = call.bytes(65537)?;
        call.exactly(0)?;
        Ok(Source { sheet, text })
    }
}

// Call 2.
pub fn run(call: &mut Call, out: &mut Output, store: &mut EventStore<'_>) -> Result<(), Fault>
    requires { Valid (view_events store.old) }
    ensures valid { Valid (view_events store.new) }
    ensures same { SameEventPlaces store.old store.new }
{
    let of = Source::read(call)?;
    let mut yields = [0u32; 4096];
    let ended = sheet_run::run_alone(store, &mut yields, of.sheet, of.text);
    let lent = store.read();
    put_ended(out, ended, lent.used);
    Ok(())
}

// Call 3.
pub fn run_events(
    call: &mut Call,
    out: &mut Output,
    store: &mut EventStore<'_>,
) -> Result<(), Fault>
    requires { Valid (view_events store.old) }
    ensures valid { Valid (view_events store.new) }
    ensures same { SameEventPlaces store.old store.new }
{
    let of = Source::read(call)?;
    let ended = run_each(out, store, of.sheet, of.text);
    let lent = store.read();
    put_ended(out, ended, lent.used);
    Ok(())
}
