// Calls 60, 61 and 64: what the store keeps of an element, and what its record holds. What shows a record asks for a number that names one.

ghost use Rattle.std.specs.Prelude.{◌≡◌, false};
ghost use Rattle.definitions.specs.Tree.{is_node};
ghost use Rattle.definitions.specs.Entry.{tree_at};
ghost use Rattle.green.specs.Store.{entries};
ghost use Rattle.green.specs.View.{view};
ghost use Rattle.green.specs.Valid.{Known};

use files::out::Output;
use green::Store;
use green::element::Summary;
use replies::bytes::Bytes;
use replies::show::{Kind, Mark, Shown};
use script::call::Call;
use script::fault::Fault;
use script::op::Op;
use utility_types::Refusal;

// Calls 60 and 61.
fn put_kept(out: &mut Output, op: Op, of: Result<Summary, Refusal>) {
    match of {
        Ok(it) => {
            if let Op::Mark = op {
                out.put_line(Mark(it.hash));
            } else {
                out.put_line(Shown(it));
            }
        }
        Err(why) => out.put_line(Shown(why)),
    }
}

fn put_token(out: &mut Output, store: Store<'_, '_>, n: usize)
    requires { Known (view store) n × (is_node (tree_at (entries (view store)) n) ≡ false) }
{
    let kind = store.kind_of(n);
    let kind = Kind {
        is_node: false,
        kind,
    };
    let text = Bytes(store.text_of(n));
    out.put_line(format_args!("{kind} {text}"));
}

// The number of child `k` of a node.
fn child_of(store: Store<'_, '_>, n: usize, k: usize) -> usize {
    match store.child_at(n, k) {
        Ok(child) => child.number,
        Err(_) => 0,
    }
}

fn put_children(out: &mut Output, store: Store<'_, '_>, n: usize, count: usize) {
    for k in 0..count {
        let number = child_of(store, n, k);
        out.put(format_args!(" {number}"));
    }
    out.put_line("");
}

// A node's kind, what made it, and how many children it has; and these.
fn put_node(out: &mut Output, store: Store<'_, '_>, n: usize)
    requires { Known (view store) n }
{
    let kind = store.kind_of(n);
    let is_event = store.tag_of(n) == 1;
    let count = store.count_of(n);
    let kind = Kind {
        is_node: true,
        kind,
    };
    let maker = if is_event { "event" } else { "edit" };
    out.put(format_args!("{kind} {maker} {count}"));
    put_children(out, store, n, count);
}

// Call 64.
fn put_record(out: &mut Output, store: Store<'_, '_>, n: usize) {
    if store.used[0] <= n {
        out.put_line(Shown(Refusal::NoSuchElement));
    } else if store.is_node(n) {
        put_node(out, store, n);
    } else {
        put_token(out, store, n);
    }
}

// The call's only word is a number.
pub fn answer(
    call: &mut Call,
    op: Op,
    out: &mut Output,
    store: Store<'_, '_>,
) -> Result<(), Fault> {
    let number = call.last_word()? as usize;
    if let Op::Record = op {
        put_record(out, store, number);
    } else {
        let of = store.summarize(number);
        put_kept(out, op, of);
    }
    Ok(())
}
