// Calls 10 to 14. A call's words are read first, and then it is put to the port, and then its reply is printed.

ghost use Rattle.green.specs.Valid.{Valid};
ghost use Rattle.green.specs.View.{view_nodes, SameNodePlaces};

use cursor::path::{MOST_INDEXES, Path};
use files::out::Output;
use green::Counts;
use green::store_mut::NodeStore;
use replies::show::Shown;
use script::call::Call;
use script::fault::Fault;
use script::op::Op;
use utility_types::Refusal;

// How many new elements a splice has at most.
const MOST_NEW: usize = 4200;

// What an edit made, and the counts in use after it.
fn put_made(out: &mut Output, made: Result<usize, Refusal>, used: &Counts) {
    out.put_line(format_args!("{} store {}", Shown(made), Shown(used)));
}

// A node, an index among its children, and a new element.
fn read_child_edit(call: &mut Call) -> Result<(usize, usize, usize), Fault> {
    call.exactly(3)?;
    let node = call.word()? as usize;
    let index = call.word()? as usize;
    let new = call.word()? as usize;
    Ok((node, index, new))
}

// Call 10: a child of a node exchanged.
fn replace_child(call: &mut Call, out: &mut Output, store: &mut NodeStore<'_>) -> Result<(), Fault>
    requires { Valid (view_nodes store.old) }
    ensures valid { Valid (view_nodes store.new) }
    ensures same { SameNodePlaces store.old store.new }
{
    let (node, index, new) = read_child_edit(call)?;
    let made = edits::replace_child(store, node, index, new);
    put_made(out, made, store.used);
    Ok(())
}

// Call 11: a child put before another.
fn insert_child(call: &mut Call, out: &mut Output, store: &mut NodeStore<'_>) -> Result<(), Fault>
    requires { Valid (view_nodes store.old) }
    ensures valid { Valid (view_nodes store.new) }
    ensures same { SameNodePlaces store.old store.new }
{
    let (node, index, new) = read_child_edit(call)?;
    let made = edits::insert_child(store, node, index, new);
    put_made(out, made, store.used);
    Ok(())
}

// Call 12: a node, and an index among its children.
fn remove_child(call: &mut Call, out: &mut Output, store: &mut NodeStore<'_>) -> Result<(), Fault>
    requires { Valid (view_nodes store.old) }
    ensures valid { Valid (view_nodes store.new) }
    ensures same { SameNodePlaces store.old store.new }
{
    call.exactly(2)?;
    let node = call.word()? as usize;
    let index = call.word()? as usize;
    let made = edits::remove_child(store, node, index);
    put_made(out, made, store.used);
    Ok(())
}

// Call 13: a node, a range of its children, and then the new elements.
fn splice_children(
    call: &mut Call,
    out: &mut Output,
    store: &mut NodeStore<'_>,
) -> Result<(), Fault>
    requires { Valid (view_nodes store.old) }
    ensures valid { Valid (view_nodes store.new) }
    ensures same { SameNodePlaces store.old store.new }
{
    let count = call.left.checked_sub(3).ok_or(Fault::Misfit)? as usize;
    if MOST_NEW < count {
        return Err(Fault::ManyNew);
    }
    let node = call.word()? as usize;
    let start = call.word()? as usize;
    let end = call.word()? as usize;
    let mut room = [0u32; MOST_NEW];
    let new = &mut room[..count];
    call.fill(new)?;
    let made = edits::splice_children(store, node, start, end, new);
    put_made(out, made, store.used);
    Ok(())
}

// Call 14: a new element, and a path.
fn replace_with(call: &mut Call, out: &mut Output, store: &mut NodeStore<'_>) -> Result<(), Fault>
    requires { Valid (view_nodes store.old) }
    ensures valid { Valid (view_nodes store.new) }
    ensures same { SameNodePlaces store.old store.new }
{
    let new = call.word()? as usize;
    let mut path = [0u32; MOST_INDEXES];
    let of = call.last_path(&mut path)?;
    let replaced = Path {
        root: of.root,
        indexes: &path,
        depth: of.depth,
    };
    let made = replace_with::replace_with(store, replaced, new);
    put_made(out, made, store.used);
    Ok(())
}

// None where the call is no edit.
pub fn answer(
    call: &mut Call,
    op: Op,
    out: &mut Output,
    store: &mut NodeStore<'_>,
) -> Option<Result<(), Fault>>
    requires { Valid (view_nodes store.old) }
    ensures valid { Valid (view_nodes store.new) }
    ensures same { SameNodePlaces store.old store.new }
{
    Some(match op {
        Op::ReplaceChild => replace_child(call, out, store),
        Op::InsertChild => insert_child(call, out, store),
        Op::RemoveChild => remove_child(call, out, store),
        Op::SpliceChildren => splice_children(call, out, store),
        Op::ReplaceWith => replace_with(call, out, store),
        _ => return None,
    })
}
