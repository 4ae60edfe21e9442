// The calls that write a store: the run of a sheet, and one edit.

ghost use Rattle.green.specs.View.{view_nodes, view_events, node_stores, event_stores, SameNodePlaces, SameEventPlaces};
ghost use Rattle.sheet_run.specs.RunDone.{list};
ghost use Rattle.notes_tree_ffi.specs.Goes.{HasHistory};
ghost use Rattle.notes_tree_ffi.specs.Exports.{RunExported, edit_of, EditExported};

use abi::{Words, answer};
use cursor::path::Path;
use green::store_mut::{EventStore, NodeStore};

// Does nothing: an array that is lent as a slice shows its length to the proof.
fn show(_words: &[u32]) {}

// A sheet and its text, by a builder of the call's own. What the events yield is lent apart.
pub fn notes_run(
    store: &mut EventStore<'_>,
    yields: &mut [u32; 4096],
    sheet: &[u8],
    source: &[u8],
    words: &mut Words,
) -> usize
    requires { HasHistory (view_events store.old) }
    ensures exported { RunExported (event_stores store) (list yields) sheet.now source.now (list words) result }
    ensures same { SameEventPlaces store.old store.new }
{
    show(yields);
    let ended = sheet_run::run_alone(store, yields, sheet, source);
    answer::put_ended(words, ended)
}

// One edit, by its code. C gives the code, so any number may come.
pub fn notes_edit(
    store: &mut NodeStore<'_>,
    code: usize,
    number: usize,
    from: usize,
    to: usize,
    news: &[u32],
    path: &[u32; 64],
    words: &mut Words,
) -> usize
    requires { HasHistory (view_nodes store.old) }
    ensures exported { EditExported (node_stores store) (edit_of code number from to news.now path.now) (list words) result }
    ensures same { SameNodePlaces store.old store.new }
{
    let made = match code {
        0 => edits::replace_child(store, number, from, to),
        1 => edits::insert_child(store, number, from, to),
        2 => edits::remove_child(store, number, from),
        3 => edits::splice_children(store, number, from, to, news),
        4 => {
            let replaced = Path {
                root: number,
                indexes: path,
                depth: from,
            };
            replace_with::replace_with(store, replaced, to)
        }
        _ => return answer::UNKNOWN,
    };
    answer::put_made(words, made)
}
