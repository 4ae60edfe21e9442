// The calls that write a store: the run of a sheet, and one edit.

ghost use Rattle.green.specs.Store.{both, store, stores};
ghost use Rattle.sheet_run.specs.RunDone.{list};
ghost use Rattle.notes_tree_ffi.specs.Goes.{HasHistory};
ghost use Rattle.notes_tree_ffi.specs.Exports.{RunExported, edit_of, EditExported};

use abi::Words;
use green::Counts;
use green::store_mut::StoreMut;

// A sheet and its text, by a builder of the call's own. What the events yield is lent apart.
#[unsafe(no_mangle)]
pub extern "C" fn notes_run(
    records: &mut [u64],
    children: &mut [u64],
    text: &mut [u8],
    used: &mut Counts,
    yields: &mut [u32; 4096],
    sheet: &[u8],
    source: &[u8],
    words: &mut Words,
) -> usize
    requires { HasHistory (store records.old children.old text.old used.old) }
    ensures { RunExported (stores records children text used) (list yields) sheet.now source.now (list words) result }
{
    let mut store = StoreMut {
        records,
        children,
        text,
        used,
    };
    notes_tree_ffi::writes::notes_run(&mut store, yields, sheet, source, words)
}

// One edit, by its code.
#[unsafe(no_mangle)]
pub extern "C" fn notes_edit(
    records: &mut [u64],
    children: &mut [u64],
    text: &[u8],
    used: &mut Counts,
    code: usize,
    number: usize,
    from: usize,
    to: usize,
    news: &[u32],
    path: &[u32; 64],
    words: &mut Words,
) -> usize
    requires { HasHistory (store records.old children.old text.now used.old) }
    ensures { EditExported (both (store records.old children.old text.now used.old) (store records.new children.new text.now used.new)) (edit_of code number from to news.now path.now) (list words) result }
{
    let mut store = StoreMut {
        records,
        children,
        text,
        used,
    };
    notes_tree_ffi::writes::notes_edit(&mut store, code, number, from, to, news, path, words)
}
