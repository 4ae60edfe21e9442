// What the store's records hold.

ghost use Rattle.green.specs.Store.{here, entered};
ghost use Rattle.green.specs.Valid.{Valid};
ghost use Rattle.sheet_run.specs.RunDone.{list};
ghost use Rattle.notes_tree_ffi.specs.Exports.{ElementExported, ChildExported};

use abi::Words;
use green::{Counts, Store};

// What a record keeps of its element.
#[unsafe(no_mangle)]
pub extern "C" fn notes_element<'a>(
    records: &'a [u64],
    children: &'a [u64],
    text: &'a [u8],
    used: &'a Counts,
    number: usize,
    words: &mut Words,
) -> usize
    requires { Valid (here records children text used) }
    ensures { ElementExported (entered records children text used) number (list words) result }
{
    notes_tree_ffi::elements::notes_element(
        Store {
            records,
            children,
            text,
            used,
        },
        number,
        words,
    )
}

// A child of a node.
#[unsafe(no_mangle)]
pub extern "C" fn notes_child<'a>(
    records: &'a [u64],
    children: &'a [u64],
    text: &'a [u8],
    used: &'a Counts,
    number: usize,
    index: usize,
    words: &mut Words,
) -> usize
    requires { Valid (here records children text used) }
    ensures { ChildExported (entered records children text used) number index (list words) result }
{
    notes_tree_ffi::elements::notes_child(
        Store {
            records,
            children,
            text,
            used,
        },
        number,
        index,
        words,
    )
}
