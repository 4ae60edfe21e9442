// What the store's records hold.

ghost use Rattle.green.specs.View.{view};
ghost use Rattle.sheet_run.specs.RunDone.{list};
ghost use Rattle.notes_tree_ffi.specs.Exports.{ElementExported, ChildExported};

use abi::{Words, answer};
use green::Store;

// What a record keeps of its element.
pub fn notes_element(store: Store<'_, '_>, number: usize, words: &mut Words) -> usize
    ensures { ElementExported (view store.entry) number (list words) result }
{
    let of = store.summarize(number);
    answer::put_summary(words, of)
}

// A child of a node.
pub fn notes_child(store: Store<'_, '_>, number: usize, index: usize, words: &mut Words) -> usize
    ensures { ChildExported (view store.entry) number index (list words) result }
{
    let of = store.child_at(number, index);
    answer::put_child(words, of)
}
