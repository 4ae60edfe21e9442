// Any question that one call answers, by its code.

ghost use Rattle.green.specs.View.{view};
ghost use Rattle.sheet_run.specs.RunDone.{list};
ghost use Rattle.abi.specs.Codes.{coded_question};
ghost use Rattle.notes_tree_ffi.specs.Exports.{QueryExported};

use abi::{Words, answer, question};
use green::Store;

pub fn notes_query(
    store: Store<'_, '_>,
    root: usize,
    path: &mut [u32; 64],
    other: &mut [u32; 64],
    depth: usize,
    code: usize,
    operands: &Words,
    words: &mut Words,
) -> usize
    ensures { QueryExported (view store.entry) root depth (list path) (list other) (coded_question code operands.now) (list words) result }
{
    let coded = question::of_code(code, operands);
    let Some(asked) = coded else {
        return answer::UNKNOWN;
    };
    let reply = query::query(store, root, path, other, depth, asked);
    answer::put_reply(words, reply)
}
