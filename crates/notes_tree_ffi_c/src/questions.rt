// Any question that one call answers, by its code.

ghost use Rattle.green.specs.Store.{here, entered};
ghost use Rattle.green.specs.Valid.{Valid};
ghost use Rattle.sheet_run.specs.RunDone.{list};
ghost use Rattle.abi.specs.Codes.{coded_question};
ghost use Rattle.notes_tree_ffi.specs.Exports.{QueryExported};

use abi::Words;
use green::{Counts, Store};

#[unsafe(no_mangle)]
pub extern "C" fn notes_query<'a>(
    records: &'a [u64],
    children: &'a [u64],
    text: &'a [u8],
    used: &'a Counts,
    root: usize,
    path: &mut [u32; 64],
    other: &mut [u32; 64],
    depth: usize,
    code: usize,
    operands: &Words,
    words: &mut Words,
) -> usize
    requires { Valid (here records children text used) }
    ensures { QueryExported (entered records children text used) root depth (list path) (list other) (coded_question code operands.now) (list words) result }
{
    notes_tree_ffi::questions::notes_query(
        Store {
            records,
            children,
            text,
            used,
        },
        root,
        path,
        other,
        depth,
        code,
        operands,
        words,
    )
}
