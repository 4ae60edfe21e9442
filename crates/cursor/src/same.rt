// Same-element: two paths, under two roots perhaps, name one record at one offset.

ghost use Rattle.std.specs.Prelude.{◌≡◌};
ghost use Rattle.green.specs.Store.{entries};
ghost use Rattle.green.specs.View.{view};
ghost use Rattle.cursor.specs.Same.{says_same, same_paths};

use crate::path::{Path, Remember};
use green::Store;
use utility_types::Refusal;

pub fn same_element(store: Store<'_, '_>, path: Path<'_>, other: Path<'_>) -> Result<bool, Refusal>
    ensures { says_same result ≡ same_paths (entries (view store.entry)) path.entry other.entry }
{
    let one = path.locate(store, Remember::Parent)?;
    let two = other.locate(store, Remember::Parent)?;
    let a = one.at;
    let b = two.at;
    Ok(a.number == b.number && a.start == b.start)
}
