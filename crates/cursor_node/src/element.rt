// What a path names, and its parent.

ghost use Rattle.definitions.specs.Query.{Question};
ghost use Rattle.green.specs.Store.{entries};
ghost use Rattle.green.specs.View.{view};
ghost use Rattle.cursor.specs.Answers.{Tells};
ghost use Rattle.cursor.specs.View.{path_answer};

use cursor::path::{Path, Remember};
use cursor::position;
use green::Store;
use utility_types::{Refusal, SyntaxElement};

pub fn element_at(store: Store<'_, '_>, path: Path<'_>) -> Result<Option<SyntaxElement>, Refusal>
    ensures { Tells path.entry.indexes.now path.entry.indexes.now (path_answer (entries (view store.entry)) path.entry Question.here) result }
{
    let place = path.locate(store, Remember::Parent)?;
    Ok(Some(position::syntax_element(store, place.at)))
}

// The node that an element is a child of; the root has none.
pub fn parent(store: Store<'_, '_>, path: Path<'_>) -> Result<Option<SyntaxElement>, Refusal>
    ensures { Tells path.entry.indexes.now path.entry.indexes.now (path_answer (entries (view store.entry)) path.entry Question.parent) result }
{
    let place = path.locate(store, Remember::Parent)?;
    let above = place.remembered;
    let Some(up) = above else {
        return Ok(None);
    };
    Ok(Some(position::syntax_element(store, up)))
}
