// The questions that an element answers.

ghost use Rattle.green.specs.View.{view};
ghost use Rattle.query.specs.Kinds.{element_in, AnswersElement};

use crate::question::ElementQuestion;
use cursor::path::Path;
use cursor_node::{children as kids, element, siblings};
use cursor_range::{cover, range};
use cursor_token::{adjacent, edge};
use green::Store;
use utility_types::{Refusal, SyntaxElement};

pub fn ask_element(
    store: Store<'_, '_>,
    root: usize,
    path: &mut [u32; 64],
    depth: usize,
    question: ElementQuestion,
) -> Result<Option<SyntaxElement>, Refusal>
    ensures { AnswersElement (view store.entry) root depth path (element_in question) result }
{
    match question {
        ElementQuestion::Here => {
            let node = Path {
                root,
                indexes: path,
                depth,
            };
            element::element_at(store, node)
        }
        ElementQuestion::Parent => {
            let node = Path {
                root,
                indexes: path,
                depth,
            };
            element::parent(store, node)
        }
        ElementQuestion::Child(d, t) => { kids::child_towards(store, root, path, depth, d, t) }
        ElementQuestion::Sibling(d, t) => {
            siblings::sibling_towards(store, root, path, depth, d, t)
        }
        ElementQuestion::FirstToken => { edge::first_token(store, root, path, depth) }
        ElementQuestion::LastToken => { edge::last_token(store, root, path, depth) }
        ElementQuestion::NextToken => { adjacent::next_token(store, root, path, depth) }
        ElementQuestion::PrevToken => { adjacent::prev_token(store, root, path, depth) }
        ElementQuestion::ChildOrTokenAtRange(a, b) => {
            range::child_or_token_at_range(store, root, path, depth, a, b)
        }
        ElementQuestion::CoveringElement(a, b) => {
            cover::covering_element(store, root, path, depth, a, b)
        }
    }
}
