// The questions of one text, and of two texts or elements.

ghost use Rattle.green.specs.View.{view};
ghost use Rattle.query.specs.Kinds.{text_in, pair_in, RepliesText, RepliesPair};

use crate::question::{PairQuestion, TextQuestion};
use crate::reply;
use crate::reply::Reply;
use cursor::path::Path;
use cursor::same;
use green::Store;
use syntax_text::text::SyntaxText;
use utility_types::Refusal;

pub fn ask_text(
    store: Store<'_, '_>,
    node: Path<'_>,
    question: TextQuestion,
) -> Result<Reply, Refusal>
    ensures { RepliesText (view store.entry) node.entry (text_in question) result }
{
    match question {
        TextQuestion::Len(start, end) => {
            let text = SyntaxText { node, start, end };
            reply::of_length(text.len(store))
        }
        TextQuestion::Slice(start, end, from, to) => {
            let text = SyntaxText { node, start, end };
            reply::of_text(text.slice(store, from, to))
        }
        TextQuestion::Contains(start, end, character) => {
            let text = SyntaxText { node, start, end };
            reply::of_truth(text.contains_char(store, character))
        }
        TextQuestion::Find(start, end, character) => {
            let text = SyntaxText { node, start, end };
            reply::of_offset(text.find_char(store, character))
        }
        TextQuestion::CharAt(start, end, offset) => {
            let text = SyntaxText { node, start, end };
            reply::of_character(text.char_at(store, offset))
        }
    }
}

// The path of the other element or text is lent as `other`; the question has its root and its depth.
pub fn ask_pair(
    store: Store<'_, '_>,
    node: Path<'_>,
    other: &[u32; 64],
    question: PairQuestion,
) -> Result<Reply, Refusal>
    ensures { RepliesPair (view store.entry) node.entry other (pair_in question) result }
{
    match question {
        PairQuestion::EqualText(start, end, root, depth, other_start, other_end) => {
            let text = SyntaxText { node, start, end };
            let beside = SyntaxText {
                node: Path {
                    root,
                    indexes: other,
                    depth,
                },
                start: other_start,
                end: other_end,
            };
            reply::of_truth(text.equal(store, beside))
        }
        PairQuestion::SameElement(root, depth) => {
            let beside = Path {
                root,
                indexes: other,
                depth,
            };
            reply::of_truth(same::same_element(store, node, beside))
        }
    }
}
