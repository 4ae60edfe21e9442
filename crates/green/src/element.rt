// What a number names, and what its record keeps of it.

ghost use Rattle.std.specs.Prelude.{◌≡◌};
ghost use Rattle.green.specs.Store.{entries};
ghost use Rattle.green.specs.View.{view};
ghost use Rattle.green.specs.Answers.{looked_up, element_of, summarized, fields_of};

use crate::Store;
use utility_types::{NodeOrToken, Refusal, SyntaxKind};

impl Store<'_, '_> {
    // What a number names; one that names no element is refused.
    pub fn element(self, n: usize) -> Result<NodeOrToken, Refusal>
        ensures { looked_up result ≡ element_of (entries (view self.entry)) n }
    {
        if self.used[0] <= n {
            return Err(Refusal::NoSuchElement);
        }
        if self.is_node(n) {
            return Ok(NodeOrToken::Node(n));
        }
        Ok(NodeOrToken::Token(n))
    }
}

#[derive(Clone, Copy)]
pub struct Summary {
    pub is_node: bool,
    pub kind: SyntaxKind,
    pub len: usize,
    pub size: usize,
    pub height: usize,
    pub hash: u64,
    pub children: usize,
}

impl Store<'_, '_> {
    // All that a record keeps of its element.
    pub fn summarize(self, n: usize) -> Result<Summary, Refusal>
        ensures { summarized result ≡ fields_of (entries (view self.entry)) n }
    {
        if self.used[0] <= n {
            return Err(Refusal::NoSuchElement);
        }
        let is_node = self.is_node(n);
        let count = self.count_of(n);
        Ok(Summary {
            is_node,
            kind: self.kind_of(n),
            len: self.text_len(n),
            size: self.size_of(n),
            height: self.height_of(n),
            hash: self.hash_of(n),
            children: if is_node { count } else { 0 },
        })
    }
}
