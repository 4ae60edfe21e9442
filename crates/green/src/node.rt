// rowan's green/node.rs: a node's children. For the crates above: `nth_child` asks for a child that is there.

ghost use Rattle.std.specs.Prelude.{◌≡◌, true, ◌<◌, length};
ghost use Rattle.definitions.specs.Tree.{is_node};
ghost use Rattle.definitions.specs.Entry.{entry_at, tree_at};
ghost use Rattle.green.specs.Store.{entries};
ghost use Rattle.green.specs.View.{view};
ghost use Rattle.green.specs.Valid.{Known};
ghost use Rattle.green.specs.Answers.{place, place_of, placed, child_of};

use crate::Store;
use utility_types::{NodeOrToken, Refusal};

// A child of a node: its number, and its offset in the node (rowan's rel_offset).
#[derive(Clone, Copy)]
pub struct Child {
    pub number: usize,
    pub offset: usize,
}

impl Store<'_, '_> {
    // Child `k` of node `n`.
    pub fn nth_child(self, n: usize, k: usize) -> Child
        requires known { Known (view self) n × (is_node (tree_at (entries (view self)) n) ≡ true) }
        requires k_in_bounds { k < length (entry_at (entries (view self)) n).children }
        ensures { (place result ≡ place_of (entries (view self.entry)) n k) × (result.number < n) }
    {
        let first = self.first_of(n);
        let word = self.children[first + k];
        Child {
            number: (word % 4294967296) as usize,
            offset: (word / 4294967296) as usize,
        }
    }

    // The same of any number and index.
    pub fn child_at(self, n: usize, k: usize) -> Result<Child, Refusal>
        ensures { placed result ≡ child_of (entries (view self.entry)) n k }
    {
        let what = self.element(n)?;
        let NodeOrToken::Node(node) = what else {
            return Err(Refusal::NoSuchElement);
        };
        if self.count_of(node) <= k {
            return Err(Refusal::OutOfRange);
        }
        Ok(self.nth_child(node, k))
    }
}
