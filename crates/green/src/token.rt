// For the crates above: the bytes of a token that is there, rowan's green/token.rs.

ghost use Rattle.std.specs.Prelude.{◌≡◌, false};
ghost use Rattle.definitions.specs.Tree.{is_node, text};
ghost use Rattle.definitions.specs.Entry.{tree_at};
ghost use Rattle.green.specs.Store.{entries};
ghost use Rattle.green.specs.View.{view, view_tokens};
ghost use Rattle.green.specs.Valid.{Known, Valid};

use crate::Store;
use crate::store_mut::StoreMut;

impl<'t> Store<'_, 't> {
    // The bytes of a token: the part of the lent text itself.
    pub fn text_of(self, n: usize) -> &'t [u8]
        requires { Known (view self) n × (is_node (tree_at (entries (view self)) n) ≡ false) }
        ensures { result.now ≡ Rattle.definitions.specs.Tree.text (tree_at (entries (view self.entry)) n) }
    {
        let first = self.first_of(n);
        let count = self.count_of(n);
        &self.text[first..first + count]
    }
}

impl StoreMut<'_, &[u64], &mut [u8]> {
    pub fn read(&self) -> Store<'_, '_>
        requires { Valid (view_tokens self.now) }
        ensures { view result ≡ view_tokens self.now }
    {
        let children = self.children;
        Store {
            text: self.text,
            used: self.used,
            children,
            records: self.records,
        }
    }
}
