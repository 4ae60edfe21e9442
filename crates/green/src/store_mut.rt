// The store as it is lent to be written.

ghost use Rattle.std.specs.Prelude.{◌≡◌};
ghost use Rattle.green.specs.Valid.{Valid};
ghost use Rattle.green.specs.View.{view, view_events, view_nodes};

use crate::{Counts, Store};

// Child places and text are lent to be written, or only to be read. That the store is in order is no ghost field, since that does not hold between two
// writes of a call.
#[derive(Drop)]
pub struct StoreMut<'a, C, T> {
    pub records: &'a mut [u64],
    pub children: C,
    pub text: T,
    pub used: &'a mut Counts,
}

// For any event.
pub type EventStore<'a> = StoreMut<'a, &'a mut [u64], &'a mut [u8]>;
// For what makes a token, which has no child.
pub type TokenStore<'a> = StoreMut<'a, &'a [u64], &'a mut [u8]>;
// For what makes a node, which adds no text: an event that finishes one, and an edit.
pub type NodeStore<'a> = StoreMut<'a, &'a mut [u64], &'a [u8]>;

// Each has a `read` of its own, that of a `TokenStore` in `token`: one over a trait that all the places have would bring that trait's words into every
// contract.
impl StoreMut<'_, &mut [u64], &mut [u8]> {
    pub fn read(&self) -> Store<'_, '_>
        requires { Valid (view_events self.now) }
        ensures { view result ≡ view_events self.now }
    {
        Store {
            records: self.records,
            children: self.children,
            text: self.text,
            used: self.used,
        }
    }
}

impl<'t> StoreMut<'_, &mut [u64], &'t [u8]> {
    // The text is not lent anew.
    pub fn read(&self) -> Store<'_, 't>
        requires { Valid (view_nodes self.now) }
        ensures { view result ≡ view_nodes self.now }
    {
        let text = self.text;
        Store {
            text,
            used: self.used,
            children: self.children,
            records: self.records,
        }
    }
}
