// rowan's green tree over lent places: records of elements, child places and text bytes, and how many of each are in use.
// `element` takes any number, `node` a node's children, `record` has the words, and `token` the bytes, of one that is known; `store_mut` is the store that
// is written.
// specs/ says which entries they spell (Store) and when they are in order (Valid).

#![tactic(auto)]

ghost use Rattle.green.specs.Store.{store};
ghost use Rattle.green.specs.Valid.{Valid, valid_props};

pub mod element;
pub mod node;
pub mod record;
pub mod store_mut;
pub mod token;

// How many of each are in use: records, child places, text bytes, in an array since C lends it. The other places are spare, and 0 in a store that is in order.
pub type Counts = [usize; 8];

// The store as it is lent to be read: records of eight words, child places, text bytes, and how many of each are in use.
// The text has a lifetime of its own, since a part of it may be kept while records and child places are written.
#[derive(Clone, Copy)]
pub struct Store<'a, 't> {
    pub records: &'a [u64],
    pub children: &'a [u64],
    pub text: &'t [u8],
    pub used: &'a Counts,
    ghost valid: { Valid (store records.now children.now text.now used.now) } by { Prim.hlevel valid_props },
}
