// What crosses to another language and is no single question: the calls that write a store, any question by its code, the store's records, and
// the calls that carry on a walk or a text's chunks. `notes_tree_ffi_c` gives them the names that C calls (bindings/c/notes_tree.h). Nothing is
// asked but the invariants of the store and of lent states.
//
// A call that writes is put to a store that some list of calls led to, and carries that list on: it is one of demand 3's history. What a
// step of a walk or of chunks ensures is one call of the theorem's lists.

#![tactic(auto)]

pub mod elements;
pub mod questions;
pub mod steps;
pub mod writes;
