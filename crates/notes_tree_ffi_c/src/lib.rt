// What C calls of `notes_tree_ffi` (bindings/c/notes_tree.h): each export calls the library's function of its name and states its clauses again,
// since a library exports nothing itself.

#![tactic(auto)]

pub mod elements;
pub mod questions;
pub mod steps;
pub mod writes;
