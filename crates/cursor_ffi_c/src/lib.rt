// What C calls of `cursor_ffi` (bindings/c/notes_tree.h): each export calls the library's function of its name and states its clauses again,
// since a library exports nothing itself.

#![tactic(auto)]

pub mod children;
pub mod ranges;
pub mod siblings;
pub mod tokens;
