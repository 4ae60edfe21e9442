// The questions that are put most, each as a function whose answer is numbers, for another language. `cursor_ffi_c` gives them the names that C
// calls (bindings/c/notes_tree.h). They stand apart from the dispatcher: a query with two callers would stay out of line in both.

#![tactic(auto)]

pub mod children;
pub mod ranges;
pub mod siblings;
pub mod tokens;
