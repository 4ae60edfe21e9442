// What the calls of a script ask, and what it keeps from call to call. Nothing here is lent the store or the output.
//
// `asked` has what is put to the port, in one form for queries, walks that begin and texts: a question, a root and a depth by
// value, and two lent paths. `path_calls` and `text_calls` read it. `slots` has the walks and the texts that are kept, `walk` and
// `text` what they are.

#![tactic(auto)]

pub mod asked;
pub mod path_calls;
pub mod slots;
pub mod text;
pub mod text_calls;
pub mod walk;
