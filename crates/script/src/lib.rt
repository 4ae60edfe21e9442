// Reading a call script (docs/REPLAY.md): little-endian words of 32 bits, call by call, from the script's bytes. `script` has the
// calls in turn, `op` what they are, `call` one call and its words, `bytes` a sheet or a text among them, `path` a path, and
// `store` what call 1 asks for; `fault` has what is wrong with bytes that are no script.

#![tactic(auto)]

pub mod bytes;
pub mod call;
pub mod calls;
pub mod fault;
pub mod op;
pub mod path;
pub mod store;
