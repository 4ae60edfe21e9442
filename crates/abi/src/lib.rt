// How the tree is called from another language, where no enum crosses: a call returns a number, its outcome, and writes what it answers into
// eight lent words. `answer` writes them, `question` makes a question of a code and its operands, `walk` keeps a walk's
// state in words. specs/ says which number and which words each answer is.

#![tactic(auto)]

pub mod answer;
pub mod question;
pub mod walk;

// What a call answers beside its outcome, or is given as operands.
pub type Words = [usize; 8];
