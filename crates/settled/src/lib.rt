// A theorem only: what an exported call promises is one outcome. specs/ says it, proofs/ proves it; there is no code.

#![tactic(auto)]
