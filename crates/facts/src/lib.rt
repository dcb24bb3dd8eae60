// General notions and their laws, in specs/ and proofs/: a list with some of it overwritten, an answer by ranges, a constant
// table, a number and its bytes at any width, and what it means that a contract determines its answer. This crate has no code.
#![tactic(auto)]
