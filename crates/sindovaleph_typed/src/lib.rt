// The boundary to programs in Rust and in C, for typed values that are written: each function stands for one of the library, takes numbers
// and slices, and answers a plain struct by value (`crossing::answers`). `writing` has a writer for each kind.
#![tactic(auto)]

pub mod writing;
