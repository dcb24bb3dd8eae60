// The boundary to programs in Rust and in C, for all options of an area in one call, as rows of numbers: `listing` lists and reads
// them, `writing` writes them.
#![tactic(auto)]

pub mod listing;
pub mod writing;
