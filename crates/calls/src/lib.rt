// Demand 3 over the answers of the calls, the room that a listing takes, and worked examples of rows and of the listing, as named statements
// in specs/, and their proofs, in proofs/. This crate has no code: it speaks of what the contracts of the functions cite.
#![tactic(auto)]
