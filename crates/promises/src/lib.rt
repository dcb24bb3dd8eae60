// What the library promises, as named statements in specs/, and their proofs, in proofs/. This crate has no code: the contracts of the
// functions cite the same definitions, those of `rfc`.
#![tactic(auto)]
