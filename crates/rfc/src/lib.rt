// The rules of RFC 2131, 2132, 3396, 3442 and 3629 as definitions on lists of numbers, in specs/, and their laws, in proofs/.
// This crate has no code.
#![tactic(auto)]
