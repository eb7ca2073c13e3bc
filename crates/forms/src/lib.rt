// The two forms of a stored result, as theorems about the rules: see proofs/. This crate has no code.

#![tactic(auto)]
