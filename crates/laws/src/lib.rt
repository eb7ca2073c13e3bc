// Theorems about the rules alone: see proofs/. This crate has no code.

#![tactic(auto)]
