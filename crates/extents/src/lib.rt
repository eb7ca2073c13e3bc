// The record of floor sizes, as theorems about the rules: see proofs/. This crate has no code.

#![tactic(auto)]
