// What the distance means, as theorems about the rules: see specs/ and proofs/. This crate has no code.

#![tactic(auto)]
