// Demand 3 as a theorem about the rules: see specs/ and proofs/. This crate has no code.

#![tactic(auto)]
