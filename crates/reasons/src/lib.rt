// Why a span has the id that it has, as theorems about the rules: see specs/ and proofs/. This crate has no code.

#![tactic(auto)]
