// The starred figures of document 01, a theorem by computation: see specs/. This crate has no code.

#![tactic(auto)]
