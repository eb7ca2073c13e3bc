// The rules are definitions alone: see specs/. This crate has no code.

#![tactic(auto)]
