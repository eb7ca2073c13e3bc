// Rule 4: the flood of one region.

#![tactic(auto)]

pub mod flow;
mod look;
pub mod story;
