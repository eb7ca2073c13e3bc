// The filter: groups of records under the least area are removed.

#![tactic(auto)]

mod gather;
mod remove;
mod told;
mod whole;

pub use crate::told::{filter, filter_told};
