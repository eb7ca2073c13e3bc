// The field file and the listing: reading the one, writing the other.

#![tactic(auto)]

pub mod put;
pub mod read;
mod row;
pub mod write;
