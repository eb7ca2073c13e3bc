// The records of the regions: count, area, overlap, floors, and the list of neighbours.

#![tactic(auto)]

pub mod build;
mod cell;
mod fresh;
mod grow;
pub mod map;
