// The contour of a region: a walker goes round it, and what it finds across the edges is listed in the pool.

#![tactic(auto)]

pub mod edge;
pub mod walk;
mod walker;
