// The distance field: `watershed_distance_field.rs`. Every function over cells takes the whole field, as the Rust's take `&self`.

#![tactic(auto)]

pub mod blur;
pub mod cells;
pub mod distances;
pub mod pass;
pub mod start;
