// Flood and expansion, rules 1 to 5.

#![tactic(auto)]

mod floods;
pub mod grow;
pub mod turns;
