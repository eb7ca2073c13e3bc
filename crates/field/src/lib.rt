// The field as lent, and where a connection leads.

#![tactic(auto)]

pub mod block;
pub mod lent;
pub mod place;
