// Rule 3, the expansion of a stack, and rule 5, the last expansion.

#![tactic(auto)]

pub mod expand;
mod flags;
mod look;
mod round;
mod story;
mod tries;

// A stack in the workspace: where its entries begin, and how many they are. An entry is a span, or NO_SPAN once it is used.
#[derive(Clone, Copy)]
pub struct Stack {
    pub at: usize,
    pub fill: usize,
}
