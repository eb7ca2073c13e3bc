// The pool of neighbour lists, and one merge over it.

#![tactic(auto)]

mod absorb;
mod bearers;
mod build;
mod carry;
mod links;
mod lists;
mod own;
mod regions;
mod relist;
mod rename;

pub use crate::bearers::next_of;
pub use crate::lists::many;
pub use crate::regions::merge_regions;
pub use crate::relist::len_of;

// Where the lists are in the pool: the half that has them, the other one, how many numbers a half has, where the lists end; and where the links of
// their places are, past all that the records have.
#[derive(Clone, Copy)]
pub struct Half {
    pub now: usize,
    pub other: usize,
    pub size: usize,
    pub top: usize,
    pub links: usize,
}

// The record that absorbs, and which entry of its list is the absorbed one's id; the record that is absorbed, and which entry of its list is
// the absorber's.
#[derive(Clone, Copy)]
pub struct Pair {
    pub absorber: usize,
    pub entry: usize,
    pub absorbed: usize,
    pub back: usize,
}

// An id, and the one that it becomes.
#[derive(Clone, Copy)]
pub struct Renaming {
    pub old: u16,
    pub new: u16,
}
