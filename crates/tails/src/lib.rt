// The list of a board's used slots in rising order of designator: document 02, §9. What it is about is one number for each slot, its
// key: a used slot's designator, six bytes as one number with the first the most significant, and 0 for a free one.
#![tactic(auto)]

pub mod keys;
pub mod lent;
pub mod list;
pub mod make;
pub mod search;
