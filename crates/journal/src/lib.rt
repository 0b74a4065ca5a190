// A journal of the commands that were taken: entries one behind the other, each with its trailer, read from the end.
#![tactic(auto)]

pub mod add;
pub mod check;
pub mod print;
pub mod remove;
pub mod replay;
pub mod step;

// An entry: where it starts and how long its text is.
#[derive(Clone, Copy, Debug, PartialEq, Eq)]
pub struct Entry {
    pub at: usize,
    pub length: usize,
}

// On the way from the end: how many entries are still to be dropped, and where the journal ends without those that were.
#[derive(Clone, Copy, Debug, PartialEq, Eq)]
pub struct Kept {
    pub wanted: usize,
    pub end: usize,
}
