// A command's record, checked and written as its text.
#![tactic(auto)]

pub mod record;
pub mod write;
