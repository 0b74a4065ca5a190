// Document 02, §7: one section of a command as a part of the caller's own text, found from the header and the counts alone.
#![tactic(auto)]

pub mod find;
mod pass;

// Where a section stands in a text and how long it is, both 0 where the text doesn't name it.
#[derive(Clone, Copy, Debug, PartialEq, Eq)]
pub struct Part {
    pub at: usize,
    pub length: usize,
}
