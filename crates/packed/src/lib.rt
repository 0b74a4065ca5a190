// The packed field of document 01: a figure in base 40, given or missing, in 1 to 5 bytes.
#![tactic(auto)]

pub mod decode;
pub mod read;
pub mod sign;
pub mod table;
pub mod write;

// What a field or a record holds: a number, or that there is none.
pub type Figure = Option<i32>;

// A field as it is decoded without a branch: whether it is a missing figure or a given one, and which number that is.
// The number of any other field says nothing.
#[derive(Clone, Copy, Debug, PartialEq, Eq)]
pub struct Decoded {
    pub missing: bool,
    pub given: bool,
    pub figure: i32,
}
