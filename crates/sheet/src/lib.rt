// The other status sheet, AMDARSTATUS3: 24 lines, 913 bytes. Nothing here is a command's, and no command acts on its record.
#![tactic(auto)]

pub mod cells;
pub mod check;
mod fine;
mod number;
pub mod read;
pub mod write;

// A number's range: how far below zero it may be, and from what to what else.
#[derive(Clone, Copy, Debug, PartialEq, Eq)]
pub struct Limits {
    pub below: usize,
    pub least: usize,
    pub most: usize,
}

// How a field is spelt: a name of so many bytes; `D` or `R`; a digit up to a greatest; a number in so many bytes.
#[derive(Clone, Copy, Debug, PartialEq, Eq)]
pub enum Form {
    Name(usize),
    Switch,
    Digit(usize),
    Number(usize, Limits),
}

// A fixed group at a place, the field behind it, and CR LF where they end a line.
#[derive(Clone, Copy, Debug, PartialEq, Eq)]
pub struct Cell {
    pub at: usize,
    pub labelled: usize,
    pub label: [u8; 16],
    pub form: Form,
    pub ends: bool,
}

// What one pass over a number's bytes finds: how many spaces they begin with, how many digits there are, and what they spell.
#[derive(Clone, Copy, Debug, PartialEq, Eq)]
pub struct Found {
    pub spaces: usize,
    pub digits: usize,
    pub value: usize,
}

// What a cell holds of a record: a word, or the bytes of a name.
#[derive(Clone, Copy, Debug, PartialEq, Eq)]
pub struct Held {
    pub word: u16,
    pub name: [u8; 6],
}

// The record. Its words are C's int16_t: a number below zero is 65536 less its size. Lines 2 to 4, then ten boxes of five words, the
// designator, and fifty airports of five bytes, 1 to 50.
#[repr(C)]
#[derive(Clone, Copy, Debug, PartialEq, Eq)]
pub struct Sheet {
    pub numbers: [u16; 16],
    pub boxes: [u16; 50],
    pub designator: [u8; 6],
    pub airports: [u8; 250],
}
