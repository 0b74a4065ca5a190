// The sections of a command, by their numbers 2 to 9: what each is made of, and its text.
#![tactic(auto)]

pub mod check;
pub mod numbers;
pub mod table;

use text::Code;

// Digits: how many, the least and the most that they spell, and the code of another number.
#[derive(Clone, Copy)]
pub struct Row {
    pub code: Code,
    pub width: u8,
    pub least: u16,
    pub most: u16,
}

// A section: so many lists of boxes, so many of airfields, then digits, as its rows say, `count` of them, and `/`.
#[derive(Clone, Copy)]
pub struct Layout {
    pub boxes: usize,
    pub airfields: usize,
    pub count: usize,
    pub rows: [Row; 8],
}
