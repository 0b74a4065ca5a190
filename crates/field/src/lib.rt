// The fields that a command's sections are made of: numbers, marks, airfields, edges, boxes.
#![tactic(auto)]

pub mod boxes;
pub mod check;
pub mod digits;
mod fine;
pub mod kind;
pub mod read;
pub mod record;
pub mod write;

// How an edge is spelt: its digits, the most degrees, the letter at and above zero, the letter below it.
#[derive(Clone, Copy, Debug, PartialEq, Eq)]
pub struct Circle {
    pub width: usize,
    pub most: usize,
    pub above: u8,
    pub below: u8,
}

// An edge of a box: whole degrees, and on which side of zero they lie, as its letter.
#[repr(C)]
#[derive(Clone, Copy, Debug, PartialEq, Eq)]
pub struct Edge {
    pub degrees: u8,
    pub letter: u8,
}

#[repr(C)]
#[derive(Clone, Copy, Debug, PartialEq, Eq)]
pub struct Region {
    pub north: Edge,
    pub south: Edge,
    pub west: Edge,
    pub east: Edge,
}
