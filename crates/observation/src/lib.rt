// One observation of a report: the first, with an absolute position and time, or a later one, with changes.
#![tactic(auto)]

mod byte;
pub mod check;
mod gather;
pub mod part;
mod read;
mod table;
pub mod take;
pub mod write;

use packed::Figure;

// A figure's place in an observation: how wide it is written, and the least and the greatest it may be.
#[derive(Clone, Copy, Debug, PartialEq, Eq)]
pub struct Row {
    pub width: usize,
    pub least: i32,
    pub most: i32,
}

// Where and when: absolute in the first observation, changes since the previous in a later one.
#[derive(Clone, Copy, Debug, PartialEq, Eq)]
pub struct Position {
    pub latitude: Figure,
    pub longitude: Figure,
    pub time: Figure,
}

#[derive(Clone, Copy, Debug, PartialEq, Eq)]
pub struct Air {
    pub altitude: Figure,
    pub temperature: Figure,
    pub direction: Figure,
    pub speed: Figure,
}

#[derive(Clone, Copy, Debug, PartialEq, Eq)]
pub struct Water {
    pub gust: Figure,
    pub vapour: Figure,
    pub quality: u8,
}

#[derive(Clone, Copy, Debug, PartialEq, Eq)]
pub struct Observation {
    pub kind: u8,
    pub position: Position,
    pub air: Air,
    pub water: Water,
}

// What a later observation's part is found to be.
#[derive(Clone, Copy, Debug, PartialEq, Eq)]
pub enum Presence {
    Present,
    Absent,
}
