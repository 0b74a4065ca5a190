// Whether an aircraft reports, and why.
#![tactic(auto)]

mod airfield;
mod boxes;
pub mod rules;
mod window;

#[derive(Clone, Copy, Debug, PartialEq, Eq)]
pub enum Decision {
    Silent,
    Routine,
    Scheme,
}

// Why, in document 02's order. Boxes and flags are numbered from 1: a box by the lowest number of those that hold the place,
// a flag 5 (ascent), 6 (enroute) or 7 (descent). A digit is named by its section: 3, 6 or 8.
#[derive(Clone, Copy, Debug, PartialEq, Eq)]
pub enum Reason {
    AmdarOff,
    Hours,
    InhibitingBox(u8),
    NoReportingBox,
    FlagOn(u8),
    Digit(u8),
    FlagOff(u8),
    AirfieldInhibited,
    AirfieldNotSelected,
}
