// The record of flags and sections: what an aircraft holds, and what a command carries of it. Empty, zero, within its limits, reset; each
// section out of its text and into it.
#![tactic(auto)]

use lists::{Airfields, Boxes};

pub mod empty;
pub mod numbers;
pub mod places;
pub mod reset;
pub mod section2;
pub mod section3;
pub mod valid;

// Section 2.
#[repr(C)]
#[derive(Clone, Copy)]
pub struct Regions {
    pub reporting: Boxes,
    pub inhibiting: Boxes,
}

// An airfield list for each phase that has one.
#[repr(C)]
#[derive(Clone, Copy)]
pub struct ByPhase {
    pub ascent: Airfields,
    pub descent: Airfields,
}

// Section 3.
#[repr(C)]
#[derive(Clone, Copy)]
pub struct Airports {
    pub selected: ByPhase,
    pub inhibited: ByPhase,
    pub routine: u8,
}

// Section 4: the interval, and whether the maximum wind is reported.
#[repr(C)]
#[derive(Clone, Copy)]
pub struct Enroute {
    pub interval: u8,
    pub wind: u8,
}

// Section 5.
#[repr(C)]
#[derive(Clone, Copy)]
pub struct Ascent {
    pub mode: u8,
    pub interval1: u8,
    pub duration: u16,
    pub interval2: u8,
    pub total: u8,
    pub top: u16,
    pub list: u8,
    pub timer: u8,
}

// Section 7. The mode is 0 or 1: 16 bits hold it so that nothing stands between the members.
#[repr(C)]
#[derive(Clone, Copy)]
pub struct Descent {
    pub mode: u16,
    pub interval: u16,
    pub top: u16,
    pub list: u8,
    pub timer: u8,
}

// Section 9.
#[repr(C)]
#[derive(Clone, Copy)]
pub struct Hours {
    pub start: u8,
    pub end: u8,
}

// Seven flags and every section.
#[repr(C)]
#[derive(Clone, Copy)]
pub struct Settings {
    pub flags: [u8; 7],
    pub regions: Regions,
    pub airports: Airports,
    pub enroute: Enroute,
    pub ascent: Ascent,
    pub descent: Descent,
    pub routine6: u8,
    pub routine8: u8,
    pub hours: Hours,
}

// The sections of numbers alone, 4 to 9: small enough to be handed on by value, where the lists would be copied.
#[derive(Clone, Copy)]
pub struct Fixed {
    pub enroute: Enroute,
    pub ascent: Ascent,
    pub descent: Descent,
    pub routine6: u8,
    pub routine8: u8,
    pub hours: Hours,
}
