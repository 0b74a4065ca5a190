// The uplink command of document 01.
#![tactic(auto)]

pub mod check;
pub mod read;

use settings::Settings;

// The longest text: the first 22 bytes and every section at its longest.
pub const LONGEST: usize = 845;

// What a command carries: flags 0, 1 or 9 (no change), the sections that it names, all others zero; the downlink digit;
// and for each section number from 2 on, that number where the section is named, else 0; `spare` is 0.
#[repr(C)]
#[derive(Clone, Copy)]
pub struct Command {
    pub settings: Settings,
    pub downlink: u8,
    pub named: [u8; 8],
    pub spare: u8,
}
