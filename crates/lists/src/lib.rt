// The counted lists of a command: airfields and boxes. Unused entries of a record are zero.
#![tactic(auto)]

use field::Region;

pub mod check;
pub mod read;
pub mod record;
pub mod write;

pub const MOST_BOXES: usize = 16;

pub const MOST_AIRFIELDS: usize = 20;
// The bytes of their names.
pub const NAME_BYTES: usize = 4 * MOST_AIRFIELDS;

#[repr(C)]
#[derive(Clone, Copy, Debug, PartialEq, Eq)]
pub struct Airfields {
    pub count: u8,
    pub names: [u8; NAME_BYTES],
}

#[repr(C)]
#[derive(Clone, Copy, Debug, PartialEq, Eq)]
pub struct Boxes {
    pub count: u8,
    pub regions: [Region; MOST_BOXES],
}
