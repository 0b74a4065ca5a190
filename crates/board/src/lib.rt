// The board of commands that wait for aircraft out of coverage.
#![tactic(auto)]

pub mod hand;
pub mod look;
pub mod place;
pub mod scan;

// The most slots of a board.
pub const MOST_SLOTS: usize = 64;

// One slot: for which aircraft, and how long the text is that waits. Length 0 is free.
#[repr(C)]
#[derive(Clone, Copy, Debug, PartialEq, Eq)]
pub struct Slot {
    pub designator: [u8; 6],
    pub length: u16,
}

// The aircraft that a call is about; none where its designator is not six allowed bytes.
pub type Wanted = Option<[u8; 6]>;

// What one look over the slots finds. `own` is the slot that waits for the aircraft and `length` its text's, `free` the
// lowest free slot.
#[derive(Clone, Copy, Debug, PartialEq, Eq)]
pub struct Findings {
    pub valid: bool,
    pub length: u16,
    pub own: Option<usize>,
    pub free: Option<usize>,
}

// What a call did: the length of the text that then waits or is handed over, and the slot that is then stored at `at`.
#[derive(Clone, Copy, Debug, PartialEq, Eq)]
pub struct Stored {
    pub length: u16,
    pub at: usize,
    pub slot: Slot,
}
