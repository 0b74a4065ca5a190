// The onboard configuration that a command changes.
#![tactic(auto)]

pub mod applying;
pub mod flags;

use settings::Settings;

// What applying a command gives: the downlink digit that it asks for and the settings afterwards.
#[derive(Clone, Copy)]
pub struct Applied {
    pub downlink: u8,
    pub settings: Settings,
}
