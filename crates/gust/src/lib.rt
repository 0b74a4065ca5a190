// The derived equivalent gust of document 02, §10, in tenths of a metre a second.
#![tactic(auto)]

pub mod answer;
mod floor;
mod formula;
mod rows;

// A type of aircraft: its constants as whole numbers, 1000·c1, 1,000,000·c2, 1000·c3, 100·c4 and 1000·c5, and its
// reference mass in kilograms.
#[derive(Clone, Copy, Debug, PartialEq, Eq)]
pub struct Row {
    pub c1: i64,
    pub c2: i64,
    pub c3: i64,
    pub c4: i64,
    pub c5: i64,
    pub reference: i64,
}
