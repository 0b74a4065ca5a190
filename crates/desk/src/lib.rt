// The calls of the host program, which `desk_c` exports to C. Each takes numbers and byte strings, and its answer is made of numbers.
#![tactic(auto)]

mod answers;
mod board_calls;
mod command_calls;
mod commute_calls;
mod config_calls;
mod decide_calls;
mod difference_calls;
mod gust_calls;
mod join_calls;
mod journal_calls;
mod office_calls;
mod packed_calls;
mod report_calls;
mod section_calls;
mod sheet_calls;
mod tails_calls;
mod track_calls;

pub use board_calls::{esk_board_add, esk_board_check, esk_board_take};
use caller::HostReport;
use command::Command;
pub use command_calls::{esk_command_check, esk_command_read, esk_command_write};
pub use commute_calls::esk_commute;
pub use config_calls::{esk_apply, esk_reset, esk_settings_valid};
pub use decide_calls::{esk_decide, esk_explain};
pub use difference_calls::esk_difference;
pub use gust_calls::esk_gust;
pub use join_calls::esk_join;
pub use journal_calls::{
    esk_journal_add, esk_journal_check, esk_journal_drop, esk_journal_last, esk_journal_print,
    esk_journal_replay,
};
pub use office_calls::esk_office_add;
pub use packed_calls::{esk_packed_read, esk_packed_write};
pub use report_calls::{esk_report_check, esk_report_read, esk_report_write};
pub use section_calls::esk_section;
use sheet::Sheet;
pub use sheet_calls::{esk_sheet_check, esk_sheet_read, esk_sheet_write};
pub use tails_calls::{esk_tails_add, esk_tails_find, esk_tails_make, esk_tails_take};
use track::HostPoint;
pub use track_calls::esk_report_track;

// The answer of a call that checks or writes.
#[repr(C)]
#[derive(Clone, Copy)]
pub struct Answer {
    pub place: usize,
    pub length: u32,
    pub code: u8,
    pub text: u8,
    pub spare: u16,
}

// The answer of reading a packed field.
#[repr(C)]
#[derive(Clone, Copy)]
pub struct PackedAnswer {
    pub number: i32,
    pub place: u16,
    pub code: u8,
    pub given: u8,
}

// The answer of reading a report.
#[repr(C)]
#[derive(Clone, Copy)]
pub struct ReportAnswer {
    pub answer: Answer,
    pub report: HostReport,
}

// The answer of following a report: a point for each present observation; those from the count on are all 0.
#[repr(C)]
#[derive(Clone, Copy)]
pub struct HostTrack {
    pub answer: Answer,
    pub count: u32,
    pub spare: u32,
    pub points: [HostPoint; 8],
}

// The answer of reading a status sheet.
#[repr(C)]
#[derive(Clone, Copy)]
pub struct SheetAnswer {
    pub answer: Answer,
    pub sheet: Sheet,
    pub spare: u32,
}

// The answer of reading a command.
#[repr(C)]
#[derive(Clone, Copy)]
pub struct CommandAnswer {
    pub answer: Answer,
    pub command: Command,
}

// The answer of applying a command: the digit where it is accepted.
#[repr(C)]
#[derive(Clone, Copy)]
pub struct HostApplied {
    pub place: usize,
    pub code: u8,
    pub downlink: u8,
    pub spare: u16,
    pub rest: u32,
}

// The answer of why: the decision, and the reason with its number, both 0 in a refusal.
#[repr(C)]
#[derive(Clone, Copy)]
pub struct HostExplained {
    pub place: usize,
    pub code: u8,
    pub decision: u8,
    pub reason: u8,
    pub number: u8,
    pub spare: u32,
}

// The answer of whether to report: 0 silent, 1 routine, 2 scheme.
#[repr(C)]
#[derive(Clone, Copy)]
pub struct HostDecided {
    pub place: usize,
    pub code: u8,
    pub decision: u8,
    pub spare: u16,
    pub rest: u32,
}

// The answer of whether two commands may be sent either way round: yes 1 or 0, and a bit for each flag and section that both set
// differently. All are 0 in a refusal.
#[repr(C)]
#[derive(Clone, Copy)]
pub struct HostCommute {
    pub place: usize,
    pub code: u8,
    pub text: u8,
    pub yes: u8,
    pub flags: u8,
    pub sections: u8,
    pub spare: u8,
    pub rest: u16,
}

// The answer of a search through a board's list: the slot, and how many of the list come before the aircraft. Where none waits for it
// the code is 11 and the slot 0; both are 0 in another refusal.
#[repr(C)]
#[derive(Clone, Copy)]
pub struct HostTail {
    pub place: usize,
    pub code: u8,
    pub slot: u8,
    pub at: u8,
    pub spare: u8,
    pub rest: u32,
}

// The answer of what differs between two configurations: how many flags and sections, and which. Flags are 1 to 7, a section is 10 and
// its number; entries from the count on are 0, all in a refusal.
#[repr(C)]
#[derive(Clone, Copy)]
pub struct HostDiffering {
    pub answer: Answer,
    pub count: u8,
    pub items: [u8; 15],
}

// The answer of a step from the end of a journal: where an entry starts, where its text does and how long that is. `given` is 0
// where no entry is left, and in a refusal.
#[repr(C)]
#[derive(Clone, Copy)]
pub struct HostEntry {
    pub place: usize,
    pub offset: usize,
    pub text: usize,
    pub length: u32,
    pub code: u8,
    pub given: u8,
    pub spare: u16,
}

// The answer of finding a section: where its part of the text begins and how long it is, both 0 where it isn't named; or the
// refusal's place, and no length.
#[repr(C)]
#[derive(Clone, Copy)]
pub struct HostPart {
    pub place: usize,
    pub length: u32,
    pub code: u8,
    pub spare: u8,
    pub rest: u16,
}

// The answer of esk_gust: tenths of a metre a second, 0 in a refusal. The place of a refusal is always 0.
#[repr(C)]
#[derive(Clone, Copy)]
pub struct HostGust {
    pub gust: i32,
    pub code: u8,
    pub spare: u8,
    pub rest: u16,
}
