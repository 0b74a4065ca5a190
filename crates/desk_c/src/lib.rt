// The exported calls, for the host program in C: each is the library's call of the same name, with its contract.
#![tactic(auto)]

mod board_calls;
mod command_calls;
mod commute_calls;
mod config_calls;
mod decide_calls;
mod difference_calls;
mod gust_calls;
mod join_calls;
mod journal_calls;
mod office_calls;
mod packed_calls;
mod report_calls;
mod section_calls;
mod sheet_calls;
mod tails_calls;
mod track_calls;
