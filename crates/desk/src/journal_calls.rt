// The journal, in the first `end` bytes of a buffer that the caller lends.
ghost use Rattle.std.specs.Prelude.{◌≡◌, ◌≤◌, length};
ghost use Rattle.journal.specs.Journal.{last_entry};
ghost use Rattle.journal.specs.Calls.{check_journal, added, added_over, dropped, replayed};
ghost use Rattle.journal.specs.Printed.{print_told, printed_over};
ghost use Rattle.desk.specs.Numbers.{check_numbers, length_numbers};
ghost use Rattle.desk.specs.Journal.{entry_numbers, replay_numbers, kept_replay, Held};

use crate::answers::{accepted, numbers, refused};
use crate::{Answer, HostEntry};
use journal::add::add;
use journal::check::check_journal;
use journal::print::print;
use journal::remove::drop_last;
use journal::replay::replay;
use journal::step::last;
use settings::Settings;
use text::Refusal;

// What is printed of 65,535 bytes is less than twice as long.
fn narrow(n: usize) -> u32
    requires { n ≤ 131070 }
    ensures { result ≡ n }
{
    n as u32
}

fn journal_answer(told: Result<usize, Refusal>) -> Answer
    requires { Held told }
    ensures { result ≡ length_numbers told }
{
    match told {
        Ok(n) => accepted(narrow(n)),
        Err(r) => refused(r),
    }
}

pub fn esk_journal_check(journal: &[u8], end: usize) -> Answer
    ensures { result ≡ check_numbers (check_journal journal.now end) }
{
    numbers(check_journal(journal, end), 0)
}

// One entry from the end: the next call is asked with `end` at the offset of this one's answer.
pub fn esk_journal_last(journal: &[u8], end: usize) -> HostEntry
    ensures { result ≡ entry_numbers (last_entry journal.now end) }
{
    match last(journal, end) {
        Ok(Some(entry)) => HostEntry {
            place: 0,
            offset: entry.at,
            text: entry.at + 6,
            length: narrow(entry.length),
            code: 0,
            given: 1,
            spare: 0,
        },
        Ok(None) => no_entry(0, 0),
        Err(r) => no_entry(r.code.number(), r.place),
    }
}

// No entry, with a code and a place.
fn no_entry(code: u8, place: usize) -> HostEntry
    ensures { result ≡ record { place = place; offset = 0; text = 0; length = 0; code = code; given = 0; spare = 0 } }
{
    HostEntry {
        place,
        offset: 0,
        text: 0,
        length: 0,
        code,
        given: 0,
        spare: 0,
    }
}

pub fn esk_journal_add(journal: &mut [u8], end: usize, designator: &[u8], text: &[u8]) -> Answer
    ensures { (result ≡ length_numbers (added journal.old end designator.now text.now))
        × (journal.new ≡ added_over journal.old end designator.now text.now) }
{
    journal_answer(add(journal, end, designator, text))
}

pub fn esk_journal_drop(journal: &[u8], end: usize, count: usize) -> Answer
    ensures { result ≡ length_numbers (dropped journal.now end count) }
{
    journal_answer(drop_last(journal, end, count))
}

pub fn esk_journal_print(journal: &[u8], end: usize, out: &mut [u8]) -> Answer
    ensures { (result ≡ length_numbers (print_told journal.now end (length out.old)))
        × (out.new ≡ printed_over journal.now end out.old) }
{
    journal_answer(print(journal, end, out))
}

// In place: a refusal stores nothing.
pub fn esk_journal_replay(
    settings: &mut Settings,
    journal: &[u8],
    end: usize,
    designator: &[u8],
) -> Answer
    ensures { (result ≡ replay_numbers (replayed journal.now end designator.now))
        × (settings.new ≡ kept_replay settings.old (replayed journal.now end designator.now)) }
{
    match replay(journal, end, designator) {
        Ok(replayed) => {
            *settings = replayed;
            accepted(0)
        }
        Err(r) => refused(r),
    }
}
