// The journal, in the first `end` bytes of a buffer that the caller lends.
ghost use Rattle.std.specs.Prelude.{◌≡◌, length};
ghost use Rattle.journal.specs.Journal.{last_entry};
ghost use Rattle.journal.specs.Calls.{check_journal, added, added_over, dropped, replayed};
ghost use Rattle.journal.specs.Printed.{print_told, printed_over};
ghost use Rattle.desk.specs.Numbers.{check_numbers, length_numbers};
ghost use Rattle.desk.specs.Journal.{entry_numbers, replay_numbers, kept_replay};

use desk::{Answer, HostEntry};
use settings::Settings;

#[unsafe(no_mangle)]
pub extern "C" fn esk_journal_check(journal: &[u8], end: usize) -> Answer
    ensures { result ≡ check_numbers (check_journal journal.now end) }
{
    desk::esk_journal_check(journal, end)
}

// One entry from the end: the next call is asked with `end` at the offset of this one's answer.
#[unsafe(no_mangle)]
pub extern "C" fn esk_journal_last(journal: &[u8], end: usize) -> HostEntry
    ensures { result ≡ entry_numbers (last_entry journal.now end) }
{
    desk::esk_journal_last(journal, end)
}

#[unsafe(no_mangle)]
pub extern "C" fn esk_journal_add(
    journal: &mut [u8],
    end: usize,
    designator: &[u8],
    text: &[u8],
) -> Answer
    ensures { (result ≡ length_numbers (added journal.old end designator.now text.now))
        × (journal.new ≡ added_over journal.old end designator.now text.now) }
{
    desk::esk_journal_add(journal, end, designator, text)
}

#[unsafe(no_mangle)]
pub extern "C" fn esk_journal_drop(journal: &[u8], end: usize, count: usize) -> Answer
    ensures { result ≡ length_numbers (dropped journal.now end count) }
{
    desk::esk_journal_drop(journal, end, count)
}

#[unsafe(no_mangle)]
pub extern "C" fn esk_journal_print(journal: &[u8], end: usize, out: &mut [u8]) -> Answer
    ensures { (result ≡ length_numbers (print_told journal.now end (length out.old)))
        × (out.new ≡ printed_over journal.now end out.old) }
{
    desk::esk_journal_print(journal, end, out)
}

// In place: a refusal stores nothing.
#[unsafe(no_mangle)]
pub extern "C" fn esk_journal_replay(
    settings: &mut Settings,
    journal: &[u8],
    end: usize,
    designator: &[u8],
) -> Answer
    ensures { (result ≡ replay_numbers (replayed journal.now end designator.now))
        × (settings.new ≡ kept_replay settings.old (replayed journal.now end designator.now)) }
{
    desk::esk_journal_replay(settings, journal, end, designator)
}
