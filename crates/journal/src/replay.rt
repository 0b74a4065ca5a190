// What configuration an aircraft has after the commands of a journal.
//
// The walk goes from the newest entry to the oldest, and commands act from the oldest on. So each older command of the aircraft is joined
// before those that were read already: one command that acts as all of them, no longer than any. It is applied once, to the configuration
// after reset.
ghost use Rattle.std.specs.Prelude.{◌≡◌, true, ◌+◌, ◌≤◌, length, take, Ok};
ghost use Rattle.command.specs.Text.{longest, check_command};
ghost use Rattle.join.specs.Join.{join_text, no_change_text};
ghost use Rattle.journal.specs.Journal.{is_entry, entry_at};
ghost use Rattle.journal.specs.Calls.{replayed};
ghost use Rattle.journal.specs.Inner.{joined_at, Holds, Gathered};

use crate::step::last;
use command::LONGEST;
use config::applying::apply;
use join::join_texts;
use settings::Settings;
use settings::reset::after_reset;
use text::{Code, Refusal, copy, is_designator, same_bytes};

// The command that changes nothing, over the start of `later`.
fn put_no_change(later: &mut [u8]) -> usize
    requires { length later.old ≡ longest }
    ensures { Holds later.new result no_change_text }
{
    copy(later, b"AWR049999999000000000/");
    22
}

// The texts of one entry and of what was read already, joined into `later`.
fn join_before(text: &[u8], later: &mut [u8], m: usize) -> usize
    requires { (check_command text.now ≡ Ok tt) × Holds later.old m (take m later.old) }
    ensures { Holds later.new result (join_text text.now (take m later.old)) }
{
    let mut joined = [0u8; LONGEST];
    match join_texts(text, &later[..m], &mut joined) {
        Err(_) => m,
        Ok(n) => {
            copy(later, &joined[..n]);
            n
        }
    }
}

// One entry more: where it is for the aircraft its command comes before what was read already.
#[tactic(auto, unfolding(crate::specs::Inner::joined_at))]
fn joined_at(
    journal: &[u8],
    designator: &[u8],
    at: usize,
    n: usize,
    later: &mut [u8],
    m: usize,
) -> usize
    requires n_in_bounds { (at + 6 + n ≤ length journal.now) × (is_entry (entry_at journal.now at n) ≡ true) }
    requires holds { Holds later.old m (take m later.old) }
    ensures { Holds later.new result (joined_at journal.now designator.now at n (take m later.old)) }
{
    let text = at + 6;
    let end = text + n;
    if same_bytes(designator, &journal[at..text]) {
        join_before(&journal[text..end], later, m)
    } else {
        m
    }
}

// One command that acts as all that were taken for the aircraft, over the start of `later`.
fn joined_back(
    journal: &[u8],
    end: usize,
    designator: &[u8],
    later: &mut [u8],
) -> Result<usize, Refusal>
    requires { length later.old ≡ longest }
    ensures { Gathered journal.now designator.now end result later.new }
{
    let mut here = end;
    let mut m = put_no_change(later);
    while let Some(entry) = last(journal, here)? {
        m = joined_at(journal, designator, entry.at, entry.length, later, m);
        here = entry.at;
    }
    Ok(m)
}

// 14, then the designator (4 at 0).
pub fn replay(journal: &[u8], end: usize, designator: &[u8]) -> Result<Settings, Refusal>
    ensures { result ≡ replayed journal.now end designator.now }
{
    let mut later = [0u8; LONGEST];
    let m = joined_back(journal, end, designator, &mut later)?;
    if !is_designator(designator) {
        return Err(Code::NotAllowed.at(0));
    }
    let applied = apply(after_reset(), &later[..m])?;
    Ok(applied.settings)
}
