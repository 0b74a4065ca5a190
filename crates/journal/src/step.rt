// One step from the end of a journal, by which every walk over it goes.
ghost use Rattle.std.specs.Prelude.{◌≡◌, ◌+◌, ◌≤◌, length};
ghost use Rattle.journal.specs.Journal.{is_entry, entry_at, length_in, before_trailer, at_trailer, last_entry};

use crate::Entry;
use command::check::check;
use field::record::wide;
use text::{Code, Refusal, is_designator};

// Whether an entry's designator is well formed and its text accepted.
#[tactic(auto, unfolding(crate::specs::Journal::is_entry))]
fn is_entry(journal: &[u8], at: usize, n: usize) -> bool
    requires { at + 6 + n ≤ length journal.now }
    ensures { result ≡ is_entry (entry_at journal.now at n) }
{
    let text = at + 6;
    let end = text + n;
    is_designator(&journal[at..text]) && check(&journal[text..end]).is_ok()
}

// The text's length, high byte first.
fn length_in(journal: &[u8], place: usize) -> usize
    requires { place + 3 ≤ length journal.now }
    ensures { (result ≡ length_in journal.now place) × (result ≤ 65535) }
{
    256 * wide(journal[place]) + wide(journal[place + 1])
}

#[tactic(auto, unfolding(crate::specs::Journal::before_trailer))]
fn before_trailer(journal: &[u8], place: usize, n: usize) -> Result<Option<Entry>, Refusal>
    requires { (place + 3 ≤ length journal.now) × (n ≤ 65535) }
    ensures { result ≡ before_trailer journal.now place n }
{
    if place < 6 + n {
        return Err(Code::JournalBroken.at(place));
    }
    let at = place - (6 + n);
    if !is_entry(journal, at, n) {
        return Err(Code::JournalBroken.at(place));
    }
    Ok(Some(Entry { at, length: n }))
}

#[tactic(auto, using(crate::proofs::Ends::trailer_test), unfolding(crate::specs::Journal::at_trailer))]
fn at_trailer(journal: &[u8], place: usize) -> Result<Option<Entry>, Refusal>
    requires { place + 3 ≤ length journal.now }
    ensures { result ≡ at_trailer journal.now place }
{
    if journal[place + 2] != b'J' {
        return Err(Code::JournalBroken.at(place));
    }
    before_trailer(journal, place, length_in(journal, place))
}

// The entry that ends before byte `end`, or none where no byte is left. A failure is 14, at its place. Its cost is that of the check
// of its one text.
#[tactic(auto, unfolding(crate::specs::Journal::last_entry))]
pub fn last(journal: &[u8], end: usize) -> Result<Option<Entry>, Refusal>
    ensures { result ≡ last_entry journal.now end }
{
    if end == 0 {
        return Ok(None);
    }
    if end < 3 || 65535 < end || journal.len() < end {
        return Err(Code::JournalBroken.at(0));
    }
    at_trailer(journal, end - 3)
}
