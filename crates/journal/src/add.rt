// An entry written behind the others.
ghost use Rattle.std.specs.Prelude.{◌≡◌, ◌+◌, ◌≤◌, length};
ghost use Rattle.text.specs.Over.{over};
ghost use Rattle.journal.specs.Journal.{trailer, entry_bytes};
ghost use Rattle.journal.specs.Calls.{taken, added, added_over};
ghost use Rattle.command.specs.Text.{longest};

use crate::check::check_journal;
use command::check::check;
use text::{Code, Refusal, copy, is_designator};

fn put_trailer(n: usize, d: &mut [u8])
    requires { (n ≤ 65535) × (length d.old ≡ 3) }
    ensures { d.new ≡ trailer n }
{
    d[0] = (n / 256) as u8;
    d[1] = (n % 256) as u8;
    d[2] = b'J';
}

// Designator, text and trailer, over the start of `d`.
fn put_entry(designator: &[u8], text: &[u8], d: &mut [u8])
    requires { (length designator.now ≡ 6) × (length text.now ≤ longest) × (9 + length text.now ≤ length d.old) }
    ensures { d.new ≡ over d.old 0 (entry_bytes (taken designator.now text.now)) }
{
    let n = text.len();
    let place = 6 + n;
    let end = place + 3;
    copy(&mut d[0..6], designator);
    copy(&mut d[6..place], text);
    put_trailer(n, &mut d[place..end]);
}

// 14, 4, the command's own refusals, 2; then the entry is written and the journal's new length answered.
#[tactic(auto, unfolding(crate::specs::Calls::added, crate::specs::Calls::added_over, crate::specs::Calls::add_seen, crate::specs::Calls::check_journal))]
pub fn add(journal: &mut [u8], end: usize, designator: &[u8], text: &[u8]) -> Result<usize, Refusal>
    ensures { (result ≡ added journal.old end designator.now text.now)
        × (journal.new ≡ added_over journal.old end designator.now text.now) }
{
    check_journal(journal, end)?;
    if !is_designator(designator) {
        return Err(Code::NotAllowed.at(0));
    }
    check(text)?;
    let new = end + (9 + text.len());
    if 65535 < new || journal.len() < new {
        return Err(Code::NoRoom.at(0));
    }
    put_entry(designator, text, &mut journal[end..]);
    Ok(new)
}
