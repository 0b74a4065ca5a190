// Dropping the last entries.
ghost use Rattle.std.specs.Prelude.{◌≡◌};
ghost use Rattle.journal.specs.Journal.{Sound};
ghost use Rattle.journal.specs.Calls.{dropped};
ghost use Rattle.journal.specs.Inner.{kept_at, kept_told};

use crate::Kept;
use crate::step::last;
use text::{Code, Refusal};

// One entry more, that starts at a place.
#[tactic(auto, unfolding(crate::specs::Inner::kept_at))]
fn kept_at(k: Kept, at: usize, n: usize) -> Kept
    ensures { result ≡ kept_at at n k }
{
    if k.wanted == 0 {
        k
    } else {
        Kept {
            wanted: k.wanted - 1,
            end: at,
        }
    }
}

// Where the journal ends, unless it has fewer entries than were to be dropped.
#[tactic(auto, unfolding(crate::specs::Inner::kept_told))]
fn kept_told(k: Kept) -> Result<usize, Refusal>
    ensures { result ≡ kept_told (Sound k) }
{
    if k.wanted == 0 {
        Ok(k.end)
    } else {
        Err(Code::OutOfRange.at(0))
    }
}

// The length that is left without the last `count` entries. The walk goes on to the oldest one, since a broken journal is 14.
pub fn drop_last(journal: &[u8], end: usize, count: usize) -> Result<usize, Refusal>
    ensures { result ≡ dropped journal.now end count }
{
    let mut here = end;
    let mut kept = Kept { wanted: count, end };
    while let Some(entry) = last(journal, here)? {
        kept = kept_at(kept, entry.at, entry.length);
        here = entry.at;
    }
    kept_told(kept)
}
