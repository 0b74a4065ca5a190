// Whether a journal is sound.
ghost use Rattle.std.specs.Prelude.{◌≡◌};
ghost use Rattle.journal.specs.Calls.{check_journal};

use crate::print::printed_size;
use text::Refusal;

// A broken journal is 14, at the place where reading from its end first fails.
pub fn check_journal(journal: &[u8], end: usize) -> Result<(), Refusal>
    ensures { result ≡ check_journal journal.now end }
{
    printed_size(journal, end)?;
    Ok(())
}
