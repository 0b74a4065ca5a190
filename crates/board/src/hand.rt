// What is handed over.
ghost use Rattle.std.specs.Prelude.{◌≡◌, ◌*◌, ◌+◌, ◌≤◌, ◌<◌, length};
ghost use Rattle.text.specs.Parts.{part};
ghost use Rattle.text.specs.Over.{over};
ghost use Rattle.board.specs.Board.{most_slots};
ghost use Rattle.board.specs.Lent.{on_out};
ghost use Rattle.board.specs.Inner.{fits_at, done_of, take_move};
ghost use Rattle.command.specs.Text.{longest};

use crate::{Findings, MOST_SLOTS, Slot, Stored, Wanted};
use command::LONGEST;
use text::{Code, Refusal, copy};

// Whether slot i, with n bytes, lies in the area.
pub fn fits_at(i: usize, n: usize, bytes: usize) -> bool
    ensures { result ≡ fits_at i n bytes }
{
    i < MOST_SLOTS && n <= LONGEST && LONGEST * i + LONGEST <= bytes
}

// A slot's text, copied to the start of `out`.
#[tactic(auto, unfolding(text::specs::Over::over))]
fn put_text(i: usize, n: usize, area: &[u8], out: &mut [u8])
    requires { (i < most_slots) × (n ≤ longest) × (longest * i + longest ≤ length area.now) × (n ≤ length out.old) }
    ensures { out.new ≡ over out.old 0 (part (longest * i) n area.now) }
{
    let at = LONGEST * i;
    let end = at + n;
    copy(out, &area[at..end]);
}

// Taking: 10, 4, 11, 2; then exactly what waits is copied out, and the aircraft's own slot is freed: its designator stays.
#[tactic(auto, unfolding(crate::specs::Inner::take_move))]
pub fn hand_over(v: Findings, w: Wanted, area: &[u8], out: &mut [u8]) -> Result<Stored, Refusal>
    ensures { (result ≡ done_of w (take_move v w area.now (length out.old)))
        × (out.new ≡ on_out (take_move v w area.now (length out.old)) out.old) }
{
    if !v.valid {
        return Err(Code::BoardInvalid.at(0));
    }
    let designator = w.ok_or(Code::NotAllowed.at(0))?;
    let own = v.own.ok_or(Code::NothingWaits.at(0))?;
    let n = v.length as usize;
    if out.len() < n {
        return Err(Code::NoRoom.at(0));
    }
    if !fits_at(own, n, area.len()) {
        return Err(Code::BoardInvalid.at(0));
    }
    put_text(own, n, area, out);
    Ok(Stored {
        length: v.length,
        at: own,
        slot: Slot {
            designator,
            length: 0,
        },
    })
}
