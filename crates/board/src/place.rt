// A command that is added: joined onto what waits, or put into the lowest free slot.
ghost use Rattle.std.specs.Prelude.{◌≡◌, ◌*◌, ◌+◌, ◌≤◌, ◌<◌, length};
ghost use Rattle.text.specs.Over.{over};
ghost use Rattle.board.specs.Lent.{on_area};
ghost use Rattle.board.specs.Inner.{stored_for, done_to, done_of, own_move, free_move, add_move};
ghost use Rattle.command.specs.Text.{longest};
ghost use Rattle.board.specs.Board.{most_slots};

use crate::hand::fits_at;
use crate::{Findings, Slot, Stored, Wanted};
use command::LONGEST;
use command::check::check;
use join::join_texts;
use text::{Code, Refusal, copy};

// A text of n bytes then waits in slot i.
fn stored(i: usize, n: usize, designator: [u8; 6]) -> Stored
    requires { n ≤ longest }
    ensures { result ≡ stored_for designator i n n }
{
    let length = n as u16;
    Stored {
        length,
        at: i,
        slot: Slot { designator, length },
    }
}

// Writes a text over slot i's part of the area.
fn put_at(i: usize, t: &[u8], area: &mut [u8])
    requires { (i < most_slots) × (length t.now ≤ longest) × (longest * i + longest ≤ length area.old) }
    ensures { area.new ≡ over area.old (longest * i) t.now }
{
    let at = LONGEST * i;
    let end = at + LONGEST;
    copy(&mut area[at..end], t);
}

// Joins the command onto the text of n bytes that waits in slot i.
#[tactic(auto, unfolding(crate::specs::Inner::own_move))]
fn join_onto(
    i: usize,
    n: usize,
    designator: [u8; 6],
    area: &mut [u8],
    t: &[u8],
) -> Result<Stored, Refusal>
    ensures { (result ≡ done_to designator (own_move i n designator area.old t.now))
        × (area.new ≡ on_area (own_move i n designator area.old t.now) area.old) }
{
    if !fits_at(i, n, area.len()) {
        return Err(Code::BoardInvalid.at(0));
    }
    let at = LONGEST * i;
    let end = at + n;
    let mut joined = [0u8; LONGEST];
    match join_texts(&area[at..end], t, &mut joined) {
        Err(_) => Err(Code::BoardInvalid.at(0)),
        Ok(m) => {
            put_at(i, &joined[..m], area);
            Ok(stored(i, m, designator))
        }
    }
}

// Puts the command into slot i, the lowest free one.
#[tactic(auto, unfolding(crate::specs::Inner::free_move))]
fn put_free(i: usize, designator: [u8; 6], area: &mut [u8], t: &[u8]) -> Result<Stored, Refusal>
    ensures { (result ≡ done_to designator (free_move i designator area.old t.now))
        × (area.new ≡ on_area (free_move i designator area.old t.now) area.old) }
{
    let n = t.len();
    if !fits_at(i, n, area.len()) {
        return Err(Code::BoardInvalid.at(0));
    }
    put_at(i, t, area);
    Ok(stored(i, n, designator))
}

// Adding: 10, 4, the command's own refusals; then join, or the lowest free slot, or 9.
#[tactic(auto, unfolding(crate::specs::Inner::add_move))]
pub fn place_text(v: Findings, w: Wanted, area: &mut [u8], t: &[u8]) -> Result<Stored, Refusal>
    ensures { (result ≡ done_of w (add_move v w area.old t.now))
        × (area.new ≡ on_area (add_move v w area.old t.now) area.old) }
{
    if !v.valid {
        return Err(Code::BoardInvalid.at(0));
    }
    let designator = w.ok_or(Code::NotAllowed.at(0))?;
    check(t)?;
    if let Some(own) = v.own {
        return join_onto(own, v.length as usize, designator, area, t);
    }
    if let Some(free) = v.free {
        return put_free(free, designator, area, t);
    }
    Err(Code::BoardFull.at(0))
}
