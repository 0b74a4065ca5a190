// The waiting board, over the caller's own slots and text area.
ghost use Rattle.std.specs.Prelude.{◌≡◌, length};
ghost use Rattle.board.specs.Board.{reply_of};
ghost use Rattle.board.specs.Lent.{add_lent, take_lent, is_valid_lent, on_slots, on_area, on_out};
ghost use Rattle.board.specs.Inner.{stored_in};
ghost use Rattle.desk.specs.Waiting.{reply_numbers, board_numbers, stored_numbers};

use crate::Answer;
use crate::answers::{accepted, refused, refused_by};
use board::hand::hand_over;
use board::look::{nobody, wanted};
use board::place::place_text;
use board::scan::{look_over, set_slot};
use board::{Slot, Stored};
use text::{Code, Refusal};

// The answer of what was done.
pub fn stored_answer(done: Result<Stored, Refusal>) -> Answer
    ensures { result ≡ stored_numbers done }
{
    match done {
        Ok(stored) => accepted(stored.length as u32),
        Err(r) => refused(r),
    }
}

// Stores the slot; a refusal stores none.
pub fn store(slots: &mut [Slot], done: Result<Stored, Refusal>)
    ensures { slots.new ≡ stored_in done slots.old }
{
    if let Ok(stored) = done {
        set_slot(slots, stored.at, stored.slot);
    }
}

// Whether a board, or the list beside it, is valid.
pub fn checked(valid: bool) -> Answer
    ensures { result ≡ board_numbers valid }
{
    if valid {
        accepted(0)
    } else {
        refused_by(Code::BoardInvalid)
    }
}

pub fn esk_board_check(slots: &[Slot], area: &[u8]) -> Answer
    ensures { result ≡ board_numbers (is_valid_lent slots.now area.now) }
{
    checked(look_over(slots, area, nobody()).valid)
}

pub fn esk_board_add(slots: &mut [Slot], area: &mut [u8], designator: &[u8], text: &[u8]) -> Answer
    ensures { (result ≡ reply_numbers (reply_of (add_lent slots.old area.old designator.now text.now)))
        × (slots.new ≡ on_slots (add_lent slots.old area.old designator.now text.now) slots.old)
        × (area.new ≡ on_area (add_lent slots.old area.old designator.now text.now) area.old) }
{
    let w = wanted(designator);
    let v = look_over(slots, area, w);
    let done = place_text(v, w, area, text);
    store(slots, done);
    stored_answer(done)
}

pub fn esk_board_take(slots: &mut [Slot], area: &[u8], designator: &[u8], out: &mut [u8]) -> Answer
    ensures { (result ≡ reply_numbers (reply_of (take_lent slots.old area.now designator.now (length out.old))))
        × (slots.new ≡ on_slots (take_lent slots.old area.now designator.now (length out.old)) slots.old)
        × (out.new ≡ on_out (take_lent slots.old area.now designator.now (length out.old)) out.old) }
{
    let w = wanted(designator);
    let v = look_over(slots, area, w);
    let done = hand_over(v, w, area, out);
    store(slots, done);
    stored_answer(done)
}
