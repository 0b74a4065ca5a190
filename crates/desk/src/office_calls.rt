// Two offices on the waiting board, over the caller's own slots and text area.
ghost use Rattle.std.specs.Prelude.{◌≡◌};
ghost use Rattle.board.specs.Board.{reply_of};
ghost use Rattle.board.specs.Lent.{on_slots, on_area};
ghost use Rattle.offices.specs.Offices.{office_lent};
ghost use Rattle.desk.specs.Waiting.{reply_numbers};

use crate::Answer;
use crate::board_calls::{store, stored_answer};
use board::Slot;
use board::look::wanted;
use board::scan::look_over;
use offices::{Grant, place_for};

pub fn esk_office_add(
    slots: &mut [Slot],
    area: &mut [u8],
    designator: &[u8],
    text: &[u8],
    own: Grant,
    other: Grant,
) -> Answer
    ensures { (result ≡ reply_numbers (reply_of (office_lent own other slots.old area.old designator.now text.now)))
        × (slots.new ≡ on_slots (office_lent own other slots.old area.old designator.now text.now) slots.old)
        × (area.new ≡ on_area (office_lent own other slots.old area.old designator.now text.now) area.old) }
{
    let w = wanted(designator);
    let v = look_over(slots, area, w);
    let done = place_for(v, w, area, text, own, other);
    store(slots, done);
    stored_answer(done)
}
