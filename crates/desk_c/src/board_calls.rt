// The waiting board, over the caller's own slots and text area.
ghost use Rattle.std.specs.Prelude.{◌≡◌, length};
ghost use Rattle.board.specs.Board.{reply_of};
ghost use Rattle.board.specs.Lent.{is_valid_lent, add_lent, take_lent, on_slots, on_area, on_out};
ghost use Rattle.desk.specs.Waiting.{reply_numbers, board_numbers};

use board::Slot;
use desk::Answer;

#[unsafe(no_mangle)]
pub extern "C" fn esk_board_check(slots: &[Slot], area: &[u8]) -> Answer
    ensures { result ≡ board_numbers (is_valid_lent slots.now area.now) }
{
    desk::esk_board_check(slots, area)
}

#[unsafe(no_mangle)]
pub extern "C" fn esk_board_add(
    slots: &mut [Slot],
    area: &mut [u8],
    designator: &[u8],
    text: &[u8],
) -> Answer
    ensures { (result ≡ reply_numbers (reply_of (add_lent slots.old area.old designator.now text.now)))
        × (slots.new ≡ on_slots (add_lent slots.old area.old designator.now text.now) slots.old)
        × (area.new ≡ on_area (add_lent slots.old area.old designator.now text.now) area.old) }
{
    desk::esk_board_add(slots, area, designator, text)
}

#[unsafe(no_mangle)]
pub extern "C" fn esk_board_take(
    slots: &mut [Slot],
    area: &[u8],
    designator: &[u8],
    out: &mut [u8],
) -> Answer
    ensures { (result ≡ reply_numbers (reply_of (take_lent slots.old area.now designator.now (length out.old))))
        × (slots.new ≡ on_slots (take_lent slots.old area.now designator.now (length out.old)) slots.old)
        × (out.new ≡ on_out (take_lent slots.old area.now designator.now (length out.old)) out.old) }
{
    desk::esk_board_take(slots, area, designator, out)
}
