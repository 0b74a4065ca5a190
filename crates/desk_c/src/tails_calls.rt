// The list of a board's used slots in rising order of designator, over the caller's own slots, text area and list: document 02, §9.
ghost use Rattle.std.specs.Prelude.{◌≡◌, length};
ghost use Rattle.board.specs.Board.{reply_of};
ghost use Rattle.board.specs.Lent.{on_slots, on_area, on_out};
ghost use Rattle.tails.specs.Calls.{search_lent, has_list, made_lent, add_listed, take_listed, on_list};
ghost use Rattle.desk.specs.Waiting.{reply_numbers, board_numbers};
ghost use Rattle.desk.specs.Tails.{tail_numbers};

use board::Slot;
use desk::{Answer, HostTail};

#[unsafe(no_mangle)]
pub extern "C" fn esk_tails_find(slots: &[Slot], list: &[u8], designator: &[u8]) -> HostTail
    ensures { result ≡ tail_numbers (search_lent slots.now list.now designator.now) }
{
    desk::esk_tails_find(slots, list, designator)
}

#[unsafe(no_mangle)]
pub extern "C" fn esk_tails_make(slots: &[Slot], list: &mut [u8]) -> Answer
    ensures { (result ≡ board_numbers (has_list slots.now list.old))
        × (list.new ≡ made_lent slots.now list.old) }
{
    desk::esk_tails_make(slots, list)
}

#[unsafe(no_mangle)]
pub extern "C" fn esk_tails_add(
    slots: &mut [Slot],
    area: &mut [u8],
    list: &mut [u8],
    designator: &[u8],
    text: &[u8],
) -> Answer
    ensures { (result ≡ reply_numbers (reply_of (add_listed slots.old area.old list.old designator.now text.now)))
        × (slots.new ≡ on_slots (add_listed slots.old area.old list.old designator.now text.now) slots.old)
        × (area.new ≡ on_area (add_listed slots.old area.old list.old designator.now text.now) area.old)
        × (list.new ≡ on_list (add_listed slots.old area.old list.old designator.now text.now) slots.old list.old) }
{
    desk::esk_tails_add(slots, area, list, designator, text)
}

#[unsafe(no_mangle)]
pub extern "C" fn esk_tails_take(
    slots: &mut [Slot],
    area: &[u8],
    list: &mut [u8],
    designator: &[u8],
    out: &mut [u8],
) -> Answer
    ensures { (result ≡ reply_numbers (reply_of (take_listed slots.old area.now list.old designator.now (length out.old))))
        × (slots.new ≡ on_slots (take_listed slots.old area.now list.old designator.now (length out.old)) slots.old)
        × (list.new ≡ on_list (take_listed slots.old area.now list.old designator.now (length out.old)) slots.old list.old)
        × (out.new ≡ on_out (take_listed slots.old area.now list.old designator.now (length out.old)) out.old) }
{
    desk::esk_tails_take(slots, area, list, designator, out)
}
