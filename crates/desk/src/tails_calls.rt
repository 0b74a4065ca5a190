// The list of a board's used slots in rising order of designator, over the caller's own slots, text area and list: document 02, §9.
ghost use Rattle.std.specs.Prelude.{◌≡◌, length};
ghost use Rattle.board.specs.Board.{reply_of};
ghost use Rattle.board.specs.Lent.{on_slots, on_area, on_out};
ghost use Rattle.tails.specs.Calls.{search_lent, has_list, made_lent, add_listed, take_listed, on_list};
ghost use Rattle.desk.specs.Waiting.{reply_numbers, board_numbers, relisted_by};
ghost use Rattle.desk.specs.Tails.{host_tail, tail_numbers};

use crate::board_calls::{checked, store, stored_answer};
use crate::{Answer, HostTail};
use board::hand::hand_over;
use board::look::wanted;
use board::place::place_text;
use board::scan::look_over;
use board::{Slot, Stored};
use tails::keys::{Keys, keys_of};
use tails::lent::{Sought, held_to, is_list_of, make_list, relist, seek};
use text::{Code, Refusal};

fn host_tail(code: u8, slot: u8, at: u8) -> HostTail
    ensures { result ≡ host_tail code slot at }
{
    HostTail {
        place: 0,
        code,
        slot,
        at,
        spare: 0,
        rest: 0,
    }
}

// Where no slot waits for the aircraft, how many come before it is told all the same.
fn tail_answer(found: Result<Sought, Code>) -> HostTail
    ensures { result ≡ tail_numbers found }
{
    match found {
        Ok(
            Sought {
                slot: Some(slot),
                at,
            },
        ) => host_tail(0, slot, at),
        Ok(Sought { slot: None, at }) => host_tail(Code::NothingWaits.number(), 0, at),
        Err(code) => host_tail(code.number(), 0, 0),
    }
}

// The list after what was done on the board.
fn relist_by(k: Keys, list: &mut [u8], fits: bool, done: Result<Stored, Refusal>)
    ensures { list.new ≡ relisted_by k list.old fits done }
{
    if let Ok(stored) = done {
        relist(k, list, fits, stored.at, stored.slot);
    }
}

pub fn esk_tails_find(slots: &[Slot], list: &[u8], designator: &[u8]) -> HostTail
    ensures { result ≡ tail_numbers (search_lent slots.now list.now designator.now) }
{
    tail_answer(seek(keys_of(slots), list, wanted(designator)))
}

pub fn esk_tails_make(slots: &[Slot], list: &mut [u8]) -> Answer
    ensures { (result ≡ board_numbers (has_list slots.now list.old))
        × (list.new ≡ made_lent slots.now list.old) }
{
    checked(make_list(keys_of(slots), list))
}

pub fn esk_tails_add(
    slots: &mut [Slot],
    area: &mut [u8],
    list: &mut [u8],
    designator: &[u8],
    text: &[u8],
) -> Answer
    ensures { (result ≡ reply_numbers (reply_of (add_listed slots.old area.old list.old designator.now text.now)))
        × (slots.new ≡ on_slots (add_listed slots.old area.old list.old designator.now text.now) slots.old)
        × (area.new ≡ on_area (add_listed slots.old area.old list.old designator.now text.now) area.old)
        × (list.new ≡ on_list (add_listed slots.old area.old list.old designator.now text.now) slots.old list.old) }
{
    let w = wanted(designator);
    let k = keys_of(slots);
    let fits = is_list_of(k, list);
    let v = held_to(look_over(slots, area, w), fits);
    let done = place_text(v, w, area, text);
    relist_by(k, list, fits, done);
    store(slots, done);
    stored_answer(done)
}

pub fn esk_tails_take(
    slots: &mut [Slot],
    area: &[u8],
    list: &mut [u8],
    designator: &[u8],
    out: &mut [u8],
) -> Answer
    ensures { (result ≡ reply_numbers (reply_of (take_listed slots.old area.now list.old designator.now (length out.old))))
        × (slots.new ≡ on_slots (take_listed slots.old area.now list.old designator.now (length out.old)) slots.old)
        × (list.new ≡ on_list (take_listed slots.old area.now list.old designator.now (length out.old)) slots.old list.old)
        × (out.new ≡ on_out (take_listed slots.old area.now list.old designator.now (length out.old)) out.old) }
{
    let w = wanted(designator);
    let k = keys_of(slots);
    let fits = is_list_of(k, list);
    let v = held_to(look_over(slots, area, w), fits);
    let done = hand_over(v, w, area, out);
    relist_by(k, list, fits, done);
    store(slots, done);
    stored_answer(done)
}
