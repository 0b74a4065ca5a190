// What the calls do with the list that is lent beside a board, by the keys of its slots.
ghost use Rattle.std.specs.Prelude.{◌≡◌, true, ◌≤◌, ◌<◌, length};
ghost use Rattle.tails.specs.Tails.{below, sorted, all_slots, find_in, list_of, agrees};
ghost use Rattle.tails.specs.Calls.{told_of};
ghost use Rattle.tails.specs.Inner.{is_list_in, sought_among, sought_in, has_list_among, has_list_in, made_among, made_in, held_to, made_again, relisted};

use crate::keys::{Keys, key_of, rank_of};
use crate::list::{is_list, listed_of};
use crate::make::make;
use crate::search::{byte, place_of, slot_at};
use board::{Findings, Slot, Wanted};
use text::Code;

// Where an aircraft waits: its slot, none where nothing waits for it, and how many of the list come before it.
#[derive(Clone, Copy, Debug, PartialEq, Eq)]
pub struct Sought {
    pub slot: Option<u8>,
    pub at: u8,
}

// Whether a list is that of the board with these keys.
#[tactic(auto, unfolding(crate::specs::Inner::is_list_in))]
pub fn is_list_of(k: Keys, list: &[u8]) -> bool
    ensures { result ≡ is_list_in k list.now }
{
    k.count <= 64 && is_list(&k.keys[..k.count], list)
}

// Bisects for a key.
#[tactic(auto, using(crate::proofs::Bisect::middle))]
fn bisect(keys: &[u64], list: &[u8], key: u64) -> Sought
    requires keys_len_bound { (length keys.now ≤ 64) × (length list.now ≤ 64) }
    requires list_value { all_slots (length keys.now) list.now ≡ true }
    requires list_value_2 { sorted keys.now list.now ≡ true }
    ensures { result ≡ told_of (find_in keys.now key list.now) (below keys.now key list.now) }
{
    let at = place_of(keys, list, key);
    Sought {
        slot: slot_at(keys, list, key, at),
        at: byte(at),
    }
}

#[tactic(auto, unfolding(crate::specs::Inner::sought_among))]
fn seek_in(keys: &[u64], list: &[u8], w: Wanted) -> Result<Sought, Code>
    requires { length keys.now ≤ 64 }
    ensures { result ≡ sought_among keys.now list.now w }
{
    if !is_list(keys, list) {
        return Err(Code::BoardInvalid);
    }
    let designator = w.ok_or(Code::NotAllowed)?;
    let m = listed_of(list);
    Ok(bisect(keys, &list[..m], rank_of(designator)))
}

// Searching: 10, 4; where nothing waits no slot is found.
#[tactic(auto, unfolding(crate::specs::Inner::sought_in))]
pub fn seek(k: Keys, list: &[u8], w: Wanted) -> Result<Sought, Code>
    ensures { result ≡ sought_in k list.now w }
{
    if 64 < k.count {
        return Err(Code::BoardInvalid);
    }
    seek_in(&k.keys[..k.count], list, w)
}

// Whether a board has a list: two used slots of one designator have no order.
fn has_list(keys: &[u64]) -> bool
    requires { length keys.now ≤ 64 }
    ensures { result ≡ agrees keys.now (list_of keys.now) }
{
    let n = keys.len();
    let mut made = [0u8; 64];
    make(keys, &mut made[..n]);
    is_list(keys, &made[..n])
}

#[tactic(auto, unfolding(crate::specs::Inner::has_list_among, crate::specs::Inner::made_among))]
fn make_in(keys: &[u64], list: &mut [u8]) -> bool
    requires { length keys.now ≤ 64 }
    ensures { (result ≡ has_list_among keys.now list.old)
        × (list.new ≡ made_among keys.now list.old) }
{
    if list.len() != keys.len() || !has_list(keys) {
        return false;
    }
    make(keys, list);
    true
}

// Makes the list of a board that has one: whether it has.
#[tactic(auto, unfolding(crate::specs::Inner::has_list_in, crate::specs::Inner::made_in))]
pub fn make_list(k: Keys, list: &mut [u8]) -> bool
    ensures { (result ≡ has_list_in k list.old) × (list.new ≡ made_in k list.old) }
{
    if 64 < k.count {
        return false;
    }
    make_in(&k.keys[..k.count], list)
}

// A look at a board with a list that may disagree with it.
pub fn held_to(v: Findings, fits: bool) -> Findings
    ensures { result ≡ held_to v fits }
{
    Findings {
        valid: v.valid & fits,
        ..v
    }
}

#[tactic(auto, unfolding(crate::specs::Inner::made_again))]
fn make_again(keys: &[u64], list: &mut [u8])
    requires { length keys.now ≤ 64 }
    ensures { list.new ≡ made_again keys.now list.old }
{
    if list.len() == keys.len() {
        make(keys, list);
    }
}

// The list after slot i was stored: made again where another aircraft, or none, then waits in it.
#[tactic(auto, unfolding(crate::specs::Inner::relisted))]
pub fn relist(mut k: Keys, list: &mut [u8], fits: bool, i: usize, s: Slot)
    ensures { list.new ≡ relisted k list.old fits i s }
{
    if !fits || 64 < k.count || k.count <= i {
        return;
    }
    let key = key_of(s);
    if k.keys[i] == key {
        return;
    }
    k.keys[i] = key;
    make_again(&k.keys[..k.count], list);
}
