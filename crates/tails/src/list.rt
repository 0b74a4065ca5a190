// Whether a list is that of its board.
ghost use Rattle.std.specs.Prelude.{◌≡◌, true, ◌≤◌, ◌<◌, length, drop, replicate};
ghost use Rattle.tails.specs.Tails.{listed, rises, covers, all_blank, all_slots, agrees};
ghost use Rattle.tails.specs.Inner.{marked, covered_by};

use crate::search::index;

// How many numbers stand before the first 255.
#[tactic(auto, using(crate::proofs::Steps::listing))]
pub fn listed_of(tails: &[u8]) -> usize
    ensures { result ≡ length (listed tails.now) }
{
    for (i, &b) in tails.iter().enumerate() {
        if b == 255 {
            return i;
        }
    }
    tails.len()
}

// Used slots, each after the one before.
#[tactic(auto, using(crate::proofs::Steps::rising))]
fn is_rising(keys: &[u64], list: &[u8]) -> bool
    requires { length keys.now ≤ 64 }
    ensures { result ≡ rises keys.now 0 list.now }
{
    let mut last = 0;
    for &b in list {
        let slot = index(b);
        if keys.len() <= slot || keys[slot] <= last {
            return false;
        }
        last = keys[slot];
    }
    true
}

// A mark for each slot that is listed.
#[tactic(auto, using(crate::proofs::Marks::marking))]
fn marks_of(list: &[u8]) -> [u8; 64]
    requires { all_slots 64 list.now ≡ true }
    ensures { result ≡ marked (replicate 64 0) list.now }
{
    let mut marks = [0u8; 64];
    for &b in list {
        marks[index(b)] = 1;
    }
    marks
}

// Each slot is free or marked.
#[tactic(auto, unfolding(crate::specs::Inner::covered_by))]
fn are_marked(keys: &[u64], marks: &[u8; 64]) -> bool
    requires { length keys.now ≤ 64 }
    ensures { result ≡ covered_by keys.now marks.now (length keys.now) }
{
    let mut fine = true;
    for (i, &key) in keys.iter().enumerate() {
        fine &= (key == 0) | (marks[i] == 1);
    }
    fine
}

#[tactic(auto, using(crate::proofs::Steps::blanks))]
fn is_blank(rest: &[u8]) -> bool
    ensures { result ≡ all_blank rest.now }
{
    for &b in rest {
        if b != 255 {
            return false;
        }
    }
    true
}

// Of its length, rising, with each used slot, and 255 behind them.
pub fn is_list(keys: &[u64], tails: &[u8]) -> bool
    requires { length keys.now ≤ 64 }
    ensures { result ≡ agrees keys.now tails.now }
{
    if tails.len() != keys.len() {
        return false;
    }
    let m = listed_of(tails);
    if !is_rising(keys, &tails[..m]) {
        return false;
    }
    are_marked(keys, &marks_of(&tails[..m])) && is_blank(&tails[m..])
}
