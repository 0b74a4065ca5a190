// The lent run of slots: looked over, and one of them stored.
ghost use Rattle.std.specs.Prelude.{◌≡◌, set, take};
ghost use Rattle.board.specs.Inner.{alone_in, scanned};

use crate::look::{apart, is_looked_at, start, step, until};
use crate::{Findings, Slot, Wanted};

// Whether no slot before slot i, which is `s`, is used for its aircraft: used slots lie low, so there are few.
#[tactic(auto, using(crate::proofs::Found::until_steps))]
pub fn alone(slots: &[Slot], a: Findings, s: Slot, i: usize) -> bool
    ensures { result ≡ alone_in a s (take i slots.now) }
{
    let mut clear = true;
    for &x in &slots[..until(a, s, i, slots.len())] {
        clear = apart(clear, x, s);
    }
    clear
}

// One look over the slots for all that adding and taking ask.
#[tactic(auto, using(crate::proofs::Found::look_steps))]
pub fn look_over(slots: &[Slot], area: &[u8], w: Wanted) -> Findings
    ensures { result ≡ scanned area.now w slots.now }
{
    let mut a = start(slots.len(), area);
    for (i, &s) in slots.iter().enumerate() {
        if is_looked_at(a, s, i) {
            let clear = alone(slots, a, s, i);
            a = step(a, s, clear, area, i, w);
        }
    }
    a
}

// Stores a slot, where there is one of that number.
pub fn set_slot(slots: &mut [Slot], i: usize, s: Slot)
    ensures { slots.new ≡ set slots.old i s }
{
    if i < slots.len() {
        slots[i] = s;
    }
}
