// One slot more in a look over the slots.
ghost use Rattle.std.specs.Prelude.{◌≡◌, not, ◌&&◌, None, length};
ghost use Rattle.text.specs.Equal.{same_bytes};
ghost use Rattle.board.specs.Inner.{wanted_by, names, used_for, sound_at, is_before, is_looked_at, until_at, start_of, first_of, with_used, step_of};

use crate::{Findings, MOST_SLOTS, Slot, Wanted};
use command::LONGEST;
use command::check::check;
use text::{all_allowed, is_designator};

// The aircraft that a call is about.
#[tactic(auto, unfolding(crate::specs::Inner::wanted_by))]
pub fn wanted(designator: &[u8]) -> Wanted
    ensures { result ≡ wanted_by designator.now }
{
    if !is_designator(designator) {
        return None;
    }
    let mut bytes = [0u8; 6];
    bytes.copy_from_slice(designator);
    Some(bytes)
}

// No aircraft, for a look that asks for none.
pub fn nobody() -> Wanted
    ensures { result ≡ None }
{
    None
}

// Byte by byte, with no way out between them.
#[tactic(auto, using(crate::proofs::Found::same_six))]
fn same_aircraft(a: [u8; 6], b: [u8; 6]) -> bool
    ensures { result ≡ same_bytes a b }
{
    (a[0] == b[0])
        & (a[1] == b[1])
        & (a[2] == b[2])
        & (a[3] == b[3])
        & (a[4] == b[4])
        & (a[5] == b[5])
}

// Whether a slot's designator is that of the aircraft that a call is about.
fn names(w: Wanted, designator: [u8; 6]) -> bool
    ensures { result ≡ names w designator }
{
    same_aircraft(w.unwrap_or([0; 6]), designator)
}

// Whether all are apart that were looked at, and one slot more.
#[tactic(auto, unfolding(crate::specs::Inner::used_for))]
pub fn apart(clear: bool, x: Slot, s: Slot) -> bool
    ensures { result ≡ (clear && not (used_for s.designator x)) }
{
    let used = x.length != 0;
    clear & !(used & same_aircraft(s.designator, x.designator))
}

// Whether a slot was found before slot i.
fn is_before(found: Option<usize>, i: usize) -> bool
    ensures { result ≡ is_before found i }
{
    match found {
        Some(j) => j < i,
        None => false,
    }
}

// Whether a slot has to be looked at: a free one behind a free one tells nothing new.
pub fn is_looked_at(a: Findings, s: Slot, i: usize) -> bool
    ensures { result ≡ is_looked_at a s i }
{
    s.length != 0 || !is_before(a.free, i)
}

// Before which slot the others are looked at: before the first where there is nothing to find.
#[tactic(auto, unfolding(crate::specs::Inner::until_at))]
pub fn until(a: Findings, s: Slot, i: usize, n: usize) -> usize
    ensures { result ≡ until_at a s i n }
{
    if !a.valid || s.length == 0 {
        0
    } else if i < n {
        i
    } else {
        n
    }
}

// Whether a used slot's designator is well formed and its text accepted.
#[tactic(auto, unfolding(crate::specs::Inner::sound_at))]
fn sound(s: Slot, area: &[u8], i: usize) -> bool
    ensures { result ≡ sound_at s area.now i }
{
    let n = s.length as usize;
    if MOST_SLOTS <= i || LONGEST < n {
        return false;
    }
    let at = LONGEST * i;
    let end = at + n;
    if area.len() < end || !all_allowed(&s.designator) {
        return false;
    }
    check(&area[at..end]).is_ok()
}

// Before the first slot: by the number of slots and the area's length.
#[tactic(auto, unfolding(crate::specs::Inner::start_of))]
pub fn start(n: usize, area: &[u8]) -> Findings
    ensures { result ≡ start_of n (length area.now) }
{
    Findings {
        valid: n <= MOST_SLOTS && area.len() == LONGEST * n,
        length: 0,
        own: None,
        free: None,
    }
}

// The lower of a slot found before and slot i.
fn first_of(found: Option<usize>, i: usize) -> Option<usize>
    ensures { result ≡ first_of found i }
{
    if is_before(found, i) { found } else { Some(i) }
}

// A used slot: its own soundness, and whether it is the aircraft's.
fn with_used(a: Findings, s: Slot, fine: bool, i: usize, w: Wanted) -> Findings
    ensures { result ≡ with_used a s fine i w }
{
    if !is_before(a.own, i) && names(w, s.designator) {
        Findings {
            valid: fine,
            length: s.length,
            own: Some(i),
            free: a.free,
        }
    } else {
        Findings { valid: fine, ..a }
    }
}

// One slot more. `clear` says that no slot before it is for the same aircraft.
#[tactic(auto, unfolding(crate::specs::Inner::step_of))]
pub fn step(a: Findings, s: Slot, clear: bool, area: &[u8], i: usize, w: Wanted) -> Findings
    ensures { result ≡ step_of area.now w a s clear i }
{
    if !a.valid {
        return a;
    }
    if s.length == 0 {
        return Findings {
            free: first_of(a.free, i),
            ..a
        };
    }
    with_used(a, s, clear && sound(s, area, i), i, w)
}
