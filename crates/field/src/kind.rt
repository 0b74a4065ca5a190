// Kinds of field: how one is checked in a text, from a place on, and so many of them, one after the other.
ghost use Rattle.std.specs.Prelude.{◌≡◌, ℕ, ◌≤◌, List, length, Result, IfOk};
ghost use Rattle.text.specs.declared.Refusal.{Refusal};
ghost use Rattle.field.specs.Fields.{check_airfield, repeat};
ghost use Rattle.field.specs.Boxes.{check_box};

use crate::Region;
use crate::boxes::a_box;
use crate::check::airfield;
use text::Refusal;

pub trait Field {
    // Where the text goes on behind such a field, or why it is refused.
    ghost checked: { List ℕ → ℕ → Result ℕ Refusal };

    // One that is accepted ends in the text.
    fn check(s: &[u8], at: usize) -> Result<usize, Refusal>
        requires { at ≤ length s.now }
        ensures told { result ≡ checked s.now at }
        ensures inside { IfOk result (λ p. p ≤ length s.now) };
}

// n fields of one kind, up to the first that is refused.
#[tactic(auto, using(crate::proofs::Repeat::repeat_end, crate::proofs::Repeat::repeat_turn, crate::proofs::Repeat::repeat_stop))]
pub fn repeated<F: Field>(s: &[u8], at: usize, n: usize) -> Result<usize, Refusal>
    requires { at ≤ length s.now }
    ensures told { result ≡ repeat (F.checked s.now) n at }
    ensures inside { IfOk result (λ p. p ≤ length s.now) }
{
    let mut p = at;
    for _ in 0..n {
        p = F::check(s, p)?;
    }
    Ok(p)
}

// An airfield, four bytes.
pub struct Airfield;

impl Field for Airfield {
    ghost checked = { check_airfield };

    #[tactic(auto, using(crate::proofs::Within::airfield_inside))]
    fn check(s: &[u8], at: usize) -> Result<usize, Refusal> {
        airfield(s, at)
    }
}

// A box.
impl Field for Region {
    ghost checked = { check_box };

    #[tactic(auto, using(crate::proofs::Within::box_inside))]
    fn check(s: &[u8], at: usize) -> Result<usize, Refusal> {
        a_box(s, at)
    }
}
