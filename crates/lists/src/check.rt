// The counted lists in a text: a count of two digits, then that many entries.
ghost use Rattle.std.specs.Prelude.{◌≡◌, ℕ, ◌≤◌, length};
ghost use Rattle.field.specs.Fields.{repeat};
ghost use Rattle.lists.specs.Lists.{most_boxes, most_airfields, check_list, check_airfields, check_boxes};

use crate::{Airfields, Boxes, MOST_AIRFIELDS, MOST_BOXES};
use field::Region;
use field::check::digits;
use field::digits::value_at;
use field::kind::{Airfield, Field, repeated};
use text::{Code, Refusal, all_allowed};

// What a list counts, and the most of them in one.
trait Entry: Field {
    const MOST: usize;

    ghost MOST: { ℕ };

    // n entries, up to the first that is refused.
    fn each(s: &[u8], at: usize, n: usize) -> Result<usize, Refusal>
        requires { (at ≤ length s.now) × (n ≤ MOST) }
        ensures { result ≡ repeat (Self.checked s.now) n at }
    {
        repeated::<Self>(s, at, n)
    }
}

impl Entry for Airfield {
    const MOST: usize = MOST_AIRFIELDS;

    ghost MOST = { most_airfields };

    // Few are gone through one by one; of more, all bytes at once where the text has them and they are allowed, else one by one to
    // the one that is wrong.
    fn each(s: &[u8], at: usize, n: usize) -> Result<usize, Refusal> {
        let end = at + 4 * n;
        if 4 <= n && end <= s.len() && all_allowed(&s[at..end]) {
            return Ok(end);
        }
        repeated::<Airfield>(s, at, n)
    }
}

impl Entry for Region {
    const MOST: usize = MOST_BOXES;

    ghost MOST = { most_boxes };
}

// A list of entries of one kind.
#[tactic(auto, using(field::proofs::Accepted::number), unfolding(crate::specs::Lists::check_list))]
fn counted<E: Entry>(s: &[u8], at: usize) -> Result<usize, Refusal>
    requires { at ≤ length s.now }
    ensures { result ≡ check_list E.MOST E.checked s.now at }
{
    let first = digits(s, at, 2, 0, E::MOST, Code::OutOfRange)?;
    E::each(s, first, value_at(s, at, 2))
}

// A count 00-20 and four-byte airfields.
pub fn airfields(s: &[u8], at: usize) -> Result<usize, Refusal>
    requires { at ≤ length s.now }
    ensures { result ≡ check_airfields s.now at }
{
    counted::<Airfield>(s, at)
}

// A count 00-16 and that many boxes.
pub fn boxes(s: &[u8], at: usize) -> Result<usize, Refusal>
    requires { at ≤ length s.now }
    ensures { result ≡ check_boxes s.now at }
{
    counted::<Region>(s, at)
}

impl Field for Airfields {
    ghost checked = { check_airfields };

    #[tactic(auto, using(crate::proofs::Within::airfields_inside))]
    fn check(s: &[u8], at: usize) -> Result<usize, Refusal> {
        airfields(s, at)
    }
}

impl Field for Boxes {
    ghost checked = { check_boxes };

    #[tactic(auto, using(crate::proofs::Within::boxes_inside))]
    fn check(s: &[u8], at: usize) -> Result<usize, Refusal> {
        boxes(s, at)
    }
}
