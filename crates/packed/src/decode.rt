// A field decoded in one pass, with no branch on what its bytes are: each byte's worth is taken from the table once and added,
// and a leading space is worth nothing. Which fields have spaces or are missing varies from report to report, and a branch that
// is guessed wrong costs more than the few sums of a field.
ghost use Rattle.std.specs.Prelude.{◌≡◌, cond, ◌≤◌};
ghost use Rattle.packed.specs.Packed.{half_of};
ghost use Rattle.packed.specs.Decoding.{none_decoded, decoded};

use crate::Decoded;
use crate::sign::{less, size};
use crate::table::Worths;

fn wide(b: u8) -> u32
    ensures { result ≡ b }
{
    b as u32
}

// Compiled to a move under a condition, not to a branch.
fn either(t: bool, a: u32, b: u32) -> u32
    ensures { result ≡ cond t a b }
{
    if t { a } else { b }
}

// k digits span -half(k) to half(k) - 1.
#[tactic(auto, unfolding(crate::specs::Packed::half_of))]
pub fn half(k: usize) -> u32
    requires { k ≤ 5 }
    ensures { result ≡ half_of k }
{
    match k {
        0 => 0,
        1 => 20,
        2 => 800,
        3 => 32000,
        4 => 1280000,
        _ => 51200000,
    }
}

fn none() -> Decoded
    ensures { result ≡ none_decoded }
{
    Decoded {
        missing: false,
        given: false,
        figure: 0,
    }
}

// A field of any width. What its bytes are so far is kept in variables of its own: where a caller knows the width, the loop is
// then laid out as a few lines, and all of them stay in registers.
pub fn decode(t: &Worths, f: &[u8]) -> Decoded
    ensures { result ≡ decoded f.now }
{
    let w = f.len();
    if w < 1 || 5 < w {
        return none();
    }
    let last = w - 1;
    let mut leading = true;
    let mut fine = true;
    let mut solidi = true;
    let mut sum: u32 = 0;
    let mut first = half(w) / 20;
    let mut unit = first;
    let mut i = 0;
    while i < last {
        let b = f[i];
        leading &= b == b' ';
        let v = either(leading, 0, wide(t.worth(b)));
        fine &= v < 40;
        solidi &= b == b'/';
        sum += v * unit;
        unit /= 40;
        first = either(leading, unit, first);
        i += 1;
    }
    let b = f[last];
    let d = t.worth(b);
    let figure = less(sum + wide(d), 20 * first);
    Decoded {
        missing: solidi & (b == b'/'),
        given: (d < 40) & fine & (first / 2 <= size(figure)),
        figure,
    }
}
