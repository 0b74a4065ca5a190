// Boxes as records, from a text whose check went on.
ghost use Rattle.std.specs.Prelude.{◌≡◌, true, ◌+◌, ◌≤◌, ◌<◌, length, Ok};
ghost use Rattle.text.specs.Parts.{part};
ghost use Rattle.field.specs.Boxes.{region_at, check_box, no_region};
ghost use Rattle.field.specs.Decimal.{all_digits, value};
ghost use Rattle.field.specs.Steps.{edge_from};

use crate::digits::small_at;
use crate::{Edge, Region};

// The edge that stands at a place, its degrees in w digits.
fn edge_at(w: usize, s: &[u8], at: usize) -> Edge
    requires w_in_bounds { (at + (w + 1) ≤ length s.now) × (w ≤ 3) }
    requires s_value { all_digits (part at w s.now) ≡ true }
    requires s_bound { value (part at w s.now) < 256 }
    ensures { result ≡ edge_from w s.now at }
{
    let last = at + w;
    Edge {
        degrees: small_at(s, at, w),
        letter: s[last],
    }
}

// The box that stands at a place.
pub fn region_at(s: &[u8], at: usize) -> Region
    requires { check_box s.now at ≡ Ok (at + 14) }
    ensures { result ≡ region_at s.now at }
{
    let south = at + 3;
    let west = at + 6;
    let east = at + 10;
    Region {
        north: edge_at(2, s, at),
        south: edge_at(2, s, south),
        west: edge_at(3, s, west),
        east: edge_at(3, s, east),
    }
}

// An unused entry of a list: all zero.
pub fn no_region() -> Region
    ensures { result ≡ no_region }
{
    let none = Edge {
        degrees: 0,
        letter: 0,
    };
    Region {
        north: none,
        south: none,
        west: none,
        east: none,
    }
}
