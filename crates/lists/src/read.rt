// The counted lists as records, from a text whose check went on.
ghost use Rattle.std.specs.Prelude.{◌≡◌, ◌++◌, ◌+◌, ◌-◌, ◌*◌, ◌≤◌, length, replicate, Ok};
ghost use Rattle.text.specs.Parts.{part};
ghost use Rattle.field.specs.Fields.{repeat};
ghost use Rattle.field.specs.Boxes.{check_box, no_region};
ghost use Rattle.lists.specs.Lists.{most_airfields, most_boxes, count_at, check_airfields, check_boxes, airfields_at, boxes_at, regions_at};

use crate::{Airfields, Boxes, MOST_BOXES, NAME_BYTES};
use field::Region;
use field::digits::small_at;
use field::read::{no_region, region_at};
use field::record::wide;

// k bytes, and zeros behind them.
fn names_of(s: &[u8], from: usize, k: usize) -> [u8; NAME_BYTES]
    requires { (from + k ≤ length s.now) × (k ≤ 4 * most_airfields) }
    ensures { result ≡ part from k s.now ++ replicate (4 * most_airfields - k) 0 }
{
    let mut names = [0; NAME_BYTES];
    names[..k].copy_from_slice(&s[from..from + k]);
    names
}

// The list of airfields that stands at a place.
#[tactic(auto, unfolding(crate::specs::Lists::airfields_at))]
pub fn airfields_at(s: &[u8], at: usize) -> Airfields
    requires at_in_bounds { at ≤ length s.now }
    requires at_value { check_airfields s.now at ≡ Ok (at + 2 + 4 * count_at s.now at) }
    ensures { result ≡ airfields_at s.now at }
{
    let count = small_at(s, at, 2);
    let names = names_of(s, at + 2, 4 * wide(count));
    Airfields { count, names }
}

// n boxes, and zeros behind them.
pub fn regions_of(s: &[u8], from: usize, n: usize) -> [Region; MOST_BOXES]
    requires n_le_most_boxes { n ≤ most_boxes }
    requires from_value { repeat (check_box s.now) n from ≡ Ok (from + 14 * n) }
    ensures { result ≡ regions_at n s.now from ++ replicate (most_boxes - n) no_region }
{
    let mut regions = [no_region(); MOST_BOXES];
    for i in 0..n {
        regions[i] = region_at(s, from + 14 * i);
    }
    regions
}

// The list of boxes that stands at a place.
#[tactic(auto, unfolding(crate::specs::Lists::boxes_at))]
pub fn boxes_at(s: &[u8], at: usize) -> Boxes
    requires at_in_bounds { at ≤ length s.now }
    requires at_value { check_boxes s.now at ≡ Ok (at + 2 + 14 * count_at s.now at) }
    ensures { result ≡ boxes_at s.now at }
{
    let count = small_at(s, at, 2);
    let regions = regions_of(s, at + 2, wide(count));
    Boxes { count, regions }
}
