// A list's own check, with the place where its count would stand.
ghost use Rattle.std.specs.Prelude.{◌≡◌, cond, ◌&&◌, ℕ, ◌*◌, ◌≤◌, ◌<◌, eqb, length, take, drop};
ghost use Rattle.text.specs.Names.{allowed, all_allowed};
ghost use Rattle.text.specs.Checks.{is_fine};
ghost use Rattle.lists.specs.Lists.{most_airfields, most_boxes, all_zero, names_allowed, airfields_allowed, edge_zero, region_zero, regions_zero, regions_allowed, boxes_allowed};

use crate::{Airfields, Boxes, MOST_AIRFIELDS, MOST_BOXES, NAME_BYTES};
use field::record::{region_allowed, region_is, wide};
use field::{Edge, Region};
use text::{Code, Refusal, all_allowed, is_allowed};

// Whether every byte from a place on is zero. The answers are gathered and the loop has one way out, so it runs many bytes at a time.
#[tactic(auto, using(crate::proofs::Turns::zero_turn, crate::proofs::Turns::zero_end))]
fn zero_from(s: &[u8], from: usize) -> bool
    requires { from ≤ length s.now }
    ensures { result ≡ all_zero (drop from s.now) }
{
    let mut zero = true;
    for &b in &s[from..] {
        zero &= b == 0;
    }
    zero
}

// n names, the first of which would stand at a place: a byte that is not allowed is 4 at its name.
#[tactic(auto, using(crate::proofs::Turns::names_turn, crate::proofs::Turns::names_stop, crate::proofs::Turns::names_end))]
fn each_name_allowed(names: &[u8], n: usize, at: usize) -> Result<(), Refusal>
    requires { (4 * n ≤ length names.now) × (n ≤ most_airfields) × (at ≤ 4096) }
    ensures { result ≡ names_allowed n at names.now }
{
    for i in 0..n {
        if !all_allowed(&names[4 * i..4 * i + 4]) {
            return Err(Code::NotAllowed.at(at + 4 * i));
        }
    }
    Ok(())
}

// The same: all bytes at once, and one name after the other only where one is wrong.
#[tactic(auto, using(crate::proofs::Turns::names_all))]
fn names_allowed(names: &[u8], n: usize, at: usize) -> Result<(), Refusal>
    requires { (4 * n ≤ length names.now) × (n ≤ most_airfields) × (at ≤ 4096) }
    ensures { result ≡ names_allowed n at names.now }
{
    if all_allowed(&names[..4 * n]) {
        return Ok(());
    }
    each_name_allowed(names, n, at)
}

// A count above 20 is 5, unused entries that are not zero 7, both at the count.
#[tactic(auto, unfolding(crate::specs::Lists::airfields_allowed))]
pub fn airfields_allowed(l: Airfields, at: usize) -> Result<(), Refusal>
    requires { at ≤ 4000 }
    ensures { result ≡ airfields_allowed at l }
{
    let n = wide(l.count);
    if MOST_AIRFIELDS < n {
        return Err(Code::OutOfRange.at(at));
    }
    if !zero_from(&l.names, 4 * n) {
        return Err(Code::Disagree.at(at));
    }
    names_allowed(&l.names, n, at + 2)
}

// A list with nothing in it, as a section that isn't named has it: all zero.
pub fn airfields_zero(l: Airfields) -> bool
    ensures { result ≡ (eqb l.count 0 && all_zero l.names) }
{
    (l.count == 0) & zero_from(&l.names, 0)
}

// An edge's two bytes as one number, which is 0 where both are.
#[tactic(auto, using(crate::proofs::Sums::bytes_zero))]
fn edge_sum(e: Edge) -> usize
    ensures { (eqb result 0 ≡ edge_zero e) × (result < 65536) }
{
    wide(e.degrees) + 256 * wide(e.letter)
}

// A box's eight bytes as one number, which is 0 where all of them are.
#[tactic(auto, using(crate::proofs::Sums::four_zero))]
fn region_word(b: Region) -> usize
    ensures { eqb result 0 ≡ region_zero b }
{
    let latitudes = edge_sum(b.north) + 65536 * edge_sum(b.south);
    let longitudes = edge_sum(b.west) + 65536 * edge_sum(b.east);
    latitudes + 4294967296 * longitudes
}

// Whether every box from the n-th on is zero. Gathered, as above.
#[tactic(auto, using(crate::proofs::Turns::regions_zero_turn, crate::proofs::Turns::regions_zero_end))]
fn regions_zero(regions: [Region; MOST_BOXES], n: usize) -> bool
    requires { n ≤ most_boxes }
    ensures { result ≡ regions_zero (drop n regions) }
{
    let mut zero = true;
    for &b in &regions[n..] {
        zero &= region_word(b) == 0;
    }
    zero
}

// Whether n boxes would be taken, wherever they stand. Gathered, as above.
#[tactic(auto, using(crate::proofs::Turns::regions_fine_turn, crate::proofs::Turns::regions_end))]
fn regions_are(regions: [Region; MOST_BOXES], n: usize) -> bool
    requires { n ≤ most_boxes }
    ensures { (at : ℕ) → result ≡ is_fine (regions_allowed n at regions) }
{
    let mut fine = true;
    for i in 0..n {
        fine &= region_is(regions[i]);
    }
    fine
}

// n boxes, the first of which would stand at a place.
#[tactic(auto, using(crate::proofs::Turns::regions_turn, crate::proofs::Turns::regions_stop, crate::proofs::Turns::regions_end))]
fn each_region_allowed(regions: [Region; MOST_BOXES], n: usize, at: usize) -> Result<(), Refusal>
    requires { (n ≤ most_boxes) × (at ≤ 2048) }
    ensures { result ≡ regions_allowed n at regions }
{
    for i in 0..n {
        region_allowed(at + 14 * i, regions[i])?;
    }
    Ok(())
}

// The same: all boxes at once, and one after the other only where one is wrong.
fn regions_allowed(regions: [Region; MOST_BOXES], n: usize, at: usize) -> Result<(), Refusal>
    requires { (n ≤ most_boxes) × (at ≤ 2048) }
    ensures { result ≡ regions_allowed n at regions }
{
    if regions_are(regions, n) {
        return Ok(());
    }
    each_region_allowed(regions, n, at)
}

// A count above 16 is 5, unused entries that are not zero 7, both at the count.
#[tactic(auto, unfolding(crate::specs::Lists::boxes_allowed))]
pub fn boxes_allowed(l: Boxes, at: usize) -> Result<(), Refusal>
    requires { at ≤ 2000 }
    ensures { result ≡ boxes_allowed at l }
{
    let n = wide(l.count);
    if MOST_BOXES < n {
        return Err(Code::OutOfRange.at(at));
    }
    if !regions_zero(l.regions, n) {
        return Err(Code::Disagree.at(at));
    }
    regions_allowed(l.regions, n, at + 2)
}

// A list with nothing in it, all zero.
pub fn boxes_zero(l: Boxes) -> bool
    ensures { result ≡ (eqb l.count 0 && regions_zero l.regions) }
{
    (l.count == 0) & regions_zero(l.regions, 0)
}

// ---- The same without code and place, wherever the list stands. A list with nothing in it is the usual one, and takes fewer steps.

// A byte of a name in use, or of an unused entry.
fn is_entry(used: bool, b: u8) -> bool
    ensures { result ≡ cond used (allowed b) (eqb b 0) }
{
    if used { is_allowed(b) } else { b == 0 }
}

// So many bytes of names, and nothing behind them. The place is counted a second time as a byte, so that sixteen are looked at in one step.
#[tactic(auto, using(crate::proofs::Turns::used_turn, crate::proofs::Turns::used_end))]
fn names_fine(used: u8, names: &[u8]) -> bool
    requires { length names.now ≡ 4 * most_airfields }
    ensures { result ≡ (all_allowed (take used names.now) && all_zero (drop used names.now)) }
{
    let mut fine = true;
    let mut k = 0;
    for i in 0..NAME_BYTES {
        fine &= is_entry(k < used, names[i]);
        k += 1;
    }
    fine
}

pub fn airfields_fine(count: u8, names: &[u8]) -> bool
    requires { length names.now ≡ 4 * most_airfields }
    ensures { (at : ℕ) → result ≡ is_fine (airfields_allowed at (record { count = count; names = names.now })) }
{
    if count == 0 {
        return zero_from(names, 0);
    }
    count as usize <= MOST_AIRFIELDS && names_fine(4 * count, names)
}

pub fn boxes_fine(count: u8, regions: [Region; MOST_BOXES]) -> bool
    ensures { (at : ℕ) → result ≡ is_fine (boxes_allowed at (record { count = count; regions = regions })) }
{
    let n = wide(count);
    if n == 0 {
        return regions_zero(regions, 0);
    }
    n <= MOST_BOXES && regions_zero(regions, n) & regions_are(regions, n)
}
