// Whether a box is accepted, and nothing else: the tests are gathered, with no place and no number. What they say no to
// is gone through edge by edge.
ghost use Rattle.std.specs.Prelude.{◌≡◌, true, false, ◌+◌, ◌≤◌, length, Ok};
ghost use Rattle.field.specs.Boxes.{latitude, longitude, north_first, check_pair, check_box};
ghost use Rattle.field.specs.Steps.{in_order, key_of, least_key, key_line, edge_fine, latitudes_fine, longitude_fine, longitudes_fine};

use crate::Circle;
use crate::boxes::{latitudes, longitudes};
use crate::digits::is_digit;

// The bytes of three digits as one number. Digits stand in the order of their bytes, so it grows as what they spell.
fn key(a: u8, b: u8, c: u8) -> usize
    ensures { result ≡ key_of a b c }
{
    (a as usize) * 65536 + (b as usize) * 256 + (c as usize)
}

// The least that may stand before a letter: 000, below zero 001; before another letter nothing may.
#[tactic(auto, unfolding(crate::specs::Steps::least_key))]
fn least(c: Circle, l: u8) -> usize
    ensures { result ≡ least_key c l }
{
    if l == c.below {
        3158065
    } else if l == c.above {
        3158064
    } else {
        16777216
    }
}

// Where an edge lies, by its key.
#[tactic(auto, unfolding(crate::specs::Steps::key_line))]
fn line(c: Circle, l: u8, k: usize) -> usize
    requires { k ≤ 16777215 }
    ensures { result ≡ key_line c l k }
{
    if l == c.below {
        16777216 - k
    } else {
        16777216 + k
    }
}

// An edge with its last digit and its letter, the most degrees being spelt by `most`.
fn edge_fine(c: Circle, most: usize, k: usize, digit: u8, l: u8) -> bool
    ensures { result ≡ edge_fine c most k digit l }
{
    is_digit(digit) & (least(c, l) <= k) & (k <= most)
}

// North and south, as if their degrees had three digits like those of a longitude.
fn latitudes_fine(a: u8, b: u8, l: u8, d: u8, e: u8, m: u8) -> bool
    ensures { result ≡ latitudes_fine a b l d e m }
{
    let c = latitudes();
    let north = key(b'0', a, b);
    let south = key(b'0', d, e);
    let most = key(b'0', b'9', b'0');
    edge_fine(c, most, north, b, l)
        & edge_fine(c, most, south, e, m)
        & (line(c, m, south) <= line(c, l, north))
}

fn longitude_fine(k: usize, middle: u8, last: u8, l: u8) -> bool
    ensures { result ≡ longitude_fine k middle last l }
{
    let most = key(b'1', b'8', b'0');
    is_digit(middle) & edge_fine(longitudes(), most, k, last, l)
}

// The two longitudes.
fn longitudes_fine(a: u8, b: u8, d: u8, l: u8, e: u8, f: u8, g: u8, m: u8) -> bool
    ensures { result ≡ longitudes_fine a b d l e f g m }
{
    let west = key(a, b, d);
    let east = key(e, f, g);
    longitude_fine(west, b, d, l) & longitude_fine(east, f, g, m)
}

// The two that stand at a place.
#[tactic(auto, using(crate::proofs::Keys::latitudes))]
fn north_south_fine(s: &[u8], at: usize) -> bool
    requires { at + 6 ≤ length s.now }
    ensures { result ≡ true → check_pair latitude north_first s.now at ≡ Ok (at + 6) }
{
    let south = at + 3;
    latitudes_fine(
        s[at],
        s[at + 1],
        s[at + 2],
        s[south],
        s[south + 1],
        s[south + 2],
    )
}

#[tactic(auto, using(crate::proofs::Keys::longitudes))]
fn west_east_fine(s: &[u8], at: usize) -> bool
    requires { at + 8 ≤ length s.now }
    ensures { result ≡ true → check_pair longitude (in_order false longitude) s.now at ≡ Ok (at + 8) }
{
    let east = at + 4;
    longitudes_fine(
        s[at],
        s[at + 1],
        s[at + 2],
        s[at + 3],
        s[east],
        s[east + 1],
        s[east + 2],
        s[east + 3],
    )
}

// Whether the box that stands at a place is accepted, for certain where it says so.
#[tactic(auto, using(crate::proofs::Edges::box_pairs))]
pub fn is_fine(s: &[u8], at: usize) -> bool
    requires { at + 14 ≤ length s.now }
    ensures { result ≡ true → check_box s.now at ≡ Ok (at + 14) }
{
    let west = at + 6;
    north_south_fine(s, at) & west_east_fine(s, west)
}
