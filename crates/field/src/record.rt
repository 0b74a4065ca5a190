// A record's own checks, with the place where each field would stand.
ghost use Rattle.std.specs.Prelude.{◌≡◌, ◌≤◌};
ghost use Rattle.field.specs.Boxes.{line_of, edge_allowed, region_allowed};
ghost use Rattle.field.specs.Steps.{pair_allowed, edge_is, pair_is, region_is};

use crate::boxes::{in_order, latitudes, longitudes};
use crate::{Circle, Edge, Region};
use text::{Code, Refusal};

pub fn wide(b: u8) -> usize
    ensures { result ≡ b }
{
    b as usize
}

pub fn middle(n: u16) -> usize
    ensures { result ≡ n }
{
    n as usize
}

// Where an edge lies, in degrees from 1000 below zero.
#[tactic(auto, unfolding(crate::specs::Boxes::line_of))]
pub fn line_of(c: Circle, e: Edge) -> usize
    ensures { result ≡ line_of c e }
{
    let n = wide(e.degrees);
    if e.letter == c.below {
        1000 - n
    } else {
        1000 + n
    }
}

// A letter that isn't one of the two is 4, zero below zero 6, too many degrees 5.
#[tactic(auto, unfolding(crate::specs::Boxes::edge_allowed))]
pub fn edge_allowed(c: Circle, at: usize, e: Edge) -> Result<(), Refusal>
    ensures { result ≡ edge_allowed c at e }
{
    let l = e.letter;
    let n = wide(e.degrees);
    if l != c.above && l != c.below {
        return Err(Code::NotAllowed.at(at));
    }
    if n == 0 && l == c.below {
        return Err(Code::OtherSpelling.at(at));
    }
    if c.most < n {
        return Err(Code::OutOfRange.at(at));
    }
    Ok(())
}

// Two edges, and 7 at the second where they should fall and do not.
#[tactic(auto, unfolding(crate::specs::Steps::pair_allowed))]
fn pair_allowed(
    falling: bool,
    c: Circle,
    first: Edge,
    second: Edge,
    at: usize,
    mid: usize,
) -> Result<(), Refusal>
    ensures { result ≡ pair_allowed falling c first second at mid }
{
    edge_allowed(c, at, first)?;
    edge_allowed(c, mid, second)?;
    if in_order(falling, line_of(c, first), line_of(c, second)) {
        Ok(())
    } else {
        Err(Code::Disagree.at(mid))
    }
}

// ---- The same without code and place: tests that are gathered, for a list of boxes at once

pub fn short(b: u8) -> u16
    ensures { result ≡ b }
{
    b as u16
}

// As `line_of`, in 16 bits: boxes that are looked at together take fewer steps by it.
#[tactic(auto, unfolding(crate::specs::Boxes::line_of))]
fn short_line(c: Circle, e: Edge) -> u16
    ensures { result ≡ line_of c e }
{
    let n = short(e.degrees);
    if e.letter == c.below {
        1000 - n
    } else {
        1000 + n
    }
}

fn edge_is(c: Circle, e: Edge) -> bool
    ensures { result ≡ edge_is c e }
{
    let l = e.letter;
    let n = wide(e.degrees);
    ((l == c.above) | (l == c.below)) & !((n == 0) & (l == c.below)) & (n <= c.most)
}

fn pair_is(falling: bool, c: Circle, first: Edge, second: Edge) -> bool
    ensures { result ≡ pair_is falling c first second }
{
    let x = middle(short_line(c, first));
    let y = middle(short_line(c, second));
    let order = in_order(falling, x, y);
    edge_is(c, first) & edge_is(c, second) & order
}

// Whether a box would be taken, wherever it stands.
#[tactic(auto, unfolding(crate::specs::Steps::region_is))]
pub fn region_is(b: Region) -> bool
    ensures { result ≡ region_is b }
{
    pair_is(true, latitudes(), b.north, b.south) & pair_is(false, longitudes(), b.west, b.east)
}

// ---- A box, with the place where it would stand

#[tactic(auto, using(crate::proofs::Pairs::region_pairs))]
pub fn region_allowed(at: usize, b: Region) -> Result<(), Refusal>
    requires { at ≤ 4096 }
    ensures { result ≡ region_allowed at b }
{
    pair_allowed(true, latitudes(), b.north, b.south, at, at + 3)?;
    pair_allowed(false, longitudes(), b.west, b.east, at + 6, at + 10)
}
