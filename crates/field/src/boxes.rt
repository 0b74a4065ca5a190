// A box: two latitudes, north edge first, then two longitudes, from the first eastward to the second.
ghost use Rattle.std.specs.Prelude.{◌≡◌, ◌+◌, ◌≤◌, length};
ghost use Rattle.field.specs.Boxes.{latitude, longitude, check_pair, check_box};
ghost use Rattle.field.specs.Steps.{edge_line, orderly, in_order};

use crate::Circle;
use crate::digits::number_at;
use crate::fine::is_fine;
use text::{Code, Refusal};

// 00-90, N or S.
pub fn latitudes() -> Circle
    ensures { result ≡ latitude }
{
    Circle {
        width: 2,
        most: 90,
        above: b'N',
        below: b'S',
    }
}

// 000-180, E or W.
pub fn longitudes() -> Circle
    ensures { result ≡ longitude }
{
    Circle {
        width: 3,
        most: 180,
        above: b'E',
        below: b'W',
    }
}

// Where the edge that stands at a place lies, in degrees from 1000 below zero: 8 where the text ends inside it; a non-digit, or a
// letter that isn't one of the two, is 4; then 6, then 5.
#[tactic(auto, unfolding(crate::specs::Steps::edge_line, crate::specs::Steps::line_or, crate::specs::Steps::number_or, crate::specs::Boxes::line_of))]
fn edge_line(c: Circle, s: &[u8], at: usize) -> Result<usize, Code>
    requires { (at ≤ length s.now + 4) × (c.width ≤ 3) }
    ensures { result ≡ edge_line c s.now at }
{
    let last = at + c.width;
    if s.len() <= last {
        return Err(Code::WrongEnd);
    }
    let n = number_at(s, at, c.width).ok_or(Code::NotAllowed)?;
    let l = s[last];
    if l != c.above && l != c.below {
        return Err(Code::NotAllowed);
    }
    if n == 0 && l == c.below {
        return Err(Code::OtherSpelling);
    }
    if c.most < n {
        return Err(Code::OutOfRange);
    }
    Ok(if l == c.below { 1000 - n } else { 1000 + n })
}

// Latitudes fall, from north to south; longitudes come in any order, since an area may wrap.
pub fn in_order(falling: bool, x: usize, y: usize) -> bool
    ensures { result ≡ orderly falling x y }
{
    !falling | (y <= x)
}

// A pair of edges, one after the other, in a text that may end inside them: each one's own refusal, then 7 at the second where they
// should fall and do not.
#[tactic(auto, using(crate::proofs::Edges::pair_lines))]
fn pair(falling: bool, c: Circle, s: &[u8], at: usize) -> Result<usize, Refusal>
    requires { (at ≤ length s.now) × (c.width ≤ 3) }
    ensures { result ≡ check_pair c (in_order falling c) s.now at }
{
    let w = c.width + 1;
    let mid = at + w;
    let x = edge_line(c, s, at).map_err(|code| code.at(at))?;
    let y = edge_line(c, s, mid).map_err(|code| code.at(mid))?;
    if in_order(falling, x, y) {
        Ok(mid + w)
    } else {
        Err(Code::Disagree.at(mid))
    }
}

// A box edge by edge, up to the first refusal. Few boxes come here: not inlined, it leaves the others fewer steps.
#[cold]
#[tactic(auto, using(crate::proofs::Edges::box_pairs))]
fn by_edges(s: &[u8], at: usize) -> Result<usize, Refusal>
    requires { at ≤ length s.now }
    ensures { result ≡ check_box s.now at }
{
    let west = pair(true, latitudes(), s, at)?;
    pair(false, longitudes(), s, west)
}

// North not below south; longitudes in any order. A box that is fine is passed whole, any other one edge by edge.
pub fn a_box(s: &[u8], at: usize) -> Result<usize, Refusal>
    requires { at ≤ length s.now }
    ensures { result ≡ check_box s.now at }
{
    let end = at + 14;
    if end <= s.len() && is_fine(s, at) {
        return Ok(end);
    }
    by_edges(s, at)
}
