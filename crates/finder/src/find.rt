// One section of a command: where it stands, and its bytes as a part of the caller's text.
ghost use Rattle.std.specs.Prelude.{◌≡◌, ◌+◌, ◌≤◌, length};
ghost use Rattle.text.specs.Names.{between};
ghost use Rattle.section.specs.Layout.{numbers};
ghost use Rattle.finder.specs.Finding.{reach, standing, find_in, find_section, part_of, place_in};
ghost use Rattle.finder.specs.Inner.{section_passed};

use crate::Part;
use crate::pass::pass_section;
use command::LONGEST;
use command::check::{check_head, is_named};
use text::{Code, Refusal};

// Section k passed over where it is named.
fn passed(s: &[u8], k: usize, at: usize) -> Result<usize, Refusal>
    requires { (k ≤ 9) × (22 ≤ length s.now) × (at ≤ length s.now) }
    ensures { result ≡ section_passed s.now k at }
{
    if is_named(s, k) {
        pass_section(s, at, k)
    } else {
        Ok(at)
    }
}

// Where section j stands: behind the sections named before it, each passed over.
fn place_of(s: &[u8], j: usize) -> Result<usize, Refusal>
    requires { (2 ≤ j) × (j ≤ 9) × (22 ≤ length s.now) }
    ensures { result ≡ reach numbers s.now 22 j }
{
    let mut at = 22;
    for k in 2..j {
        at = passed(s, k, at)?;
    }
    Ok(at)
}

// Section k at its place, which must end in the text too.
fn ended(s: &[u8], k: usize, at: usize) -> Result<Part, Refusal>
    requires { at ≤ length s.now }
    ensures { result ≡ standing k s.now at }
{
    let end = pass_section(s, at, k)?;
    Ok(Part {
        at,
        length: end - at,
    })
}

// Section k of a text whose first 22 bytes are accepted. One that isn't named is nothing, at once.
fn behind_head(k: usize, s: &[u8]) -> Result<Part, Refusal>
    requires { (2 ≤ k) × (k ≤ 9) × (22 ≤ length s.now) }
    ensures { result ≡ find_in k s.now 22 }
{
    if !is_named(s, k) {
        return Ok(Part { at: 0, length: 0 });
    }
    let at = place_of(s, k)?;
    ended(s, k, at)
}

fn is_number(k: usize) -> bool
    ensures { result ≡ between 2 9 k }
{
    matches!(k, 2..=9)
}

// Where section k stands and how long it is, or the refusal.
pub fn find(k: usize, s: &[u8]) -> Result<Part, Refusal>
    ensures { result ≡ find_section k s.now }
{
    if !is_number(k) {
        return Err(Code::OutOfRange.at(0));
    }
    if LONGEST < s.len() {
        return Err(Code::WrongLength.at(0));
    }
    check_head(s)?;
    behind_head(k, s)
}

// Section k as the caller's own bytes, delimiter included: a part of the text that was lent, no copy and no offset.
pub fn section_of(k: usize, s: &[u8]) -> &[u8]
    ensures { (result.now ≡ part_of s.now (find_section k s.now))
        × (result.ref_ptr ≡ (s.entry.ref_ptr.0, place_in (find_section k s.now) + s.entry.ref_ptr.1)) }
{
    match find(k, s) {
        Ok(p) => &s[p.at..p.at + p.length],
        Err(_) => &s[0..0],
    }
}
