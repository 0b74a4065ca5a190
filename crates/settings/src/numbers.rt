// The sections of numbers, 4 to 9, by the rows of their layouts: the record's members as eight numbers, and back.
ghost use Rattle.std.specs.Prelude.{◌≡◌, ◌∷◌, [], map, ◌+◌, ◌≤◌, length};
ghost use Rattle.text.specs.Over.{over};
ghost use Rattle.section.specs.Contents.{Amount};
ghost use Rattle.section.specs.Inner.{numbers_of, Reaches};
ghost use Rattle.settings.specs.Settings.{fixed_of, ascent_hold, descent_hold, amount_in, enroute_from, ascent_from, descent_from, hours_from, fixed_hold};
ghost use Rattle.settings.specs.Inner.{Held, Bytes, pass_section, text_if};

use crate::places::pass_zero;
use crate::{Ascent, Descent, Enroute, Fixed, Hours, Settings};
use section::numbers::{are_zero, pass_numbers, put_numbers};
use text::Refusal;

pub fn fixed_of(x: Settings) -> Fixed
    ensures { result ≡ fixed_of x }
{
    Fixed {
        enroute: x.enroute,
        ascent: x.ascent,
        descent: x.descent,
        routine6: x.routine6,
        routine8: x.routine8,
        hours: x.hours,
    }
}

// ---- Members as numbers

#[tactic(auto, using(crate::proofs::ByNumber::one_byte, crate::proofs::ByNumber::same_bytes_lem), unfolding(section::specs::Inner::numbers_of))]
fn one(a: u8) -> [u16; 8]
    ensures { (result ≡ numbers_of (Amount a ∷ [])) × Bytes result }
{
    [a as u16, 0, 0, 0, 0, 0, 0, 0]
}

#[tactic(auto, using(crate::proofs::ByNumber::two_bytes, crate::proofs::ByNumber::same_bytes_lem), unfolding(section::specs::Inner::numbers_of))]
fn two(a: u8, b: u8) -> [u16; 8]
    ensures { (result ≡ numbers_of (Amount a ∷ Amount b ∷ [])) × Bytes result }
{
    [a as u16, b as u16, 0, 0, 0, 0, 0, 0]
}

fn ascent_numbers(x: Ascent) -> [u16; 8]
    ensures { (result ≡ numbers_of (ascent_hold x)) × Held 5 result }
{
    [
        x.mode as u16,
        x.interval1 as u16,
        x.duration,
        x.interval2 as u16,
        x.total as u16,
        x.top,
        x.list as u16,
        x.timer as u16,
    ]
}

fn descent_numbers(x: Descent) -> [u16; 8]
    ensures { (result ≡ numbers_of (descent_hold x)) × Held 7 result }
{
    [
        x.mode,
        x.interval,
        x.top,
        x.list as u16,
        x.timer as u16,
        0,
        0,
        0,
    ]
}

// The numbers of section k.
#[tactic(auto, using(crate::proofs::ByNumber::no_bytes), unfolding(crate::specs::Settings::fixed_hold, section::specs::Inner::numbers_of))]
pub fn numbers_of(x: Fixed, k: usize) -> [u16; 8]
    ensures { (result ≡ numbers_of (fixed_hold x k)) × Held k result }
{
    match k {
        4 => two(x.enroute.interval, x.enroute.wind),
        5 => ascent_numbers(x.ascent),
        6 => one(x.routine6),
        7 => descent_numbers(x.descent),
        8 => one(x.routine8),
        9 => two(x.hours.start, x.hours.end),
        _ => [0; 8],
    }
}

// ---- Numbers as members

fn byte(n: u16) -> u8
    requires { n ≤ 255 }
    ensures { result ≡ n }
{
    n as u8
}

#[tactic(auto, using(crate::proofs::ByNumber::amount_at), unfolding(section::specs::Layout::table_of, crate::specs::Settings::enroute_from))]
pub fn enroute_from(v: [u16; 8]) -> Enroute
    requires { Held 4 v }
    ensures { result ≡ enroute_from (map Amount v) }
{
    Enroute {
        interval: byte(v[0]),
        wind: byte(v[1]),
    }
}

#[tactic(auto, using(crate::proofs::ByNumber::amount_at), unfolding(section::specs::Layout::table_of, crate::specs::Settings::ascent_from))]
pub fn ascent_from(v: [u16; 8]) -> Ascent
    requires { Held 5 v }
    ensures { result ≡ ascent_from (map Amount v) }
{
    Ascent {
        mode: byte(v[0]),
        interval1: byte(v[1]),
        duration: v[2],
        interval2: byte(v[3]),
        total: byte(v[4]),
        top: v[5],
        list: byte(v[6]),
        timer: byte(v[7]),
    }
}

#[tactic(auto, using(crate::proofs::ByNumber::amount_at), unfolding(section::specs::Layout::table_of))]
pub fn descent_from(v: [u16; 8]) -> Descent
    requires { Held 7 v }
    ensures { result ≡ descent_from (map Amount v) }
{
    Descent {
        mode: v[0],
        interval: v[1],
        top: v[2],
        list: byte(v[3]),
        timer: byte(v[4]),
    }
}

// Sections 6 and 8.
#[tactic(auto, using(crate::proofs::ByNumber::amount_at), unfolding(section::specs::Layout::table_of))]
pub fn digit_from(v: [u16; 8]) -> u8
    requires { Held 6 v }
    ensures { result ≡ amount_in (map Amount v) 0 }
{
    byte(v[0])
}

#[tactic(auto, using(crate::proofs::ByNumber::amount_at), unfolding(section::specs::Layout::table_of, crate::specs::Settings::hours_from))]
pub fn hours_from(v: [u16; 8]) -> Hours
    requires { Held 9 v }
    ensures { result ≡ hours_from (map Amount v) }
{
    Hours {
        start: byte(v[0]),
        end: byte(v[1]),
    }
}

// ---- One section of a record, named or not

// Where what follows section k would begin, or its refusal.
#[tactic(auto, using(crate::proofs::Pieces::pass_unnamed, crate::proofs::Pieces::pass_named, crate::proofs::ByNumber::written))]
pub fn pass_fixed(named: bool, x: Fixed, k: usize, at: usize) -> Result<usize, Refusal>
    requires { (4 ≤ k) × (at ≤ 1000) }
    ensures { (result ≡ pass_section named k at (fixed_hold x k)) × Reaches (at + 25) result }
{
    let v = numbers_of(x, k);
    if named {
        pass_numbers(v, k, at)
    } else {
        pass_zero(are_zero(v), at)
    }
}

// Section k over the start of `d`, where it is named; the answer is how many bytes that is.
#[tactic(auto, using(text::proofs::Over::over_none, crate::proofs::ByNumber::written))]
pub fn put_fixed(named: bool, x: Fixed, k: usize, d: &mut [u8]) -> usize
    requires { (4 ≤ k) × (length (text_if named k (fixed_hold x k)) ≤ length d.old) }
    ensures { (result ≡ length (text_if named k (fixed_hold x k))) × (d.new ≡ over d.old 0 (text_if named k (fixed_hold x k))) }
{
    if named {
        put_numbers(numbers_of(x, k), k, d)
    } else {
        0
    }
}
