// A number of the sheet, by its field's bytes.
ghost use Rattle.std.specs.Prelude.{◌≡◌, true, cond, ◌-◌, ◌≤◌, ◌<◌, length};
ghost use Rattle.sheet.specs.Number.{word_of, is_below, size_of, within, number_read, blanked, marked, number_text};
ghost use Rattle.sheet.specs.Inner.{FoundIn};

use crate::{Found, Limits};
use field::digits::is_digit;
use field::write::put_decimal;
use text::Code;

fn worth(b: u8) -> usize
    ensures { (result ≡ b - 48) × (result ≤ 207) }
{
    if b < 48 {
        return 0;
    }
    (b as usize) - 48
}

fn one_if(t: bool) -> usize
    ensures { (result ≡ cond t 1 0) × (result ≤ 1) }
{
    if t { 1 } else { 0 }
}

// One pass with no branch on a byte: numbers differ in length and sign from field to field, and a processor guesses such branches wrong.
fn found_in(f: &[u8]) -> Found
    requires { length f.now ≤ 6 }
    ensures { FoundIn f.now result }
{
    let mut spaces: usize = 0;
    let mut digits: usize = 0;
    let mut n: usize = 0;
    let mut i = 0;
    while i < f.len() {
        let b = f[i];
        spaces = spaces + one_if((spaces == i) & (b == b' '));
        digits = digits + one_if(is_digit(b));
        n = n * 10 + worth(b);
        i += 1;
    }
    Found {
        spaces,
        digits,
        value: n,
    }
}

#[tactic(auto, unfolding(crate::specs::Number::within))]
fn is_within(l: Limits, below: bool, v: usize) -> bool
    ensures { result ≡ within l below v }
{
    if below {
        v <= l.below
    } else {
        (l.least <= v) & (v <= l.most)
    }
}

fn word_of(below: bool, v: usize) -> u16
    requires v_bound { v ≤ 32768 }
    requires v_nonzero { below ≡ true → 0 < v }
    ensures { result ≡ word_of below v }
{
    if below { (65536 - v) as u16 } else { v as u16 }
}

// Spaces, then `-` or none, then digits to the end: the three then add up to the field's length. 4, then 6, then 5.
pub fn read_number(l: Limits, f: &[u8]) -> Result<u16, Code>
    requires f_len_bound { length f.now ≤ 6 }
    requires below_bound { (l.below ≤ 32768) × (l.most ≤ 32767) }
    ensures { result ≡ number_read l f.now }
{
    let Found {
        spaces,
        digits,
        value,
    } = found_in(f);
    if digits == 0 {
        return Err(Code::NotAllowed);
    }
    let below = f[spaces] == b'-';
    let first = spaces + one_if(below);
    if first + digits != f.len() {
        return Err(Code::NotAllowed);
    }
    if (f[first] == b'0') & (below | (1 < digits)) {
        return Err(Code::OtherSpelling);
    }
    if !is_within(l, below, value) {
        return Err(Code::OutOfRange);
    }
    Ok(word_of(below, value))
}

// ---- Writing

pub fn is_below(x: u16) -> bool
    ensures { result ≡ is_below x }
{
    32768 <= x
}

pub fn size_of(x: u16) -> usize
    ensures { result ≡ size_of x }
{
    if is_below(x) {
        65536 - (x as usize)
    } else {
        x as usize
    }
}

pub fn is_allowed(l: Limits, x: u16) -> bool
    ensures { result ≡ within l (is_below x) (size_of x) }
{
    is_within(l, is_below(x), size_of(x))
}

// Spaces for the zeros before the first other digit.
fn blank(d: &mut [u8])
    ensures { d.new ≡ blanked d.old }
{
    let mut i = 0;
    while i + 1 < d.len() {
        if d[i] != b'0' {
            return;
        }
        d[i] = b' ';
        i += 1;
    }
}

// `-` for the last of the leading spaces.
fn mark(d: &mut [u8])
    ensures { d.new ≡ marked d.old }
{
    let mut i = 0;
    while i + 1 < d.len() {
        let next = i + 1;
        if d[next] != b' ' {
            d[i] = b'-';
            return;
        }
        i = next;
    }
}

#[tactic(auto, unfolding(crate::specs::Number::number_text))]
pub fn put_number(x: u16, d: &mut [u8])
    ensures { d.new ≡ number_text (length d.old) x }
{
    put_decimal(d, size_of(x));
    blank(d);
    if is_below(x) {
        mark(d);
    }
}
