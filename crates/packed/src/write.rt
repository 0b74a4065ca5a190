// Writing a packed field.
ghost use Rattle.std.specs.Prelude.{◌≡◌, true, cond, [], ◌≤◌, ◌<◌, length};
ghost use Rattle.std.specs.Int.Signed.{mag};
ghost use Rattle.packed.specs.Packed.{
  fewest,
  spell,
  behind_spaces,
  spelling,
  field_of,
  fitting,
  half_of,
  write_code,
  written,
};
ghost use Rattle.packed.specs.Inner.{last_digit};

use crate::Figure;
use crate::decode::half;
use crate::sign::{plus, size};
use crate::table::Digits;
use text::{Code, fill};

// The fewest digits, w at the most, that hold a figure of size m.
fn fewest_of(w: usize, m: u32) -> usize
    requires { w ≤ 5 }
    ensures { result ≡ fewest w m }
{
    for j in (0..w).rev() {
        if half(j) <= m {
            return j + 1;
        }
    }
    0
}

fn low(n: u32) -> usize
    ensures { result ≡ n }
{
    n as usize
}

// The last digits of n, as many as there is room for, from the right.
fn spell_into(t: &Digits, out: &mut [u8], n: u32)
    ensures { out.new ≡ spell (length out.old) n [] }
{
    let mut i = out.len();
    let mut v = n;
    while 0 < i {
        i -= 1;
        out[i] = t.digit(low(v % 40));
        v /= 40;
    }
}

// k digits of n, behind as many spaces as are left.
fn place(t: &Digits, out: &mut [u8], k: usize, n: u32)
    requires { k ≤ length out.old }
    ensures { out.new ≡ behind_spaces (length out.old) k n }
{
    let gap = out.len() - k;
    fill(&mut out[..gap], b' ');
    spell_into(t, &mut out[gap..], n);
}

// A given figure, in its one spelling, in any width.
fn put_any(t: &Digits, x: i32, out: &mut [u8])
    requires { (length out.old ≤ 5) × (mag x < half_of (length out.old)) }
    ensures { out.new ≡ spelling (length out.old) (fewest (length out.old) (mag x)) x }
{
    let k = fewest_of(out.len(), size(x));
    let n = plus(x, half(k));
    place(t, out, k, n);
}

// A choice that costs no jump: how many digits a figure needs varies from field to field.
fn either(t: bool, a: u8, b: u8) -> u8
    ensures { result ≡ cond t a b }
{
    if t { a } else { b }
}

fn shift(t: bool) -> u32
    ensures { result ≡ cond t 20 0 }
{
    if t { 20 } else { 0 }
}

// The last digit of n, which is counted from half a digit on where none stands before it.
#[tactic(auto, unfolding(crate::specs::Inner::last_digit))]
fn last_digit(t: &Digits, n: u32, alone: bool) -> u8
    requires { n < 64000 }
    ensures { result ≡ last_digit n alone }
{
    t.digit(low((n + shift(alone)) % 40))
}

// The two bytes and the three that most figures are written in: each by itself, with no loop.
fn put_two(t: &Digits, x: i32, out: &mut [u8])
    requires { (length out.old ≡ 2) × (mag x < 800) }
    ensures { out.new ≡ spelling 2 (fewest 2 (mag x)) x }
{
    let n = plus(x, 800);
    let one = size(x) < 20;
    let a = either(one, b' ', t.digit(low(n / 40)));
    let b = last_digit(t, n, one);
    out[0] = a;
    out[1] = b;
}

fn put_three(t: &Digits, x: i32, out: &mut [u8])
    requires { (length out.old ≡ 3) × (mag x < 32000) }
    ensures { out.new ≡ spelling 3 (fewest 3 (mag x)) x }
{
    let n = plus(x, 32000);
    let m = size(x);
    let one = m < 20;
    let two = m < 800;
    let a = either(two, b' ', t.digit(low(n / 1600)));
    let b = either(one, b' ', last_digit(t, n / 40, two));
    let c = last_digit(t, n, one);
    out[0] = a;
    out[1] = b;
    out[2] = c;
}

// A given figure, in its one spelling, as wide as what is lent.
#[tactic(auto, unfolding(crate::specs::Packed::half_of))]
fn put_given(t: &Digits, x: i32, out: &mut [u8])
    requires { (length out.old ≤ 5) × (mag x < half_of (length out.old)) }
    ensures { out.new ≡ spelling (length out.old) (fewest (length out.old) (mag x)) x }
{
    let w = out.len();
    if w == 2 {
        put_two(t, x, out);
    } else if w == 3 {
        put_three(t, x, out);
    } else {
        put_any(t, x, out);
    }
}

// A figure, given or missing, as wide as what is lent.
#[tactic(auto, unfolding(crate::specs::Packed::field_of))]
pub fn put(t: &Digits, figure: Figure, out: &mut [u8])
    requires { (length out.old ≤ 5) × (fitting (length out.old) figure ≡ true) }
    ensures { out.new ≡ field_of (length out.old) figure }
{
    match figure {
        Some(x) => put_given(t, x, out),
        None => fill(out, b'/'),
    }
}

// Whether w digits hold the figure.
pub fn fits(figure: Figure, w: usize) -> bool
    requires { w ≤ 5 }
    ensures { result ≡ fitting w figure }
{
    match figure {
        Some(x) => size(x) < half(w),
        None => true,
    }
}

// Whether that room takes the figure in that width, and why not.
#[tactic(auto, unfolding(crate::specs::Packed::write_code))]
pub fn code_of(figure: Figure, width: usize, room: usize) -> Result<(), Code>
    ensures { result ≡ write_code figure width room }
{
    if width < 1 || 5 < width {
        return Err(Code::WrongLength);
    }
    if !fits(figure, width) {
        return Err(Code::OutOfRange);
    }
    if room < width {
        return Err(Code::NoRoom);
    }
    Ok(())
}

// A field that stands alone, at the start of what is lent, or nothing and the refusal's code.
pub fn write_lone(figure: Figure, width: usize, out: &mut [u8]) -> Result<(), Code>
    ensures { (result ≡ write_code figure width (length out.old)) × (out.new ≡ written figure width out.old) }
{
    code_of(figure, width, out.len())?;
    put(&Digits::new(), figure, &mut out[..width]);
    Ok(())
}
