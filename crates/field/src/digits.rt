// Decimal digits. Only `0` to `9` are digits in a command.
ghost use Rattle.std.specs.Prelude.{◌≡◌, true, ◌+◌, ◌-◌, ◌≤◌, ◌<◌, length};
ghost use Rattle.text.specs.Parts.{part};
ghost use Rattle.field.specs.Decimal.{is_digit, all_digits, value};
ghost use Rattle.field.specs.Steps.{number_or};

pub fn is_digit(b: u8) -> bool
    ensures { result ≡ is_digit b }
{
    matches!(b, b'0'..=b'9')
}

// What a digit is worth.
fn worth(b: u8) -> usize
    requires { 48 ≤ b }
    ensures { result ≡ b - 48 }
{
    b as usize - 48
}

// The number that w digits from a place on spell; None where one of the bytes is no digit.
pub fn number_at(s: &[u8], at: usize, w: usize) -> Option<usize>
    requires w_in_bounds { at + w ≤ length s.now }
    requires w_bound { w ≤ 3 }
    ensures { result ≡ number_or (part at w s.now) }
{
    let mut n = 0;
    for &b in &s[at..at + w] {
        if !is_digit(b) {
            return None;
        }
        n = n * 10 + worth(b);
    }
    Some(n)
}

// What w digits spell, where they are known to be digits: none is tested again.
pub fn value_at(s: &[u8], at: usize, w: usize) -> usize
    requires w_in_bounds { at + w ≤ length s.now }
    requires w_bound { w ≤ 3 }
    requires s_value { all_digits (part at w s.now) ≡ true }
    ensures { result ≡ value (part at w s.now) }
{
    let mut n = 0;
    for &b in &s[at..at + w] {
        n = n * 10 + worth(b);
    }
    n
}

// The same for a number that a byte holds. The bytes are summed up as they stand and the zeros taken off at the end: fewer steps.
pub fn small_at(s: &[u8], at: usize, w: usize) -> u8
    requires w_in_bounds { at + w ≤ length s.now }
    requires w_bound { w ≤ 3 }
    requires s_value { all_digits (part at w s.now) ≡ true }
    requires s_bound { value (part at w s.now) < 256 }
    ensures { result ≡ value (part at w s.now) }
{
    let mut bytes = 0;
    let mut zeros = 0;
    for &b in &s[at..at + w] {
        bytes = bytes * 10 + b as usize;
        zeros = zeros * 10 + 48;
    }
    (bytes - zeros) as u8
}
