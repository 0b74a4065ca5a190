// A command's smallest fields in a text, from a place on. Within a field: 8 where the text ends in it, then 3 or 4, then 5.
ghost use Rattle.std.specs.Prelude.{◌≡◌, ◌≤◌, length};
ghost use Rattle.field.specs.Fields.{check_digits, check_delimiter, check_airfield};

use crate::digits::number_at;
use text::{Code, Refusal, all_allowed};

// w digits: a non-digit is 4; a number that doesn't fit has a code of its own, 5, or 4 where few digits are allowed.
#[tactic(auto, unfolding(crate::specs::Fields::check_digits, crate::specs::Steps::number_or))]
pub fn digits(
    s: &[u8],
    at: usize,
    w: usize,
    least: usize,
    most: usize,
    code: Code,
) -> Result<usize, Refusal>
    requires at_in_bounds { at ≤ length s.now }
    requires w_bound { w ≤ 3 }
    ensures { result ≡ check_digits code w least most s.now at }
{
    let end = at + w;
    if s.len() < end {
        return Err(Code::WrongEnd.at(at));
    }
    let n = number_at(s, at, w).ok_or(Code::NotAllowed.at(at))?;
    if n < least || most < n {
        return Err(code.at(at));
    }
    Ok(end)
}

// A `/` delimiter is a fixed byte: another is 3.
#[tactic(auto, unfolding(crate::specs::Fields::check_delimiter))]
pub fn delimiter(s: &[u8], at: usize) -> Result<usize, Refusal>
    requires { at ≤ length s.now }
    ensures { result ≡ check_delimiter s.now at }
{
    if s.len() <= at {
        return Err(Code::WrongEnd.at(at));
    }
    if s[at] != b'/' {
        return Err(Code::WrongFixed.at(at));
    }
    Ok(at + 1)
}

// An airfield, four bytes: one that may not stand in a name is 4.
#[tactic(auto, unfolding(crate::specs::Fields::check_airfield))]
pub fn airfield(s: &[u8], at: usize) -> Result<usize, Refusal>
    requires { at ≤ length s.now }
    ensures { result ≡ check_airfield s.now at }
{
    let end = at + 4;
    if s.len() < end {
        return Err(Code::WrongEnd.at(at));
    }
    if !all_allowed(&s[at..end]) {
        return Err(Code::NotAllowed.at(at));
    }
    Ok(end)
}
