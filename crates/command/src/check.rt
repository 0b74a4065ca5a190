// Checking a command's text; no record is built.
ghost use Rattle.std.specs.Prelude.{◌≡◌, true, ℕ, ◌≤◌, ◌<◌, length, Ok};
ghost use Rattle.text.specs.Equal.{same_bytes};
ghost use Rattle.text.specs.Parts.{part};
ghost use Rattle.command.specs.Text.{awr04, is_flag, is_downlink, is_indicator, is_named, head_bytes, check_awr04, check_each, check_head, check_from, ended, check_command};
ghost use Rattle.section.specs.Layout.{numbers};
ghost use Rattle.command.specs.Inner.{head_test, is_among, section_seen, Noted};

use crate::LONGEST;
use field::check::delimiter;
use field::digits::is_digit;
use section::check::check_section;
use section::table::is_section;
use text::{Code, Refusal};

#[tactic(auto, using(crate::proofs::Checking::awr04_bytes))]
fn is_awr04(s: &[u8]) -> bool
    requires { 5 ≤ length s.now }
    ensures { result ≡ same_bytes (part 0 5 s.now) awr04 }
{
    (s[0] == b'A') & (s[1] == b'W') & (s[2] == b'R') & (s[3] == b'0') & (s[4] == b'4')
}

// `AWR04`, one fixed group.
#[tactic(auto, unfolding(crate::specs::Text::check_awr04))]
fn check_awr04(s: &[u8]) -> Result<usize, Refusal>
    ensures { result ≡ check_awr04 s.now }
{
    if s.len() < 5 {
        return Err(Code::WrongEnd.at(0));
    }
    if !is_awr04(s) {
        return Err(Code::WrongFixed.at(0));
    }
    Ok(5)
}

fn is_flag(b: u8) -> bool
    ensures { result ≡ is_flag b }
{
    matches!(b, b'0' | b'1' | b'9')
}

fn is_downlink(b: u8) -> bool
    ensures { result ≡ is_downlink b }
{
    matches!(b, b'0'..=b'2')
}

// 0 or its own number.
fn is_indicator(k: usize, b: u8) -> bool
    requires { k ≤ 9 }
    ensures { result ≡ is_indicator k b }
{
    (b == b'0') | (is_section(k) & (b as usize == 48 + k))
}

// Seven flags, the downlink digit, eight indicators.
fn is_head_byte(i: usize, b: u8) -> bool
    requires { i < 16 }
    ensures { result ≡ head_test i b }
{
    if i < 7 {
        is_flag(b)
    } else if i == 7 {
        is_downlink(b)
    } else {
        is_indicator(i - 6, b)
    }
}

#[tactic(auto, using(crate::proofs::Checking::head_cut, crate::proofs::Checking::head_bad, crate::proofs::Checking::head_on, crate::proofs::Checking::head_end))]
fn check_bytes(s: &[u8]) -> Result<usize, Refusal>
    requires { 5 ≤ length s.now }
    ensures { result ≡ check_each head_bytes s.now 5 }
{
    for i in 0..16 {
        let at = 5 + i;
        if s.len() <= at {
            return Err(Code::WrongEnd.at(at));
        }
        if !is_head_byte(i, s[at]) {
            return Err(Code::NotAllowed.at(at));
        }
    }
    Ok(21)
}

// The first 22 bytes, group by group, up to the one that is wrong.
#[tactic(auto, using(crate::proofs::Checking::awr04_next, crate::proofs::Head::passed), unfolding(crate::specs::Text::check_head))]
fn head_by_groups(s: &[u8]) -> Result<usize, Refusal>
    ensures { result ≡ check_head s.now }
{
    check_awr04(s)?;
    let at = check_bytes(s)?;
    delimiter(s, at)
}

// Whether a byte is 0 or one of four others.
fn is_among(b: u8, one: u8, two: u8, nine: u8, own: u8) -> bool
    ensures { result ≡ is_among b one two nine own }
{
    (b == b'0') | (b == one) | (b == two) | (b == nine) | (b == own)
}

// Whether flags, downlink digit and indicators are all allowed: what may stand at each place beside 0, where there is anything. All
// sixteen are looked at in one step; without the digit's test they would be taken apart into steps of their own.
#[tactic(auto, using(crate::proofs::Columns::columns, crate::proofs::Checking::head_on, crate::proofs::Checking::head_end))]
fn bytes_fine(s: &[u8]) -> bool
    requires { 22 ≤ length s.now }
    ensures { result ≡ true → check_each head_bytes s.now 5 ≡ Ok 21 }
{
    let one = *b"1111111100000000";
    let two = *b"0000000200000000";
    let nine = *b"9999999000000000";
    let own = *b"0000000023456789";
    let mut fine = true;
    for i in 0..16 {
        let b = s[5 + i];
        fine &= is_digit(b) & is_among(b, one[i], two[i], nine[i], own[i]);
    }
    fine
}

#[tactic(auto, using(crate::proofs::Checking::groups_fine))]
fn head_fine(s: &[u8]) -> bool
    requires { 22 ≤ length s.now }
    ensures { result ≡ true → check_head s.now ≡ Ok 22 }
{
    is_awr04(s) & bytes_fine(s) & (s[21] == b'/')
}

// The first 22 bytes: all at once, and group by group only where one is wrong.
fn head_seen(s: &[u8]) -> Result<usize, Refusal>
    ensures { result ≡ check_head s.now }
{
    if 22 <= s.len() && head_fine(s) {
        return Ok(22);
    }
    head_by_groups(s)
}

// The same. This is called from several places, so it is not put into each; the slice is taken anew, so that its pointer and length
// are not read back from the caller's memory at once, which stalls.
pub fn check_head(s: &[u8]) -> Result<usize, Refusal>
    ensures { result ≡ check_head s.now }
{
    head_seen(&s[..s.len()])
}

// Whether section k is named: E2 stands at byte 13.
pub fn is_named(s: &[u8], k: usize) -> bool
    requires { (k ≤ 9) × (22 ≤ length s.now) }
    ensures { result ≡ is_named s.now k }
{
    s[11 + k] as usize == 48 + k
}

// Section k, where it is named.
fn section_seen(s: &[u8], k: usize, at: usize) -> Result<usize, Refusal>
    requires { (k ≤ 9) × (22 ≤ length s.now) × (at ≤ length s.now) }
    ensures { result ≡ section_seen s.now k at }
{
    if is_named(s, k) {
        check_section(s, at, k)
    } else {
        Ok(at)
    }
}

// The sections named, in rising order. The place of each is noted under its number, and under 10 where the last ends; an unnamed
// one's is where it would stand.
#[tactic(auto, using(crate::proofs::Reached::reached_stop, crate::proofs::Reached::reached_on, crate::proofs::Reached::reached_end, crate::proofs::Reached::reached_noted))]
fn check_sections(s: &[u8], places: &mut [usize]) -> Result<usize, Refusal>
    requires { (22 ≤ length s.now) × (length places.old ≡ 11) }
    ensures { (result ≡ check_from numbers s.now 22)
        × ((p : ℕ) → result ≡ Ok p → Noted s.now places.new) }
{
    let mut at = 22;
    for k in 2..10 {
        places[k] = at;
        at = section_seen(s, k, at)?;
    }
    places[10] = at;
    Ok(at)
}

// Bytes after the last delimiter are refused, at the first of them.
fn check_end(s: &[u8], places: &mut [usize]) -> Result<(), Refusal>
    requires { (22 ≤ length s.now) × (length places.old ≡ 11) }
    ensures { (result ≡ ended s.now (check_from numbers s.now 22))
        × (result ≡ Ok tt → Noted s.now places.new) }
{
    let at = check_sections(s, places)?;
    if at != s.len() {
        return Err(Code::WrongEnd.at(at));
    }
    Ok(())
}

// Whether a command's text is accepted; where it is, the places of its sections are noted.
#[tactic(auto, using(crate::proofs::Head::passed), unfolding(crate::specs::Text::check_command))]
pub fn walk(s: &[u8], places: &mut [usize]) -> Result<(), Refusal>
    requires { length places.old ≡ 11 }
    ensures { (result ≡ check_command s.now)
        × (result ≡ Ok tt → Noted s.now places.new) }
{
    if LONGEST < s.len() {
        return Err(Code::WrongLength.at(0));
    }
    check_head(s)?;
    check_end(s, places)
}

// Whether a command's text is accepted.
pub fn check(s: &[u8]) -> Result<(), Refusal>
    ensures { result ≡ check_command s.now }
{
    let mut places = [0; 11];
    walk(s, &mut places)
}
