// A record's own check, field by field from left to right, with the places where the fields would stand.
ghost use Rattle.std.specs.Prelude.{◌≡◌, ◌&&◌, ◌||◌, not, ◌∷◌, [], ◌≤◌, eqb, leb, length, drop};
ghost use Rattle.text.specs.Checks.{must, ◌and_then◌};
ghost use Rattle.text.specs.declared.Code.TheVariants.{Disagree, NotAllowed};
ghost use Rattle.section.specs.Layout.{numbers, layout_of, is_empty};
ghost use Rattle.section.specs.Inner.{going_on, Reaches};
ghost use Rattle.command.specs.Record.{flag_allowed, flags_allowed, named_allowed, marks_allowed, sections_allowed, command_allowed, command_text};
ghost use Rattle.command_write.specs.Inner.{pass_sections, pass_numbered};

use command::Command;
use field::record::wide;
use section::table::is_section;
use settings::Fixed;
use settings::numbers::{fixed_of, pass_fixed};
use settings::section2::pass_regions;
use settings::section3::pass_airports;
use text::{Code, Refusal};

// 0, 1 or 9 (no change).
fn is_flag_value(v: u8) -> bool
    ensures { result ≡ flag_allowed v }
{
    (v <= 1) | (v == 9)
}

// Seven flags: another value is 4.
fn flags_allowed(flags: [u8; 7]) -> Result<(), Refusal>
    ensures { result ≡ flags_allowed 5 flags }
{
    for (i, &v) in flags.iter().enumerate() {
        if !is_flag_value(v) {
            return Err(Code::NotAllowed.at(5 + i));
        }
    }
    Ok(())
}

// 0 or the section's own number, if there is such a section.
fn is_indicator_value(k: usize, v: u8) -> bool
    ensures { result ≡ (eqb v 0 || (not (is_empty (layout_of k)) && eqb v k)) }
{
    (v == 0) | (is_section(k) & (wide(v) == k))
}

// Eight indicators, E2 to E9: another value is 4.
fn named_allowed(named: [u8; 8]) -> Result<(), Refusal>
    ensures { result ≡ named_allowed numbers 13 named }
{
    for (i, &v) in named.iter().enumerate() {
        if !is_indicator_value(2 + i, v) {
            return Err(Code::NotAllowed.at(13 + i));
        }
    }
    Ok(())
}

// The indicators, and the spare byte behind them.
fn marks_allowed(named: [u8; 8], spare: u8) -> Result<(), Refusal>
    ensures { result ≡ (named_allowed numbers 13 named and_then must (eqb spare 0) Disagree 21) }
{
    named_allowed(named)?;
    if spare != 0 {
        return Err(Code::Disagree.at(21));
    }
    Ok(())
}

// The flags, the downlink digit, the indicators.
fn head_allowed(c: Command) -> Result<(), Refusal>
    ensures { result ≡ (flags_allowed 5 c.settings.flags and_then must (leb c.downlink 2) NotAllowed 12 and_then marks_allowed c) }
{
    flags_allowed(c.settings.flags)?;
    if 2 < c.downlink {
        return Err(Code::NotAllowed.at(12));
    }
    marks_allowed(c.named, c.spare)
}

// Sections 2 and 3, named or not: where what follows them would begin, or the first refusal.
fn pass_lists(c: Command) -> Result<usize, Refusal>
    ensures { (result ≡ pass_sections (2 ∷ 3 ∷ []) 22 c) × Reaches 805 result }
{
    let at = pass_regions(c.named[0] == 2, c.settings.regions, 22)?;
    pass_airports(c.named[1] == 3, c.settings.airports, at)
}

// Sections 4 to 9, from a place on.
fn pass_numbered(x: Fixed, named: [u8; 8], from: usize) -> Result<usize, Refusal>
    requires { from ≤ 805 }
    ensures { result ≡ pass_numbered (drop 2 numbers) from x named }
{
    let mut at = from;
    for k in 4..10 {
        at = pass_fixed(wide(named[k - 2]) == k, x, k, at)?;
    }
    Ok(at)
}

// Every section; where the last ends, the text would.
fn pass_sections(c: Command) -> Result<usize, Refusal>
    ensures { result ≡ going_on (sections_allowed numbers 22 c) (length (command_text c)) }
{
    let at = pass_lists(c)?;
    pass_numbered(fixed_of(c.settings), c.named, at)
}

// The record's own check: how long its text would be, or the refusal.
pub fn pass_record(c: Command) -> Result<usize, Refusal>
    ensures { result ≡ going_on (command_allowed c) (length (command_text c)) }
{
    head_allowed(c)?;
    pass_sections(c)
}
