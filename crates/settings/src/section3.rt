// Section 3: the airfields selected and inhibited, each for ascent and descent, and whether the rest is routine.
ghost use Rattle.std.specs.Prelude.{◌≡◌, true, ◌&&◌, ℕ, ◌+◌, ◌*◌, ◌≤◌, length, Ok};
ghost use Rattle.text.specs.Checks.{◌and_then◌, is_fine};
ghost use Rattle.text.specs.Over.{over};
ghost use Rattle.lists.specs.Lists.{most_airfields, count_at, check_airfields, airfields_at, airfields_allowed, airfields_text};
ghost use Rattle.section.specs.Layout.{layout_of, Accepted};
ghost use Rattle.section.specs.Contents.{Names, contents_at, contents_text, contents_allowed};
ghost use Rattle.section.specs.Inner.{pass_contents, Reaches};
ghost use Rattle.settings.specs.Settings.{airports_hold, airports_from, by_phase, phases_text};
ghost use Rattle.settings.specs.Valid.{is_zero, are_zero};
ghost use Rattle.settings.specs.Inner.{lists_at, pass_section, text_if};

use crate::places::{ListPlaces, pass_zero};
use crate::{Airports, ByPhase};
use field::digits::small_at;
use field::write::put_decimal;
use lists::Airfields;
use lists::read::airfields_at;
use lists::record::{airfields_allowed, airfields_fine, airfields_zero};
use lists::write::put_airfields;
use text::{Code, Refusal};

// A list for the ascent and one for the descent, each at its place.
fn phases_at(s: &[u8], ascent: usize, descent: usize) -> ByPhase
    requires ascent_in_bounds { (ascent ≤ length s.now) × (descent ≤ length s.now) }
    requires ascent_value { check_airfields s.now ascent ≡ Ok (ascent + 2 + 4 * count_at s.now ascent) }
    requires descent_value { check_airfields s.now descent ≡ Ok (descent + 2 + 4 * count_at s.now descent) }
    ensures { result ≡ by_phase (airfields_at s.now ascent) (airfields_at s.now descent) }
{
    ByPhase {
        ascent: airfields_at(s, ascent),
        descent: airfields_at(s, descent),
    }
}

// Section 3: selected for the ascent, for the descent, inhibited for each, and the routine digit.
#[tactic(auto, unfolding(section::specs::Layout::layout_of, section::specs::Layout::table_of, section::specs::Contents::contents_at, crate::specs::Settings::airports_from))]
pub fn airports_at(s: &[u8], p: ListPlaces) -> Airports
    requires accepted { Accepted 3 s.now p.first }
    requires p_value { p ≡ lists_at s.now p.first }
    ensures { result ≡ airports_from (contents_at (layout_of 3) s.now p.first) }
{
    Airports {
        selected: phases_at(s, p.first, p.second),
        inhibited: phases_at(s, p.third, p.fourth),
        routine: small_at(s, p.last, 1),
    }
}

fn phases_zero(x: ByPhase) -> bool
    ensures { result ≡ (is_zero (Names x.ascent) && is_zero (Names x.descent)) }
{
    airfields_zero(x.ascent) & airfields_zero(x.descent)
}

#[tactic(auto, unfolding(crate::specs::Valid::are_zero))]
fn airports_zero(x: Airports) -> bool
    ensures { result ≡ are_zero (airports_hold x) }
{
    phases_zero(x.selected) & phases_zero(x.inhibited) & (x.routine == 0)
}

fn phases_fine(x: ByPhase) -> bool
    ensures { (p q : ℕ) → result ≡ (is_fine (airfields_allowed p x.ascent) && is_fine (airfields_allowed q x.descent)) }
{
    airfields_fine(x.ascent.count, &x.ascent.names)
        & airfields_fine(x.descent.count, &x.descent.names)
}

#[tactic(auto, using(crate::proofs::Fine::fine), unfolding(section::specs::Layout::layout_of, section::specs::Layout::table_of, section::specs::Contents::contents_allowed))]
pub fn airports_fine(x: Airports) -> bool
    ensures { (at : ℕ) → result ≡ is_fine (contents_allowed (layout_of 3) at (airports_hold x)) }
{
    phases_fine(x.selected) & phases_fine(x.inhibited) & (x.routine <= 1)
}

// How long a list's text is.
#[tactic(auto, using(crate::proofs::Pieces::of_lists))]
fn airfields_size(l: Airfields) -> usize
    requires { l.count ≤ most_airfields }
    ensures { (result ≡ length (airfields_text l)) × (result ≡ 2 + 4 * l.count) }
{
    2 + 4 * l.count as usize
}

// How long the text of both lists is.
fn phases_size(x: ByPhase) -> usize
    requires { (x.ascent.count ≤ most_airfields) × (x.descent.count ≤ most_airfields) }
    ensures { (result ≡ length (airfields_text x.ascent) + length (airfields_text x.descent)) × (result ≤ 164) }
{
    airfields_size(x.ascent) + airfields_size(x.descent)
}

// The lists of an ascent and of a descent, one behind the other.
#[tactic(auto, using(crate::proofs::Pieces::of_lists))]
fn phases_allowed(x: ByPhase, at: usize) -> Result<(), Refusal>
    requires { at ≤ 2000 }
    ensures { result ≡ (airfields_allowed at x.ascent and_then airfields_allowed (at + length (airfields_text x.ascent)) x.descent) }
{
    airfields_allowed(x.ascent, at)?;
    airfields_allowed(x.descent, at + airfields_size(x.ascent))
}

// Section 3, list by list.
#[tactic(auto, using(section::proofs::Held::and_stop, section::proofs::Held::and_go, crate::proofs::Pieces::of_lists), unfolding(section::specs::Layout::layout_of, section::specs::Layout::table_of, section::specs::Contents::contents_allowed))]
fn each_airfields_allowed(x: Airports, at: usize) -> Result<(), Refusal>
    requires { at ≤ 1000 }
    ensures { result ≡ contents_allowed (layout_of 3) at (airports_hold x) }
{
    phases_allowed(x.selected, at)?;
    let third = at + phases_size(x.selected);
    phases_allowed(x.inhibited, third)?;
    let routine = third + phases_size(x.inhibited);
    if x.routine <= 1 {
        Ok(())
    } else {
        Err(Code::OutOfRange.at(routine))
    }
}

// Section 3.
#[tactic(auto, using(crate::proofs::Pieces::of_lists))]
fn airports_allowed(x: Airports, at: usize) -> Result<(), Refusal>
    requires { at ≤ 1000 }
    ensures { result ≡ contents_allowed (layout_of 3) at (airports_hold x) }
{
    if airports_fine(x) {
        Ok(())
    } else {
        each_airfields_allowed(x, at)
    }
}

// How long the text of section 3 is.
fn airports_length(x: Airports) -> usize
    requires count_le_most_airfields { (x.selected.ascent.count ≤ most_airfields) × (x.selected.descent.count ≤ most_airfields) }
    requires count_le_most_airfields_2 { (x.inhibited.ascent.count ≤ most_airfields) × (x.inhibited.descent.count ≤ most_airfields) }
    ensures { (result ≡ length (contents_text (layout_of 3) (airports_hold x))) × (result ≤ 330) }
{
    phases_size(x.selected) + phases_size(x.inhibited) + 2
}

fn put_phases(x: ByPhase, d: &mut [u8])
    requires count_le_most_airfields { (x.ascent.count ≤ most_airfields) × (x.descent.count ≤ most_airfields) }
    requires descent_in_bounds { length (airfields_text x.ascent) + length (airfields_text x.descent) ≤ length d.old }
    ensures { d.new ≡ over d.old 0 (phases_text x) }
{
    let mid = airfields_size(x.ascent);
    let end = mid + airfields_size(x.descent);
    put_airfields(x.ascent, &mut d[..mid]);
    put_airfields(x.descent, &mut d[mid..end]);
}

// Section 3.
fn put_airports(x: Airports, d: &mut [u8]) -> usize
    requires count_le_most_airfields { (x.selected.ascent.count ≤ most_airfields) × (x.selected.descent.count ≤ most_airfields) }
    requires count_le_most_airfields_2 { (x.inhibited.ascent.count ≤ most_airfields) × (x.inhibited.descent.count ≤ most_airfields) }
    requires descent_in_bounds { length (airfields_text x.selected.ascent) + length (airfields_text x.selected.descent)
        + (length (airfields_text x.inhibited.ascent) + length (airfields_text x.inhibited.descent))
        + 2
        ≤ length d.old }
    ensures { (result ≡ length (contents_text (layout_of 3) (airports_hold x)))
        × (d.new ≡ over d.old 0 (contents_text (layout_of 3) (airports_hold x))) }
{
    let third = phases_size(x.selected);
    let routine = third + phases_size(x.inhibited);
    let end = routine + 1;
    put_phases(x.selected, &mut d[..third]);
    put_phases(x.inhibited, &mut d[third..routine]);
    put_decimal(&mut d[routine..end], x.routine as usize);
    d[end] = b'/';
    end + 1
}

// Section 3, named or not: where what follows it would begin, or its refusal.
#[tactic(auto, using(crate::proofs::Pieces::pass_unnamed, crate::proofs::Pieces::room))]
pub fn pass_airports(named: bool, x: Airports, at: usize) -> Result<usize, Refusal>
    requires { at ≤ 1000 }
    ensures { (result ≡ pass_section named 3 at (airports_hold x)) × Reaches (at + 330) result }
{
    if named {
        airports_allowed(x, at)?;
        Ok(at + airports_length(x))
    } else {
        pass_zero(airports_zero(x), at)
    }
}

// Section 3, where it is named; the answer is how many bytes that is.
#[tactic(auto, using(text::proofs::Over::over_none, crate::proofs::Pieces::room))]
pub fn put_named_airports(named: bool, x: Airports, d: &mut [u8]) -> usize
    requires x_value { named ≡ true → contents_allowed (layout_of 3) 0 (airports_hold x) ≡ Ok tt }
    requires x_in_bounds { length (text_if named 3 (airports_hold x)) ≤ length d.old }
    ensures { (result ≡ length (text_if named 3 (airports_hold x))) × (d.new ≡ over d.old 0 (text_if named 3 (airports_hold x))) }
{
    if named { put_airports(x, d) } else { 0 }
}
