// Reading a command: its text checked, then what it holds as a record.
ghost use Rattle.std.specs.Prelude.{◌≡◌, false, cond, ℕ, ◌+◌, ◌-◌, ◌≤◌, length, get_or, Ok};
ghost use Rattle.text.specs.Parts.{part};
ghost use Rattle.section.specs.Inner.{numbers_of};
ghost use Rattle.settings.specs.Inner.{Held};
ghost use Rattle.settings.specs.Settings.{regions_hold, airports_hold, fixed_hold, contents_of, regions_from, airports_from, settings_from};
ghost use Rattle.command.specs.Text.{is_named, check_command};
ghost use Rattle.command.specs.Sections.{held_in};
ghost use Rattle.command.specs.Record.{digits_of, flags_of, downlink_of, command_of, no_command};
ghost use Rattle.command.specs.Inner.{Stands, Noted, held_over, fixed_over, names_lists};

use crate::Command;
use crate::check::is_named;
use section::numbers::numbers_at;
use settings::empty::{no_airports, no_fixed, no_regions, no_settings};
use settings::numbers::{
    ascent_from, descent_from, digit_from, enroute_from, fixed_of, hours_from, numbers_of,
};
use settings::places::lists_at;
use settings::section2::regions_at;
use settings::section3::airports_at;
use settings::{Airports, Fixed, Regions, Settings};

// ---- Each section: what the text holds where it names the section, else the old one

#[tactic(auto, using(crate::proofs::Placed::standing), unfolding(settings::specs::Settings::regions_from))]
fn regions_over(s: &[u8], at: usize, old: Regions) -> Regions
    requires { Stands s.now 2 at }
    ensures { result ≡ regions_from (held_over s.now 2 (regions_hold old)) }
{
    if is_named(s, 2) {
        regions_at(s, at)
    } else {
        old
    }
}

#[tactic(auto, using(crate::proofs::Placed::standing), unfolding(settings::specs::Settings::airports_from))]
fn airports_over(s: &[u8], at: usize, old: Airports) -> Airports
    requires { Stands s.now 3 at }
    ensures { result ≡ airports_from (held_over s.now 3 (airports_hold old)) }
{
    if is_named(s, 3) {
        airports_at(s, lists_at(s, at))
    } else {
        old
    }
}

// The numbers of a section without lists.
fn numbers_over(s: &[u8], k: usize, at: usize, old: Fixed) -> [u16; 8]
    requires { Stands s.now k at × (4 ≤ k) }
    ensures { (result ≡ numbers_of (held_over s.now k (fixed_hold old k))) × Held k result }
{
    if is_named(s, k) {
        numbers_at(s, at, k)
    } else {
        numbers_of(old, k)
    }
}

fn fixed_over(s: &[u8], places: [usize; 11], old: Fixed) -> Fixed
    requires { (check_command s.now ≡ Ok tt) × Noted s.now places }
    ensures { result ≡ fixed_over s.now old }
{
    Fixed {
        enroute: enroute_from(numbers_over(s, 4, places[4], old)),
        ascent: ascent_from(numbers_over(s, 5, places[5], old)),
        routine6: digit_from(numbers_over(s, 6, places[6], old)),
        routine8: digit_from(numbers_over(s, 8, places[8], old)),
        hours: hours_from(numbers_over(s, 9, places[9], old)),
        descent: descent_from(numbers_over(s, 7, places[7], old)),
    }
}

// Flags, and the sections of an accepted text over those of other settings. The record is put together once.
#[tactic(auto, unfolding(settings::specs::Settings::settings_from, settings::specs::Settings::contents_of))]
pub fn settings_over(x: Settings, flags: [u8; 7], s: &[u8], places: [usize; 11]) -> Settings
    requires { (check_command s.now ≡ Ok tt) × Noted s.now places }
    ensures { result ≡ settings_from flags (λ (k : ℕ). cond (is_named s.now k) (held_in s.now k) (contents_of x k)) }
{
    let fixed = fixed_over(s, places, fixed_of(x));
    Settings {
        flags,
        regions: regions_over(s, places[2], x.regions),
        airports: airports_over(s, places[3], x.airports),
        enroute: fixed.enroute,
        ascent: fixed.ascent,
        descent: fixed.descent,
        routine6: fixed.routine6,
        routine8: fixed.routine8,
        hours: fixed.hours,
    }
}

// ---- The digits of the first 22 bytes

// A digit that is a byte by itself.
fn mark_at(s: &[u8], at: usize) -> u8
    requires { (at + 1 ≤ length s.now) × (48 ≤ get_or s.now at 0) }
    ensures { result ≡ get_or s.now at 0 - 48 }
{
    s[at] - b'0'
}

#[tactic(auto, using(crate::proofs::Placed::first_bytes, text::proofs::Parts::part_bytes))]
pub fn flags_of(s: &[u8]) -> [u8; 7]
    requires { check_command s.now ≡ Ok tt }
    ensures { result ≡ flags_of s.now }
{
    [
        mark_at(s, 5),
        mark_at(s, 6),
        mark_at(s, 7),
        mark_at(s, 8),
        mark_at(s, 9),
        mark_at(s, 10),
        mark_at(s, 11),
    ]
}

#[tactic(auto, using(crate::proofs::Placed::first_bytes))]
pub fn downlink_of(s: &[u8]) -> u8
    requires { check_command s.now ≡ Ok tt }
    ensures { result ≡ downlink_of s.now }
{
    mark_at(s, 12)
}

#[tactic(auto, using(crate::proofs::Placed::first_bytes, text::proofs::Parts::part_bytes))]
fn named_of(s: &[u8]) -> [u8; 8]
    requires { check_command s.now ≡ Ok tt }
    ensures { result ≡ digits_of (part 13 8 s.now) }
{
    [
        mark_at(s, 13),
        mark_at(s, 14),
        mark_at(s, 15),
        mark_at(s, 16),
        mark_at(s, 17),
        mark_at(s, 18),
        mark_at(s, 19),
        mark_at(s, 20),
    ]
}

// ---- The whole

// The one empty command, which stands beside every refusal.
#[tactic(auto, unfolding(crate::specs::Record::no_command))]
pub fn no_command() -> Command
    ensures { result ≡ no_command }
{
    Command {
        settings: no_settings(),
        downlink: 0,
        named: [0; 8],
        spare: 0,
    }
}

// Whether a text names a section of lists.
#[tactic(auto, using(crate::proofs::Placed::first_bytes))]
pub fn names_lists(s: &[u8]) -> bool
    requires { check_command s.now ≡ Ok tt }
    ensures { result ≡ names_lists s.now }
{
    is_named(s, 2) | is_named(s, 3)
}

// Flags and sections of a text that names none: its digits and numbers, and no list is looked at.
fn short_settings(s: &[u8], places: [usize; 11]) -> Settings
    requires s_value { (check_command s.now ≡ Ok tt) × Noted s.now places }
    requires s_value_2 { names_lists s.now ≡ false }
    ensures { result ≡ settings_from (flags_of s.now) (held_in s.now) }
{
    let fixed = fixed_over(s, places, no_fixed());
    Settings {
        flags: flags_of(s),
        regions: no_regions(),
        airports: no_airports(),
        enroute: fixed.enroute,
        ascent: fixed.ascent,
        descent: fixed.descent,
        routine6: fixed.routine6,
        routine8: fixed.routine8,
        hours: fixed.hours,
    }
}

// Flags and sections of an accepted text: those that aren't named are zero.
fn settings_of(s: &[u8], places: [usize; 11]) -> Settings
    requires { (check_command s.now ≡ Ok tt) × Noted s.now places }
    ensures { result ≡ settings_from (flags_of s.now) (held_in s.now) }
{
    if names_lists(s) {
        settings_over(no_settings(), flags_of(s), s, places)
    } else {
        short_settings(s, places)
    }
}

// An accepted text's command.
#[tactic(auto, unfolding(crate::specs::Record::command_of))]
pub fn command_of(s: &[u8], places: [usize; 11]) -> Command
    requires { (check_command s.now ≡ Ok tt) × Noted s.now places }
    ensures { result ≡ command_of s.now }
{
    Command {
        settings: settings_of(s, places),
        downlink: downlink_of(s),
        named: named_of(s),
        spare: 0,
    }
}
