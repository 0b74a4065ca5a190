// The command that makes one configuration into another.
ghost use Rattle.std.specs.Prelude.{◌≡◌, cond, not, map, ℕ, eqb, get_or};
ghost use Rattle.section.specs.Layout.{numbers};
ghost use Rattle.section.specs.Inner.{numbers_of};
ghost use Rattle.settings.specs.Settings.{regions_hold, airports_hold, fixed_hold, regions_from, airports_from, contents_of, settings_from};
ghost use Rattle.settings.specs.Inner.{Held};
ghost use Rattle.commute.specs.Commute.{flag_numbers};
ghost use Rattle.difference.specs.Difference.{section_differs, between};
ghost use Rattle.difference.specs.Inner.{held_if, marked, fixed_if};

use crate::same::{same_fixed, same_section2, same_section3};
use command::Command;
use settings::empty::{no_airports, no_regions};
use settings::numbers::{
    ascent_from, descent_from, digit_from, enroute_from, fixed_of, hours_from, numbers_of,
};
use settings::{Airports, Fixed, Regions, Settings};

// ---- What the command sets

// 9, which sets nothing, where the second is as the first.
fn flag_between(v: u8, w: u8) -> u8
    ensures { result ≡ cond (not (eqb v w)) w 9 }
{
    if v == w { 9 } else { w }
}

fn flags_between(a: [u8; 7], b: [u8; 7]) -> [u8; 7]
    ensures { result ≡ map (λ (i : ℕ). cond (not (eqb (get_or a i 0) (get_or b i 0))) (get_or b i 0) 9) flag_numbers }
{
    [
        flag_between(a[0], b[0]),
        flag_between(a[1], b[1]),
        flag_between(a[2], b[2]),
        flag_between(a[3], b[3]),
        flag_between(a[4], b[4]),
        flag_between(a[5], b[5]),
        flag_between(a[6], b[6]),
    ]
}

// An indicator: the section's number where it is not the same.
fn mark(same: bool, k: u8) -> u8
    ensures { result ≡ cond (not same) k 0 }
{
    if same { 0 } else { k }
}

#[tactic(auto, unfolding(settings::specs::Settings::contents_of))]
fn marks_between(a: Settings, b: Settings) -> [u8; 8]
    ensures { result ≡ map (λ (k : ℕ). cond (section_differs a b k) k 0) numbers }
{
    let first = fixed_of(a);
    let second = fixed_of(b);
    [
        mark(same_section2(a.regions, b.regions), 2),
        mark(same_section3(a.airports, b.airports), 3),
        mark(same_fixed(first, second, 4), 4),
        mark(same_fixed(first, second, 5), 5),
        mark(same_fixed(first, second, 6), 6),
        mark(same_fixed(first, second, 7), 7),
        mark(same_fixed(first, second, 8), 8),
        mark(same_fixed(first, second, 9), 9),
    ]
}

// ---- Each section where it is named, else nothing, which is zero

#[tactic(auto, unfolding(settings::specs::Settings::regions_from))]
fn regions_if(named: bool, x: Regions) -> Regions
    ensures { result ≡ regions_from (held_if named (regions_hold x)) }
{
    if named { x } else { no_regions() }
}

#[tactic(auto, unfolding(settings::specs::Settings::airports_from))]
fn airports_if(named: bool, x: Airports) -> Airports
    ensures { result ≡ airports_from (held_if named (airports_hold x)) }
{
    if named { x } else { no_airports() }
}

#[tactic(auto, using(settings::proofs::ByNumber::no_bytes), unfolding(section::specs::Inner::numbers_of))]
fn numbers_if(named: bool, x: Fixed, k: usize) -> [u16; 8]
    ensures { (result ≡ numbers_of (held_if named (fixed_hold x k))) × Held k result }
{
    if named { numbers_of(x, k) } else { [0; 8] }
}

fn fixed_if(named: [u8; 8], x: Fixed) -> Fixed
    ensures { result ≡ fixed_if named x }
{
    Fixed {
        enroute: enroute_from(numbers_if(named[2] == 4, x, 4)),
        ascent: ascent_from(numbers_if(named[3] == 5, x, 5)),
        routine6: digit_from(numbers_if(named[4] == 6, x, 6)),
        descent: descent_from(numbers_if(named[5] == 7, x, 7)),
        routine8: digit_from(numbers_if(named[6] == 8, x, 8)),
        hours: hours_from(numbers_if(named[7] == 9, x, 9)),
    }
}

// Flags, and of other settings the sections that are named.
#[tactic(auto, unfolding(settings::specs::Settings::settings_from, settings::specs::Settings::contents_of))]
fn settings_if(flags: [u8; 7], named: [u8; 8], x: Settings) -> Settings
    ensures { result ≡ settings_from flags (λ (k : ℕ). held_if (marked named k) (contents_of x k)) }
{
    let fixed = fixed_if(named, fixed_of(x));
    Settings {
        flags,
        regions: regions_if(named[0] == 2, x.regions),
        airports: airports_if(named[1] == 3, x.airports),
        enroute: fixed.enroute,
        ascent: fixed.ascent,
        descent: fixed.descent,
        routine6: fixed.routine6,
        routine8: fixed.routine8,
        hours: fixed.hours,
    }
}

// ---- The whole

pub fn command_between(a: Settings, b: Settings) -> Command
    ensures { result ≡ between a b }
{
    let named = marks_between(a, b);
    let flags = flags_between(a.flags, b.flags);
    Command {
        settings: settings_if(flags, named, b),
        downlink: 0,
        named,
        spare: 0,
    }
}
