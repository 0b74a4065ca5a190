// Nothing, which is all zero.
ghost use Rattle.std.specs.Prelude.{◌≡◌, []};
ghost use Rattle.lists.specs.Lists.{no_airfields, no_boxes};
ghost use Rattle.settings.specs.Settings.{by_phase, regions_from, airports_from, ascent_from, fixed_of};
ghost use Rattle.settings.specs.Valid.{no_settings};

use crate::{Airports, Ascent, ByPhase, Descent, Enroute, Fixed, Hours, Regions, Settings};
use field::read::no_region;
use lists::{Airfields, Boxes, MOST_BOXES, NAME_BYTES};

fn no_boxes() -> Boxes
    ensures { result ≡ no_boxes }
{
    let none = no_region();
    Boxes {
        count: 0,
        regions: [none; MOST_BOXES],
    }
}

fn no_phases() -> ByPhase
    ensures { result ≡ by_phase no_airfields no_airfields }
{
    let none = Airfields {
        count: 0,
        names: [0; NAME_BYTES],
    };
    ByPhase {
        ascent: none,
        descent: none,
    }
}

#[tactic(auto, unfolding(crate::specs::Settings::ascent_from))]
fn no_ascent() -> Ascent
    ensures { result ≡ ascent_from [] }
{
    Ascent {
        mode: 0,
        interval1: 0,
        duration: 0,
        interval2: 0,
        total: 0,
        top: 0,
        list: 0,
        timer: 0,
    }
}

#[tactic(auto, unfolding(crate::specs::Settings::regions_from))]
pub fn no_regions() -> Regions
    ensures { result ≡ regions_from [] }
{
    Regions {
        reporting: no_boxes(),
        inhibiting: no_boxes(),
    }
}

#[tactic(auto, unfolding(crate::specs::Settings::airports_from))]
pub fn no_airports() -> Airports
    ensures { result ≡ airports_from [] }
{
    Airports {
        selected: no_phases(),
        inhibited: no_phases(),
        routine: 0,
    }
}

// The sections of numbers.
#[tactic(auto, unfolding(crate::specs::Valid::no_settings, crate::specs::Settings::settings_from, crate::specs::Settings::enroute_from, crate::specs::Settings::hours_from))]
pub fn no_fixed() -> Fixed
    ensures { result ≡ fixed_of no_settings }
{
    Fixed {
        enroute: Enroute {
            interval: 0,
            wind: 0,
        },
        ascent: no_ascent(),
        descent: Descent {
            mode: 0,
            interval: 0,
            top: 0,
            list: 0,
            timer: 0,
        },
        routine6: 0,
        routine8: 0,
        hours: Hours { start: 0, end: 0 },
    }
}

// The settings that every refusal carries.
#[tactic(auto, unfolding(crate::specs::Valid::no_settings, crate::specs::Settings::settings_from))]
pub fn no_settings() -> Settings
    ensures { result ≡ no_settings }
{
    let fixed = no_fixed();
    Settings {
        flags: [0; 7],
        regions: no_regions(),
        airports: no_airports(),
        enroute: fixed.enroute,
        ascent: fixed.ascent,
        descent: fixed.descent,
        routine6: fixed.routine6,
        routine8: fixed.routine8,
        hours: fixed.hours,
    }
}
