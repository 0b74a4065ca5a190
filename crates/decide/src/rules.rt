// The rules in their order, as the first reason that holds, and the refusals before them. The decision is read off the reason.
ghost use Rattle.std.specs.Prelude.{◌≡◌, true, [], ◌<◌};
ghost use Rattle.std.specs.Int.Signed.{mag};
ghost use Rattle.settings.specs.Valid.{valid};
ghost use Rattle.decide.specs.Tests.{in_range};
ghost use Rattle.decide.specs.Reason.{by_flag, decision_of, or_routine, routine_by, phase_reason, reason_for, explained, decided};

use crate::airfield::{is_airfield, name_of, scheme_reason};
use crate::boxes::{inhibiting_box, minutes_of, no_reporting_box};
use crate::window::in_window;
use crate::{Decision, Reason};
use settings::Settings;
use settings::valid::is_valid;
use text::Code;

// Phase, hour and position: a first observation's limits. Gathered: any of them is 5.
fn in_range(phase: u8, north: i32, east: i32, hour: u8) -> bool
    ensures { result ≡ in_range (record { phase = phase; north = north; east = east; hour = hour; airfield = [] }) }
{
    (phase <= 2)
        & (hour <= 23)
        & (-5400 <= north)
        & (north <= 5400)
        & (-10800 <= east)
        & (east <= 10800)
}

// An enroute flag of 1 is routine, an ascent or descent flag of 1 a scheme.
fn by_flag(flag: u8) -> Decision
    ensures { result ≡ by_flag flag }
{
    match flag {
        6 => Decision::Routine,
        _ => Decision::Scheme,
    }
}

pub fn decision_of(reason: Reason) -> Decision
    ensures { result ≡ decision_of reason }
{
    match reason {
        Reason::FlagOn(flag) => by_flag(flag),
        Reason::Digit(_) => Decision::Routine,
        Reason::AmdarOff
        | Reason::Hours
        | Reason::InhibitingBox(_)
        | Reason::NoReportingBox
        | Reason::FlagOff(_)
        | Reason::AirfieldInhibited
        | Reason::AirfieldNotSelected => Decision::Silent,
    }
}

// Where no scheme is flown, a digit of 1 makes silence routine.
fn or_routine(section: u8, digit: u8, reason: Reason) -> Reason
    ensures { result ≡ or_routine section digit reason }
{
    if digit == 1 && matches!(decision_of(reason), Decision::Silent) {
        Reason::Digit(section)
    } else {
        reason
    }
}

// Without airports the phase's own section says whether it is routine, with them section 3.
fn routine_by(airports: u8, section: u8, own: u8, third: u8, reason: Reason) -> Reason
    ensures { result ≡ routine_by airports section own third reason }
{
    if airports == 0 {
        or_routine(section, own, reason)
    } else {
        or_routine(3, third, reason)
    }
}

// The enroute flag alone decides level flight. Position and hour play no part in any phase.
#[tactic(auto, using(crate::proofs::Sound::sound), unfolding(crate::specs::Reason::phase_reason))]
fn phase_reason(x: Settings, phase: u8, name: [u8; 4]) -> Reason
    requires { valid x ≡ true }
    ensures { result ≡ phase_reason x phase name }
{
    let flags = x.flags;
    if phase == 1 {
        return if flags[5] == 1 {
            Reason::FlagOn(6)
        } else {
            Reason::FlagOff(6)
        };
    }
    let airports = x.airports;
    let selected = airports.selected;
    let inhibited = airports.inhibited;
    if phase == 0 {
        let ours = selected.ascent;
        let barred = inhibited.ascent;
        let reason = scheme_reason(flags[3], 5, flags[4], ours, barred, name);
        return routine_by(flags[3], 6, x.routine6, airports.routine, reason);
    }
    let ours = selected.descent;
    let barred = inhibited.descent;
    let reason = scheme_reason(flags[3], 7, flags[6], ours, barred, name);
    routine_by(flags[3], 8, x.routine8, airports.routine, reason)
}

#[tactic(auto, using(crate::proofs::Sound::sound), unfolding(crate::specs::Reason::reason_for))]
fn reason_for(x: Settings, phase: u8, north: i32, east: i32, hour: u8, name: [u8; 4]) -> Reason
    requires x_value { valid x ≡ true }
    requires north_bound { (mag north < 60000) × (mag east < 60000) }
    ensures { result ≡ reason_for x (record { phase = phase; north = north; east = east; hour = hour; airfield = name }) }
{
    let flags = x.flags;
    let hours = x.hours;
    if flags[0] == 0 {
        return Reason::AmdarOff;
    }
    if (flags[1] == 1) & in_window(hours.start, hours.end, hour) {
        return Reason::Hours;
    }
    let n = minutes_of(north);
    let e = minutes_of(east);
    let regions = x.regions;
    let inhibiting = regions.inhibiting;
    let number = inhibiting_box(flags[2], inhibiting, n, e);
    if number != 0 {
        return Reason::InhibitingBox(number);
    }
    let reporting = regions.reporting;
    if no_reporting_box(flags[2], reporting, n, e) {
        return Reason::NoReportingBox;
    }
    phase_reason(x, phase, name)
}

// A configuration that isn't valid is 12; then 5 for phase, hour or position; then 4 for the airfield, in every phase.
#[tactic(auto, using(crate::proofs::Position::in_span), unfolding(crate::specs::Reason::explained))]
pub fn explain(
    x: Settings,
    phase: u8,
    north: i32,
    east: i32,
    hour: u8,
    airfield: &[u8],
) -> Result<Reason, Code>
    ensures { result ≡ explained x (record { phase = phase; north = north; east = east; hour = hour; airfield = airfield.now }) }
{
    if !is_valid(x) {
        return Err(Code::SettingsInvalid);
    }
    if !in_range(phase, north, east, hour) {
        return Err(Code::OutOfRange);
    }
    if !is_airfield(airfield) {
        return Err(Code::NotAllowed);
    }
    let name = name_of(airfield);
    Ok(reason_for(x, phase, north, east, hour, name))
}

#[tactic(auto, unfolding(crate::specs::Reason::decided))]
pub fn decide(
    x: Settings,
    phase: u8,
    north: i32,
    east: i32,
    hour: u8,
    airfield: &[u8],
) -> Result<Decision, Code>
    ensures { result ≡ decided x (record { phase = phase; north = north; east = east; hour = hour; airfield = airfield.now }) }
{
    let reason = explain(x, phase, north, east, hour, airfield)?;
    Ok(decision_of(reason))
}
