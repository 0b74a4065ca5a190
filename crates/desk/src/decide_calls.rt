// Whether to report, and why, for C.
ghost use Rattle.std.specs.Prelude.{◌≡◌};
ghost use Rattle.decide.specs.Reason.{decided, explained};
ghost use Rattle.desk.specs.Decisions.{host_decided, decided_numbers, reason_code, reason_number, host_explained, explained_numbers};

use crate::{HostDecided, HostExplained};
use decide::Reason;
use decide::rules::{decide, decision_of, explain};
use settings::Settings;

fn host_decided(code: u8, decision: u8) -> HostDecided
    ensures { result ≡ host_decided code decision }
{
    HostDecided {
        place: 0,
        code,
        decision,
        spare: 0,
        rest: 0,
    }
}

// A refusal carries its code and the one empty decision.
pub fn esk_decide(
    settings: &Settings,
    phase: u8,
    latitude: i32,
    longitude: i32,
    hour: u8,
    airfield: &[u8],
) -> HostDecided
    ensures { result
        ≡ decided_numbers
        (decided settings.now (record {
          phase = phase;
          north = latitude;
          east = longitude;
          hour = hour;
          airfield = airfield.now;
        })) }
{
    match decide(*settings, phase, latitude, longitude, hour, airfield) {
        Ok(decision) => host_decided(0, decision as u8),
        Err(code) => host_decided(code.number(), 0),
    }
}

fn code_of(reason: Reason) -> u8
    ensures { result ≡ reason_code reason }
{
    match reason {
        Reason::AmdarOff => 1,
        Reason::Hours => 2,
        Reason::InhibitingBox(_) => 3,
        Reason::NoReportingBox => 4,
        Reason::FlagOn(_) => 5,
        Reason::Digit(_) => 6,
        Reason::FlagOff(_) => 7,
        Reason::AirfieldInhibited => 8,
        Reason::AirfieldNotSelected => 9,
    }
}

// Which box, flag or section the reason names.
fn named_by(reason: Reason) -> u8
    ensures { result ≡ reason_number reason }
{
    match reason {
        Reason::InhibitingBox(n) | Reason::FlagOn(n) | Reason::Digit(n) | Reason::FlagOff(n) => n,
        _ => 0,
    }
}

fn host_explained(code: u8, decision: u8, reason: u8, number: u8) -> HostExplained
    ensures { result ≡ host_explained code decision reason number }
{
    HostExplained {
        place: 0,
        code,
        decision,
        reason,
        number,
        spare: 0,
    }
}

// A refusal carries its code, and neither decision nor reason.
pub fn esk_explain(
    settings: &Settings,
    phase: u8,
    latitude: i32,
    longitude: i32,
    hour: u8,
    airfield: &[u8],
) -> HostExplained
    ensures { result
        ≡ explained_numbers
        (explained settings.now (record {
          phase = phase;
          north = latitude;
          east = longitude;
          hour = hour;
          airfield = airfield.now;
        })) }
{
    match explain(*settings, phase, latitude, longitude, hour, airfield) {
        Ok(reason) => host_explained(
            0,
            decision_of(reason) as u8,
            code_of(reason),
            named_by(reason),
        ),
        Err(code) => host_explained(code.number(), 0, 0, 0),
    }
}
