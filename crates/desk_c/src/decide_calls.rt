// Whether to report, and why, for C.
ghost use Rattle.std.specs.Prelude.{◌≡◌};
ghost use Rattle.decide.specs.Reason.{decided, explained};
ghost use Rattle.desk.specs.Decisions.{decided_numbers, explained_numbers};

use desk::{HostDecided, HostExplained};
use settings::Settings;

#[unsafe(no_mangle)]
pub extern "C" fn esk_decide(
    settings: &Settings,
    phase: u8,
    latitude: i32,
    longitude: i32,
    hour: u8,
    airfield: &[u8],
) -> HostDecided
    ensures { result
        ≡ decided_numbers
        (decided settings.now (record {
          phase = phase;
          north = latitude;
          east = longitude;
          hour = hour;
          airfield = airfield.now;
        })) }
{
    desk::esk_decide(settings, phase, latitude, longitude, hour, airfield)
}

#[unsafe(no_mangle)]
pub extern "C" fn esk_explain(
    settings: &Settings,
    phase: u8,
    latitude: i32,
    longitude: i32,
    hour: u8,
    airfield: &[u8],
) -> HostExplained
    ensures { result
        ≡ explained_numbers
        (explained settings.now (record {
          phase = phase;
          north = latitude;
          east = longitude;
          hour = hour;
          airfield = airfield.now;
        })) }
{
    desk::esk_explain(settings, phase, latitude, longitude, hour, airfield)
}
