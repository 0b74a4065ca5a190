// The configuration after reset.
ghost use Rattle.std.specs.Prelude.{◌≡◌};
ghost use Rattle.settings.specs.Settings.{ascent_from};
ghost use Rattle.settings.specs.Valid.{reset_holds, reset};

use crate::empty::{no_airports, no_regions};
use crate::{Ascent, Descent, Enroute, Hours, Settings};

#[tactic(auto, unfolding(crate::specs::Settings::ascent_from))]
fn reset_ascent() -> Ascent
    ensures { result ≡ ascent_from (reset_holds 5) }
{
    Ascent {
        mode: 1,
        interval1: 6,
        duration: 90,
        interval2: 20,
        total: 51,
        top: 200,
        list: 2,
        timer: 1,
    }
}

// The lists are empty; what each section holds is document 01's.
#[tactic(auto, unfolding(crate::specs::Valid::reset, crate::specs::Settings::settings_from, crate::specs::Settings::enroute_from, crate::specs::Settings::hours_from))]
pub fn after_reset() -> Settings
    ensures { result ≡ reset }
{
    Settings {
        flags: [1, 0, 0, 0, 1, 1, 1],
        regions: no_regions(),
        airports: no_airports(),
        enroute: Enroute {
            interval: 7,
            wind: 1,
        },
        ascent: reset_ascent(),
        descent: Descent {
            mode: 1,
            interval: 40,
            top: 200,
            list: 2,
            timer: 1,
        },
        routine6: 1,
        routine8: 1,
        hours: Hours { start: 0, end: 0 },
    }
}
