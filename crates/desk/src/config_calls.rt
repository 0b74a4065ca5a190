// The configuration: after reset, whether it is valid, and a command applied to it in place.
ghost use Rattle.std.specs.Prelude.{◌≡◌};
ghost use Rattle.config.specs.Config.{applied, kept};
ghost use Rattle.settings.specs.Valid.{reset, valid};
ghost use Rattle.desk.specs.Outcomes.{valid_numbers, applied_numbers};

use crate::answers::{accepted, refused_by};
use crate::{Answer, HostApplied};
use config::applying::apply;
use settings::Settings;
use settings::reset::after_reset;
use settings::valid::is_valid;
use text::Code;

pub fn esk_reset() -> Settings
    ensures { result ≡ reset }
{
    after_reset()
}

pub fn esk_settings_valid(settings: &Settings) -> Answer
    ensures { result ≡ valid_numbers (valid settings.now) }
{
    if is_valid(*settings) {
        accepted(0)
    } else {
        refused_by(Code::SettingsInvalid)
    }
}

// In place: a refusal stores nothing.
pub fn esk_apply(settings: &mut Settings, text: &[u8]) -> HostApplied
    ensures { (result ≡ applied_numbers (applied settings.old text.now))
        × (settings.new ≡ kept settings.old text.now) }
{
    match apply(*settings, text) {
        Ok(applied) => {
            *settings = applied.settings;
            HostApplied {
                place: 0,
                code: 0,
                downlink: applied.downlink,
                spare: 0,
                rest: 0,
            }
        }
        Err(r) => HostApplied {
            place: r.place,
            code: r.code.number(),
            downlink: 0,
            spare: 0,
            rest: 0,
        },
    }
}
