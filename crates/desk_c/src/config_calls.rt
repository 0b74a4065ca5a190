// The configuration: after reset, whether it is valid, and a command applied to it in place.
ghost use Rattle.std.specs.Prelude.{◌≡◌};
ghost use Rattle.config.specs.Config.{applied, kept};
ghost use Rattle.settings.specs.Valid.{reset, valid};
ghost use Rattle.desk.specs.Outcomes.{valid_numbers, applied_numbers};

use desk::{Answer, HostApplied};
use settings::Settings;

#[unsafe(no_mangle)]
pub extern "C" fn esk_reset() -> Settings
    ensures { result ≡ reset }
{
    desk::esk_reset()
}

#[unsafe(no_mangle)]
pub extern "C" fn esk_settings_valid(settings: &Settings) -> Answer
    ensures { result ≡ valid_numbers (valid settings.now) }
{
    desk::esk_settings_valid(settings)
}

// In place: a refusal stores nothing.
#[unsafe(no_mangle)]
pub extern "C" fn esk_apply(settings: &mut Settings, text: &[u8]) -> HostApplied
    ensures { (result ≡ applied_numbers (applied settings.old text.now))
        × (settings.new ≡ kept settings.old text.now) }
{
    desk::esk_apply(settings, text)
}
