// What a command makes of a configuration.
ghost use Rattle.std.specs.Prelude.{◌≡◌, Ok};
ghost use Rattle.command.specs.Text.{check_command};
ghost use Rattle.command.specs.Inner.{Noted};
ghost use Rattle.config.specs.Config.{apply_to, applied};

use crate::Applied;
use crate::flags::new_flags;
use command::check::walk;
use command::read::{downlink_of, flags_of, settings_over};
use settings::Settings;
use settings::valid::is_valid;
use text::{Code, Refusal};

// Every flag that isn't 9 is set and each named section replaced whole; nothing else changes.
#[tactic(auto, unfolding(crate::specs::Config::apply_to))]
fn apply_text(x: Settings, s: &[u8], places: [usize; 11]) -> Settings
    requires { (check_command s.now ≡ Ok tt) × Noted s.now places }
    ensures { result ≡ apply_to x s.now }
{
    settings_over(x, new_flags(x.flags, flags_of(s)), s, places)
}

// A configuration that isn't valid is refused; then come the command's own refusals. The text is gone through first: by then the
// copy of the configuration that this call was handed lies ready.
#[tactic(auto, unfolding(crate::specs::Config::applied))]
pub fn apply(x: Settings, s: &[u8]) -> Result<Applied, Refusal>
    ensures { result ≡ applied x s.now }
{
    let mut places = [0; 11];
    let seen = walk(s, &mut places);
    if !is_valid(x) {
        return Err(Code::SettingsInvalid.at(0));
    }
    seen?;
    Ok(Applied {
        downlink: downlink_of(s),
        settings: apply_text(x, s, places),
    })
}
