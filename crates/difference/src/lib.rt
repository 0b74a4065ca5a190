// What differs between two configurations: the list of flags and sections, and the command that makes the first into the second.
#![tactic(auto)]

pub mod between;
pub mod listing;
pub mod same;

ghost use Rattle.std.specs.Prelude.{◌≡◌, length};
ghost use Rattle.difference.specs.Difference.{difference, left_by};

use between::command_between;
use command_write::write::write;
use listing::list_set;
use settings::Settings;
use settings::valid::is_valid;
use text::Code;

// Flags are 1 to 7, a section is 10 and its number; entries from the count on are 0.
#[derive(Clone, Copy, Debug, PartialEq, Eq)]
pub struct Listed {
    pub count: u8,
    pub items: [u8; 15],
}

// The list, and the command's length.
#[derive(Clone, Copy, Debug, PartialEq, Eq)]
pub struct Differing {
    pub length: usize,
    pub listed: Listed,
}

// The list is read off the command: it sets what differs and nothing else. The place of a refusal is 0.
pub fn differ(a: Settings, b: Settings, out: &mut [u8]) -> Result<Differing, Code>
    ensures { (result ≡ difference a b (length out.old)) × (out.new ≡ left_by a b out.old) }
{
    if !(is_valid(a) & is_valid(b)) {
        return Err(Code::SettingsInvalid);
    }
    let command = command_between(a, b);
    let length = match write(command, out) {
        Ok(length) => length,
        Err(refusal) => return Err(refusal.code),
    };
    let settings = command.settings;
    let listed = list_set(settings.flags, command.named);
    Ok(Differing { length, listed })
}
