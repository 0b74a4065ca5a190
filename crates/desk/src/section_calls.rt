// One section of a command for C. A reference cannot be exported: the answer is where the part stands, and the header makes the
// pointer of it.
ghost use Rattle.std.specs.Prelude.{◌≡◌};
ghost use Rattle.finder.specs.Finding.{find_section};
ghost use Rattle.desk.specs.Parts.{part_numbers};

use crate::HostPart;
use crate::answers::length_of;
use finder::find::find;

pub fn esk_section(number: u32, text: &[u8]) -> HostPart
    ensures { result ≡ part_numbers (find_section number text.now) }
{
    match find(number as usize, text) {
        Ok(part) => HostPart {
            place: part.at,
            length: length_of(part.length),
            code: 0,
            spare: 0,
            rest: 0,
        },
        Err(r) => HostPart {
            place: r.place,
            length: 0,
            code: r.code.number(),
            spare: 0,
            rest: 0,
        },
    }
}
