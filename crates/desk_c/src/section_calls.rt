// One section of a command. A reference cannot be exported: the answer is where the part stands, and the header makes the
// pointer of it.
ghost use Rattle.std.specs.Prelude.{◌≡◌};
ghost use Rattle.finder.specs.Finding.{find_section};
ghost use Rattle.desk.specs.Parts.{part_numbers};

use desk::HostPart;

#[unsafe(no_mangle)]
pub extern "C" fn esk_section(number: u32, text: &[u8]) -> HostPart
    ensures { result ≡ part_numbers (find_section number text.now) }
{
    desk::esk_section(number, text)
}
