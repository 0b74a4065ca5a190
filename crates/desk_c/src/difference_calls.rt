// What differs between two configurations, for C.
ghost use Rattle.std.specs.Prelude.{◌≡◌, length};
ghost use Rattle.difference.specs.Difference.{difference, left_by};
ghost use Rattle.desk.specs.Differences.{difference_numbers};

use desk::HostDiffering;
use settings::Settings;

#[unsafe(no_mangle)]
pub extern "C" fn esk_difference(
    first: &Settings,
    second: &Settings,
    out: &mut [u8],
) -> HostDiffering
    ensures { (result ≡ difference_numbers (difference first.now second.now (length out.old)))
        × (out.new ≡ left_by first.now second.now out.old) }
{
    desk::esk_difference(first, second, out)
}
