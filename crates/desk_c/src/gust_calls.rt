// The derived equivalent gust for C.
ghost use Rattle.std.specs.Prelude.{◌≡◌};
ghost use Rattle.gust.specs.Gust.{derived};
ghost use Rattle.desk.specs.Gusts.{gust_numbers};

use desk::HostGust;

#[unsafe(no_mangle)]
pub extern "C" fn esk_gust(
    row: u32,
    height: i32,
    mass: u32,
    acceleration: u32,
    speed: u32,
) -> HostGust
    ensures { result ≡ gust_numbers (derived row height mass acceleration speed) }
{
    desk::esk_gust(row, height, mass, acceleration, speed)
}
