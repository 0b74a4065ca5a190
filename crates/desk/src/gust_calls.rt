// The derived equivalent gust for C.
ghost use Rattle.std.specs.Prelude.{◌≡◌};
ghost use Rattle.gust.specs.Gust.{derived};
ghost use Rattle.desk.specs.Gusts.{host_gust, gust_numbers};

use crate::HostGust;
use gust::answer::derived_gust;

fn host_gust(gust: i32, code: u8) -> HostGust
    ensures { result ≡ host_gust gust code }
{
    HostGust {
        gust,
        code,
        spare: 0,
        rest: 0,
    }
}

// A refusal carries its code and a gust of 0.
pub fn esk_gust(row: u32, height: i32, mass: u32, acceleration: u32, speed: u32) -> HostGust
    ensures { result ≡ gust_numbers (derived row height mass acceleration speed) }
{
    match derived_gust(row, height, mass, acceleration, speed) {
        Ok(gust) => host_gust(gust, 0),
        Err(code) => host_gust(0, code.number()),
    }
}
