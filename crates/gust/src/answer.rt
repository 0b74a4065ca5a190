// What is answered, and what is refused.
ghost use Rattle.std.specs.Prelude.{◌≡◌};
ghost use Rattle.gust.specs.Gust.{in_range, of_gust, derived};

use crate::formula::gust_of;
use crate::rows::row_at;
use text::Code;

#[tactic(auto, unfolding(crate::specs::Gust::in_range))]
fn in_range(h: i32, m: u32, n: u32, v: u32) -> bool
    ensures { result ≡ in_range h m n v }
{
    let height = (-1000 <= h) & (h <= 50000);
    let mass = (1 <= m) & (m <= 500000);
    let speed = (1 <= v) & (v <= 500);
    height & (mass & ((n <= 5000) & speed))
}

#[tactic(auto, using(crate::proofs::Answers::mag_small), unfolding(crate::specs::Gust::of_gust))]
fn of_gust(g: i64) -> Result<i32, Code>
    ensures { result ≡ of_gust g }
{
    if 0 <= g && g <= 799 {
        Ok(g as i32)
    } else {
        Err(Code::OutOfRange)
    }
}

// The gust of an aircraft of a row, at height h in feet and mass m in kilograms, for an acceleration n thousandths of g
// from 1 g at v knots. A refusal's place is always 0.
pub fn derived_gust(row: u32, h: i32, m: u32, n: u32, v: u32) -> Result<i32, Code>
    ensures { result ≡ derived row h m n v }
{
    if 36 <= row || !in_range(h, m, n, v) {
        return Err(Code::OutOfRange);
    }
    of_gust(gust_of(row_at(row as usize), h as i64, m as i64, n as i64, v as i64))
}
