// The formula, in the order of document 02, §10.
ghost use Rattle.std.specs.Prelude.{◌≡◌, true, pos};
ghost use Rattle.gust.specs.Gust.{mean_a, this_a, gust_of, height_in};
ghost use Rattle.gust.specs.Inner.{every, limits, up_to};
ghost use Rattle.std.specs.Int.Signed.{le_z};

use crate::Row;
use crate::floor::floor;

// In thousandths, at the reference mass.
fn mean_a(c: Row, h: i64) -> i64
    requires c_value { every (limits c) ≡ true }
    requires h_value { height_in h ≡ true }
    ensures { result ≡ mean_a c h }
{
    c.c1 + floor(c.c2, c.c3 + h)
}

// In thousandths, at mass m.
fn this_a(c: Row, h: i64, m: i64) -> i64
    requires c_value { every (limits c) ≡ true }
    requires h_value { height_in h ≡ true }
    requires m_value { up_to 500000 m ≡ true }
    ensures { result ≡ this_a c h m }
{
    let mean = mean_a(c, h);
    mean + floor(c.c4 * (mean - c.c5) * (m - c.reference), 100 * c.reference)
}

// In tenths of a metre a second.
pub fn gust_of(c: Row, h: i64, m: i64, n: i64, v: i64) -> i64
    requires c_value { every (limits c) ≡ true }
    requires h_value { height_in h ≡ true }
    requires m_value { up_to 500000 m ≡ true }
    requires n_value { up_to 5000 n ≡ true }
    requires v_value { up_to 500 v ≡ true }
    requires v_value_2 { le_z (pos 1) v ≡ true }
    ensures { result ≡ gust_of c h m n v }
{
    floor(10 * this_a(c, h, m) * m * n, 1000000000 * v)
}
