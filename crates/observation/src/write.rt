// Writing an observation whose record was checked.
ghost use Rattle.std.specs.Prelude.{◌≡◌, true, false, [], ◌∷◌, ◌++◌, ◌+◌, ◌≤◌, length, Ok};
ghost use Rattle.text.specs.Over.{over};
ghost use Rattle.packed.specs.Packed.{field_of, fitting};
ghost use Rattle.observation.specs.Figures.{figures_text};
ghost use Rattle.observation.specs.Rows.{air_rows, water_rows};
ghost use Rattle.observation.specs.Record.{position_figures, air_figures, water_figures, check_first, check_later, observation_text, first_text, later_text};
ghost use Rattle.observation.specs.Inner.{fitting_all, Fitting};

use crate::table::{CHANGE, LATITUDE, LONGITUDE, SECONDS, SINCE};
use crate::{Air, Observation, Position, Row, Water};
use packed::Figure;
use packed::table::Digits;
use packed::write::put;
use text::fill;

// One figure, into the part that begins `from` bytes into the observation.
fn put_field(t: &Digits, figure: Figure, width: usize, from: usize, d: &mut [u8])
    requires { (from + width ≤ length d.old) × (width ≤ 5) × (fitting width figure ≡ true) }
    ensures { d.new ≡ over d.old from (field_of width figure) }
{
    let end = from + width;
    put(t, figure, &mut d[from..end]);
}

fn put_position(t: &Digits, p: Position, a: Row, b: Row, c: Row, d: &mut [u8])
    requires width_bound { (a.width ≤ 5) × (b.width ≤ 5) × (c.width ≤ 5) × (1 + a.width + b.width + c.width ≤ length d.old) }
    requires p_value { fitting_all (a ∷ b ∷ c ∷ []) (position_figures p) ≡ true }
    ensures { d.new ≡ over d.old 1 (figures_text (a ∷ b ∷ c ∷ []) (position_figures p)) }
{
    put_field(t, p.latitude, a.width, 1, d);
    put_field(t, p.longitude, b.width, 1 + a.width, d);
    put_field(t, p.time, c.width, 1 + a.width + b.width, d);
}

fn put_air(t: &Digits, air: Air, from: usize, d: &mut [u8])
    requires { (from + 9 ≤ length d.old) × (fitting_all air_rows (air_figures air) ≡ true) }
    ensures { d.new ≡ over d.old from (figures_text air_rows (air_figures air)) }
{
    let second = from + 3;
    let third = second + 2;
    let fourth = third + 2;
    put_field(t, air.altitude, 3, from, d);
    put_field(t, air.temperature, 2, second, d);
    put_field(t, air.direction, 2, third, d);
    put_field(t, air.speed, 2, fourth, d);
}

fn put_water(t: &Digits, water: Water, from: usize, d: &mut [u8])
    requires { (from + 6 ≤ length d.old) × (fitting_all water_rows (water_figures water) ≡ true) }
    ensures { d.new ≡ over d.old from (figures_text water_rows (water_figures water) ++ water.quality ∷ []) }
{
    let second = from + 2;
    let last = second + 3;
    put_field(t, water.gust, 2, from, d);
    put_field(t, water.vapour, 3, second, d);
    d[last] = water.quality;
}

// An observation whose position takes n bytes, into all of d.
fn put_observation(t: &Digits, o: Observation, n: usize, a: Row, b: Row, c: Row, d: &mut [u8])
    requires n_bound { (n ≤ 11) × (length d.old ≡ 16 + n) × (a.width + b.width + c.width ≡ n) }
    requires width_bound { (a.width ≤ 5) × (b.width ≤ 5) × (c.width ≤ 5) × Fitting (a ∷ b ∷ c ∷ []) o }
    ensures { d.new ≡ observation_text (a ∷ b ∷ c ∷ []) o }
{
    d[0] = o.kind;
    put_position(t, o.position, a, b, c, d);
    put_air(t, o.air, 1 + n, d);
    put_water(t, o.water, 10 + n, d);
}

// The first observation, 27 bytes.
pub fn write_first(t: &Digits, o: Observation, d: &mut [u8])
    requires { (length d.old ≡ 27) × (check_first 0 o ≡ Ok tt) }
    ensures { d.new ≡ first_text o }
{
    put_observation(t, o, 11, LATITUDE, LONGITUDE, SECONDS, d);
}

// A later observation, 23 bytes.
pub fn write_later(t: &Digits, later: Option<Observation>, d: &mut [u8])
    requires { (length d.old ≡ 23) × (check_later false 0 later ≡ Ok tt) }
    ensures { d.new ≡ later_text later }
{
    match later {
        None => fill(d, b'/'),
        Some(o) => put_observation(t, o, 7, CHANGE, CHANGE, SINCE, d),
    }
}
