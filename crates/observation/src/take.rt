// The record of an accepted part: each figure is taken from its bytes, and none of them is tested again.
ghost use Rattle.std.specs.Prelude.{◌≡◌, ◌+◌, ◌≤◌, length};
ghost use Rattle.observation.specs.Rows.{first_rows, later_rows};
ghost use Rattle.observation.specs.Inner.{position_at, air_at, water_at, observation_at, later_in};

use crate::gather::{decode_at, figure_in};
use crate::table::{
    ALTITUDE, CHANGE, DIRECTION, LATITUDE, LONGITUDE, SECONDS, SINCE, SPEED, TEMPERATURE, VAPOUR,
};
use crate::{Air, Observation, Position, Water};
use packed::table::Worths;

// Latitude, longitude, seconds into the month.
#[tactic(auto, unfolding(crate::specs::Inner::figure_at, crate::specs::Inner::figures_at, crate::specs::Inner::position_at))]
pub fn take_position(t: &Worths, s: &[u8]) -> Position
    requires { length s.now ≡ 27 }
    ensures { result ≡ position_at first_rows s.now }
{
    Position {
        latitude: figure_in(decode_at(t, s, 1, LATITUDE)),
        longitude: figure_in(decode_at(t, s, 4, LONGITUDE)),
        time: figure_in(decode_at(t, s, 7, SECONDS)),
    }
}

// Changes of latitude and longitude, time since the previous.
#[tactic(auto, unfolding(crate::specs::Inner::figure_at, crate::specs::Inner::figures_at, crate::specs::Inner::position_at))]
pub fn take_changes(t: &Worths, s: &[u8]) -> Position
    requires { length s.now ≡ 23 }
    ensures { result ≡ position_at later_rows s.now }
{
    Position {
        latitude: figure_in(decode_at(t, s, 1, CHANGE)),
        longitude: figure_in(decode_at(t, s, 3, CHANGE)),
        time: figure_in(decode_at(t, s, 5, SINCE)),
    }
}

#[tactic(auto, unfolding(crate::specs::Inner::figure_at, crate::specs::Inner::figures_at, crate::specs::Inner::air_at))]
fn take_air(t: &Worths, s: &[u8], from: usize) -> Air
    requires { (length s.now ≤ 27) × (from + 9 ≤ length s.now) }
    ensures { result ≡ air_at from s.now }
{
    let second = from + 3;
    let third = second + 2;
    let fourth = third + 2;
    Air {
        altitude: figure_in(decode_at(t, s, from, ALTITUDE)),
        temperature: figure_in(decode_at(t, s, second, TEMPERATURE)),
        direction: figure_in(decode_at(t, s, third, DIRECTION)),
        speed: figure_in(decode_at(t, s, fourth, SPEED)),
    }
}

#[tactic(auto, unfolding(crate::specs::Inner::figure_at, crate::specs::Inner::figures_at, crate::specs::Inner::water_at))]
fn take_water(t: &Worths, s: &[u8], from: usize) -> Water
    requires { (length s.now ≤ 27) × (from + 6 ≤ length s.now) }
    ensures { result ≡ water_at from s.now }
{
    Water {
        gust: figure_in(decode_at(t, s, from, SPEED)),
        vapour: figure_in(decode_at(t, s, from + 2, VAPOUR)),
        quality: s[from + 5],
    }
}

// The first observation, 27 bytes.
#[tactic(auto, unfolding(crate::specs::Inner::observation_at))]
pub fn take_first(t: &Worths, s: &[u8]) -> Observation
    requires { length s.now ≡ 27 }
    ensures { result ≡ observation_at first_rows 11 s.now }
{
    Observation {
        kind: s[0],
        position: take_position(t, s),
        air: take_air(t, s, 12),
        water: take_water(t, s, 21),
    }
}

// A later observation, 23 bytes.
#[tactic(auto, unfolding(crate::specs::Inner::observation_at, crate::specs::Inner::later_in))]
pub fn take_later(t: &Worths, s: &[u8]) -> Option<Observation>
    requires { length s.now ≡ 23 }
    ensures { result ≡ later_in s.now }
{
    let kind = s[0];
    if kind == b'/' {
        return None;
    }
    Some(Observation {
        kind,
        position: take_changes(t, s),
        air: take_air(t, s, 8),
        water: take_water(t, s, 17),
    })
}
