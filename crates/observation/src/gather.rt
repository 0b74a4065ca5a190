// Whether an observation is accepted, and nothing else: its fields are decoded and their tests gathered without a branch.
ghost use Rattle.std.specs.Prelude.{◌≡◌, ◌+◌, ◌≤◌, length};
ghost use Rattle.text.specs.Parts.{part};
ghost use Rattle.packed.specs.Decoding.{decoded, figure_in};
ghost use Rattle.observation.specs.Rows.{first_rows, later_rows};
ghost use Rattle.observation.specs.Inner.{fits, held, height_held, wind_held, water_held, fields_held};

use crate::Row;
use crate::byte::{are_alike, in_range, is_quality};
use crate::table::{
    ALTITUDE, CHANGE, DIRECTION, LATITUDE, LONGITUDE, SECONDS, SINCE, SPEED, TEMPERATURE, VAPOUR,
};
use packed::decode::decode;
use packed::table::Worths;
use packed::{Decoded, Figure};

// The field that begins `from` bytes into the observation, decoded.
pub fn decode_at(t: &Worths, s: &[u8], from: usize, row: Row) -> Decoded
    requires { (length s.now ≤ 27) × (from + row.width ≤ length s.now) }
    ensures { result ≡ decoded (part from row.width s.now) }
{
    let end = from + row.width;
    decode(t, &s[from..end])
}

pub fn figure_in(field: Decoded) -> Figure
    ensures { result ≡ figure_in field }
{
    if field.missing {
        None
    } else {
        Some(field.figure)
    }
}

// A missing figure, or a given one in its row's range.
fn is_fitting(row: Row, field: Decoded) -> bool
    ensures { result ≡ fits row field }
{
    field.missing | (field.given & in_range(row, field.figure))
}

#[tactic(auto, unfolding(crate::specs::Inner::held))]
fn is_held(t: &Worths, s: &[u8], from: usize, row: Row) -> bool
    requires { (length s.now ≤ 27) × (from + row.width ≤ length s.now) }
    ensures { result ≡ held row from s.now }
{
    is_fitting(row, decode_at(t, s, from, row))
}

// Altitude and temperature.
fn is_height_held(t: &Worths, s: &[u8], from: usize) -> bool
    requires { (length s.now ≤ 27) × (from + 5 ≤ length s.now) }
    ensures { result ≡ height_held from s.now }
{
    let second = from + 3;
    is_held(t, s, from, ALTITUDE) & is_held(t, s, second, TEMPERATURE)
}

// Wind direction and speed, both missing or both given.
#[tactic(auto, unfolding(crate::specs::Inner::held, crate::specs::Inner::figure_at))]
fn is_wind_held(t: &Worths, s: &[u8], from: usize) -> bool
    requires { (length s.now ≤ 27) × (from + 4 ≤ length s.now) }
    ensures { result ≡ wind_held from s.now }
{
    let second = from + 2;
    let direction = decode_at(t, s, from, DIRECTION);
    let speed = decode_at(t, s, second, SPEED);
    is_fitting(DIRECTION, direction)
        & is_fitting(SPEED, speed)
        & are_alike(figure_in(direction), figure_in(speed))
}

// Gust, water vapour, quality.
#[tactic(auto, using(crate::proofs::Held::water_gathered))]
fn is_water_held(t: &Worths, s: &[u8], from: usize) -> bool
    requires { (length s.now ≤ 27) × (from + 6 ≤ length s.now) }
    ensures { result ≡ water_held from s.now }
{
    let second = from + 2;
    let last = from + 5;
    is_held(t, s, from, SPEED) & is_held(t, s, second, VAPOUR) & is_quality(s[last])
}

// The fields behind P of a first observation.
#[tactic(auto, using(crate::proofs::Held::first_gathered))]
pub fn is_first_held(t: &Worths, s: &[u8]) -> bool
    requires { length s.now ≡ 27 }
    ensures { result ≡ fields_held first_rows 11 s.now }
{
    is_held(t, s, 1, LATITUDE)
        & is_held(t, s, 4, LONGITUDE)
        & is_held(t, s, 7, SECONDS)
        & is_height_held(t, s, 12)
        & is_wind_held(t, s, 17)
        & is_water_held(t, s, 21)
}

// The fields behind P of a later one.
#[tactic(auto, using(crate::proofs::Held::later_gathered))]
pub fn is_later_held(t: &Worths, s: &[u8]) -> bool
    requires { length s.now ≡ 23 }
    ensures { result ≡ fields_held later_rows 7 s.now }
{
    is_held(t, s, 1, CHANGE)
        & is_held(t, s, 3, CHANGE)
        & is_held(t, s, 5, SINCE)
        & is_height_held(t, s, 8)
        & is_wind_held(t, s, 13)
        & is_water_held(t, s, 17)
}
