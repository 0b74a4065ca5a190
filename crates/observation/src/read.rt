// An observation read field by field, for the code and place of what is wrong: its bytes s, which begin at the place `at`
// of a report.
ghost use Rattle.std.specs.Prelude.{◌≡◌, [], ◌∷◌, ◌+◌, ◌≤◌, length, drop, Ok};
ghost use Rattle.text.specs.Parts.{part};
ghost use Rattle.observation.specs.Figures.{read_figure};
ghost use Rattle.observation.specs.Observation.{air_from, read_position, read_air, read_water, read_fields};

use crate::byte::{allowed, are_alike, is_quality};
use crate::table::{ALTITUDE, DIRECTION, SPEED, TEMPERATURE, VAPOUR};
use crate::{Air, Observation, Position, Row, Water};
use packed::Figure;
use packed::read::read;
use packed::table::Worths;
use text::{Code, Refusal};

// One figure, s being its field: a packed field in its row's range.
#[tactic(auto, using(packed::proofs::Refusal::refused_near), unfolding(crate::specs::Figures::read_figure))]
fn figure(t: &Worths, s: &[u8], row: Row, at: usize) -> Result<Figure, Refusal>
    requires { at ≤ 8192 }
    ensures { result ≡ read_figure row at s.now }
{
    match read(t, s) {
        Ok(x) => {
            if allowed(row, x) {
                Ok(x)
            } else {
                Err(Code::OutOfRange.at(at))
            }
        }
        Err(r) => Err(r.code.at(at + r.place)),
    }
}

// The figure that begins `from` bytes into the observation.
fn field(t: &Worths, s: &[u8], at: usize, from: usize, row: Row) -> Result<Figure, Refusal>
    requires { (at ≤ 4096) × (length s.now ≤ 27) × (from + row.width ≤ length s.now) }
    ensures { result ≡ read_figure row (at + from) (part from row.width s.now) }
{
    let end = from + row.width;
    figure(t, &s[from..end], row, at + from)
}

// The three figures behind P, by their rows.
fn position(t: &Worths, s: &[u8], at: usize, a: Row, b: Row, c: Row) -> Result<Position, Refusal>
    requires { (at ≤ 4096) × (length s.now ≤ 27) × (1 + a.width + b.width + c.width ≤ length s.now) }
    ensures { result ≡ read_position (a ∷ b ∷ c ∷ []) (at + 1) (drop 1 s.now) }
{
    let second = 1 + a.width;
    let third = second + b.width;
    let latitude = field(t, s, at, 1, a)?;
    let longitude = field(t, s, at, second, b)?;
    let time = field(t, s, at, third, c)?;
    Ok(Position {
        latitude,
        longitude,
        time,
    })
}

// Wind direction and speed are both missing or both given, else 7 at the speed, 7 bytes on.
fn air_of(
    at: usize,
    altitude: Figure,
    temperature: Figure,
    direction: Figure,
    speed: Figure,
) -> Result<Air, Refusal>
    requires { at ≤ 8192 }
    ensures { result ≡ air_from at (Ok (altitude ∷ temperature ∷ direction ∷ speed ∷ [])) }
{
    if are_alike(direction, speed) {
        Ok(Air {
            altitude,
            temperature,
            direction,
            speed,
        })
    } else {
        Err(Code::Disagree.at(at + 7))
    }
}

// Altitude, temperature, wind direction, wind speed.
fn air(t: &Worths, s: &[u8], at: usize, from: usize) -> Result<Air, Refusal>
    requires { (at ≤ 4096) × (length s.now ≤ 27) × (from + 9 ≤ length s.now) }
    ensures { result ≡ read_air (at + from) (drop from s.now) }
{
    let second = from + 3;
    let third = second + 2;
    let fourth = third + 2;
    let altitude = field(t, s, at, from, ALTITUDE)?;
    let temperature = field(t, s, at, second, TEMPERATURE)?;
    let direction = field(t, s, at, third, DIRECTION)?;
    let speed = field(t, s, at, fourth, SPEED)?;
    air_of(at + from, altitude, temperature, direction, speed)
}

// Gust, water vapour, quality.
fn water(t: &Worths, s: &[u8], at: usize, from: usize) -> Result<Water, Refusal>
    requires { (at ≤ 4096) × (length s.now ≤ 27) × (from + 6 ≤ length s.now) }
    ensures { result ≡ read_water (at + from) (drop from s.now) }
{
    let gust = field(t, s, at, from, SPEED)?;
    let vapour = field(t, s, at, from + 2, VAPOUR)?;
    let last = from + 5;
    let quality = s[last];
    if is_quality(quality) {
        Ok(Water {
            gust,
            vapour,
            quality,
        })
    } else {
        Err(Code::NotAllowed.at(at + last))
    }
}

// The fields behind P of an observation whose position takes n bytes.
#[tactic(auto, unfolding(crate::specs::Observation::read_fields))]
pub fn fields(
    t: &Worths,
    s: &[u8],
    at: usize,
    n: usize,
    a: Row,
    b: Row,
    c: Row,
) -> Result<Observation, Refusal>
    requires { (at ≤ 4096) × (n ≤ 11) × (length s.now ≡ 16 + n) × (1 + a.width + b.width + c.width ≤ length s.now) }
    ensures { result ≡ read_fields (a ∷ b ∷ c ∷ []) n at s.now }
{
    let kind = s[0];
    let position = position(t, s, at, a, b, c)?;
    let air = air(t, s, at, 1 + n)?;
    let water = water(t, s, at, 10 + n)?;
    Ok(Observation {
        kind,
        position,
        air,
        water,
    })
}
