// A record's own check, with the places where its fields would stand; the observation would begin at `at`.
ghost use Rattle.std.specs.Prelude.{◌≡◌, [], ◌∷◌, ◌+◌, ◌≤◌};
ghost use Rattle.text.specs.Checks.{must};
ghost use Rattle.text.specs.declared.Code.TheVariants.{OutOfRange};
ghost use Rattle.observation.specs.Figures.{allowed_figure, check_figures};
ghost use Rattle.observation.specs.Record.{position_figures, check_air, check_water, check_fields, check_first, check_later};

use crate::byte::{allowed, are_alike, is_kind, is_quality};
use crate::table::{
    ALTITUDE, CHANGE, DIRECTION, LATITUDE, LONGITUDE, SECONDS, SINCE, SPEED, TEMPERATURE, VAPOUR,
};
use crate::{Air, Observation, Position, Row, Water};
use packed::Figure;
use text::{Code, Refusal};

// A figure, whose field would stand at `at`.
fn check_figure(row: Row, figure: Figure, at: usize) -> Result<(), Refusal>
    ensures { result ≡ must (allowed_figure row figure) OutOfRange at }
{
    if allowed(row, figure) {
        Ok(())
    } else {
        Err(Code::OutOfRange.at(at))
    }
}

#[tactic(auto, unfolding(crate::specs::Figures::check_figures))]
fn check_position(p: Position, at: usize, a: Row, b: Row, c: Row) -> Result<(), Refusal>
    requires { (at ≤ 8192) × (a.width ≤ 5) × (b.width ≤ 5) }
    ensures { result ≡ check_figures (a ∷ b ∷ c ∷ []) at (position_figures p) }
{
    let second = at + a.width;
    let third = second + b.width;
    check_figure(a, p.latitude, at)?;
    check_figure(b, p.longitude, second)?;
    check_figure(c, p.time, third)
}

#[tactic(auto, unfolding(crate::specs::Figures::check_figures, crate::specs::Record::check_air))]
fn check_air(air: Air, at: usize) -> Result<(), Refusal>
    requires { at ≤ 8192 }
    ensures { result ≡ check_air at air }
{
    let second = at + 3;
    let third = second + 2;
    let fourth = third + 2;
    check_figure(ALTITUDE, air.altitude, at)?;
    check_figure(TEMPERATURE, air.temperature, second)?;
    check_figure(DIRECTION, air.direction, third)?;
    check_figure(SPEED, air.speed, fourth)?;
    if !are_alike(air.direction, air.speed) {
        return Err(Code::Disagree.at(at + 7));
    }
    Ok(())
}

#[tactic(auto, unfolding(crate::specs::Figures::check_figures, crate::specs::Record::check_water))]
fn check_water(water: Water, at: usize) -> Result<(), Refusal>
    requires { at ≤ 8192 }
    ensures { result ≡ check_water at water }
{
    check_figure(SPEED, water.gust, at)?;
    check_figure(VAPOUR, water.vapour, at + 2)?;
    if !is_quality(water.quality) {
        return Err(Code::NotAllowed.at(at + 5));
    }
    Ok(())
}

// The fields behind P of an observation whose position takes n bytes.
#[tactic(auto, unfolding(crate::specs::Record::check_fields))]
fn check_fields(o: Observation, n: usize, at: usize, a: Row, b: Row, c: Row) -> Result<(), Refusal>
    requires { (at ≤ 4096) × (n ≤ 11) × (a.width ≤ 5) × (b.width ≤ 5) }
    ensures { result ≡ check_fields (a ∷ b ∷ c ∷ []) n at o }
{
    check_position(o.position, at + 1, a, b, c)?;
    check_air(o.air, at + (1 + n))?;
    check_water(o.water, at + (10 + n))
}

#[tactic(auto, unfolding(crate::specs::Record::check_first))]
pub fn check_first(o: Observation, at: usize) -> Result<(), Refusal>
    requires { at ≤ 4096 }
    ensures { result ≡ check_first at o }
{
    if !is_kind(o.kind) {
        return Err(Code::NotAllowed.at(at));
    }
    check_fields(o, 11, at, LATITUDE, LONGITUDE, SECONDS)
}

// `ended` where an absent one came before, after which no present one follows.
#[tactic(auto, unfolding(crate::specs::Record::check_later))]
pub fn check_later(later: Option<Observation>, ended: bool, at: usize) -> Result<(), Refusal>
    requires { at ≤ 4096 }
    ensures { result ≡ check_later ended at later }
{
    let Some(o) = later else {
        return Ok(());
    };
    if !is_kind(o.kind) {
        return Err(Code::NotAllowed.at(at));
    }
    if ended {
        return Err(Code::Disagree.at(at));
    }
    check_fields(o, 7, at, CHANGE, CHANGE, SINCE)
}
