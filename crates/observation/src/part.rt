// The one way in for an observation's part of a report, the bytes s, which begin at the place `at`: whether it is accepted,
// or its code and place. A good one is told by one test; any other is read field by field.
ghost use Rattle.std.specs.Prelude.{◌≡◌, ◌≤◌, length};
ghost use Rattle.observation.specs.Observation.{read_first, read_later, first_seen, found};

use crate::Presence;
use crate::byte::{all_solidi, is_kind};
use crate::gather::{is_first_held, is_later_held};
use crate::read::fields;
use crate::table::{CHANGE, LATITUDE, LONGITUDE, SECONDS, SINCE};
use packed::table::Worths;
use text::{Code, Refusal};

// The first observation, 27 bytes.
#[tactic(auto, using(crate::proofs::Held::fields_held_lem), unfolding(crate::specs::Observation::read_first))]
pub fn first_part(t: &Worths, s: &[u8], at: usize) -> Result<(), Refusal>
    requires { (length s.now ≡ 27) × (at ≤ 4096) }
    ensures { result ≡ first_seen (read_first at s.now) }
{
    if !is_kind(s[0]) {
        return Err(Code::NotAllowed.at(at));
    }
    if !is_first_held(t, s) {
        fields(t, s, at, 11, LATITUDE, LONGITUDE, SECONDS)?;
    }
    Ok(())
}

// A later observation, 23 bytes; `ended` where an absent one came before, after which no present one follows.
#[tactic(auto, using(crate::proofs::Held::fields_held_lem), unfolding(crate::specs::Observation::read_later))]
pub fn later_part(t: &Worths, s: &[u8], ended: bool, at: usize) -> Result<Presence, Refusal>
    requires { (length s.now ≡ 23) × (at ≤ 4096) }
    ensures { result ≡ found (read_later ended at s.now) }
{
    let kind = s[0];
    if kind == b'/' {
        if all_solidi(s) {
            return Ok(Presence::Absent);
        }
        return Err(Code::Disagree.at(at));
    }
    if !is_kind(kind) {
        return Err(Code::NotAllowed.at(at));
    }
    if ended {
        return Err(Code::Disagree.at(at));
    }
    if !is_later_held(t, s) {
        fields(t, s, at, 7, CHANGE, CHANGE, SINCE)?;
    }
    Ok(Presence::Present)
}
