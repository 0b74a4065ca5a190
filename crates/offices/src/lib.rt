// Two offices, one board: a command is added within its office's grant.
#![tactic(auto)]

ghost use Rattle.std.specs.Prelude.{◌≡◌, ◌≤◌, length};
ghost use Rattle.board.specs.Lent.{on_area};
ghost use Rattle.board.specs.Inner.{done_of};
ghost use Rattle.offices.specs.Offices.{any_place, overlap, outside};
ghost use Rattle.offices.specs.Inner.{clash, barred, office_move};

use board::place::place_text;
use board::{Findings, Stored, Wanted};
use command::check::check;
use text::{Code, Refusal};

// What an office may do: a byte that is not 0 grants. Its order is that of a command's bytes 5 to 20.
#[repr(C)]
#[derive(Clone, Copy, Debug, PartialEq, Eq)]
pub struct Grant {
    pub flags: [u8; 7],
    pub downlinks: u8,
    pub sections: [u8; 8],
}

fn clashes(none: u8, given: bool, b: u8, g: u8) -> bool
    ensures { result ≡ clash none given b g }
{
    if given {
        (b != none) & (g != 0)
    } else {
        (b != none) & (g == 0)
    }
}

// Whether some byte of `s` clashes with its place in a grant. One loop with one way out.
#[tactic(auto, using(crate::proofs::Places::placing))]
fn any_clash(none: u8, given: bool, s: &[u8], g: &[u8]) -> bool
    requires { length s.now ≡ length g.now }
    ensures { result ≡ any_place (clash none given) s.now g.now }
{
    let mut found = false;
    for (i, &b) in s.iter().enumerate() {
        found |= clashes(none, given, b, g[i]);
    }
    found
}

#[tactic(auto, unfolding(crate::specs::Offices::overlap))]
fn overlapping(own: Grant, other: Grant) -> bool
    ensures { result ≡ overlap own other }
{
    any_clash(0, true, &own.flags, &other.flags)
        || any_clash(0, true, &own.sections, &other.sections)
        || clashes(0, true, own.downlinks, other.downlinks)
}

// Whether the first 22 bytes of a command set or ask for anything outside a grant.
#[tactic(auto, unfolding(crate::specs::Offices::outside))]
fn is_outside(g: Grant, s: &[u8]) -> bool
    requires { 22 ≤ length s.now }
    ensures { result ≡ outside g s.now }
{
    any_clash(b'9', false, &s[5..12], &g.flags)
        || any_clash(b'0', false, &s[13..21], &g.sections)
        || clashes(b'0', false, s[12], g.downlinks)
}

// Whether an accepted command is outside a grant: the whole text is checked only where its first 22 bytes are.
#[tactic(auto, using(crate::proofs::Admitted::short_refused), unfolding(crate::specs::Inner::barred))]
fn is_barred(g: Grant, s: &[u8]) -> bool
    ensures { result ≡ barred g s.now }
{
    22 <= s.len() && is_outside(g, s) && check(s).is_ok()
}

// Adding for an office: 13 for grants that overlap; 10, 4, the command's own refusals, 13 for what is not granted; then as for the
// board's own adding.
#[tactic(auto, unfolding(crate::specs::Inner::office_move))]
pub fn place_for(
    v: Findings,
    w: Wanted,
    area: &mut [u8],
    t: &[u8],
    own: Grant,
    other: Grant,
) -> Result<Stored, Refusal>
    ensures { (result ≡ done_of w (office_move own other v w area.old t.now))
        × (area.new ≡ on_area (office_move own other v w area.old t.now) area.old) }
{
    if overlapping(own, other) {
        return Err(Code::NotGranted.at(0));
    }
    if !is_barred(own, t) {
        return place_text(v, w, area, t);
    }
    if !v.valid {
        return Err(Code::BoardInvalid.at(0));
    }
    if w.is_none() {
        return Err(Code::NotAllowed.at(0));
    }
    Err(Code::NotGranted.at(0))
}
