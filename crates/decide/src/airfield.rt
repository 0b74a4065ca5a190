// The airfield against the lists of section 3.
ghost use Rattle.std.specs.Prelude.{◌≡◌, ◌∷◌, [], ◌≤◌, length};
ghost use Rattle.text.specs.Equal.{same_bytes};
ghost use Rattle.decide.specs.Tests.{is_airfield, has};
ghost use Rattle.decide.specs.Reason.{scheme_reason};
ghost use Rattle.lists.specs.Lists.{most_airfields};

use crate::Reason;
use field::record::wide;
use lists::Airfields;
use text::all_allowed;

// Four allowed bytes.
pub fn is_airfield(s: &[u8]) -> bool
    ensures { result ≡ is_airfield s.now }
{
    s.len() == 4 && all_allowed(s)
}

// The same four bytes by value: the lists are then searched without a slice.
#[tactic(auto, using(crate::proofs::Listed::four))]
pub fn name_of(s: &[u8]) -> [u8; 4]
    requires { length s.now ≡ 4 }
    ensures { result ≡ s.now }
{
    [s[0], s[1], s[2], s[3]]
}

fn is_name(a: u8, b: u8, c: u8, d: u8, name: [u8; 4]) -> bool
    ensures { result ≡ same_bytes (a ∷ b ∷ c ∷ d ∷ []) name }
{
    (a == name[0]) & (b == name[1]) & (c == name[2]) & (d == name[3])
}

// Whether a list has the airfield.
fn has_name(l: Airfields, name: [u8; 4]) -> bool
    requires { l.count ≤ most_airfields }
    ensures { result ≡ has l name }
{
    let n = wide(l.count);
    let names = l.names;
    for i in 0..n {
        let p = 4 * i;
        if is_name(names[p], names[p + 1], names[p + 2], names[p + 3], name) {
            return true;
        }
    }
    false
}

// A scheme by the phase's flag, or the first thing that stands against it. The lists count with the airports flag alone.
#[tactic(auto, unfolding(crate::specs::Reason::scheme_reason))]
pub fn scheme_reason(
    airports: u8,
    number: u8,
    flag: u8,
    selected: Airfields,
    inhibited: Airfields,
    name: [u8; 4],
) -> Reason
    requires { (selected.count ≤ most_airfields) × (inhibited.count ≤ most_airfields) }
    ensures { result ≡ scheme_reason airports number flag selected inhibited name }
{
    if flag != 1 {
        return Reason::FlagOff(number);
    }
    if airports == 0 {
        return Reason::FlagOn(number);
    }
    if has_name(inhibited, name) {
        return Reason::AirfieldInhibited;
    }
    if selected.count == 0 || has_name(selected, name) {
        Reason::FlagOn(number)
    } else {
        Reason::AirfieldNotSelected
    }
}
