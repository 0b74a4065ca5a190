// Reading a packed field.
ghost use Rattle.std.specs.Prelude.{◌≡◌, ◌≤◌, ◌==◌, not, leb, length, drop, position};
ghost use Rattle.packed.specs.Packed.{worth_of, read_packed, trim, is_solidus, is_digit, ahead, fault_behind};
ghost use Rattle.packed.specs.Inner.{refused_field};

use crate::Figure;
use crate::decode::decode;
use crate::table::Worths;
use text::{Code, Refusal};

// Where the first byte stands that is another one than b.
fn first_other(f: &[u8], b: u8) -> Option<usize>
    ensures { result ≡ position (λ x. not (x == b)) f.now }
{
    f.iter().position(|x| *x != b)
}

// Where the first byte stands that is no digit.
fn first_odd(t: &Worths, f: &[u8]) -> Option<usize>
    ensures { result ≡ position (λ x. leb 40 (worth_of x)) f.now }
{
    f.iter().position(|x| 40 <= t.worth(*x))
}

// Where the field goes on behind its leading spaces.
fn behind_spaces(f: &[u8]) -> usize
    ensures { (result ≤ length f.now) × (drop result f.now ≡ trim f.now) }
{
    first_other(f, b' ').unwrap_or(f.len())
}

// How many solidi the field begins with.
fn solidi_ahead(f: &[u8]) -> usize
    ensures { result ≡ ahead is_solidus f.now }
{
    first_other(f, b'/').unwrap_or(f.len())
}

// How many digits it begins with.
fn digits_ahead(t: &Worths, f: &[u8]) -> usize
    ensures { result ≡ ahead is_digit f.now }
{
    first_odd(t, f).unwrap_or(f.len())
}

// Where a field that begins with no solidus goes wrong behind its spaces: at the last of them where there is nothing else, and
// nowhere, which is its width, where all else are digits.
fn fault_behind(t: &Worths, f: &[u8]) -> usize
    requires { (1 ≤ length f.now) × (length f.now ≤ 5) }
    ensures { result ≡ fault_behind f.now }
{
    let w = f.len();
    let from = behind_spaces(f);
    if from == w {
        w - 1
    } else {
        from + digits_ahead(t, &f[from..])
    }
}

// Why a field is refused that is neither missing nor a figure: only such a field is looked at again. Digits behind spaces that are
// no figure are more than hold it.
fn refused(t: &Worths, f: &[u8]) -> Refusal
    requires { (1 ≤ length f.now) × (length f.now ≤ 5) }
    ensures { result ≡ refused_field f.now }
{
    let solidi = solidi_ahead(f);
    if 0 < solidi {
        return Code::NotAllowed.at(solidi);
    }
    let place = fault_behind(t, f);
    if place < f.len() {
        Code::NotAllowed.at(place)
    } else {
        Code::OtherSpelling.at(0)
    }
}

pub fn read(t: &Worths, f: &[u8]) -> Result<Figure, Refusal>
    ensures { result ≡ read_packed f.now }
{
    let w = f.len();
    if w < 1 || 5 < w {
        return Err(Code::WrongLength.at(0));
    }
    let d = decode(t, f);
    if d.missing {
        return Ok(None);
    }
    if d.given {
        return Ok(Some(d.figure));
    }
    Err(refused(t, f))
}

// A field that stands alone: the table is built for it.
pub fn read_lone(f: &[u8]) -> Result<Figure, Refusal>
    ensures { result ≡ read_packed f.now }
{
    read(&Worths::new(), f)
}
