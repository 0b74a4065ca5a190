// The single bytes of an observation, and a figure against its row.
ghost use Rattle.std.specs.Prelude.{◌≡◌};
ghost use Rattle.packed.specs.Packed.{all_solidi};
ghost use Rattle.observation.specs.Figures.{in_range, allowed_figure};
ghost use Rattle.observation.specs.Observation.{is_kind, is_quality, alike};

use crate::Row;
use packed::Figure;

// Kind P, one of A D R W U E.
pub fn is_kind(b: u8) -> bool
    ensures { result ≡ is_kind b }
{
    matches!(b, b'A' | b'D' | b'R' | b'W' | b'U' | b'E')
}

// Quality, `0`-`9` or `/`.
pub fn is_quality(b: u8) -> bool
    ensures { result ≡ is_quality b }
{
    matches!(b, b'0'..=b'9' | b'/')
}

// An absent observation is wholly solidi. Gathered: an empty line of a report is tested so.
pub fn all_solidi(s: &[u8]) -> bool
    ensures { result ≡ all_solidi s.now }
{
    let mut fine = true;
    for &b in s {
        fine &= b == b'/';
    }
    fine
}

pub fn in_range(row: Row, x: i32) -> bool
    ensures { result ≡ in_range row x }
{
    (row.least <= x) & (x <= row.most)
}

// A given figure is in its row's range.
pub fn allowed(row: Row, figure: Figure) -> bool
    ensures { result ≡ allowed_figure row figure }
{
    match figure {
        Some(x) => in_range(row, x),
        None => true,
    }
}

// Wind direction and speed are both missing or both given.
pub fn are_alike(direction: Figure, speed: Figure) -> bool
    ensures { result ≡ alike direction speed }
{
    direction.is_some() == speed.is_some()
}
