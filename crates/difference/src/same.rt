// Whether two sections hold the same. What is compared is gathered: which of them differs plays no part.
ghost use Rattle.std.specs.Prelude.{◌≡◌, ◌&&◌, ◌≤◌};
ghost use Rattle.text.specs.Equal.{same_bytes};
ghost use Rattle.settings.specs.Settings.{regions_hold, airports_hold, fixed_hold};
ghost use Rattle.difference.specs.Same.{same_edge, same_region, same_regions, same_airfields, same_boxes, same_contents};

use field::{Edge, Region};
use lists::{Airfields, Boxes};
use settings::numbers::numbers_of;
use settings::{Airports, ByPhase, Fixed, Regions};

fn same_edge(a: Edge, b: Edge) -> bool
    ensures { result ≡ same_edge a b }
{
    (a.degrees == b.degrees) & (a.letter == b.letter)
}

fn same_region(a: Region, b: Region) -> bool
    ensures { result ≡ same_region a b }
{
    let north = same_edge(a.north, b.north);
    let south = same_edge(a.south, b.south);
    let west = same_edge(a.west, b.west);
    let east = same_edge(a.east, b.east);
    north & south & west & east
}

fn same_regions(a: [Region; 16], b: [Region; 16]) -> bool
    ensures { result ≡ same_regions a b }
{
    let mut same = true;
    for i in 0..16 {
        same &= same_region(a[i], b[i]);
    }
    same
}

fn same_boxes(a: Boxes, b: Boxes) -> bool
    ensures { result ≡ same_boxes a b }
{
    (a.count == b.count) & same_regions(a.regions, b.regions)
}

#[tactic(auto, using(text::proofs::Equal::pointwise_same))]
fn same_airfields(a: Airfields, b: Airfields) -> bool
    ensures { result ≡ same_airfields a b }
{
    (a.count == b.count) & (a.names == b.names)
}

fn same_phases(a: ByPhase, b: ByPhase) -> bool
    ensures { result ≡ (same_airfields a.ascent b.ascent && same_airfields a.descent b.descent) }
{
    same_airfields(a.ascent, b.ascent) & same_airfields(a.descent, b.descent)
}

// Section 2.
#[tactic(auto, using(crate::proofs::Equal::two), unfolding(crate::specs::Same::same_contents))]
pub fn same_section2(a: Regions, b: Regions) -> bool
    ensures { result ≡ same_contents (regions_hold a) (regions_hold b) }
{
    same_boxes(a.reporting, b.reporting) & same_boxes(a.inhibiting, b.inhibiting)
}

// Section 3.
#[tactic(auto, using(crate::proofs::Equal::five), unfolding(crate::specs::Same::same_contents))]
pub fn same_section3(a: Airports, b: Airports) -> bool
    ensures { result ≡ same_contents (airports_hold a) (airports_hold b) }
{
    same_phases(a.selected, b.selected)
        & same_phases(a.inhibited, b.inhibited)
        & (a.routine == b.routine)
}

#[tactic(auto, using(text::proofs::Equal::pointwise_same))]
fn same_numbers(a: [u16; 8], b: [u16; 8]) -> bool
    ensures { result ≡ same_bytes a b }
{
    a == b
}

// A section of numbers, 4 to 9.
pub fn same_fixed(a: Fixed, b: Fixed, k: usize) -> bool
    requires { (4 ≤ k) × (k ≤ 9) }
    ensures { result ≡ same_contents (fixed_hold a k) (fixed_hold b k) }
{
    same_numbers(numbers_of(a, k), numbers_of(b, k))
}
