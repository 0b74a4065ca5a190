// The position against the boxes of section 2.
ghost use Rattle.std.specs.Prelude.{◌≡◌, ◌*◌, ◌≤◌, ◌<◌};
ghost use Rattle.std.specs.Int.Signed.{mag};
ghost use Rattle.field.specs.Boxes.{line_of};
ghost use Rattle.decide.specs.Tests.{minutes, eastward, other_spelling, holds, first_holding};
ghost use Rattle.decide.specs.Reason.{inhibiting_box, no_reporting_box};
ghost use Rattle.lists.specs.Lists.{most_boxes};

use field::boxes::{latitudes, longitudes};
use field::record::{line_of, wide};
use field::{Circle, Edge, Region};
use lists::Boxes;

// Minutes from 1000 degrees below zero, as the lines of edges are.
pub fn minutes_of(x: i32) -> usize
    requires { mag x < 60000 }
    ensures { result ≡ minutes x }
{
    (x + 60000) as usize
}

#[tactic(auto, using(crate::proofs::Inside::line_small))]
fn edge_minutes(c: Circle, e: Edge) -> usize
    ensures { result ≡ 60 * line_of c e }
{
    60 * line_of(c, e)
}

// Between two longitudes or, where the first is above the second, on one of the two sides: any two of the three tests.
fn is_eastward(first: usize, second: usize, east: usize) -> bool
    ensures { result ≡ eastward first second east }
{
    let past = first <= east;
    let before = east <= second;
    (past & before) | ((second < first) & (past | before))
}

// 180W (49200) and 180E (70800) are one meridian: the position's other spelling, where it is that; else the position.
fn spelt_otherwise(east: usize) -> usize
    ensures { result ≡ other_spelling east }
{
    match east {
        49200 => 70800,
        70800 => 49200,
        _ => east,
    }
}

// Edges belong to a box. The tests are gathered: which of them fails plays no part.
#[tactic(auto, unfolding(crate::specs::Tests::holds))]
fn box_holds(b: Region, north: usize, east: usize, again: usize) -> bool
    requires { again ≡ other_spelling east }
    ensures { result ≡ holds b north east }
{
    let top = edge_minutes(latitudes(), b.north);
    let bottom = edge_minutes(latitudes(), b.south);
    let left = edge_minutes(longitudes(), b.west);
    let right = edge_minutes(longitudes(), b.east);
    let along = is_eastward(left, right, east) | is_eastward(left, right, again);
    (bottom <= north) & (north <= top) & along
}

// The lowest number, from 1, of the boxes that hold the position; 0 where none does.
fn first_holding(l: Boxes, north: usize, east: usize) -> u8
    requires { l.count ≤ most_boxes }
    ensures { result ≡ first_holding l north east }
{
    let regions = l.regions;
    let n = l.count;
    let again = spelt_otherwise(east);
    for i in 0..n {
        if box_holds(regions[wide(i)], north, east, again) {
            return i + 1;
        }
    }
    0
}

// The inhibiting box that silences, by its number; 0 where none does.
#[tactic(auto, unfolding(crate::specs::Reason::inhibiting_box))]
pub fn inhibiting_box(flag: u8, inhibiting: Boxes, north: usize, east: usize) -> u8
    requires { inhibiting.count ≤ most_boxes }
    ensures { result ≡ inhibiting_box flag inhibiting north east }
{
    if flag == 1 {
        first_holding(inhibiting, north, east)
    } else {
        0
    }
}

// Reporting boxes exist, and none holds the position.
#[tactic(auto, unfolding(crate::specs::Reason::no_reporting_box))]
pub fn no_reporting_box(flag: u8, reporting: Boxes, north: usize, east: usize) -> bool
    requires { reporting.count ≤ most_boxes }
    ensures { result ≡ no_reporting_box flag reporting north east }
{
    flag == 1 && reporting.count != 0 && first_holding(reporting, north, east) == 0
}
