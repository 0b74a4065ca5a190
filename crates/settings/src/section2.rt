// Section 2: reporting boxes and inhibiting boxes.
ghost use Rattle.std.specs.Prelude.{◌≡◌, true, ℕ, ◌+◌, ◌*◌, ◌≤◌, length, Ok};
ghost use Rattle.text.specs.Checks.{is_fine};
ghost use Rattle.text.specs.Over.{over};
ghost use Rattle.lists.specs.Lists.{most_boxes, boxes_text};
ghost use Rattle.section.specs.Layout.{layout_of, Accepted};
ghost use Rattle.section.specs.Contents.{contents_at, contents_text, contents_allowed};
ghost use Rattle.section.specs.Inner.{pass_contents, Reaches};
ghost use Rattle.settings.specs.Settings.{regions_hold, regions_from};
ghost use Rattle.settings.specs.Valid.{are_zero};
ghost use Rattle.settings.specs.Inner.{pass_section, text_if};

use crate::Regions;
use crate::places::{list_end, pass_zero};
use lists::Boxes;
use lists::read::boxes_at;
use lists::record::{boxes_allowed, boxes_fine, boxes_zero};
use lists::write::put_boxes;
use text::Refusal;

// Section 2.
#[tactic(auto, unfolding(section::specs::Layout::layout_of, section::specs::Layout::table_of, section::specs::Contents::contents_at, crate::specs::Settings::regions_from))]
pub fn regions_at(s: &[u8], at: usize) -> Regions
    requires { Accepted 2 s.now at }
    ensures { result ≡ regions_from (contents_at (layout_of 2) s.now at) }
{
    Regions {
        reporting: boxes_at(s, at),
        inhibiting: boxes_at(s, list_end(s, at, 14)),
    }
}

#[tactic(auto, unfolding(crate::specs::Valid::are_zero))]
fn regions_zero(x: Regions) -> bool
    ensures { result ≡ are_zero (regions_hold x) }
{
    boxes_zero(x.reporting) & boxes_zero(x.inhibiting)
}

pub fn regions_fine(x: Regions) -> bool
    ensures { (at : ℕ) → result ≡ is_fine (contents_allowed (layout_of 2) at (regions_hold x)) }
{
    let mut fine = true;
    for l in [x.reporting, x.inhibiting] {
        fine &= boxes_fine(l.count, l.regions);
    }
    fine
}

// How long a list's text is.
#[tactic(auto, using(crate::proofs::Pieces::of_lists))]
fn boxes_size(l: Boxes) -> usize
    requires { l.count ≤ most_boxes }
    ensures { (result ≡ length (boxes_text l)) × (result ≡ 2 + 14 * l.count) }
{
    2 + 14 * l.count as usize
}

// Section 2, list by list.
#[tactic(auto, using(crate::proofs::Pieces::of_lists), unfolding(section::specs::Layout::layout_of, section::specs::Layout::table_of, section::specs::Contents::contents_allowed))]
fn each_boxes_allowed(x: Regions, at: usize) -> Result<(), Refusal>
    requires { at ≤ 1000 }
    ensures { result ≡ contents_allowed (layout_of 2) at (regions_hold x) }
{
    boxes_allowed(x.reporting, at)?;
    boxes_allowed(x.inhibiting, at + boxes_size(x.reporting))
}

// Section 2.
#[tactic(auto, using(crate::proofs::Pieces::of_lists))]
fn regions_allowed(x: Regions, at: usize) -> Result<(), Refusal>
    requires { at ≤ 1000 }
    ensures { result ≡ contents_allowed (layout_of 2) at (regions_hold x) }
{
    if regions_fine(x) {
        Ok(())
    } else {
        each_boxes_allowed(x, at)
    }
}

// How long the text of section 2 is.
#[tactic(auto, unfolding(section::specs::Layout::layout_of, section::specs::Layout::table_of, section::specs::Contents::contents_text))]
fn regions_length(x: Regions) -> usize
    requires { (x.reporting.count ≤ most_boxes) × (x.inhibiting.count ≤ most_boxes) }
    ensures { (result ≡ length (contents_text (layout_of 2) (regions_hold x))) × (result ≤ 453) }
{
    boxes_size(x.reporting) + boxes_size(x.inhibiting) + 1
}

// Section 2.
fn put_regions(x: Regions, d: &mut [u8]) -> usize
    requires count_le_most_boxes { (x.reporting.count ≤ most_boxes) × (x.inhibiting.count ≤ most_boxes) }
    requires inhibiting_in_bounds { length (boxes_text x.reporting) + length (boxes_text x.inhibiting) + 1 ≤ length d.old }
    ensures { (result ≡ length (contents_text (layout_of 2) (regions_hold x)))
        × (d.new ≡ over d.old 0 (contents_text (layout_of 2) (regions_hold x))) }
{
    let mid = boxes_size(x.reporting);
    let end = mid + boxes_size(x.inhibiting);
    put_boxes(x.reporting, &mut d[..mid]);
    put_boxes(x.inhibiting, &mut d[mid..end]);
    d[end] = b'/';
    end + 1
}

// Section 2, named or not: where what follows it would begin, or its refusal.
#[tactic(auto, using(crate::proofs::Pieces::pass_unnamed, crate::proofs::Pieces::room))]
pub fn pass_regions(named: bool, x: Regions, at: usize) -> Result<usize, Refusal>
    requires { at ≤ 1000 }
    ensures { (result ≡ pass_section named 2 at (regions_hold x)) × Reaches (at + 453) result }
{
    if named {
        regions_allowed(x, at)?;
        Ok(at + regions_length(x))
    } else {
        pass_zero(regions_zero(x), at)
    }
}

// Section 2, where it is named; the answer is how many bytes that is.
#[tactic(auto, using(text::proofs::Over::over_none, crate::proofs::Pieces::room))]
pub fn put_named_regions(named: bool, x: Regions, d: &mut [u8]) -> usize
    requires x_value { named ≡ true → contents_allowed (layout_of 2) 0 (regions_hold x) ≡ Ok tt }
    requires x_in_bounds { length (text_if named 2 (regions_hold x)) ≤ length d.old }
    ensures { (result ≡ length (text_if named 2 (regions_hold x))) × (d.new ≡ over d.old 0 (text_if named 2 (regions_hold x))) }
{
    if named { put_regions(x, d) } else { 0 }
}
