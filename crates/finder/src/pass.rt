// A section passed over by its counts alone: neither its entries nor its digits nor its delimiter are looked at.
ghost use Rattle.std.specs.Prelude.{◌≡◌, ◌+◌, ◌≤◌, length};
ghost use Rattle.field.specs.Fields.{repeat};
ghost use Rattle.section.specs.Layout.{table_of, digits_of};
ghost use Rattle.finder.specs.Finding.{pass_list, pass_items, pass_section};
ghost use Rattle.finder.specs.Inner.{width_of};

use field::check::digits;
use field::record::wide;
use lists::{MOST_AIRFIELDS, MOST_BOXES};
use section::table::layout_of;
use settings::places::list_end;
use text::{Code, Refusal};

// A count, and behind it w bytes for each entry. A list that would begin past the end belongs to a section that ends there.
fn list(s: &[u8], start: usize, at: usize, most: usize, w: usize) -> Result<usize, Refusal>
    requires { (most ≤ 20) × (w ≤ 14) }
    ensures { result ≡ pass_list most w s.now start at }
{
    if s.len() < at {
        return Err(Code::WrongEnd.at(start));
    }
    digits(s, at, 2, 0, most, Code::OutOfRange)?;
    Ok(list_end(s, at, w))
}

// n lists of one kind.
#[tactic(auto, using(field::proofs::Repeat::repeat_end, field::proofs::Repeat::repeat_turn, field::proofs::Repeat::repeat_stop))]
fn several(
    s: &[u8],
    start: usize,
    at: usize,
    n: usize,
    most: usize,
    w: usize,
) -> Result<usize, Refusal>
    requires { (most ≤ 20) × (w ≤ 14) }
    ensures { result ≡ repeat (pass_list most w s.now start) n at }
{
    let mut p = at;
    for _ in 0..n {
        p = list(s, start, p, most, w)?;
    }
    Ok(p)
}

// How many bytes the digits of a section are.
fn digits_size(k: usize) -> usize
    ensures { (result ≡ width_of (table_of k).rows) × (result ≤ 24) }
{
    let l = layout_of(k);
    let mut size: usize = 0;
    for i in 0..l.count {
        size += wide(l.rows[i].width);
    }
    size
}

// The digits and the delimiter. A section that runs past the end is 8 at its start.
fn to_end(s: &[u8], start: usize, at: usize, k: usize) -> Result<usize, Refusal>
    requires { at ≤ length s.now + 280 }
    ensures { result ≡ pass_items (digits_of (table_of k)) s.now start at }
{
    let end = at + digits_size(k) + 1;
    if s.len() < end {
        return Err(Code::WrongEnd.at(start));
    }
    Ok(end)
}

// Where the text goes on behind section k, which starts at a place.
#[tactic(auto, using(crate::proofs::Passing::section_parts, crate::proofs::Passing::lists_reach))]
pub fn pass_section(s: &[u8], at: usize, k: usize) -> Result<usize, Refusal>
    requires { at ≤ length s.now }
    ensures { result ≡ pass_section k s.now at }
{
    let l = layout_of(k);
    let behind_boxes = several(s, at, at, l.boxes, MOST_BOXES, 14)?;
    let behind_lists = several(s, at, behind_boxes, l.airfields, MOST_AIRFIELDS, 4)?;
    to_end(s, at, behind_lists, k)
}
