// The sections of a command in a text, from a place on: each number's own length, limits and refusals.
ghost use Rattle.std.specs.Prelude.{◌≡◌, ◌≤◌, length};
ghost use Rattle.section.specs.Layout.{table_of, check_items, check_section, digits_of};

use crate::table::layout_of;
use field::check::{delimiter, digits};
use field::kind::repeated;
use lists::{Airfields, Boxes};
use text::Refusal;

// The digits of a section, row by row, and `/`.
#[tactic(auto, using(crate::proofs::Come::come_rest, crate::proofs::Come::come_stop, crate::proofs::Rows::rows_end), unfolding(crate::specs::Layout::check_items))]
fn all_digits(s: &[u8], at: usize, k: usize) -> Result<usize, Refusal>
    requires { at ≤ length s.now }
    ensures { result ≡ check_items (digits_of (table_of k)) s.now at }
{
    let l = layout_of(k);
    let mut p = at;
    for row in &l.rows[..l.count] {
        p = digits(
            s,
            p,
            row.width as usize,
            row.least as usize,
            row.most as usize,
            row.code,
        )?;
    }
    delimiter(s, p)
}

// A section as its layout says.
#[tactic(auto, using(crate::proofs::Come::section_parts))]
pub fn check_section(s: &[u8], at: usize, k: usize) -> Result<usize, Refusal>
    requires { at ≤ length s.now }
    ensures { result ≡ check_section k s.now at }
{
    let l = layout_of(k);
    let behind_boxes = repeated::<Boxes>(s, at, l.boxes)?;
    let behind_lists = repeated::<Airfields>(s, behind_boxes, l.airfields)?;
    all_digits(s, behind_lists, k)
}
