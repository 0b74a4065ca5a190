// The counted lists written over the start of a text.
ghost use Rattle.std.specs.Prelude.{◌≡◌, ◌+◌, ◌*◌, ◌≤◌, length, take};
ghost use Rattle.text.specs.Over.{over};
ghost use Rattle.lists.specs.Lists.{most_airfields, most_boxes, airfields_text, regions_text, boxes_text};

use crate::{Airfields, Boxes, MOST_BOXES};
use field::Region;
use field::record::wide;
use field::write::{put_decimal, put_region};

// The count and the names in use; the answer is how many bytes that is.
pub fn put_airfields(l: Airfields, d: &mut [u8]) -> usize
    requires { (l.count ≤ most_airfields) × (2 + 4 * l.count ≤ length d.old) }
    ensures { (result ≡ length (airfields_text l)) × (d.new ≡ over d.old 0 (airfields_text l)) }
{
    let n = wide(l.count);
    let end = 2 + 4 * n;
    put_decimal(&mut d[..2], n);
    d[2..end].copy_from_slice(&l.names[..4 * n]);
    end
}

// The first n boxes.
fn put_regions(regions: [Region; MOST_BOXES], n: usize, d: &mut [u8])
    requires { (n ≤ most_boxes) × (14 * n ≤ length d.old) }
    ensures { d.new ≡ over d.old 0 (regions_text (take n regions)) }
{
    for i in 0..n {
        put_region(regions[i], &mut d[14 * i..14 * i + 14]);
    }
}

// The count and the boxes in use; the answer is how many bytes that is.
pub fn put_boxes(l: Boxes, d: &mut [u8]) -> usize
    requires { (l.count ≤ most_boxes) × (2 + 14 * l.count ≤ length d.old) }
    ensures { (result ≡ length (boxes_text l)) × (d.new ≡ over d.old 0 (boxes_text l)) }
{
    let n = wide(l.count);
    let end = 2 + 14 * n;
    put_decimal(&mut d[..2], n);
    put_regions(l.regions, n, &mut d[2..end]);
    end
}
