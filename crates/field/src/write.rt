// Fields written into parts of a text.
ghost use Rattle.std.specs.Prelude.{◌≡◌, ◌++◌, ◌+◌, ◌≤◌, ◌<◌, length};
ghost use Rattle.text.specs.Over.{over};
ghost use Rattle.field.specs.Decimal.{decimal};
ghost use Rattle.field.specs.Boxes.{region_text};
ghost use Rattle.field.specs.Steps.{edge_bytes};

use crate::record::wide;
use crate::{Edge, Region};

fn figure(n: usize) -> u8
    requires { n < 10 }
    ensures { result ≡ 48 + n }
{
    b'0' + n as u8
}

// The last digits of v, as many as there is room for, from the right.
pub fn put_decimal(d: &mut [u8], v: usize)
    ensures { d.new ≡ decimal (length d.old) v }
{
    let mut i = d.len();
    let mut n = v;
    while 0 < i {
        i -= 1;
        d[i] = figure(n % 10);
        n /= 10;
    }
}

// Degrees, in w digits, and letter, over the start of `d`.
fn put_edge(w: usize, e: Edge, d: &mut [u8])
    requires { w + 1 ≤ length d.old }
    ensures { d.new ≡ over d.old 0 (edge_bytes w e) }
{
    put_decimal(&mut d[..w], wide(e.degrees));
    d[w] = e.letter;
}

// Two edges, one after the other.
fn put_pair(w: usize, first: Edge, second: Edge, d: &mut [u8])
    requires { (w ≤ 3) × ((w + 1) + (w + 1) ≤ length d.old) }
    ensures { d.new ≡ over d.old 0 (edge_bytes w first ++ edge_bytes w second) }
{
    let mid = w + 1;
    let end = mid + mid;
    put_edge(w, first, &mut d[..mid]);
    put_edge(w, second, &mut d[mid..end]);
}

// A box's 14 bytes over the start of `d`.
pub fn put_region(b: Region, d: &mut [u8])
    requires { 14 ≤ length d.old }
    ensures { d.new ≡ over d.old 0 (region_text b) }
{
    put_pair(2, b.north, b.south, &mut d[..6]);
    put_pair(3, b.west, b.east, &mut d[6..14]);
}
