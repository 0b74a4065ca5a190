// The items that a command's flags and indicators set, in their order.
ghost use Rattle.std.specs.Prelude.{◌≡◌, ◌<◌};
ghost use Rattle.difference.specs.Difference.{listing};
ghost use Rattle.difference.specs.Inner.{item_at, set_at, set_items};

use crate::Listed;

fn item_at(i: usize) -> u8
    requires { i < 15 }
    ensures { result ≡ item_at i }
{
    if i < 7 { (i + 1) as u8 } else { (i + 5) as u8 }
}

// A flag that is not 9, a section that is named.
fn is_set(flags: [u8; 7], named: [u8; 8], i: usize) -> bool
    requires { i < 15 }
    ensures { result ≡ set_at flags named i }
{
    if i < 7 {
        flags[i] != 9
    } else {
        named[i - 7] != 0
    }
}

// Each is put at the end of those before it.
pub fn list_set(flags: [u8; 7], named: [u8; 8]) -> Listed
    ensures { result ≡ listing (set_items flags named 0 15) }
{
    let mut items = [0u8; 15];
    let mut count: usize = 0;
    for i in 0..15 {
        if is_set(flags, named, i) {
            items[count] = item_at(i);
            count += 1;
        }
    }
    Listed {
        count: count as u8,
        items,
    }
}
