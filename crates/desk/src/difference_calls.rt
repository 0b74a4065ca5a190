// What differs between two configurations, for C.
ghost use Rattle.std.specs.Prelude.{◌≡◌, length};
ghost use Rattle.difference.specs.Difference.{difference, left_by};
ghost use Rattle.desk.specs.Differences.{difference_numbers};

use crate::HostDiffering;
use crate::answers::{accepted, length_of, refused_by};
use difference::differ;
use settings::Settings;

// The place of a refusal is 0. The two are handed over: of a record that is lent it is not known that its arrays are as long as they
// are declared.
fn difference_answer(first: Settings, second: Settings, out: &mut [u8]) -> HostDiffering
    ensures { (result ≡ difference_numbers (difference first second (length out.old)))
        × (out.new ≡ left_by first second out.old) }
{
    match differ(first, second, out) {
        Ok(differing) => {
            let items = differing.listed.items;
            HostDiffering {
                answer: accepted(length_of(differing.length)),
                count: differing.listed.count,
                items,
            }
        }
        Err(code) => HostDiffering {
            answer: refused_by(code),
            count: 0,
            items: [0; 15],
        },
    }
}

pub fn esk_difference(first: &Settings, second: &Settings, out: &mut [u8]) -> HostDiffering
    ensures { (result ≡ difference_numbers (difference first.now second.now (length out.old)))
        × (out.new ≡ left_by first.now second.now out.old) }
{
    difference_answer(*first, *second, out)
}
