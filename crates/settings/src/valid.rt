// Which configuration is valid.
ghost use Rattle.std.specs.Prelude.{◌≡◌};
ghost use Rattle.settings.specs.Valid.{flags_valid, valid};
ghost use Rattle.settings.specs.Inner.{fixed_valid};

use crate::numbers::{fixed_of, numbers_of};
use crate::section2::regions_fine;
use crate::section3::airports_fine;
use crate::{Fixed, Settings};
use section::numbers::pass_numbers;

// Each is 0 or 1.
fn are_valid(flags: [u8; 7]) -> bool
    ensures { result ≡ flags_valid flags }
{
    let mut fine = true;
    for flag in flags {
        fine &= flag <= 1;
    }
    fine
}

// Whether the numbers of sections 4 to 9 are each within its row's limits.
fn fixed_valid(x: Fixed) -> bool
    ensures { result ≡ fixed_valid 6 4 x }
{
    let mut fine = true;
    for k in 4..10 {
        fine &= pass_numbers(numbers_of(x, k), k, 0).is_ok();
    }
    fine
}

// The flags are 0 or 1 and each section, as a section of a command, would pass the writer's checks. Gathered: which of them fails plays no part.
#[tactic(auto, using(crate::proofs::Pieces::sections_are, crate::proofs::Pieces::four), unfolding(crate::specs::Valid::valid))]
pub fn is_valid(x: Settings) -> bool
    ensures { result ≡ valid x }
{
    let boxes = are_valid(x.flags) & regions_fine(x.regions);
    // taken out of the record only here, so that less has to be kept while the boxes are looked at
    let airports = x.airports;
    boxes & airports_fine(airports) & fixed_valid(fixed_of(x))
}
