// Where the lists of a section stand, found from their counts alone; and a section that isn't named.
ghost use Rattle.std.specs.Prelude.{◌≡◌, true, ◌+◌, ◌*◌, ◌≤◌, length};
ghost use Rattle.text.specs.Checks.{must};
ghost use Rattle.text.specs.Parts.{part};
ghost use Rattle.field.specs.Decimal.{all_digits};
ghost use Rattle.lists.specs.Lists.{most_airfields, count_at};
ghost use Rattle.section.specs.Layout.{Accepted};
ghost use Rattle.section.specs.Inner.{going_on};
ghost use Rattle.text.specs.declared.Code.TheVariants.{Disagree};
ghost use Rattle.settings.specs.Inner.{lists_at};

use field::digits::value_at;
use text::{Code, Refusal};

// Where the four lists of section 3 stand, and the digit behind them.
#[derive(Clone, Copy)]
pub struct ListPlaces {
    pub first: usize,
    pub second: usize,
    pub third: usize,
    pub fourth: usize,
    pub last: usize,
}

// Where a list ends that stands at a place: a count, and as many entries of w bytes.
#[tactic(auto, using(crate::proofs::Pieces::products))]
pub fn list_end(s: &[u8], at: usize, w: usize) -> usize
    requires at_in_bounds { at + 2 ≤ length s.now }
    requires s_value { all_digits (part at 2 s.now) ≡ true }
    requires at_bound { (count_at s.now at ≤ most_airfields) × (w ≤ 14) }
    ensures { result ≡ at + (2 + w * count_at s.now at) }
{
    at + (2 + w * value_at(s, at, 2))
}

// The lists of a section 3 that stands at a place, each found behind the one before it.
pub fn lists_at(s: &[u8], at: usize) -> ListPlaces
    requires { Accepted 3 s.now at }
    ensures { result ≡ lists_at s.now at }
{
    let second = list_end(s, at, 4);
    let third = list_end(s, second, 4);
    let fourth = list_end(s, third, 4);
    let last = list_end(s, fourth, 4);
    ListPlaces {
        first: at,
        second,
        third,
        fourth,
        last,
    }
}

// A section that isn't named is zero, else `Disagree` where it would begin.
pub fn pass_zero(zero: bool, at: usize) -> Result<usize, Refusal>
    ensures { result ≡ going_on (must zero Disagree at) at }
{
    if zero {
        Ok(at)
    } else {
        Err(Code::Disagree.at(at))
    }
}
