// When order is of no account, for C.
ghost use Rattle.std.specs.Prelude.{◌≡◌};
ghost use Rattle.commute.specs.Commute.{compared};
ghost use Rattle.desk.specs.Orders.{commute_refused, commute_numbers};

use crate::HostCommute;
use commute::{Fault, compare};
use text::Refusal;

// A refusal carries its code and place and the text at fault, nothing else.
fn commute_refused(text: u8, r: Refusal) -> HostCommute
    ensures { result ≡ commute_refused text r }
{
    HostCommute {
        place: r.place,
        code: r.code.number(),
        text,
        yes: 0,
        flags: 0,
        sections: 0,
        spare: 0,
        rest: 0,
    }
}

pub fn esk_commute(a: &[u8], b: &[u8]) -> HostCommute
    ensures { result ≡ commute_numbers (compared a.now b.now) }
{
    match compare(a, b) {
        Ok(apart) => HostCommute {
            place: 0,
            code: 0,
            text: 0,
            yes: u8::from((apart.flags == 0) & (apart.sections == 0)),
            flags: apart.flags,
            sections: apart.sections,
            spare: 0,
            rest: 0,
        },
        Err(Fault::First(r)) => commute_refused(1, r),
        Err(Fault::Second(r)) => commute_refused(2, r),
    }
}
