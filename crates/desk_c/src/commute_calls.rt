// When order is of no account, for C.
ghost use Rattle.std.specs.Prelude.{◌≡◌};
ghost use Rattle.commute.specs.Commute.{compared};
ghost use Rattle.desk.specs.Orders.{commute_numbers};

use desk::HostCommute;

#[unsafe(no_mangle)]
pub extern "C" fn esk_commute(a: &[u8], b: &[u8]) -> HostCommute
    ensures { result ≡ commute_numbers (compared a.now b.now) }
{
    desk::esk_commute(a, b)
}
