// The join for C.
ghost use Rattle.std.specs.Prelude.{◌≡◌, length};
ghost use Rattle.join.specs.Join.{join, joined_over};
ghost use Rattle.desk.specs.Joins.{join_numbers};

use desk::Answer;

#[unsafe(no_mangle)]
pub extern "C" fn esk_join(first: &[u8], second: &[u8], out: &mut [u8]) -> Answer
    ensures { (result ≡ join_numbers (join first.now second.now (length out.old)))
        × (out.new ≡ joined_over (join first.now second.now (length out.old)) out.old) }
{
    desk::esk_join(first, second, out)
}
