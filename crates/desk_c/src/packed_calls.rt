// Packed figures for C.
ghost use Rattle.std.specs.Prelude.{◌≡◌, length};
ghost use Rattle.packed.specs.Packed.{read_packed};
ghost use Rattle.caller.specs.Figures.{write_figure_code, figure_over};
ghost use Rattle.desk.specs.Numbers.{packed_numbers, write_answer};

use caller::HostFigure;
use desk::{Answer, PackedAnswer};

#[unsafe(no_mangle)]
pub extern "C" fn esk_packed_read(field: &[u8]) -> PackedAnswer
    ensures { result ≡ packed_numbers (read_packed field.now) }
{
    desk::esk_packed_read(field)
}

#[unsafe(no_mangle)]
pub extern "C" fn esk_packed_write(figure: HostFigure, width: usize, out: &mut [u8]) -> Answer
    ensures { (result ≡ write_answer (write_figure_code figure width (length out.old)) width)
        × (out.new ≡ figure_over figure width out.old) }
{
    desk::esk_packed_write(figure, width, out)
}
