// Packed figures for C.
ghost use Rattle.std.specs.Prelude.{◌≡◌, ◌≤◌, length};
ghost use Rattle.packed.specs.Packed.{read_packed};
ghost use Rattle.caller.specs.Figures.{write_figure_code, figure_over};
ghost use Rattle.desk.specs.Numbers.{packed_numbers, write_answer};

use crate::answers::{accepted, refused_by};
use crate::{Answer, PackedAnswer};
use caller::HostFigure;
use caller::figure::write_figure;
use packed::read::read_lone;

// A place in a field is small.
fn narrow(place: usize) -> u16
    requires { place ≤ 5 }
    ensures { result ≡ place }
{
    place as u16
}

// A field's width is small.
fn wide(width: usize) -> u32
    requires { width ≤ 5 }
    ensures { result ≡ width }
{
    width as u32
}

pub fn esk_packed_read(field: &[u8]) -> PackedAnswer
    ensures { result ≡ packed_numbers (read_packed field.now) }
{
    match read_lone(field) {
        Ok(Some(number)) => PackedAnswer {
            number,
            place: 0,
            code: 0,
            given: 1,
        },
        Ok(None) => PackedAnswer {
            number: 0,
            place: 0,
            code: 0,
            given: 0,
        },
        Err(r) => PackedAnswer {
            number: 0,
            place: narrow(r.place),
            code: r.code.number(),
            given: 0,
        },
    }
}

pub fn esk_packed_write(figure: HostFigure, width: usize, out: &mut [u8]) -> Answer
    ensures { (result ≡ write_answer (write_figure_code figure width (length out.old)) width)
        × (out.new ≡ figure_over figure width out.old) }
{
    match write_figure(figure, width, out) {
        Ok(()) => accepted(wide(width)),
        Err(code) => refused_by(code),
    }
}
