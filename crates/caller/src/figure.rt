// A figure of the caller, and back.
ghost use Rattle.std.specs.Prelude.{◌≡◌, length};
ghost use Rattle.caller.specs.Figures.{figure_of, host_figure, is_zero, is_figure, write_figure_code, figure_over};

use crate::HostFigure;
use packed::Figure;
use packed::write::{code_of, write_lone};
use text::Code;

pub fn host_figure(figure: Figure) -> HostFigure
    ensures { result ≡ host_figure figure }
{
    match figure {
        Some(number) => HostFigure { number, given: 1 },
        None => HostFigure {
            number: 0,
            given: 0,
        },
    }
}

pub fn figure_from(f: HostFigure) -> Figure
    ensures { result ≡ figure_of f }
{
    if f.given == 0 { None } else { Some(f.number) }
}

#[tactic(auto, using(crate::proofs::Forms::zero_bits))]
pub fn is_zero(x: i32) -> bool
    ensures { result ≡ is_zero x }
{
    x == 0
}

// Given, or missing with the number 0.
pub fn is_figure(f: HostFigure) -> bool
    ensures { result ≡ is_figure f }
{
    (f.given == 1) | ((f.given == 0) & is_zero(f.number))
}

// The field at the start of what is lent, or nothing and the refusal's code. A figure of another form is refused by its width and its range
// first.
pub fn write_figure(f: HostFigure, width: usize, out: &mut [u8]) -> Result<(), Code>
    ensures { (result ≡ write_figure_code f width (length out.old)) × (out.new ≡ figure_over f width out.old) }
{
    if is_figure(f) {
        return write_lone(figure_from(f), width, out);
    }
    code_of(figure_from(f), width, width)?;
    Err(Code::Disagree)
}
