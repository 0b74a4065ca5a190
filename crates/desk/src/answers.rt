// The numbers of an answer.
ghost use Rattle.std.specs.Prelude.{◌≡◌, ◌≤◌};
ghost use Rattle.command.specs.Text.{longest};
ghost use Rattle.desk.specs.Numbers.{accepted, refused, refused_by, write_numbers};

use crate::Answer;
use text::{Code, Refusal};

// What is accepted, with a length.
pub fn accepted(length: u32) -> Answer
    ensures { result ≡ accepted length }
{
    Answer {
        place: 0,
        length,
        code: 0,
        text: 0,
        spare: 0,
    }
}

// A code and a place, and no length.
pub fn refused(r: Refusal) -> Answer
    ensures { result ≡ refused r }
{
    Answer {
        place: r.place,
        length: 0,
        code: r.code.number(),
        text: 0,
        spare: 0,
    }
}

// A code alone: its place is 0.
pub fn refused_by(code: Code) -> Answer
    ensures { result ≡ refused_by code }
{
    refused(code.at(0))
}

// The numbers of what was seen; `length` is given where all is fine.
pub fn numbers(seen: Result<(), Refusal>, length: u32) -> Answer
    ensures { result ≡ write_numbers seen length }
{
    match seen {
        Ok(()) => accepted(length),
        Err(r) => refused(r),
    }
}

// A length that no command passes fits in 32 bits.
pub fn length_of(length: usize) -> u32
    requires { length ≤ longest }
    ensures { result ≡ length }
{
    length as u32
}
