// The join for C.
ghost use Rattle.std.specs.Prelude.{◌≡◌, length};
ghost use Rattle.join.specs.Join.{join, joined_over};
ghost use Rattle.desk.specs.Joins.{refused_in, fault_numbers, join_numbers};

use crate::Answer;
use crate::answers::{accepted, length_of, refused_by};
use join::{Fault, join_texts};
use text::{Code, Refusal};

// A refusal of one of the two texts.
fn refused_in(text: u8, r: Refusal) -> Answer
    ensures { result ≡ refused_in text r }
{
    Answer {
        place: r.place,
        length: 0,
        code: r.code.number(),
        text,
        spare: 0,
    }
}

// A join's answer names the text at fault, 1 or 2, else 0.
fn fault_numbers(fault: Fault) -> Answer
    ensures { result ≡ fault_numbers fault }
{
    match fault {
        Fault::First(r) => refused_in(1, r),
        Fault::Second(r) => refused_in(2, r),
        Fault::Room => refused_by(Code::NoRoom),
    }
}

pub fn esk_join(first: &[u8], second: &[u8], out: &mut [u8]) -> Answer
    ensures { (result ≡ join_numbers (join first.now second.now (length out.old)))
        × (out.new ≡ joined_over (join first.now second.now (length out.old)) out.old) }
{
    match join_texts(first, second, out) {
        Ok(length) => accepted(length_of(length)),
        Err(fault) => fault_numbers(fault),
    }
}
