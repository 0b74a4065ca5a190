// The record of a text.
ghost use Rattle.std.specs.Prelude.{◌≡◌, ◌+◌, ◌≤◌, ◌<◌, length};
ghost use Rattle.text.specs.Parts.{part};
ghost use Rattle.text.specs.Table.{values};
ghost use Rattle.sheet.specs.Sheet.{word_at, airport_byte, sheet_at, read_sheet};

use crate::Sheet;
use crate::cells::{airport_part, cell_at};
use crate::check::{check, read_field};
use text::{Refusal, copy};

// What the field of a cell holds.
fn word_at(s: &[u8], k: usize) -> u16
    requires { k < 167 }
    ensures { result ≡ word_at s.now k }
{
    let c = cell_at(k);
    read_field(c.form, s, c.at + c.labelled).unwrap_or(0)
}

// The words of cells, from one on.
#[tactic(auto, using(crate::proofs::Filled::filled_end))]
fn take_words(s: &[u8], from: usize, words: &mut [u16])
    requires { from + length words.old ≤ 167 }
    ensures { words.new ≡ values (word_at s.now) from (length words.old) }
{
    for (i, word) in words.iter_mut().enumerate() {
        *word = word_at(s, from + i);
    }
}

// A byte of the airports.
fn airport_byte(s: &[u8], i: usize) -> u8
    requires i_bound { i < 250 }
    requires s_len { length s.now ≡ 913 }
    ensures { result ≡ airport_byte s.now i }
{
    let n = i / 5;
    let j = i % 5;
    if j == 4 {
        let k = 67 + 2 * (5 * (n % 10) + n / 10);
        return word_at(s, k + 1) as u8;
    }
    let c = airport_part(n % 10, n / 10, 0);
    let p = c.at + c.labelled + j;
    s[p]
}

fn take_airports(s: &[u8], airports: &mut [u8])
    requires airports_len { length airports.old ≡ 250 }
    requires s_len { length s.now ≡ 913 }
    ensures { airports.new ≡ values (airport_byte s.now) 0 250 }
{
    for (i, byte) in airports.iter_mut().enumerate() {
        *byte = airport_byte(s, i);
    }
}

fn numbers_in(s: &[u8]) -> [u16; 16]
    ensures { result ≡ values (word_at s.now) 1 16 }
{
    let mut numbers: [u16; 16] = [0; 16];
    take_words(s, 1, &mut numbers[0..16]);
    numbers
}

fn boxes_in(s: &[u8]) -> [u16; 50]
    ensures { result ≡ values (word_at s.now) 17 50 }
{
    let mut boxes: [u16; 50] = [0; 50];
    take_words(s, 17, &mut boxes[0..50]);
    boxes
}

fn designator_in(s: &[u8]) -> [u8; 6]
    requires { length s.now ≡ 913 }
    ensures { result ≡ part 15 6 s.now }
{
    let mut designator: [u8; 6] = [0; 6];
    copy(&mut designator[0..6], &s[15..21]);
    designator
}

fn airports_in(s: &[u8]) -> [u8; 250]
    requires { length s.now ≡ 913 }
    ensures { result ≡ values (airport_byte s.now) 0 250 }
{
    let mut airports: [u8; 250] = [0; 250];
    take_airports(s, &mut airports[0..250]);
    airports
}

fn take_sheet(s: &[u8]) -> Sheet
    requires { length s.now ≡ 913 }
    ensures { result ≡ sheet_at s.now }
{
    Sheet {
        numbers: numbers_in(s),
        boxes: boxes_in(s),
        designator: designator_in(s),
        airports: airports_in(s),
    }
}

#[tactic(auto, unfolding(crate::specs::Sheet::read_sheet))]
pub fn read(s: &[u8]) -> Result<Sheet, Refusal>
    ensures { result ≡ read_sheet s.now }
{
    check(s)?;
    Ok(take_sheet(s))
}
