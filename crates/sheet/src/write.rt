// Writing: the record is checked first, cell by cell, then the room, and only then is a byte written.
ghost use Rattle.std.specs.Prelude.{◌≡◌, true, cond, ◌∷◌, [], ◌+◌, ◌<◌, ◌≤◌, eqb, length};
ghost use Rattle.text.specs.Over.{over};
ghost use Rattle.sheet.specs.Layout.{width_of, cell_at};
ghost use Rattle.sheet.specs.Sheet.{held_at, held_code, allowed_cell, allowed_sheet, field_text, cell_text, held_text, sheet_text, joined, write_seen, left_by};
ghost use Rattle.sheet.specs.Inner.{held_is, AirportIs, held_form, small_cell, size_of_cell};

use crate::cells::{cell_at, size_of_cell, width_of};
use crate::number::{is_allowed, put_number};
use crate::{Cell, Form, Held, Sheet};
use text::{Code, Refusal, all_allowed, copy};

fn word(word: u16) -> Held
    ensures { result.word ≡ word }
{
    Held { word, name: [0; 6] }
}

// A record's part of the airports: 0 to 99, two to an airport, row by row.
fn airport_held(airports: [u8; 250], k: usize) -> Held
    requires { k < 100 }
    ensures { AirportIs airports k result }
{
    let m = k / 2;
    let p = 5 * (m / 5 + 10 * (m % 5));
    if k % 2 == 0 {
        return Held {
            word: 0,
            name: [
                airports[p],
                airports[p + 1],
                airports[p + 2],
                airports[p + 3],
                0,
                0,
            ],
        };
    }
    word(airports[p + 4] as u16)
}

// What a cell holds.
fn held_at(x: Sheet, k: usize) -> Held
    requires { k < 167 }
    ensures { held_is (cell_at k).form result ≡ held_at x k }
{
    if k == 0 {
        let name = x.designator;
        return Held { word: 0, name };
    }
    if k < 17 {
        let numbers = x.numbers;
        return word(numbers[k - 1]);
    }
    if k < 67 {
        let boxes = x.boxes;
        return word(boxes[k - 17]);
    }
    let airports = x.airports;
    airport_held(airports, k - 67)
}

fn must(held: bool, code: Code) -> Result<(), Code>
    ensures { result ≡ cond held (Ok tt) (Err code) }
{
    if held { Ok(()) } else { Err(code) }
}

// 4 for a name, a switch or a digit that isn't one, 5 for a number outside its limits.
#[tactic(auto, unfolding(crate::specs::Sheet::held_code, crate::specs::Inner::held_is))]
fn code_of(form: Form, h: Held) -> Result<(), Code>
    requires { held_form form ≡ true }
    ensures { result ≡ held_code form (held_is form h) }
{
    match form {
        Form::Name(w) => {
            let name = h.name;
            must(all_allowed(&name[0..w]), Code::NotAllowed)
        }
        Form::Switch => must(h.word <= 1, Code::NotAllowed),
        Form::Digit(most) => must((h.word as usize) <= most, Code::NotAllowed),
        Form::Number(_, l) => must(is_allowed(l, h.word), Code::OutOfRange),
    }
}

#[tactic(auto, unfolding(crate::specs::Sheet::allowed_cell))]
fn check_held(x: Sheet, k: usize) -> Result<(), Refusal>
    requires { k < 167 }
    ensures { result ≡ allowed_cell x k }
{
    let c = cell_at(k);
    let at = c.at + c.labelled;
    code_of(c.form, held_at(x, k)).map_err(|code| code.at(at))
}

// The record by itself, each refusal where its field would stand.
#[tactic(auto, using(crate::proofs::Each::each_turn, crate::proofs::Each::each_stop, crate::proofs::Each::each_end), unfolding(crate::specs::Sheet::allowed_sheet))]
fn check_record(x: Sheet) -> Result<(), Refusal>
    ensures { result ≡ allowed_sheet x }
{
    for k in 0..167 {
        check_held(x, k)?;
    }
    Ok(())
}

fn switch_byte(x: u16) -> u8
    ensures { result ≡ cond (eqb x 0) 68 82 }
{
    if x == 0 { b'D' } else { b'R' }
}

fn digit_byte(x: u16) -> u8
    requires { x ≤ 9 }
    ensures { result ≡ 48 + x }
{
    b'0' + x as u8
}

// A field of an allowed record, into its own bytes.
#[tactic(auto, unfolding(crate::specs::Sheet::field_text, crate::specs::Inner::held_is, crate::specs::Layout::width_of))]
fn put_field(form: Form, h: Held, d: &mut [u8])
    requires form_value { held_form form ≡ true }
    requires d_len { length d.old ≡ width_of form }
    requires h_value { held_code form (held_is form h) ≡ Ok tt }
    ensures { d.new ≡ field_text form (held_is form h) }
{
    match form {
        Form::Name(w) => {
            let name = h.name;
            copy(d, &name[0..w]);
        }
        Form::Switch => {
            d[0] = switch_byte(h.word);
        }
        Form::Digit(_) => {
            d[0] = digit_byte(h.word);
        }
        Form::Number(_, _) => {
            put_number(h.word, d);
        }
    }
}

// A cell: its fixed group, its field, CR LF where it ends a line.
fn put_cell(c: Cell, h: Held, d: &mut [u8])
    requires c_value { small_cell c ≡ true }
    requires form_value { held_form c.form ≡ true }
    requires d_len { length d.old ≡ size_of_cell c }
    requires h_value { held_code c.form (held_is c.form h) ≡ Ok tt }
    ensures { d.new ≡ cell_text c (held_is c.form h) }
{
    let n = c.labelled;
    let label = c.label;
    let end = n + width_of(c.form);
    copy(&mut d[0..n], &label[0..n]);
    put_field(c.form, h, &mut d[n..end]);
    if c.ends {
        d[end] = 13;
        d[end + 1] = 10;
    }
}

// Every cell of an allowed record, one after the other.
fn put_cells(x: Sheet, d: &mut [u8])
    requires x_value { allowed_sheet x ≡ Ok tt }
    requires in_bounds { 913 ≤ length d.old }
    ensures { d.new ≡ over d.old 0 (sheet_text x) }
{
    let mut p: usize = 0;
    for k in 0..167 {
        let c = cell_at(k);
        let end = p + size_of_cell(c);
        put_cell(c, held_at(x, k), &mut d[p..end]);
        p = end;
    }
}

#[tactic(auto, unfolding(crate::specs::Sheet::write_seen))]
pub fn write(x: Sheet, d: &mut [u8]) -> Result<(), Refusal>
    ensures { (result ≡ write_seen x (length d.old))
        × (d.new ≡ left_by (write_seen x (length d.old)) (sheet_text x) d.old) }
{
    check_record(x)?;
    if d.len() < 913 {
        return Err(Code::NoRoom.at(0));
    }
    put_cells(x, d);
    Ok(())
}
