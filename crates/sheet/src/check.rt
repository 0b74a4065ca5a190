// The check of a text: cell by cell, in each field 8, then 3 or 4, 6, 5.
ghost use Rattle.std.specs.Prelude.{◌≡◌, true, ◌∷◌, [], ◌-◌, ◌≤◌, length};
ghost use Rattle.sheet.specs.Sheet.{seen, fixed_code, name_read, switch_read, digit_read, bytes_read, field_read, field_seen, check_cell, check_sheet, each};
ghost use Rattle.sheet.specs.Layout.{cell_at, width_of};
ghost use Rattle.sheet.specs.Inner.{small_form, small_cell};

use crate::cells::{cell_at, width_of};
use crate::fine::fine_cells;
use crate::number::read_number;
use crate::{Cell, Form};
use text::{Code, Refusal, all_allowed, same_bytes};

// A fixed group: 3 where a byte differs.
#[tactic(auto, unfolding(crate::specs::Sheet::fixed_code))]
fn fixed_code(t: &[u8], s: &[u8], at: usize) -> Result<(), Code>
    requires { (at ≤ 10000) × (length t.now ≤ 100) }
    ensures { result ≡ fixed_code t.now s.now at }
{
    let end = at + t.len();
    if s.len() < end {
        Err(Code::WrongEnd)
    } else if same_bytes(&s[at..end], t) {
        Ok(())
    } else {
        Err(Code::WrongFixed)
    }
}

fn read_switch(b: u8) -> Result<u16, Code>
    ensures { result ≡ switch_read b }
{
    match b {
        b'D' => Ok(0),
        b'R' => Ok(1),
        _ => Err(Code::NotAllowed),
    }
}

pub fn read_digit(b: u8, most: usize) -> Result<u16, Code>
    requires { most ≤ 9 }
    ensures { result ≡ digit_read most b }
{
    let d = b as u16;
    if d < 48 || 48 + most < (b as usize) {
        return Err(Code::NotAllowed);
    }
    Ok(d - 48)
}

fn read_name(f: &[u8]) -> Result<u16, Code>
    ensures { result ≡ name_read f.now }
{
    if all_allowed(f) {
        Ok(0)
    } else {
        Err(Code::NotAllowed)
    }
}

// What a field's bytes are, all of which are there.
#[tactic(auto, unfolding(crate::specs::Sheet::bytes_read, crate::specs::Layout::width_of))]
pub fn read_bytes(form: Form, f: &[u8]) -> Result<u16, Code>
    requires form_value { small_form form ≡ true }
    requires f_len { length f.now ≡ width_of form }
    ensures { result ≡ bytes_read form f.now }
{
    match form {
        Form::Name(_) => read_name(f),
        Form::Switch => read_switch(f[0]),
        Form::Digit(most) => read_digit(f[0], most),
        Form::Number(_, l) => read_number(l, f),
    }
}

#[tactic(auto, using(crate::proofs::Small::small_width), unfolding(crate::specs::Sheet::field_read))]
pub fn read_field(form: Form, s: &[u8], at: usize) -> Result<u16, Code>
    requires form_value { small_form form ≡ true }
    requires at_bound { at ≤ 10000 }
    ensures { result ≡ field_read form s.now at }
{
    let end = at + width_of(form);
    if s.len() < end {
        return Err(Code::WrongEnd);
    }
    read_bytes(form, &s[at..end])
}

// CR LF.
pub fn line_end(s: &[u8], at: usize) -> Result<(), Refusal>
    requires { at ≤ 10000 }
    ensures { result ≡ seen (fixed_code (13 ∷ 10 ∷ []) s.now at) at }
{
    let t: [u8; 2] = [13, 10];
    fixed_code(&t, s, at).map_err(|code| code.at(at))
}

// A field, and CR LF where it ends a line.
#[tactic(auto, using(crate::proofs::Small::small_width))]
fn check_field(s: &[u8], p: usize, form: Form, ends: bool) -> Result<(), Refusal>
    requires form_value { small_form form ≡ true }
    requires p_bound { p ≤ 3000 }
    ensures { result ≡ field_seen s.now p form ends }
{
    read_field(form, s, p).map_err(|code| code.at(p))?;
    if ends {
        line_end(s, p + width_of(form))
    } else {
        Ok(())
    }
}

#[tactic(auto, unfolding(crate::specs::Sheet::check_cell))]
pub fn check_cell(s: &[u8], c: Cell) -> Result<(), Refusal>
    requires { small_cell c ≡ true }
    ensures { result ≡ check_cell s.now c }
{
    let at = c.at;
    let n = c.labelled;
    let label = c.label;
    fixed_code(&label[0..n], s, at).map_err(|code| code.at(at))?;
    check_field(s, at + n, c.form, c.ends)
}

// One cell after the other, from one on.
#[tactic(auto, using(crate::proofs::Each::each_turn, crate::proofs::Each::each_end))]
fn check_from(s: &[u8], from: usize) -> Result<(), Refusal>
    requires { from ≤ 167 }
    ensures { result ≡ each (λ k. check_cell s.now (cell_at k)) from (167 - from) }
{
    for k in from..167 {
        check_cell(s, cell_at(k))?;
    }
    Ok(())
}

// Of an accepted text no cell is left to look at here.
#[tactic(auto, using(crate::proofs::Each::each_rest), unfolding(crate::specs::Sheet::check_sheet))]
pub fn check(s: &[u8]) -> Result<(), Refusal>
    ensures { result ≡ check_sheet s.now }
{
    check_from(s, fine_cells(s))?;
    if s.len() == 913 {
        Ok(())
    } else {
        Err(Code::WrongEnd.at(913))
    }
}
