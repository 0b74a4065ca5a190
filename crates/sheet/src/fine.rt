// How many cells of a text are fine, line by line; from there on `check` goes cell by cell. Where a line is all there, its cells are not tested
// for the text's end. Each kind of cell has a function of its own: inlined into its loop, the cell's form and label are constants there.
ghost use Rattle.std.specs.Prelude.{◌≡◌, true, ◌+◌, ◌*◌, ◌≤◌, ◌<◌, length, get_or, take};
ghost use Rattle.sheet.specs.Sheet.{cell_end, fixed_code, check_cell, each};
ghost use Rattle.sheet.specs.Layout.{cell_at};
ghost use Rattle.sheet.specs.Inner.{small_cell, Whole, Framed};

use crate::cells::{airport_part, box_part, head_cell, size_of_cell, width_of};
use crate::check::{check_cell, line_end, read_bytes, read_digit};
use crate::number::read_number;
use crate::{Cell, Form};
use text::all_allowed;

// Whether byte i of a fixed group of n bytes is b, or there is none.
fn is_there(s: &[u8], at: usize, i: usize, n: usize, b: u8) -> bool
    requires { (at ≤ 10000) × ((n ≤ 4) × (at + n ≤ length s.now)) }
    ensures { result ≡ true → i < n → get_or s.now (at + i) 0 ≡ b }
{
    if i < n {
        return s[at + i] == b;
    }
    true
}

// A fixed group of up to four bytes, byte by byte: it is then never laid down as a list.
fn is_labelled(label: [u8; 16], n: usize, s: &[u8], at: usize) -> bool
    requires { (at ≤ 10000) × ((n ≤ 4) × (at + n ≤ length s.now)) }
    ensures { result ≡ true → fixed_code (take n label) s.now at ≡ Ok tt }
{
    if !is_there(s, at, 0, n, label[0]) {
        return false;
    }
    if !is_there(s, at, 1, n, label[1]) {
        return false;
    }
    if !is_there(s, at, 2, n, label[2]) {
        return false;
    }
    is_there(s, at, 3, n, label[3])
}

// What stands around a field: the fixed group, and CR LF where it ends a line.
fn is_framed(s: &[u8], c: Cell) -> bool
    requires { Whole s.now c }
    ensures { result ≡ true → Framed s.now c }
{
    let at = c.at;
    let n = c.labelled;
    let label = c.label;
    let form = c.form;
    if !is_labelled(label, n, s, at) {
        return false;
    }
    if !c.ends {
        return true;
    }
    line_end(s, at + n + width_of(form)).is_ok()
}

// A name.
fn is_name(s: &[u8], c: Cell) -> bool
    requires { Whole s.now c }
    ensures { result ≡ true → check_cell s.now c ≡ Ok tt }
{
    if !is_framed(s, c) {
        return false;
    }
    let form = c.form;
    let p = c.at + c.labelled;
    match form {
        Form::Name(w) => {
            let end = p + w;
            all_allowed(&s[p..end])
        }
        _ => false,
    }
}

// A status.
fn is_status(s: &[u8], c: Cell) -> bool
    requires { Whole s.now c }
    ensures { result ≡ true → check_cell s.now c ≡ Ok tt }
{
    if !is_framed(s, c) {
        return false;
    }
    let form = c.form;
    let p = c.at + c.labelled;
    match form {
        Form::Digit(most) => read_digit(s[p], most).is_ok(),
        _ => false,
    }
}

// A number.
fn is_number(s: &[u8], c: Cell) -> bool
    requires { Whole s.now c }
    ensures { result ≡ true → check_cell s.now c ≡ Ok tt }
{
    if !is_framed(s, c) {
        return false;
    }
    let form = c.form;
    let p = c.at + c.labelled;
    match form {
        Form::Number(w, l) => {
            let end = p + w;
            read_number(l, &s[p..end]).is_ok()
        }
        _ => false,
    }
}

// A cell of any form.
fn is_cell(s: &[u8], c: Cell) -> bool
    requires { Whole s.now c }
    ensures { result ≡ true → check_cell s.now c ≡ Ok tt }
{
    if !is_framed(s, c) {
        return false;
    }
    let form = c.form;
    let p = c.at + c.labelled;
    let end = p + width_of(form);
    read_bytes(form, &s[p..end]).is_ok()
}

// Whether a text goes on to the end of a cell.
fn is_long(s: &[u8], c: Cell) -> bool
    requires { small_cell c ≡ true }
    ensures { result ≡ true → cell_end c ≤ length s.now }
{
    let size = size_of_cell(c);
    c.at + size <= s.len()
}

// Lines 1 to 4. The first cell has a long fixed group.
fn is_head(s: &[u8]) -> bool
    requires { cell_end (cell_at 16) ≤ length s.now }
    ensures { result ≡ true → each (λ k. check_cell s.now (cell_at k)) 0 17 ≡ Ok tt }
{
    if check_cell(s, head_cell(0)).is_err() {
        return false;
    }
    let mut k: usize = 1;
    while k < 17 {
        if !is_cell(s, head_cell(k)) {
            return false;
        }
        k += 1;
    }
    true
}

// The line of a box: two corners, a status.
fn is_box(s: &[u8], i: usize) -> bool
    requires { (i < 10) × (cell_end (cell_at (17 + 5 * i + 4)) ≤ length s.now) }
    ensures { result ≡ true → each (λ k. check_cell s.now (cell_at k)) (17 + 5 * i) 5 ≡ Ok tt }
{
    let mut j: usize = 0;
    while j < 4 {
        if !is_number(s, box_part(i, j)) {
            return false;
        }
        j += 1;
    }
    is_status(s, box_part(i, 4))
}

// How many boxes are fine, up to the first that is not.
fn fine_boxes(s: &[u8]) -> usize
    ensures { (result ≤ 10) × (each (λ k. check_cell s.now (cell_at k)) 17 (5 * result) ≡ Ok tt) }
{
    let mut i: usize = 0;
    while i < 10 {
        if !is_long(s, box_part(i, 4)) {
            return i;
        }
        if !is_box(s, i) {
            return i;
        }
        i += 1;
    }
    i
}

// A row of five airports.
fn is_row(s: &[u8], row: usize) -> bool
    requires { (row < 10) × (cell_end (cell_at (67 + 10 * row + 9)) ≤ length s.now) }
    ensures { result ≡ true → each (λ k. check_cell s.now (cell_at k)) (67 + 10 * row) 10 ≡ Ok tt }
{
    let mut column: usize = 0;
    while column < 5 {
        if !is_name(s, airport_part(row, column, 0)) {
            return false;
        }
        if !is_status(s, airport_part(row, column, 1)) {
            return false;
        }
        column += 1;
    }
    true
}

// And how many rows.
fn fine_rows(s: &[u8]) -> usize
    ensures { (result ≤ 10) × (each (λ k. check_cell s.now (cell_at k)) 67 (10 * result) ≡ Ok tt) }
{
    let mut row: usize = 0;
    while row < 10 {
        if !is_long(s, airport_part(row, 4, 1)) {
            return row;
        }
        if !is_row(s, row) {
            return row;
        }
        row += 1;
    }
    row
}

// How many cells are fine, line by line.
pub fn fine_cells(s: &[u8]) -> usize
    ensures { (result ≤ 167) × (each (λ k. check_cell s.now (cell_at k)) 0 result ≡ Ok tt) }
{
    if !is_long(s, head_cell(16)) {
        return 0;
    }
    if !is_head(s) {
        return 0;
    }
    let boxes = fine_boxes(s);
    if boxes < 10 {
        return 17 + 5 * boxes;
    }
    67 + 10 * fine_rows(s)
}
