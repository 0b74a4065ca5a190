// The layout: the table of lines 1 to 4, the line of a box, the cells of an airport. Every cell has a fixed place.
ghost use Rattle.std.specs.Prelude.{◌≡◌, true, ◌+◌, ◌*◌, ◌<◌, ◌≤◌, ◌∷◌, get_or, replicate};
ghost use Rattle.sheet.specs.declared.Form.TheVariants.{Number};
ghost use Rattle.sheet.specs.Layout.{number, minutes, width_of, head_cells, no_cell, box_cells, box_cell, name_cell_of, airport_cells, airport_cell, cell_at};
ghost use Rattle.sheet.specs.Inner.{small_cell, size_of_cell};

use crate::{Cell, Form, Limits};

#[tactic(auto, unfolding(crate::specs::Layout::width_of))]
pub fn width_of(form: Form) -> usize
    ensures { result ≡ width_of form }
{
    match form {
        Form::Name(w) => w,
        Form::Switch => 1,
        Form::Digit(_) => 1,
        Form::Number(w, _) => w,
    }
}

// How many bytes a cell is.
#[tactic(auto, unfolding(crate::specs::Inner::size_of_cell))]
pub fn size_of_cell(c: Cell) -> usize
    requires { small_cell c ≡ true }
    ensures { result ≡ size_of_cell c }
{
    let size = c.labelled + width_of(c.form);
    if c.ends { size + 2 } else { size }
}

fn number(w: usize, least: usize, most: usize) -> Form
    ensures { result ≡ number w least most }
{
    let limits = Limits {
        below: 0,
        least,
        most,
    };
    Form::Number(w, limits)
}

fn minutes(w: usize, most: usize) -> Form
    ensures { result ≡ minutes w most }
{
    let limits = Limits {
        below: most,
        least: 0,
        most,
    };
    Form::Number(w, limits)
}

// A fixed group of up to four bytes.
fn cell(at: usize, labelled: usize, a: u8, b: u8, c: u8, d: u8, form: Form, ends: bool) -> Cell
    ensures { result ≡ record { at = at; labelled = labelled; label = a ∷ b ∷ c ∷ d ∷ replicate 12 0; form = form; ends = ends } }
{
    Cell {
        at,
        labelled,
        label: [a, b, c, d, 0, 0, 0, 0, 0, 0, 0, 0, 0, 0, 0, 0],
        form,
        ends,
    }
}

fn first_cell() -> Cell
    ensures { result ≡ get_or head_cells 0 no_cell }
{
    Cell {
        at: 0,
        labelled: 15,
        label: [
            45, 32, 65, 77, 68, 65, 82, 83, 84, 65, 84, 85, 83, 51, 32, 0,
        ],
        form: Form::Name(6),
        ends: true,
    }
}

// Lines 1 to 4.
pub fn head_cell(k: usize) -> Cell
    requires { k < 17 }
    ensures { result ≡ get_or head_cells k no_cell }
{
    match k {
        0 => first_cell(),
        1 => cell(23, 1, b'A', 0, 0, 0, Form::Switch, false),
        2 => cell(25, 0, 0, 0, 0, 0, number(2, 1, 99), false),
        3 => cell(27, 1, b'/', 0, 0, 0, number(2, 1, 99), false),
        4 => cell(30, 2, b' ', b'R', 0, 0, Form::Switch, false),
        5 => cell(33, 0, 0, 0, 0, 0, number(3, 0, 999), false),
        6 => cell(36, 2, b' ', b'D', 0, 0, Form::Switch, false),
        7 => cell(39, 0, 0, 0, 0, 0, number(2, 1, 99), false),
        8 => cell(41, 1, b'/', 0, 0, 0, number(2, 1, 99), true),
        9 => cell(46, 2, b'T', b'1', 0, 0, number(4, 0, 9999), false),
        10 => cell(52, 3, b' ', b'T', b'2', 0, number(4, 0, 9999), false),
        11 => cell(59, 1, b' ', 0, 0, 0, number(2, 0, 99), true),
        12 => cell(64, 1, b'S', 0, 0, 0, Form::Digit(2), false),
        13 => cell(66, 3, b' ', b'S', b'P', 0, number(1, 0, 9), false),
        14 => cell(70, 3, b' ', b'S', b'C', 0, number(1, 0, 9), false),
        15 => cell(74, 3, b' ', b'S', b'D', 0, number(1, 0, 9), false),
        _ => cell(78, 2, b' ', b'I', 0, 0, number(1, 0, 9), true),
    }
}

fn figure(n: usize) -> u8
    requires { n < 10 }
    ensures { result ≡ 48 + n }
{
    b'0' + n as u8
}

// A box's line is five cells.
pub fn box_part(i: usize, j: usize) -> Cell
    requires { (i < 10) × (j < 5) }
    ensures { result ≡ get_or (box_cells i (83 + 32 * i)) j no_cell }
{
    let at = 83 + 32 * i;
    match j {
        0 => cell(at, 3, b'B', figure(i), b' ', 0, minutes(5, 5400), false),
        1 => cell(at + 8, 1, b'/', 0, 0, 0, minutes(6, 10800), false),
        2 => cell(at + 15, 1, b' ', 0, 0, 0, minutes(5, 5400), false),
        3 => cell(at + 21, 1, b'/', 0, 0, 0, minutes(6, 10800), false),
        _ => cell(at + 28, 1, b' ', 0, 0, 0, Form::Digit(1), true),
    }
}

#[tactic(auto, unfolding(crate::specs::Layout::box_cell))]
fn box_cell(k: usize) -> Cell
    requires { k < 50 }
    ensures { result ≡ box_cell k }
{
    box_part(k / 5, k % 5)
}

// The fixed group and the name of an airport, 1 to 50.
fn name_cell(at: usize, column: usize, n: usize) -> Cell
    requires { (at ≤ 913) × ((1 ≤ at) × (n < 100)) }
    ensures { result ≡ name_cell_of at column n }
{
    if column == 0 {
        if n < 10 {
            return cell(at, 3, b'A', figure(n), b' ', 0, Form::Name(4), false);
        }
        return cell(at, 3, b'A', b'1', b'0', 0, Form::Name(4), false);
    }
    cell(
        at - 1,
        4,
        b' ',
        b'A',
        figure(n / 10),
        figure(n % 10),
        Form::Name(4),
        false,
    )
}

// An airport is two cells, its name and its status.
pub fn airport_part(row: usize, column: usize, j: usize) -> Cell
    requires { (row < 10) × ((column < 5) × (j < 2)) }
    ensures { result ≡ get_or (airport_cells row column) j no_cell }
{
    let at = 403 + 51 * row + 10 * column;
    if j == 0 {
        return name_cell(at, column, 1 + row + 10 * column);
    }
    cell(at + 7, 1, b'/', 0, 0, 0, Form::Digit(1), column == 4)
}

#[tactic(auto, unfolding(crate::specs::Layout::airport_cell))]
fn airport_cell(k: usize) -> Cell
    requires { k < 100 }
    ensures { result ≡ airport_cell k }
{
    airport_part(k / 2 / 5, k / 2 % 5, k % 2)
}

// All of them, from left to right.
#[tactic(auto, unfolding(crate::specs::Layout::cell_at))]
pub fn cell_at(k: usize) -> Cell
    requires { k < 167 }
    ensures { result ≡ cell_at k }
{
    if k < 17 {
        return head_cell(k);
    }
    if k < 67 {
        return box_cell(k - 17);
    }
    airport_cell(k - 67)
}
