// Each section number has its own length and its own limits: one match gives the lists that a section begins with, as long as their
// counts say, and the rows of its digits, each row with its limits and the code of a number outside them.
ghost use Rattle.std.specs.Prelude.{◌≡◌, not};
ghost use Rattle.section.specs.Layout.{table_of, layout_of, is_empty};
ghost use Rattle.section.specs.Inner.{Laid};

use crate::{Layout, Row};
use text::Code;

// ---- Rows. A number that doesn't fit is `OutOfRange`; a mark is one byte that is one of few digits, and any other is `NotAllowed`.

const NO_ROW: Row = Row {
    code: Code::OutOfRange,
    width: 0,
    least: 0,
    most: 0,
};

// Routine, and maximum wind.
const DIGIT: Row = Row {
    code: Code::OutOfRange,
    width: 1,
    least: 0,
    most: 1,
};

// Section 4: the interval.
const MINUTES: Row = Row {
    code: Code::OutOfRange,
    width: 2,
    least: 1,
    most: 60,
};

// Section 5, in its order; the mark of its timer is that of its mode.
const MODE: Row = Row {
    code: Code::NotAllowed,
    width: 1,
    least: 0,
    most: 1,
};

const INTERVAL1: Row = Row {
    code: Code::OutOfRange,
    width: 2,
    least: 3,
    most: 20,
};

const DURATION: Row = Row {
    code: Code::OutOfRange,
    width: 3,
    least: 30,
    most: 600,
};

const INTERVAL2: Row = Row {
    code: Code::OutOfRange,
    width: 2,
    least: 3,
    most: 60,
};

const TOTAL: Row = Row {
    code: Code::OutOfRange,
    width: 3,
    least: 51,
    most: 111,
};

const TOP: Row = Row {
    code: Code::OutOfRange,
    width: 3,
    least: 150,
    most: 350,
};

const LIST: Row = Row {
    code: Code::NotAllowed,
    width: 1,
    least: 1,
    most: 2,
};

// Section 7: its interval; its other rows are section 5's.
const DESCENT_INTERVAL: Row = Row {
    code: Code::OutOfRange,
    width: 3,
    least: 10,
    most: 300,
};

// Section 9: start and end.
const HOUR: Row = Row {
    code: Code::OutOfRange,
    width: 2,
    least: 0,
    most: 23,
};

fn laid_out(boxes: usize, airfields: usize, count: usize, rows: [Row; 8]) -> Layout
    ensures { result ≡ record { boxes = boxes; airfields = airfields; count = count; rows = rows } }
{
    Layout {
        boxes,
        airfields,
        count,
        rows,
    }
}

// What each section is made of.
#[tactic(auto, unfolding(crate::specs::Layout::table_of))]
pub fn layout_of(k: usize) -> Layout
    ensures { Laid (table_of k) result }
{
    let no = NO_ROW;
    match k {
        2 => laid_out(2, 0, 0, [no; 8]),
        3 => laid_out(0, 4, 1, [DIGIT, no, no, no, no, no, no, no]),
        4 => laid_out(0, 0, 2, [MINUTES, DIGIT, no, no, no, no, no, no]),
        5 => laid_out(
            0,
            0,
            8,
            [MODE, INTERVAL1, DURATION, INTERVAL2, TOTAL, TOP, LIST, MODE],
        ),
        6 | 8 => laid_out(0, 0, 1, [DIGIT, no, no, no, no, no, no, no]),
        7 => laid_out(
            0,
            0,
            5,
            [MODE, DESCENT_INTERVAL, TOP, LIST, MODE, no, no, no],
        ),
        9 => laid_out(0, 0, 2, [HOUR, HOUR, no, no, no, no, no, no]),
        _ => laid_out(0, 0, 0, [no; 8]),
    }
}

// Whether there is a section of this number.
#[tactic(auto, using(crate::proofs::Rows::tables), unfolding(crate::specs::Layout::layout_of))]
pub fn is_section(k: usize) -> bool
    ensures { result ≡ not (is_empty (layout_of k)) }
{
    let l = layout_of(k);
    (l.boxes != 0) | (l.airfields != 0) | (l.count != 0)
}
