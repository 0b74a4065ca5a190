// The status sheet for C. No other call takes its record or its text.
ghost use Rattle.std.specs.Prelude.{◌≡◌, length};
ghost use Rattle.sheet.specs.Sheet.{check_sheet, read_sheet, no_sheet, sheet_text, write_seen, left_by};
ghost use Rattle.desk.specs.Numbers.{check_numbers, write_numbers};
ghost use Rattle.desk.specs.Sheets.{sheet_numbers};

use crate::answers::{accepted, numbers, refused};
use crate::{Answer, SheetAnswer};
use sheet::Sheet;
use sheet::check::check;
use sheet::read::read;
use sheet::write::write;

pub fn esk_sheet_check(text: &[u8]) -> Answer
    ensures { result ≡ check_numbers (check_sheet text.now) }
{
    numbers(check(text), 0)
}

// The one empty sheet.
fn no_sheet() -> Sheet
    ensures { result ≡ no_sheet }
{
    Sheet {
        numbers: [0; 16],
        boxes: [0; 50],
        designator: [0; 6],
        airports: [0; 250],
    }
}

pub fn esk_sheet_read(text: &[u8]) -> SheetAnswer
    ensures { result ≡ sheet_numbers (read_sheet text.now) }
{
    match read(text) {
        Ok(sheet) => SheetAnswer {
            answer: accepted(0),
            sheet,
            spare: 0,
        },
        Err(r) => SheetAnswer {
            answer: refused(r),
            sheet: no_sheet(),
            spare: 0,
        },
    }
}

pub fn esk_sheet_write(sheet: Sheet, out: &mut [u8]) -> Answer
    ensures { (result ≡ write_numbers (write_seen sheet (length out.old)) 913)
        × (out.new ≡ left_by (write_seen sheet (length out.old)) (sheet_text sheet) out.old) }
{
    numbers(write(sheet, out), 913)
}
