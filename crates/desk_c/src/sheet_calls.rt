// The status sheet for C. No other call takes its record or its text.
ghost use Rattle.std.specs.Prelude.{◌≡◌, length};
ghost use Rattle.sheet.specs.Sheet.{check_sheet, read_sheet, sheet_text, write_seen, left_by};
ghost use Rattle.desk.specs.Numbers.{check_numbers, write_numbers};
ghost use Rattle.desk.specs.Sheets.{sheet_numbers};

use desk::{Answer, SheetAnswer};
use sheet::Sheet;

#[unsafe(no_mangle)]
pub extern "C" fn esk_sheet_check(text: &[u8]) -> Answer
    ensures { result ≡ check_numbers (check_sheet text.now) }
{
    desk::esk_sheet_check(text)
}

#[unsafe(no_mangle)]
pub extern "C" fn esk_sheet_read(text: &[u8]) -> SheetAnswer
    ensures { result ≡ sheet_numbers (read_sheet text.now) }
{
    desk::esk_sheet_read(text)
}

#[unsafe(no_mangle)]
pub extern "C" fn esk_sheet_write(sheet: Sheet, out: &mut [u8]) -> Answer
    ensures { (result ≡ write_numbers (write_seen sheet (length out.old)) 913)
        × (out.new ≡ left_by (write_seen sheet (length out.old)) (sheet_text sheet) out.old) }
{
    desk::esk_sheet_write(sheet, out)
}
