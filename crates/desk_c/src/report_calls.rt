// Reports for C.
ghost use Rattle.std.specs.Prelude.{◌≡◌, length};
ghost use Rattle.report.specs.Report.{check_text, read_report};
ghost use Rattle.report.specs.Record.{report_text, left_by};
ghost use Rattle.caller.specs.Records.{record_of};
ghost use Rattle.caller.specs.Forms.{host_seen};
ghost use Rattle.desk.specs.Numbers.{check_numbers, write_numbers};
ghost use Rattle.desk.specs.Reports.{report_numbers};

use caller::HostReport;
use desk::{Answer, ReportAnswer};

#[unsafe(no_mangle)]
pub extern "C" fn esk_report_check(text: &[u8]) -> Answer
    ensures { result ≡ check_numbers (check_text text.now) }
{
    desk::esk_report_check(text)
}

#[unsafe(no_mangle)]
pub extern "C" fn esk_report_read(text: &[u8]) -> ReportAnswer
    ensures { result ≡ report_numbers (read_report text.now) }
{
    desk::esk_report_read(text)
}

#[unsafe(no_mangle)]
pub extern "C" fn esk_report_write(report: HostReport, out: &mut [u8]) -> Answer
    ensures { (result ≡ write_numbers (host_seen report (length out.old)) 220)
        × (out.new ≡ left_by (host_seen report (length out.old)) (report_text (record_of report)) out.old) }
{
    desk::esk_report_write(report, out)
}
