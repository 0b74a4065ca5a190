// Reports for C.
ghost use Rattle.std.specs.Prelude.{◌≡◌, length};
ghost use Rattle.report.specs.Report.{check_text, read_report};
ghost use Rattle.report.specs.Record.{report_text, left_by};
ghost use Rattle.caller.specs.Records.{record_of};
ghost use Rattle.caller.specs.Forms.{host_seen};
ghost use Rattle.desk.specs.Numbers.{check_numbers, write_numbers};
ghost use Rattle.desk.specs.Reports.{report_numbers};

use crate::answers::{accepted, numbers, refused};
use crate::{Answer, ReportAnswer};
use caller::HostReport;
use caller::records::host_report;
use caller::write::write_host;
use packed::table::{Digits, Worths};
use report::check::check;
use report::read::{no_report, read};

pub fn esk_report_check(text: &[u8]) -> Answer
    ensures { result ≡ check_numbers (check_text text.now) }
{
    numbers(check(&Worths::new(), text), 0)
}

pub fn esk_report_read(text: &[u8]) -> ReportAnswer
    ensures { result ≡ report_numbers (read_report text.now) }
{
    let (answer, report) = match read(&Worths::new(), text) {
        Ok(report) => (accepted(0), report),
        Err(r) => (refused(r), no_report()),
    };
    ReportAnswer {
        answer,
        report: host_report(report),
    }
}

pub fn esk_report_write(report: HostReport, out: &mut [u8]) -> Answer
    ensures { (result ≡ write_numbers (host_seen report (length out.old)) 220)
        × (out.new ≡ left_by (host_seen report (length out.old)) (report_text (record_of report)) out.old) }
{
    numbers(write_host(&Digits::new(), report, out), 220)
}
