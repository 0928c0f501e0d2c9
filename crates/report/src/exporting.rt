// Grants as a text, line by line.
ghost use Rattle.std.specs.Prelude.{◌≡◌, ◌≤◌, length};
ghost use Rattle.layout.specs.Bytes.{overwrite};
ghost use Rattle.report.specs.Export.{lines_text, export_of, text_told, export_told};

use crate::lines::grant_line;
use crate::{LINE_LENGTH, REPORT_LENGTH, ReportRefusal};
use accounts::QUOTAS;

// The lines of all grants, written at the front of a text that has room for them.
fn put_lines(text: &mut [u8], grants: [u32; QUOTAS])
    requires { 1728 ≤ length text.old }
    ensures { text.new ≡ overwrite 0 (lines_text grants) text.old }
{
    for i in 0..QUOTAS {
        let at = LINE_LENGTH * i;
        text[at..at + LINE_LENGTH].copy_from_slice(&grant_line(grants[i]));
    }
}

// The grants as a line each, written at the front of a lent text, and how many bytes these are; bytes behind them stay.
// Without room nothing is written.
#[tactic(auto, using(crate::proofs::Exports::export_room))]
pub fn export_grants(text: &mut [u8], grants: [u32; QUOTAS]) -> Result<usize, ReportRefusal>
    ensures { text_told text.new result ≡ export_told (export_of text.old grants) }
{
    if text.len() < REPORT_LENGTH {
        return Err(ReportRefusal::Room);
    }
    put_lines(text, grants);
    Ok(REPORT_LENGTH)
}
