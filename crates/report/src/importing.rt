// A text as grants, line by line.
ghost use Rattle.std.specs.Prelude.{◌≡◌};
ghost use Rattle.report.specs.Import.{bad_at, import_of, import_told};

use crate::lines::read_line;
use crate::{BadLine, Imported, LINE_LENGTH, ReportRefusal};
use accounts::QUOTAS;

// No grants, and the bad line.
fn refused(refusal: ReportRefusal, line: u32) -> Imported
    ensures { result ≡ bad_at refusal line }
{
    Imported {
        grants: [0; QUOTAS],
        answer: Err(BadLine { refusal, line }),
    }
}

// The grants of a text's lines, missing ones 0; or why its first bad line is bad, and that line's number.
pub fn import_grants(text: &[u8]) -> Imported
    ensures { import_told result ≡ import_told (import_of text.now) }
{
    let mut grants = [0u32; QUOTAS];
    for i in 0..text.len().div_ceil(LINE_LENGTH) {
        let number = i as u32 + 1;
        if QUOTAS <= i {
            return refused(ReportRefusal::TooMany, number);
        }
        match read_line(&text[LINE_LENGTH * i..]) {
            Ok(grant) => grants[i] = grant,
            Err(refusal) => return refused(refusal, number),
        }
    }
    Imported {
        grants,
        answer: Ok(()),
    }
}
