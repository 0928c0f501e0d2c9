// Quotas from the linker's audit report (rules, section 18): lines of six words as grants, and grants as lines.
#![tactic(auto)]

ghost use Rattle.std.specs.Prelude.{◌≡◌};
ghost use Rattle.report.specs.Import.{report_refusal_number};

use accounts::QUOTAS;

mod digits;
mod exporting;
mod importing;
mod lines;

pub use exporting::export_grants;
pub use importing::import_grants;

// The length of a line with its line feed, and of an exported text.
pub const LINE_LENGTH: usize = 54;

pub const REPORT_LENGTH: usize = 1728;

// Why a text is not imported, or grants are not exported, in the order of their numbers: a wrong character or place; a
// word after the first that is not zero; more lines than quotas; too little room.
#[derive(Clone, Copy)]
pub enum ReportRefusal {
    Character,
    Reserved,
    TooMany,
    Room,
}

// The first bad line of a text: why it is one, and its number, from 1.
#[derive(Clone, Copy)]
pub struct BadLine {
    pub refusal: ReportRefusal,
    pub line: u32,
}

// What import gives: the grants as open takes them, all zero where the text is refused. They stand beside the answer: the
// clause of `import_grants` promises the zeros, and C gets them.
#[derive(Clone, Copy)]
pub struct Imported {
    pub grants: [u32; QUOTAS],
    pub answer: Result<(), BadLine>,
}

impl ReportRefusal {
    // The refusal's number. docs/PROMISES-REPORT.md names it.
    pub fn number(self) -> u32
        ensures { result ≡ report_refusal_number self }
    {
        match self {
            ReportRefusal::Character => 31,
            ReportRefusal::Reserved => 32,
            ReportRefusal::TooMany => 33,
            ReportRefusal::Room => 34,
        }
    }
}
