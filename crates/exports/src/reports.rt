// Grants from the audit report, and back: each function is the one of `report` and its answer as numbers.
ghost use Rattle.std.specs.Prelude.{ℕ, ◌≡◌, List};
ghost use Rattle.report.specs.Import.{import_of, import_told};
ghost use Rattle.report.specs.Export.{export_of, export_told, text_told};
ghost use Rattle.exports.specs.ReportReplies.{import_reply, export_reply};

use crate::replies::Grants;
use report::{Imported, ReportRefusal};

// What import gives: the grants, all zero where the text is refused; the refusal's number, 0 where there is none; and the
// number of the first bad line, from 1, 0 where there is none.
#[repr(C)]
#[derive(Clone, Copy)]
pub struct ImportReply {
    pub grants: Grants,
    pub refusal: u32,
    pub line: u32,
}

// What export gives: the refusal's number, 0 where there is none, and how many bytes it wrote.
#[repr(C)]
#[derive(Clone, Copy)]
pub struct ExportReply {
    pub refusal: u32,
    pub length: usize,
}

// The reply of import.
#[tactic(auto, unfolding(report::specs::Import::grants_told))]
fn reply_of_import(imported: Imported) -> ImportReply
    ensures { result ≡ import_reply (import_told imported) }
{
    let values = imported.grants;
    match imported.answer {
        Ok(()) => ImportReply {
            grants: Grants { values },
            refusal: 0,
            line: 0,
        },
        Err(bad) => ImportReply {
            grants: Grants { values },
            refusal: bad.refusal.number(),
            line: bad.line,
        },
    }
}

// The reply of export. A C struct of its own, as in `replies`.
#[tactic(auto, unfolding(report::specs::Export::text_told))]
fn reply_of_export(answer: Result<usize, ReportRefusal>) -> ExportReply
    ensures { (t : List ℕ) → result ≡ export_reply (text_told t answer) }
{
    match answer {
        Ok(length) => ExportReply { refusal: 0, length },
        Err(refusal) => ExportReply {
            refusal: refusal.number(),
            length: 0,
        },
    }
}

// The grants of a text's lines, or the first bad line.
#[unsafe(no_mangle)]
pub extern "C" fn lokhazim_raw_report_import(text: &[u8]) -> ImportReply
    ensures { result ≡ import_reply (import_told (import_of text.now)) }
{
    reply_of_import(report::import_grants(text))
}

// The grants as lines, at the front of the lent text; its other bytes stay.
#[unsafe(no_mangle)]
pub extern "C" fn lokhazim_raw_report_export(text: &mut [u8], grants: Grants) -> ExportReply
    ensures answers { result ≡ export_reply (export_told (export_of text.old grants.values)) }
    ensures writes { text.new ≡ (export_of text.old grants.values).text }
{
    let values = grants.values;
    reply_of_export(report::export_grants(text, values))
}
