// Grants from the audit report, and back: each function is the one of `report` and its answer as numbers.
ghost use Rattle.std.specs.Prelude.{◌≡◌};
ghost use Rattle.report.specs.Import.{import_of, import_told};
ghost use Rattle.report.specs.Export.{export_of, export_told};
ghost use Rattle.exports.specs.ReportReplies.{import_reply, export_reply};

use exports::{ExportReply, Grants, ImportReply};

// The grants of a text's lines, or the first bad line.
#[unsafe(no_mangle)]
pub extern "C" fn lokhazim_raw_report_import(text: &[u8]) -> ImportReply
    ensures { result ≡ import_reply (import_told (import_of text.now)) }
{
    exports::lokhazim_raw_report_import(text)
}

// The grants as lines, at the front of the lent text; its other bytes stay.
#[unsafe(no_mangle)]
pub extern "C" fn lokhazim_raw_report_export(text: &mut [u8], grants: Grants) -> ExportReply
    ensures answers { result ≡ export_reply (export_told (export_of text.old grants.values)) }
    ensures writes { text.new ≡ (export_of text.old grants.values).text }
{
    exports::lokhazim_raw_report_export(text, grants)
}
