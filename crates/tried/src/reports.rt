// Lines of the linker's report as C reads and writes them: a good line, bad ones, and what is exported of grants.
use crate::comparing::begins;
use crate::telling::tell;
use accounts::QUOTAS;
use exports::{Grants, ImportReply};

// Quota 0 has a hundred bytes and quota 1 has 10.
fn two_grants() -> [u32; QUOTAS] {
    let mut grants = [0u32; QUOTAS];
    grants[0] = 100;
    grants[1] = 10;
    grants
}

// What an import gives: the grants, the refusal and the line.
fn is_import(reply: ImportReply, wanted: [u32; QUOTAS], refusal: u32, line: u32) -> bool {
    if reply.refusal != refusal || reply.line != line {
        return false;
    }
    let grants = reply.grants;
    let values = grants.values;
    values == wanted
}

// A good line, one behind it that is too short, and a word that is not zero.
fn imports() -> bool {
    let text = b"00000064 00000000 00000000 00000000 00000000 00000000\n";
    let mut wanted = [0u32; QUOTAS];
    wanted[0] = 100;
    is_import(exports::lokhazim_raw_report_import(text), wanted, 0, 0)
}

fn refuses_a_short_line() -> bool {
    let text = b"00000064 00000000 00000000 00000000 00000000 00000000\n0000000a\n";
    is_import(
        exports::lokhazim_raw_report_import(text),
        [0; QUOTAS],
        31,
        2,
    )
}

fn refuses_a_word() -> bool {
    let text = b"00000064 00000000 00000001 00000000 00000000 00000000\n";
    is_import(
        exports::lokhazim_raw_report_import(text),
        [0; QUOTAS],
        32,
        1,
    )
}

// The lines, which are read back as the same grants, and two bytes behind them.
fn writes_lines() -> bool {
    let mut text = [170u8; 1730];
    let mut other = [170u8; 1730];
    let grants = two_grants();
    let reply = exports::lokhazim_raw_report_export(&mut text, Grants { values: grants });
    let written = report::export_grants(&mut other, grants);
    if written.is_err() || reply.refusal != 0 || reply.length != 1728 {
        return false;
    }
    text == other
}

fn reads_back() -> bool {
    let mut text = [170u8; 1728];
    let grants = two_grants();
    exports::lokhazim_raw_report_export(&mut text, Grants { values: grants });
    is_import(exports::lokhazim_raw_report_import(&text), grants, 0, 0)
}

fn finds_no_room() -> bool {
    let mut text = [170u8; 1727];
    let grants = two_grants();
    let reply = exports::lokhazim_raw_report_export(&mut text, Grants { values: grants });
    reply.refusal == 34 && reply.length == 0 && begins(&text, b"")
}

pub(crate) fn all() {
    tell(
        b"lokhazim_raw_report_import",
        imports() && refuses_a_short_line() && refuses_a_word(),
    );
    tell(
        b"lokhazim_raw_report_export",
        writes_lines() && reads_back() && finds_no_room(),
    );
}
