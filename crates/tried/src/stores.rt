// Stores of settings, found and refused: every byte of a store is compared.
use crate::telling::tell;

// The board has name 3 at version 2, the bytes 7 and 8; behind the entry's six bytes nothing is used.
fn board() -> [u8; 10] {
    [2, 0, 3, 2, 7, 8, 170, 170, 170, 170]
}

// The defaults have name 3 at version 1, the byte 5, and name 4 at version 1, the byte 6.
fn defaults() -> [u8; 10] {
    [1, 0, 3, 1, 5, 1, 0, 4, 1, 6]
}

fn is_place(reply: exports::FindReply, refusal: u32, store: u32, start: usize, end: usize) -> bool {
    if reply.refusal != refusal || reply.store != store {
        return false;
    }
    reply.start == start && reply.end == end
}

// In the board's store, in the defaults, nowhere, and in a store whose entry is cut off.
fn finds() -> bool {
    let own = exports::lokhazim_raw_settings_find(&board(), 6, &defaults(), 10, 3, 2);
    let other = exports::lokhazim_raw_settings_find(&board(), 6, &defaults(), 10, 4, 2);
    let none = exports::lokhazim_raw_settings_find(&board(), 6, &defaults(), 10, 5, 2);
    let cut = exports::lokhazim_raw_settings_find(&board(), 5, &defaults(), 10, 4, 2);
    if !is_place(own, 0, 1, 4, 6) || !is_place(other, 0, 2, 9, 10) {
        return false;
    }
    is_place(none, 42, 0, 0, 0) && is_place(cut, 41, 0, 0, 0)
}

fn looks_up() -> bool {
    let board = board();
    let defaults = defaults();
    let mut refusal = 77;
    let own = settings::lookup(&board, 6, &defaults, 10, 3, 2, &mut refusal);
    let found = check::same(own, &[7, 8]);
    if !found || refusal != 0 {
        return false;
    }
    let older = settings::lookup(&board, 6, &defaults, 10, 3, 1, &mut refusal);
    let kept = check::same(older, &[5]);
    if !kept || refusal != 0 {
        return false;
    }
    let none = settings::lookup(&board, 6, &defaults, 10, 5, 2, &mut refusal);
    none.len() == 0 && refusal == 42
}

// An entry behind the first; a version that falls, a value that is too long, and no room: the store stays.
fn adds() -> bool {
    let mut store = board();
    let reply = exports::lokhazim_raw_settings_add(&mut store, 6, 9, 258, &[]);
    if reply.refusal != 0 || reply.used != 10 {
        return false;
    }
    if store != [2, 0, 3, 2, 7, 8, 2, 1, 9, 0] {
        return false;
    }
    let mut kept = board();
    let falls = exports::lokhazim_raw_settings_add(&mut kept, 6, 9, 1, &[]);
    let long = exports::lokhazim_raw_settings_add(&mut kept, 6, 9, 2, &[0u8; 65]);
    let full = exports::lokhazim_raw_settings_add(&mut kept, 6, 9, 2, &[1]);
    let cut = exports::lokhazim_raw_settings_add(&mut kept, 11, 9, 2, &[1]);
    if falls.refusal != 44 || long.refusal != 43 || full.refusal != 45 || cut.refusal != 41 {
        return false;
    }
    kept == board() && full.used == 0
}

fn is_entry(reply: exports::EntryReply, version: u16, name: u8, start: usize, end: usize) -> bool {
    if reply.refusal != 0 || reply.there != 1 || reply.version != version {
        return false;
    }
    reply.name == name && reply.start == start && reply.end == end
}

// The entries of the defaults, the end behind them, and a store whose last entry is cut off.
fn goes_on() -> bool {
    let one = exports::lokhazim_raw_settings_entry(&defaults(), 10, 0);
    let two = exports::lokhazim_raw_settings_entry(&defaults(), 10, 1);
    let end = exports::lokhazim_raw_settings_entry(&defaults(), 10, 2);
    let cut = exports::lokhazim_raw_settings_entry(&defaults(), 9, 0);
    if !is_entry(one, 1, 3, 4, 5) || !is_entry(two, 1, 4, 9, 10) {
        return false;
    }
    if end.refusal != 0 || end.there != 0 {
        return false;
    }
    cut.refusal == 41 && cut.there == 0
}

pub(crate) fn all() {
    tell(b"lokhazim_raw_settings_find", finds());
    tell(b"settings::lookup", looks_up());
    tell(b"lokhazim_raw_settings_add", adds());
    tell(b"lokhazim_raw_settings_entry", goes_on());
}
