// `lend`, whose contract can't say what the heap holds beside the part that it lends: every byte and every word is
// compared around it, where it lends and where it refuses, in place and by value. What is written through the part,
// and nothing else, is in the heap afterwards.
use crate::starting::{bytes, second, stale, start};
use crate::telling::tell;
use words::WORDS;

// The part is the object's 24 bytes from 32 on: it takes them, and 7 in each.
fn lends() -> bool {
    let mut heap = bytes();
    let mut words = [0u32; WORDS];
    start(&mut heap, &mut words);
    let before = heap;
    let held = words;
    let mut refusal = 77;
    let part = heap::in_place::lend(&mut heap, &words, second(), &mut refusal);
    let right = check::same(part, &before[32..56]);
    if !right || refusal != 0 {
        return false;
    }
    heap == before && words == held
}

// Nothing is lent, and nothing is written.
fn refuses() -> bool {
    let mut heap = bytes();
    let mut words = [0u32; WORDS];
    start(&mut heap, &mut words);
    let before = heap;
    let held = words;
    let mut refusal = 77;
    let part = heap::in_place::lend(&mut heap, &words, stale(), &mut refusal);
    let empty = part.len() == 0;
    if !empty || refusal != 5 {
        return false;
    }
    heap == before && words == held
}

// What is written through the part stands at its place.
fn is_written() -> bool {
    let mut heap = bytes();
    let mut words = [0u32; WORDS];
    start(&mut heap, &mut words);
    let mut wanted = heap;
    wanted[33] = 7;
    let mut refusal = 77;
    let part = heap::in_place::lend(&mut heap, &words, second(), &mut refusal);
    if part.len() < 2 {
        return false;
    }
    part[1] = 7;
    heap == wanted
}

fn lends_by_value() -> bool {
    let mut heap = bytes();
    let mut words = [0u32; WORDS];
    start(&mut heap, &mut words);
    let before = heap;
    let mut refusal = 77;
    let part = heap::lend(
        &mut heap,
        words::accounts_of(&words),
        second(),
        &mut refusal,
    );
    let right = check::same(part, &before[32..56]);
    if !right || refusal != 0 {
        return false;
    }
    heap == before
}

fn refuses_by_value() -> bool {
    let mut heap = bytes();
    let mut words = [0u32; WORDS];
    start(&mut heap, &mut words);
    let before = heap;
    let mut refusal = 77;
    let part = heap::lend(&mut heap, words::accounts_of(&words), stale(), &mut refusal);
    let empty = part.len() == 0;
    if !empty || refusal != 5 {
        return false;
    }
    heap == before
}

fn is_written_by_value() -> bool {
    let mut heap = bytes();
    let mut words = [0u32; WORDS];
    start(&mut heap, &mut words);
    let mut wanted = heap;
    wanted[33] = 7;
    let mut refusal = 77;
    let part = heap::lend(
        &mut heap,
        words::accounts_of(&words),
        second(),
        &mut refusal,
    );
    if part.len() < 2 {
        return false;
    }
    part[1] = 7;
    heap == wanted
}

pub(crate) fn all() {
    tell(
        b"heap::in_place::lend",
        lends() && refuses() && is_written(),
    );
    tell(
        b"heap::lend",
        lends_by_value() && refuses_by_value() && is_written_by_value(),
    );
}
