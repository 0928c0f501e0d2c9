// The write of a byte and the check, as C calls them: every byte and every word is looked at.
use crate::starting::{bytes, first, stale, start};
use crate::telling::tell;
use words::WORDS;

// One byte of the object at 8 is written, at 8 + 3, and behind its end none.
fn writes() -> bool {
    let mut heap = bytes();
    let mut words = [0u32; WORDS];
    start(&mut heap, &mut words);
    let before = heap;
    let held = words;
    let gone = exports::lokhazim_raw_write(&mut heap, &words, stale(), 3, 9);
    let behind = exports::lokhazim_raw_write(&mut heap, &words, first(), 16, 9);
    if gone != 5 || behind != 0 {
        return false;
    }
    if heap != before {
        return false;
    }
    let refusal = exports::lokhazim_raw_write(&mut heap, &words, first(), 3, 9);
    let mut wanted = before;
    wanted[11] = 9;
    refusal == 0 && heap == wanted && words == held
}

// A state, and the same with the size of its first block spoiled.
fn checks() -> bool {
    let mut heap = bytes();
    let mut words = [0u32; WORDS];
    start(&mut heap, &mut words);
    let consistent = exports::lokhazim_raw_check(&heap, &words);
    heap[0] = 0;
    let spoiled = exports::lokhazim_raw_check(&heap, &words);
    consistent == 0 && spoiled == 2
}

pub(crate) fn all() {
    tell(b"lokhazim_raw_write", writes());
    tell(b"lokhazim_raw_check", checks());
}
