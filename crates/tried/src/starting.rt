// The state that functions are tried on: a heap of 128 bytes with quarantine and two objects, of quota 0 with 16
// bytes at 8 and of quota 1 with 24 at 32; a block of 16 bytes at 56 waits for a sweep. Quota 2 may do nothing.
use accounts::{Edition, Kind, QUOTAS, Settings};
use model::Handle;
use words::WORDS;

// A hundred bytes for each quota.
pub(crate) fn grants() -> [u32; QUOTAS] {
    [100; QUOTAS]
}

pub(crate) fn quarantine() -> Settings {
    Settings {
        kind: Kind::Quarantine,
        edition: Edition::First,
    }
}

pub(crate) fn handle(base: u32, length: u32, serial: u32) -> Handle {
    Handle {
        base: base,
        length: length,
        serial: serial,
    }
}

pub(crate) fn first() -> Handle {
    handle(8, 16, 1)
}

pub(crate) fn second() -> Handle {
    handle(32, 24, 2)
}

// A handle with a serial that no object has any more.
pub(crate) fn stale() -> Handle {
    handle(64, 8, 3)
}

// The bytes of a heap before it is opened.
pub(crate) fn bytes() -> [u8; 128] {
    [170; 128]
}

// Opens the heap and makes both objects.
fn open_with_two(heap: &mut [u8], words: &mut [u32; WORDS]) {
    let _ = heap::in_place::open(heap, words, grants(), quarantine());
    let _ = heap::in_place::allocate(heap, words, 0, 10);
    let _ = heap::in_place::allocate(heap, words, 1, 24);
}

// A third object is released, so its block waits; and quota 2 loses its permissions.
fn leave_one(heap: &mut [u8], words: &mut [u32; WORDS]) {
    let _ = heap::in_place::allocate(heap, words, 0, 8);
    let _ = heap::in_place::release(heap, words, 0, stale());
    let _ = heap::in_place::clear_permissions(heap, words, 2, 7);
}

// The state that the head of this file describes.
pub(crate) fn start(heap: &mut [u8], words: &mut [u32; WORDS]) {
    open_with_two(heap, words);
    leave_one(heap, words);
}

// The same, with the size of the first block spoiled where refusal 2 is expected.
pub(crate) fn start_for(refusal: u32, heap: &mut [u8], words: &mut [u32; WORDS]) {
    start(heap, words);
    if refusal == 2 {
        spoil(heap);
    }
}

// The size of the first block becomes 0.
pub(crate) fn spoil(heap: &mut [u8]) {
    if 0 < heap.len() {
        heap[0] = 0;
    }
}

// A plain heap, of which an image of form 1 can be written: grants of the first two quotas, and one object of quota
// 0, as `first`.
pub(crate) fn plain_start(heap: &mut [u8], words: &mut [u32; WORDS]) {
    let mut granted = [0u32; QUOTAS];
    granted[0] = 100;
    granted[1] = 100;
    let chosen = Settings {
        kind: Kind::Plain,
        edition: Edition::First,
    };
    let _ = heap::in_place::open(heap, words, granted, chosen);
    let _ = heap::in_place::allocate(heap, words, 0, 10);
}
