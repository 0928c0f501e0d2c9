// Statistics of a heap and of a quota as C asks for them: of the state of `starting`, where each is known, and where
// they are refused. Both functions have heap and accounts by shared references.
use crate::starting::{bytes, spoil, start};
use crate::telling::tell;
use statistics::{BlockCount, Statistics};
use words::WORDS;

fn is_count(count: BlockCount, blocks: usize, bytes: usize) -> bool {
    count.blocks == blocks && count.bytes == bytes
}

// Two live blocks of 24 and 32 bytes, one of 16 that waits, and a free one of 56. The greatest object in it has 48
// bytes, and each length up to 8,191 is in units of 8.
fn are_known(told: Statistics) -> bool {
    if told.refusal != 0 || told.last_serial != 3 || told.records != 2 {
        return false;
    }
    if !is_count(told.free, 1, 56)
        || !is_count(told.live, 2, 56)
        || !is_count(told.quarantined, 1, 16)
    {
        return false;
    }
    if told.largest_free != 56 || told.fragmented != 0 || told.largest_8 != 48 {
        return false;
    }
    told.largest_16 == 0 && told.largest_32 == 0 && told.largest_64 == 0
}

fn are_refused(told: Statistics) -> bool {
    if told.refusal != 2 || told.last_serial != 0 || told.records != 0 {
        return false;
    }
    if !is_count(told.free, 0, 0)
        || !is_count(told.live, 0, 0)
        || !is_count(told.quarantined, 0, 0)
    {
        return false;
    }
    if told.largest_free != 0 || told.fragmented != 0 || told.largest_8 != 0 {
        return false;
    }
    told.largest_16 == 0 && told.largest_32 == 0 && told.largest_64 == 0
}

fn heap_statistics() -> bool {
    let mut heap = bytes();
    let mut words = [0u32; WORDS];
    start(&mut heap, &mut words);
    are_known(exports::lokhazim_raw_statistics(&heap, &words))
}

fn no_heap_statistics() -> bool {
    let mut heap = bytes();
    let mut words = [0u32; WORDS];
    start(&mut heap, &mut words);
    spoil(&mut heap);
    are_refused(exports::lokhazim_raw_statistics(&heap, &words))
}

// Quota 1 holds its own object of 24 bytes.
fn quota_statistics() -> bool {
    let mut heap = bytes();
    let mut words = [0u32; WORDS];
    start(&mut heap, &mut words);
    let told = exports::lokhazim_raw_quota_statistics(&heap, &words, 1);
    if told.refusal != 0 || told.grant != 100 || told.remaining != 68 {
        return false;
    }
    told.objects == 1 && told.shared == 0
}

fn no_quota_statistics() -> bool {
    let mut heap = bytes();
    let mut words = [0u32; WORDS];
    start(&mut heap, &mut words);
    let told = exports::lokhazim_raw_quota_statistics(&heap, &words, 32);
    if told.refusal != 3 || told.grant != 0 || told.remaining != 0 {
        return false;
    }
    told.objects == 0 && told.shared == 0
}

pub(crate) fn all() {
    tell(
        b"lokhazim_raw_statistics",
        heap_statistics() && no_heap_statistics(),
    );
    tell(
        b"lokhazim_raw_quota_statistics",
        quota_statistics() && no_quota_statistics(),
    );
}
