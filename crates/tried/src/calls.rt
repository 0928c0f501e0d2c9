// The calls of a history, each as C makes it beside `perform`: both answer the same and leave the same bytes and
// words. Each is made once where it is accepted and once where it is refused, on the state of `starting`; for refusal
// 2 the size of its first block is spoiled.
use crate::answers::numbers_of;
use crate::performing;
use crate::starting::{bytes, first, second, stale, start_for};
use crate::telling::tell;
use model::Call;
use words::WORDS;

// One call, with the refusal that is expected.
fn answers(call: Call, refusal: u32) -> bool {
    let mut heap = bytes();
    let mut words = [0u32; WORDS];
    start_for(refusal, &mut heap, &mut words);
    let mut other = bytes();
    let mut others = [0u32; WORDS];
    start_for(refusal, &mut other, &mut others);
    let given = performing::perform(&mut heap, &mut words, call);
    let wanted = numbers_of(heap::in_place::perform(&mut other, &mut others, call));
    if given.refusal != refusal {
        return false;
    }
    if given != wanted {
        return false;
    }
    heap == other && words == others
}

// A call that is accepted and one that is refused.
fn tell_both(name: &[u8], good: Call, bad: Call, refusal: u32) {
    tell(name, answers(good, 0) && answers(bad, refusal));
}

fn allocations() {
    tell_both(
        b"lokhazim_raw_allocate",
        Call::Allocate {
            quota: 0,
            length: 20,
        },
        Call::Allocate {
            quota: 0,
            length: 80,
        },
        8,
    );
    tell_both(
        b"lokhazim_raw_allocate_array",
        Call::AllocateArray {
            quota: 1,
            count: 3,
            size: 8,
        },
        Call::AllocateArray {
            quota: 1,
            count: 65536,
            size: 65536,
        },
        4,
    );
    tell_both(
        b"lokhazim_raw_reallocate",
        Call::Reallocate {
            quota: 0,
            handle: first(),
            length: 20,
        },
        Call::Reallocate {
            quota: 0,
            handle: second(),
            length: 20,
        },
        6,
    );
}

fn holds() {
    tell_both(
        b"lokhazim_raw_claim",
        Call::Claim {
            quota: 1,
            handle: first(),
        },
        Call::Claim {
            quota: 2,
            handle: first(),
        },
        12,
    );
    tell_both(
        b"lokhazim_raw_release",
        Call::Release {
            quota: 0,
            handle: first(),
        },
        Call::Release {
            quota: 0,
            handle: stale(),
        },
        5,
    );
    tell_both(
        b"lokhazim_raw_free_all",
        Call::FreeAll { quota: 1 },
        Call::FreeAll { quota: 2 },
        12,
    );
    tell_both(
        b"lokhazim_raw_clear_permissions",
        Call::ClearPermissions { quota: 1, bits: 5 },
        Call::ClearPermissions { quota: 32, bits: 5 },
        3,
    );
}

fn questions() {
    tell_both(
        b"lokhazim_raw_lend",
        Call::Lend { handle: second() },
        Call::Lend { handle: stale() },
        5,
    );
    tell_both(
        b"lokhazim_raw_remaining",
        Call::Remaining { quota: 0 },
        Call::Remaining { quota: 32 },
        3,
    );
    tell_both(
        b"lokhazim_raw_can_release",
        Call::CanRelease {
            quota: 1,
            handle: second(),
        },
        Call::CanRelease {
            quota: 0,
            handle: second(),
        },
        6,
    );
}

fn blocks() {
    tell_both(b"lokhazim_raw_sweep", Call::Sweep, Call::Sweep, 2);
    tell_both(
        b"lokhazim_raw_list_block",
        Call::ListBlock { at: 24 },
        Call::ListBlock { at: 24 },
        2,
    );
    tell_both(
        b"lokhazim_raw_list_block, behind the last",
        Call::ListBlock { at: 128 },
        Call::ListBlock { at: 0 },
        2,
    );
}

pub(crate) fn all() {
    allocations();
    holds();
    questions();
    blocks();
}
