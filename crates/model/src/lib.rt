// The calls of the shared heap and their answers, as types, and which lengths a heap may have. The definitions in specs/ say what each call does; no code of a
// call is here.
#![tactic(auto)]

ghost use Rattle.std.specs.Prelude.{◌≡◌};
ghost use Rattle.model.specs.Answers.{refusal_number};
ghost use Rattle.model.specs.Consistent.{allowed};

use accounts::Accounts;
use layout::GREATEST_HEAP;

// The greatest length of a request (rule 7.1, line 4).
pub const GREATEST_LENGTH: u32 = 32760;

// The greatest count of a record (rule 3.5).
pub const GREATEST_COUNT: u8 = 255;

// The greatest serial of an object (rule 7.1, line 10).
pub const GREATEST_SERIAL: u32 = 4294967294;

// Rule 2.1: whether a heap may have this length.
pub fn is_allowed(len: usize) -> bool
    ensures { result ≡ allowed len }
{
    if len % 8 != 0 {
        return false;
    }
    if len < 64 {
        return false;
    }
    len <= GREATEST_HEAP
}

// A range and a serial. They name the object that has the serial and the whole range in it (rule 4.3). A handle that a call answers has the whole object.
#[repr(C)]
#[derive(Clone, Copy, PartialEq, Eq)]
pub struct Handle {
    pub base: u32,
    pub length: u32,
    pub serial: u32,
}

// A part of the heap, from start up to end.
#[repr(C)]
#[derive(Clone, Copy, PartialEq, Eq)]
pub struct Range {
    pub start: usize,
    pub end: usize,
}

// A block as the listing gives it: its offset, its size with the header, and its serial, 0 for a free block.
#[repr(C)]
#[derive(Clone, Copy, PartialEq, Eq)]
pub struct ListedBlock {
    pub offset: usize,
    pub size: usize,
    pub serial: u32,
}

// The twelve refusals, in the order of their numbers. They are checked in this order (rule 7.1), but for the last: it comes right after the third (rule 15.6).
#[derive(Clone, Copy, PartialEq, Eq)]
pub enum Refusal {
    HeapLength,
    Inconsistent,
    QuotaNumber,
    ObjectLength,
    NoSuchObject,
    NotHeld,
    CountLimit,
    QuotaExceeded,
    HoldsExhausted,
    SerialsExhausted,
    NoSpace,
    NotPermitted,
}

// The rows of the table of section 8 that differ in their lines: check, sweep and the listing; remaining and clear permissions; free-all; lend and the write of
// a byte; release and can release; claim and can claim; allocate and allocate array; reallocate.
#[derive(Clone, Copy, PartialEq, Eq)]
pub enum Row {
    Check,
    Quota,
    FreeAll,
    Object,
    Held,
    Claim,
    Room,
    Exchange,
}

// The answer of any call of a history.
#[derive(Clone, Copy, PartialEq, Eq)]
pub enum Answer {
    Verdict(Result<(), Refusal>),
    Handle(Result<Handle, Refusal>),
    Amount(Result<u32, Refusal>),
    Range(Result<Range, Refusal>),
    Block(Result<Option<ListedBlock>, Refusal>),
}

// A call of a history, with its arguments. A `count` is what a caller asks for, and no buffer's length.
#[derive(Clone, Copy, PartialEq, Eq)]
pub enum Call {
    Allocate {
        quota: u32,
        length: u32,
    },
    AllocateArray {
        quota: u32,
        count: u32,
        size: u32,
    },
    Claim {
        quota: u32,
        handle: Handle,
    },
    Release {
        quota: u32,
        handle: Handle,
    },
    FreeAll {
        quota: u32,
    },
    Sweep,
    Reallocate {
        quota: u32,
        handle: Handle,
        length: u32,
    },
    Lend {
        handle: Handle,
    },
    Remaining {
        quota: u32,
    },
    CanRelease {
        quota: u32,
        handle: Handle,
    },
    ListBlock {
        at: usize,
    },
    ClearPermissions {
        quota: u32,
        bits: u32,
    },
}

impl Refusal {
    // The refusal's number, which C gets. A method and no `From`: docs/PROMISES.md names it.
    pub fn number(self) -> u32
        ensures { result ≡ refusal_number self }
    {
        match self {
            Refusal::HeapLength => 1,
            Refusal::Inconsistent => 2,
            Refusal::QuotaNumber => 3,
            Refusal::ObjectLength => 4,
            Refusal::NoSuchObject => 5,
            Refusal::NotHeld => 6,
            Refusal::CountLimit => 7,
            Refusal::QuotaExceeded => 8,
            Refusal::HoldsExhausted => 9,
            Refusal::SerialsExhausted => 10,
            Refusal::NoSpace => 11,
            Refusal::NotPermitted => 12,
        }
    }
}
