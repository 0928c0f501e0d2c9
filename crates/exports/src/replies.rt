// The replies of the heap's calls, and an answer as a reply: one function for each answer type. C gets numbers: no
// enum, Option or Result crosses to it, so a refusal's number and a flag stand beside what is answered, here and in the
// other replies.
ghost use Rattle.std.specs.Prelude.{ℕ, ◌≡◌};
ghost use Rattle.model.specs.Answers.{refusal_number, amount_values, range_values, block_values};
ghost use Rattle.exports.specs.HeapReplies.{number_in, handle_in, no_handle, amount_numbers, range_numbers};
ghost use Rattle.exports.specs.HeapReplies.{block_numbers, Exact};

use accounts::QUOTAS;
use model::{Handle, ListedBlock, Range, Refusal};

// What each quota is granted: an array goes by value only inside a struct.
#[repr(C)]
#[derive(Clone, Copy)]
pub struct Grants {
    pub values: [u32; QUOTAS],
}

// What allocate, allocate array and reallocate give, and a queue's receive.
#[repr(C)]
#[derive(Clone, Copy)]
pub struct HandleReply {
    pub refusal: u32,
    pub handle: Handle,
}

// What claim, release, free-all, clear permissions, sweep and remaining give.
#[repr(C)]
#[derive(Clone, Copy)]
pub struct AmountReply {
    pub refusal: u32,
    pub amount: u32,
}

// What lend gives: where in the heap the object's bytes lie.
#[repr(C)]
#[derive(Clone, Copy)]
pub struct RangeReply {
    pub refusal: u32,
    pub start: usize,
    pub end: usize,
}

// What a step of the listing gives: found is 1 where a block is given, else 0.
#[repr(C)]
#[derive(Clone, Copy)]
pub struct BlockReply {
    pub refusal: u32,
    pub found: u32,
    pub offset: usize,
    pub size: usize,
    pub serial: u32,
}

// What C gets as a number: the refusals of each topic, and the enums of a comparison. A trait and no `From`: the enums
// and `u32` are of other crates, and `number` of each refusal stays, which docs/PROMISES*.md name.
pub(crate) trait Numbered {
    ghost numbered: { Self → ℕ };

    // Its number.
    fn told(self) -> u32
        ensures { result ≡ numbered self };
}

impl Numbered for Refusal {
    ghost numbered = { refusal_number };

    fn told(self) -> u32 {
        self.number()
    }
}

// The refusal's number, 0 where there is none.
pub(crate) fn number_of<R: Numbered>(answer: Result<(), R>) -> u32
    ensures { result ≡ number_in R.numbered answer }
{
    match answer {
        Ok(()) => 0,
        Err(refusal) => refusal.told(),
    }
}

// The reply with a refusal in place of a handle.
fn no_handle(refusal: u32) -> HandleReply
    ensures { result ≡ no_handle refusal }
{
    HandleReply {
        refusal: refusal,
        handle: Handle {
            base: 0,
            length: 0,
            serial: 0,
        },
    }
}

// The reply of a call that gives a handle.
pub(crate) fn reply_of_handle<R: Numbered>(answer: Result<Handle, R>) -> HandleReply
    ensures { result ≡ handle_in R.numbered answer }
{
    match answer {
        Ok(handle) => HandleReply { refusal: 0, handle },
        Err(refusal) => no_handle(refusal.told()),
    }
}

// The reply of a call that gives an amount. This reply, a range's, a block's and those of the writer, of add and of
// export are a C struct each, with names of its own, so one generic function would take a closure for each struct.
pub(crate) fn reply_of_amount(answer: Result<u32, Refusal>) -> AmountReply
    ensures { amount_numbers result ≡ amount_values answer }
{
    match answer {
        Ok(amount) => AmountReply {
            refusal: 0,
            amount: amount,
        },
        Err(refusal) => AmountReply {
            refusal: refusal.number(),
            amount: 0,
        },
    }
}

// The reply of lend.
pub(crate) fn reply_of_range(answer: Result<Range, Refusal>) -> RangeReply
    ensures { range_numbers result ≡ range_values answer }
{
    match answer {
        Ok(range) => RangeReply {
            refusal: 0,
            start: range.start,
            end: range.end,
        },
        Err(refusal) => RangeReply {
            refusal: refusal.number(),
            start: 0,
            end: 0,
        },
    }
}

// The reply with a refusal, or 0, in place of a block.
fn no_block(refusal: u32) -> BlockReply
    ensures { result ≡ record { refusal = refusal; found = 0; offset = 0; size = 0; serial = 0 } }
{
    BlockReply {
        refusal: refusal,
        found: 0,
        offset: 0,
        size: 0,
        serial: 0,
    }
}

// The reply of a step of the listing.
pub(crate) fn reply_of_block(answer: Result<Option<ListedBlock>, Refusal>) -> BlockReply
    ensures answers { block_numbers result ≡ block_values answer }
    ensures zeros { Exact result }
{
    match answer {
        Ok(Some(block)) => BlockReply {
            refusal: 0,
            found: 1,
            offset: block.offset,
            size: block.size,
            serial: block.serial,
        },
        Ok(None) => no_block(0),
        Err(refusal) => no_block(refusal.number()),
    }
}
