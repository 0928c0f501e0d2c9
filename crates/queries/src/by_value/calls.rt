// Each call is made over the words that hold the accounts.
ghost use Rattle.std.specs.Prelude.{◌≡◌, ◌+◌};
ghost use Rattle.model.specs.Answers.{amount_values, range_values, verdict_values};
ghost use Rattle.rounding.specs.Rounding.{table};
ghost use Rattle.model.specs.Calls.{can_release, lend, remaining_of};
ghost use Rattle.results.specs.Results.{outcome};
ghost use Rattle.queries.specs.Lending.{write_object, lent_bytes, lent_range, lent_refusal};

use accounts::Accounts;
use model::{Handle, Range, Refusal};

// Rule 8.30: what remains of a quota.
pub fn remaining(heap: &[u8], accounts: Accounts, quota: u32) -> Result<u32, Refusal>
    ensures { outcome heap.now accounts (amount_values result) ≡ remaining_of (table accounts.edition) heap.now accounts quota }
{
    let words = words::words_of(accounts);
    crate::remaining(heap, &words, quota)
}

// Rule 8.31: whether a quota can release an object, by the refusal that a release would meet.
pub fn can_release(
    heap: &[u8],
    accounts: Accounts,
    quota: u32,
    handle: Handle,
) -> Result<(), Refusal>
    ensures { outcome heap.now accounts (verdict_values result)
        ≡ can_release (table accounts.edition) heap.now accounts quota handle }
{
    let words = words::words_of(accounts);
    crate::can_release(heap, &words, quota, handle)
}

// Rule 8.29: the range of a handle that names an object, as a part of the heap.
pub fn object_range(heap: &[u8], accounts: Accounts, handle: Handle) -> Result<Range, Refusal>
    ensures { outcome heap.now accounts (range_values result) ≡ lend (table accounts.edition) heap.now accounts handle }
{
    let words = words::words_of(accounts);
    crate::object_range(heap, &words, handle)
}

// Rule 8.36: one byte of a handle's range is written, at a place that counts from the handle's base. A place at or beyond its length is accepted, and nothing
// is written.
pub fn write_object(
    heap: &mut [u8],
    accounts: Accounts,
    handle: Handle,
    at: u32,
    byte: u8,
) -> Result<(), Refusal>
    ensures { outcome heap.new accounts (verdict_values result)
        ≡ write_object (table accounts.edition) heap.old accounts handle at byte }
{
    let words = words::words_of(accounts);
    crate::write_object(heap, &words, handle, at, byte)
}

// Rule 8.29: the bytes of a handle's range, as a part of the heap; an empty part where it is refused. The refusal's number, 0 where there is none, is left
// in refusal.
// The refusal is a number beside the part: `holds` and `lies` promise an empty part on a refusal (rule 7.6), which a
// `Result` would not have.
pub fn lend<'a>(
    heap: &'a mut [u8],
    accounts: Accounts,
    handle: Handle,
    refusal: &mut u32,
) -> &'a mut [u8]
    ensures holds { result.now ≡ lent_bytes (table accounts.edition) heap.old accounts handle }
    ensures lies { (result.ref_ptr.0 ≡ heap.entry.ref_ptr.0)
        × (result.ref_ptr.1 ≡ heap.entry.ref_ptr.1 + (lent_range (table accounts.edition) heap.old accounts handle).start) }
    ensures refuses { refusal.new ≡ lent_refusal (table accounts.edition) heap.old accounts handle }
{
    let words = words::words_of(accounts);
    crate::lend(heap, &words, handle, refusal)
}
