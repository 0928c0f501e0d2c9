// Each call is made over the words that hold the accounts, and the accounts that these hold then come back.
ghost use Rattle.std.specs.Prelude.{◌≡◌};
ghost use Rattle.rounding.specs.Rounding.{table};
ghost use Rattle.model.specs.Calls.{allocate as allocate_of, allocate_array, reallocate as reallocate_of, release as release_of};
ghost use Rattle.results.specs.Results.{amount_outcome, handle_outcome};

use accounts::Accounts;
use model::Handle;
use results::{AmountResult, HandleResult};

// A new object of at least `length` bytes.
pub fn allocate(heap: &mut [u8], accounts: Accounts, quota: u32, length: u32) -> HandleResult
    ensures { handle_outcome heap.new result ≡ allocate_of (table accounts.edition) heap.old accounts quota length }
{
    let mut words = words::words_of(accounts);
    let answer = crate::allocate(heap, &mut words, quota, length);
    HandleResult::of(&words, answer)
}

// Rule 8.12: a new object for `count` elements of `size` bytes. The count is one that is asked for, and no buffer's length.
pub fn allocate_array(
    heap: &mut [u8],
    accounts: Accounts,
    quota: u32,
    count: u32,
    size: u32,
) -> HandleResult
    ensures { handle_outcome heap.new result ≡ allocate_array (table accounts.edition) heap.old accounts quota count size }
{
    let mut words = words::words_of(accounts);
    let answer = crate::allocate_array(heap, &mut words, quota, count, size);
    HandleResult::of(&words, answer)
}

// A new object of at least `length` bytes in place of one that the quota holds, with as many of its bytes as both have.
pub fn reallocate(
    heap: &mut [u8],
    accounts: Accounts,
    quota: u32,
    handle: Handle,
    length: u32,
) -> HandleResult
    ensures { handle_outcome heap.new result ≡ reallocate_of (table accounts.edition) heap.old accounts quota handle length }
{
    let mut words = words::words_of(accounts);
    let answer = crate::reallocate(heap, &mut words, quota, handle, length);
    HandleResult::of(&words, answer)
}

// One hold of a quota is given up.
pub fn release(heap: &mut [u8], accounts: Accounts, quota: u32, handle: Handle) -> AmountResult
    ensures { amount_outcome heap.new result ≡ release_of (table accounts.edition) heap.old accounts quota handle }
{
    let mut words = words::words_of(accounts);
    let answer = crate::release(heap, &mut words, quota, handle);
    AmountResult::of(&words, answer)
}
