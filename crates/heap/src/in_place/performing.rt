// A call of a history, given with its arguments, is made over the accounts where they lie by the function of its name.
ghost use Rattle.std.specs.Prelude.{◌≡◌};
ghost use Rattle.rounding.specs.Rounding.{table};
ghost use Rattle.model.specs.Step.{performed};
ghost use Rattle.words.specs.Words.{edition_of, accounts_of, Padded};

use model::{Answer, Call};
use words::WORDS;

// The call is made, and its answer is given.
pub fn perform(heap: &mut [u8], words: &mut [u32; WORDS], call: Call) -> Answer
    ensures holds { record { heap = heap.exit.now; accounts = accounts_of words.new; answer = result }
        ≡ performed (table (edition_of words.old)) call heap.entry.now
        (accounts_of words.old) }
    ensures pads { Padded words.old words.new }
{
    match call {
        Call::Allocate { quota, length } => {
            Answer::Handle(allocation::allocate(heap, words, quota, length))
        }
        Call::AllocateArray { quota, count, size } => {
            Answer::Handle(allocation::allocate_array(heap, words, quota, count, size))
        }
        Call::Claim { quota, handle } => {
            Answer::Amount(holding::claim(heap, words, quota, handle))
        }
        Call::Release { quota, handle } => {
            Answer::Amount(allocation::release(heap, words, quota, handle))
        }
        Call::FreeAll { quota } => Answer::Amount(holding::free_all(heap, words, quota)),
        Call::Sweep => Answer::Amount(holding::sweep(heap, words)),
        Call::Reallocate {
            quota,
            handle,
            length,
        } => Answer::Handle(allocation::reallocate(heap, words, quota, handle, length)),
        Call::Lend { handle } => Answer::Range(queries::object_range(heap, words, handle)),
        Call::Remaining { quota } => Answer::Amount(queries::remaining(heap, words, quota)),
        Call::CanRelease { quota, handle } => {
            Answer::Verdict(queries::can_release(heap, words, quota, handle))
        }
        Call::ListBlock { at } => Answer::Block(queries::list_block(heap, words, at)),
        Call::ClearPermissions { quota, bits } => {
            Answer::Amount(holding::clear_permissions(heap, words, quota, bits))
        }
    }
}
