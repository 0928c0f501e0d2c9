// The calls over a heap: each is the call in place and its answer as numbers.
ghost use Rattle.std.specs.Prelude.{◌≡◌};
ghost use Rattle.model.specs.Answers.{refused};
ghost use Rattle.model.specs.Calls.{open_heap, allocate, allocate_array, claim, release, free_all, reallocate, clear, sweep};
ghost use Rattle.model.specs.Calls.{lend, remaining_of, can_release, list_block, check};
ghost use Rattle.queries.specs.Lending.{write_object};
ghost use Rattle.words.specs.Words.{Padded, Unpadded};
ghost use Rattle.exports.specs.HeapReplies.{kind_by, edition_by, settings_by, left, on_words};
ghost use Rattle.exports.specs.HeapReplies.{handle_numbers, amount_numbers, range_numbers, block_numbers, Exact};

use crate::replies::{
    AmountReply, BlockReply, Grants, HandleReply, RangeReply, number_of, reply_of_amount,
    reply_of_block, reply_of_handle, reply_of_range,
};
use accounts::{Edition, Kind, Settings};
use model::Handle;
use words::WORDS;

// The kind with a number. A number: C lends any, and each but 0 is the second kind, which no TryFrom would say; and no
// `From`, since both types are of other crates.
#[tactic(auto, unfolding(crate::specs::HeapReplies::kind_by))]
fn kind_by(number: u32) -> Kind
    ensures { result ≡ kind_by number }
{
    match number {
        0 => Kind::Plain,
        _ => Kind::Quarantine,
    }
}

// The edition with a number. A number, as above.
#[tactic(auto, unfolding(crate::specs::HeapReplies::edition_by))]
fn edition_by(number: u32) -> Edition
    ensures { result ≡ edition_by number }
{
    match number {
        0 => Edition::First,
        _ => Edition::Second,
    }
}

// What an opening chooses, by two numbers.
fn settings_by(kind: u32, edition: u32) -> Settings
    ensures { result ≡ settings_by kind edition }
{
    Settings {
        kind: kind_by(kind),
        edition: edition_by(edition),
    }
}

// One free block covers the heap, and every quota has its grant; where it is refused, the accounts are zero. All words
// are set, padding to zero.
#[unsafe(no_mangle)]
pub extern "C" fn lokhazim_raw_open(
    heap: &mut [u8],
    words: &mut [u32; WORDS],
    grants: Grants,
    kind: u32,
    edition: u32,
) -> u32
    ensures holds { left heap.new words.new (refused result)
        ≡ open_heap (settings_by kind edition) heap.old grants.values }
    ensures pads { Unpadded words.new }
{
    let values = grants.values;
    let settings = settings_by(kind, edition);
    number_of(holding::open(heap, words, values, settings))
}

// A new object of at least `length` bytes.
#[unsafe(no_mangle)]
pub extern "C" fn lokhazim_raw_allocate(
    heap: &mut [u8],
    words: &mut [u32; WORDS],
    quota: u32,
    length: u32,
) -> HandleReply
    ensures holds { left heap.new words.new (handle_numbers result)
        ≡ on_words allocate heap.old words.old quota length }
    ensures pads { Padded words.old words.new }
{
    reply_of_handle(allocation::allocate(heap, words, quota, length))
}

// A new object for `count` elements of `size` bytes. Two numbers: C asks for an array by them, as calloc takes them.
#[unsafe(no_mangle)]
pub extern "C" fn lokhazim_raw_allocate_array(
    heap: &mut [u8],
    words: &mut [u32; WORDS],
    quota: u32,
    count: u32,
    size: u32,
) -> HandleReply
    ensures holds { left heap.new words.new (handle_numbers result)
        ≡ on_words allocate_array heap.old words.old quota count size }
    ensures pads { Padded words.old words.new }
{
    reply_of_handle(allocation::allocate_array(heap, words, quota, count, size))
}

// A quota holds an object, or holds it once more; the amount is the object's length.
#[unsafe(no_mangle)]
pub extern "C" fn lokhazim_raw_claim(
    heap: &[u8],
    words: &mut [u32; WORDS],
    quota: u32,
    handle: Handle,
) -> AmountReply
    ensures holds { left heap.now words.new (amount_numbers result)
        ≡ on_words claim heap.now words.old quota handle }
    ensures pads { Padded words.old words.new }
{
    reply_of_amount(holding::claim(heap, words, quota, handle))
}

// A quota gives up one hold; the amount is what it gets back.
#[unsafe(no_mangle)]
pub extern "C" fn lokhazim_raw_release(
    heap: &mut [u8],
    words: &mut [u32; WORDS],
    quota: u32,
    handle: Handle,
) -> AmountReply
    ensures holds { left heap.new words.new (amount_numbers result)
        ≡ on_words release heap.old words.old quota handle }
    ensures pads { Padded words.old words.new }
{
    reply_of_amount(allocation::release(heap, words, quota, handle))
}

// A quota gives up all its holds; the amount is what it gets back.
#[unsafe(no_mangle)]
pub extern "C" fn lokhazim_raw_free_all(
    heap: &mut [u8],
    words: &mut [u32; WORDS],
    quota: u32,
) -> AmountReply
    ensures holds { left heap.new words.new (amount_numbers result)
        ≡ on_words free_all heap.old words.old quota }
    ensures pads { Padded words.old words.new }
{
    reply_of_amount(holding::free_all(heap, words, quota))
}

// The permissions of a quota whose bit is set in `bits` are cleared; the amount is what is left of them.
#[unsafe(no_mangle)]
pub extern "C" fn lokhazim_raw_clear_permissions(
    heap: &[u8],
    words: &mut [u32; WORDS],
    quota: u32,
    bits: u32,
) -> AmountReply
    ensures holds { left heap.now words.new (amount_numbers result)
        ≡ on_words clear heap.now words.old quota bits }
    ensures pads { Padded words.old words.new }
{
    reply_of_amount(holding::clear_permissions(heap, words, quota, bits))
}

// A new object of at least `length` bytes with the old one's first bytes, and the old one is released once.
#[unsafe(no_mangle)]
pub extern "C" fn lokhazim_raw_reallocate(
    heap: &mut [u8],
    words: &mut [u32; WORDS],
    quota: u32,
    handle: Handle,
    length: u32,
) -> HandleReply
    ensures holds { left heap.new words.new (handle_numbers result)
        ≡ on_words reallocate heap.old words.old quota handle length }
    ensures pads { Padded words.old words.new }
{
    reply_of_handle(allocation::reallocate(heap, words, quota, handle, length))
}

// Every quarantined block becomes free, and the sum of their sizes is answered.
#[unsafe(no_mangle)]
pub extern "C" fn lokhazim_raw_sweep(heap: &mut [u8], words: &[u32; WORDS]) -> AmountReply
    ensures { left heap.new words.now (amount_numbers result)
        ≡ on_words sweep heap.old words.now }
{
    reply_of_amount(holding::sweep(heap, words))
}

// Where in the heap the bytes of a handle's range lie.
#[unsafe(no_mangle)]
pub extern "C" fn lokhazim_raw_lend(heap: &[u8], words: &[u32; WORDS], handle: Handle) -> RangeReply
    ensures { left heap.now words.now (range_numbers result)
        ≡ on_words lend heap.now words.now handle }
{
    reply_of_range(queries::object_range(heap, words, handle))
}

// One byte of a handle's range is written, at a place that counts from the handle's base. A place at or beyond its
// length is accepted, and nothing is written.
#[unsafe(no_mangle)]
pub extern "C" fn lokhazim_raw_write(
    heap: &mut [u8],
    words: &[u32; WORDS],
    handle: Handle,
    at: u32,
    byte: u8,
) -> u32
    ensures { left heap.new words.now (refused result)
        ≡ on_words write_object heap.old words.now handle at byte }
{
    number_of(queries::write_object(heap, words, handle, at, byte))
}

// What remains of a quota.
#[unsafe(no_mangle)]
pub extern "C" fn lokhazim_raw_remaining(
    heap: &[u8],
    words: &[u32; WORDS],
    quota: u32,
) -> AmountReply
    ensures { left heap.now words.now (amount_numbers result)
        ≡ on_words remaining_of heap.now words.now quota }
{
    reply_of_amount(queries::remaining(heap, words, quota))
}

// The refusal that release would give, 0 where it would be accepted.
#[unsafe(no_mangle)]
pub extern "C" fn lokhazim_raw_can_release(
    heap: &[u8],
    words: &[u32; WORDS],
    quota: u32,
    handle: Handle,
) -> u32
    ensures { left heap.now words.now (refused result)
        ≡ on_words can_release heap.now words.now quota handle }
{
    number_of(queries::can_release(heap, words, quota, handle))
}

// The block that starts at a place of the heap, if one does.
#[unsafe(no_mangle)]
pub extern "C" fn lokhazim_raw_list_block(
    heap: &[u8],
    words: &[u32; WORDS],
    at: usize,
) -> BlockReply
    ensures answers { left heap.now words.now (block_numbers result)
        ≡ on_words list_block heap.now words.now at }
    ensures zeros { Exact result }
{
    reply_of_block(queries::list_block(heap, words, at))
}

// The refusal that every call but open begins with: 1, 2 or none.
#[unsafe(no_mangle)]
pub extern "C" fn lokhazim_raw_check(heap: &[u8], words: &[u32; WORDS]) -> u32
    ensures { left heap.now words.now (refused result)
        ≡ on_words check heap.now words.now }
{
    number_of(queries::check(heap, words))
}
