// Allocation (rules 8.5 to 8.12): the refusals in their order, then an object is cut out of a free block and its quota pays.
ghost use Rattle.std.specs.Prelude.{◌≡◌, ℕ, ◌≤◌};
ghost use Rattle.accounts.specs.Accounts.{with_last_serial, put_hold, charge as charge_to};
ghost use Rattle.lists.specs.Lists.{any};
ghost use Rattle.model.specs.Calls.{allocate as allocate_of, allocate_array};
ghost use Rattle.rounding.specs.Rounding.{table};
ghost use Rattle.results.specs.Results.{handle_outcome, handle_result};
ghost use Rattle.words.specs.Words.{edition_of, last_of, holds_of, accounts_of, Padded};
ghost use Rattle.survey.specs.Survey.{shares};
ghost use Rattle.allocation.specs.Asked.{Rounded, Grantable};

use crate::requests::{admitted, given, request};
use accounts::Hold;
use model::{GREATEST_SERIAL, Handle, Refusal};
use survey::{Known, Wanted};
use words::WORDS;

// Rules 8.9 and 8.10: a quota pays for a new object and holds it once.
fn book(words: &mut [u32; WORDS], quota: u8, charge: u32, place: usize, serial: u32)
    ensures holds { accounts_of words.new
        ≡ charge_to quota charge
        (put_hold place (record { serial = serial; quota = quota; count = 1 }) (with_last_serial serial (accounts_of words.old))) }
    ensures pads { Padded words.old words.new }
{
    let hold = Hold {
        serial: serial,
        quota: quota,
        count: 1,
    };
    words::set_last_serial(words, serial);
    words::put_hold(words, place, hold);
    words::charge(words, quota as u32, charge);
}

// Allocation behind the first four lines: the other refusals in their order, then the quota pays for an object of the size that the survey was asked for, which
// is cut out at a multiple of its unit. This is the allocation of every request that is rounded to that size and aligned by that unit.
pub(crate) fn grant(
    heap: &mut [u8],
    words: &mut [u32; WORDS],
    wanted: Wanted,
    known: Known,
) -> Result<Handle, Refusal>
    requires { Grantable heap.old (accounts_of words.old) wanted.quota wanted.need wanted.unit known.low known.fit }
    ensures holds { (n : ℕ) → Rounded (edition_of words.old) n wanted.need wanted.unit
        → handle_outcome heap.new (handle_result words.new result)
        ≡ allocate_of (table (edition_of words.old)) heap.old (accounts_of words.old) wanted.quota n }
    ensures pads { Padded words.old words.new }
    ensures keeps { (t : ℕ) → t ≤ last_of words.old
        → any (shares t wanted.quota) (holds_of words.new) ≡ any (shares t wanted.quota) (holds_of words.old) }
{
    let quota = wanted.quota;
    let length = wanted.need as u32;
    let charge = length + 8;
    if words::remaining(words, quota) < charge {
        return Err(Refusal::QuotaExceeded);
    }
    let Some(place) = known.low else {
        return Err(Refusal::HoldsExhausted);
    };
    let last = words::last_serial(words);
    if GREATEST_SERIAL <= last {
        return Err(Refusal::SerialsExhausted);
    }
    let Some((block, base)) = known.fit else {
        return Err(Refusal::NoSpace);
    };
    let serial = last + 1;
    book(words, quota as u8, charge, place, serial);
    writer::carve(heap, block, base, wanted.need, serial);
    given(base, length, serial)
}

// Allocation for a length of any size.
fn allocate_wide(
    heap: &mut [u8],
    words: &mut [u32; WORDS],
    quota: u32,
    length: u64,
) -> Result<Handle, Refusal>
    ensures holds { handle_outcome heap.new (handle_result words.new result)
        ≡ allocate_of (table (edition_of words.old)) heap.old (accounts_of words.old) quota length }
    ensures pads { Padded words.old words.new }
{
    let none = Handle {
        base: 0,
        length: 0,
        serial: 0,
    };
    let wanted = request(words::edition(words), quota, none, length);
    let surveyed = survey::survey(heap, words, wanted);
    let known = admitted(words, surveyed, quota, length)?;
    grant(heap, words, wanted, known)
}

// A new object of at least `length` bytes.
pub fn allocate(
    heap: &mut [u8],
    words: &mut [u32; WORDS],
    quota: u32,
    length: u32,
) -> Result<Handle, Refusal>
    ensures holds { handle_outcome heap.new (handle_result words.new result)
        ≡ allocate_of (table (edition_of words.old)) heap.old (accounts_of words.old) quota length }
    ensures pads { Padded words.old words.new }
{
    allocate_wide(heap, words, quota, length as u64)
}

// Rule 8.12: a new object for `count` elements of `size` bytes. The count is one that C asks for, and no buffer's length.
pub fn allocate_array(
    heap: &mut [u8],
    words: &mut [u32; WORDS],
    quota: u32,
    count: u32,
    size: u32,
) -> Result<Handle, Refusal>
    ensures holds { handle_outcome heap.new (handle_result words.new result)
        ≡ allocate_array (table (edition_of words.old)) heap.old (accounts_of words.old) quota count size }
    ensures pads { Padded words.old words.new }
{
    allocate_wide(heap, words, quota, (count as u64) * (size as u64))
}
