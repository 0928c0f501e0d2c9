// Reallocation (rules 8.23 to 8.27): a new object while the old one still counts, the old one's bytes in it, and then the old one released once.
ghost use Rattle.std.specs.Prelude.{◌≡◌, ℕ};
ghost use Rattle.model.specs.Calls.{reallocate as reallocate_of};
ghost use Rattle.rounding.specs.Rounding.{table};
ghost use Rattle.results.specs.Results.{handle_outcome, handle_result};
ghost use Rattle.words.specs.Words.{edition_of, accounts_of, Padded};
ghost use Rattle.survey.specs.Survey.{handle_of};
ghost use Rattle.allocation.specs.Asked.{Rounded, Exchangeable};

use crate::allocating::grant;
use crate::releasing::drop_claim;
use crate::requests::{admitted, request};
use model::{Handle, Refusal};
use survey::{Known, Wanted};
use words::WORDS;

// Reallocation behind the first four lines: the old object and the quota's record for it, a new object, the bytes that both have room for, and one
// hold less on the old object. It stands where it stood, and the quota's record for it too.
// It stands by itself, so that what it needs is on the stack only while it runs, and not beside the survey.
#[inline(never)]
fn exchange(
    heap: &mut [u8],
    words: &mut [u32; WORDS],
    wanted: Wanted,
    known: Known,
) -> Result<Handle, Refusal>
    requires { Exchangeable heap.old (accounts_of words.old) wanted known }
    ensures holds { (n : ℕ) → Rounded (edition_of words.old) n wanted.need wanted.unit
        → handle_outcome heap.new (handle_result words.new result)
        ≡ reallocate_of (table (edition_of words.old)) heap.old (accounts_of words.old)
        wanted.quota (handle_of wanted) n }
    ensures pads { Padded words.old words.new }
{
    words::count(*words);
    let Some(block) = known.object else {
        return Err(Refusal::NoSuchObject);
    };
    let length = block.size - 8;
    if wanted.length as usize != length {
        return Err(Refusal::NoSuchObject);
    }
    let Some(place) = known.holder else {
        return Err(Refusal::NotHeld);
    };
    let new = grant(heap, words, wanted, known)?;
    let count = (new.length as usize).min(length);
    layout::copy_part(heap, block.at + 8, new.base as usize, count);
    drop_claim(heap, words, wanted.quota, block.at, place, known.other);
    Ok(new)
}

// A new object of at least `length` bytes in place of one that the quota holds, with as many of its bytes as both have.
pub fn reallocate(
    heap: &mut [u8],
    words: &mut [u32; WORDS],
    quota: u32,
    handle: Handle,
    length: u32,
) -> Result<Handle, Refusal>
    ensures holds { handle_outcome heap.new (handle_result words.new result)
        ≡ reallocate_of (table (edition_of words.old)) heap.old (accounts_of words.old) quota handle length }
    ensures pads { Padded words.old words.new }
{
    let wanted = request(words::edition(words), quota, handle, length as u64);
    let surveyed = survey::survey(heap, words, wanted);
    let known = admitted(words, surveyed, quota, length as u64)?;
    exchange(heap, words, wanted, known)
}
