// An object's bytes through a handle: a write of one byte, and the part of the heap where they lie.
ghost use Rattle.std.specs.Prelude.{◌≡◌, ◌+◌};
ghost use Rattle.model.specs.Answers.{verdict_values};
ghost use Rattle.results.specs.Results.{outcome};
ghost use Rattle.rounding.specs.Rounding.{table};
ghost use Rattle.queries.specs.Lending.{IsLent, write_object, lent_bytes, lent_range, lent_refusal};
ghost use Rattle.words.specs.Words.{edition_of, accounts_of};

use model::{Handle, Refusal};
use words::WORDS;

// Whether lend accepts a handle: it names an object of a state that the check accepts.
pub(crate) fn is_lent(heap: &[u8], words: &[u32; WORDS], handle: Handle) -> Result<(), Refusal>
    ensures { IsLent (table (edition_of words.now)) heap.now (accounts_of words.now) handle result }
{
    let known = survey::survey(heap, words, survey::asked(0, handle))?;
    let Some(_) = known.object else {
        return Err(Refusal::NoSuchObject);
    };
    Ok(())
}

// Rule 8.36: one byte of a handle's range is written, at a place that counts from the handle's base. A place at or beyond its length is accepted, and nothing
// is written.
pub fn write_object(
    heap: &mut [u8],
    words: &[u32; WORDS],
    handle: Handle,
    at: u32,
    byte: u8,
) -> Result<(), Refusal>
    ensures { outcome heap.new (accounts_of words.now) (verdict_values result)
        ≡ write_object (table (edition_of words.now)) heap.old (accounts_of words.now) handle at byte }
{
    is_lent(heap, words, handle)?;
    if at < handle.length {
        let index = handle.base as usize + at as usize;
        heap[index] = byte;
    }
    Ok(())
}

// Rule 8.29: the bytes of a handle's range, as a part of the heap; an empty part where it is refused. The refusal's number, 0 where there is none, is left
// in refusal.
// The refusal is a number beside the part: `holds` and `lies` promise an empty part on a refusal (rule 7.6), which a
// `Result` would not have.
pub fn lend<'a>(
    heap: &'a mut [u8],
    words: &[u32; WORDS],
    handle: Handle,
    refusal: &mut u32,
) -> &'a mut [u8]
    ensures holds { result.now ≡ lent_bytes (table (edition_of words.now)) heap.old (accounts_of words.now) handle }
    ensures lies { (result.ref_ptr.0 ≡ heap.entry.ref_ptr.0)
        × (result.ref_ptr.1 ≡ heap.entry.ref_ptr.1 + (lent_range (table (edition_of words.now)) heap.old (accounts_of words.now)
        handle).start) }
    ensures refuses { refusal.new ≡ lent_refusal (table (edition_of words.now)) heap.old (accounts_of words.now)
        handle }
{
    match is_lent(heap, words, handle) {
        Ok(()) => {
            *refusal = 0;
            let start = handle.base as usize;
            let end = start + handle.length as usize;
            &mut heap[start..end]
        }
        Err(why) => {
            *refusal = why.number();
            &mut heap[0..0]
        }
    }
}
