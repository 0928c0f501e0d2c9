// The calls that change nothing.
ghost use Rattle.std.specs.Prelude.{◌≡◌};
ghost use Rattle.model.specs.Answers.{amount_values, range_values, verdict_values};
ghost use Rattle.rounding.specs.Rounding.{table};
ghost use Rattle.model.specs.Calls.{check as check_of, can_release, lend, remaining_of};
ghost use Rattle.results.specs.Results.{outcome};
ghost use Rattle.words.specs.Words.{edition_of, accounts_of};

use crate::lending::is_lent;
use accounts::QUOTAS;
use model::{Handle, Range, Refusal};
use words::WORDS;

// Rule 8.35: whether heap and accounts are consistent.
pub fn check(heap: &[u8], words: &[u32; WORDS]) -> Result<(), Refusal>
    ensures { verdict_values result ≡ (check_of (table (edition_of words.now)) heap.now (accounts_of words.now)).values }
{
    survey::survey(heap, words, survey::unasked())?;
    Ok(())
}

// Rule 8.30: what remains of a quota.
pub fn remaining(heap: &[u8], words: &[u32; WORDS], quota: u32) -> Result<u32, Refusal>
    ensures { outcome heap.now (accounts_of words.now) (amount_values result)
        ≡ remaining_of (table (edition_of words.now)) heap.now (accounts_of words.now) quota }
{
    check(heap, words)?;
    if QUOTAS <= quota as usize {
        return Err(Refusal::QuotaNumber);
    }
    Ok(words::remaining(words, quota))
}

// Rule 8.31: whether a quota can release an object, by the refusal that a release would meet.
// A release (allocation) writes behind the same tests: one function would take what to do as a closure, which is no
// plainer than a test and its refusal, as at `can_count` (claiming.rt).
// It stands by itself, so that a send's stack holds one survey at a time.
#[inline(never)]
pub fn can_release(
    heap: &[u8],
    words: &[u32; WORDS],
    quota: u32,
    handle: Handle,
) -> Result<(), Refusal>
    ensures { outcome heap.now (accounts_of words.now) (verdict_values result)
        ≡ can_release (table (edition_of words.now)) heap.now (accounts_of words.now) quota handle }
{
    let known = survey::survey(heap, words, survey::asked(quota, handle))?;
    if QUOTAS <= quota as usize {
        return Err(Refusal::QuotaNumber);
    }
    let Some(_) = known.object else {
        return Err(Refusal::NoSuchObject);
    };
    let Some(_) = known.holder else {
        return Err(Refusal::NotHeld);
    };
    Ok(())
}

// Rule 8.29: the range of a handle that names an object, as a part of the heap.
pub fn object_range(heap: &[u8], words: &[u32; WORDS], handle: Handle) -> Result<Range, Refusal>
    ensures { outcome heap.now (accounts_of words.now) (range_values result)
        ≡ lend (table (edition_of words.now)) heap.now (accounts_of words.now) handle }
{
    is_lent(heap, words, handle)?;
    let start = handle.base as usize;
    Ok(Range {
        start: start,
        end: start + handle.length as usize,
    })
}
