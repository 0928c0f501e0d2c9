// Whether a quota can claim an object, by the refusal that a claim would meet.
ghost use Rattle.std.specs.Prelude.{◌≡◌, ℕ, ◌≤◌};
ghost use Rattle.accounts.specs.declared.Hold.{Hold};
ghost use Rattle.accounts.specs.Accounts.{lowest_unused};
ghost use Rattle.rounding.specs.Rounding.{table};
ghost use Rattle.model.specs.Answers.{verdict_values};
ghost use Rattle.model.specs.Refusals.{greatest_length};
ghost use Rattle.results.specs.Results.{outcome};
ghost use Rattle.holding.specs.Claims.{claim_again, claim_first};
ghost use Rattle.words.specs.Words.{edition_of, accounts_of};
ghost use Rattle.queries.specs.Claimable.{can_claim, refusal_in};

use accounts::{CLAIM, QUOTAS};
use model::{GREATEST_COUNT, Handle, Refusal};
use words::WORDS;

// Whether the record at a place can count once more.
// A claim (holding) writes behind the same test, here and in `can_pay`: one function would take what to do as a closure,
// which is no plainer than a test and its refusal.
fn can_count(words: &[u32; WORDS], at: usize) -> Result<(), Refusal>
    ensures { (n : ℕ) → verdict_values result ≡ refusal_in (claim_again at n (accounts_of words.now)) }
{
    let hold = words::hold_at(words, at);
    if hold.count == GREATEST_COUNT {
        return Err(Refusal::CountLimit);
    }
    Ok(())
}

// Whether the quota can pay for an object of this length, and a record is unused.
fn can_pay(
    words: &[u32; WORDS],
    quota: u32,
    unused: Option<usize>,
    length: u32,
) -> Result<(), Refusal>
    requires { (length ≤ greatest_length) × (unused ≡ lowest_unused (accounts_of words.now)) }
    ensures { (h : Hold) → verdict_values result ≡ refusal_in (claim_first quota h length (accounts_of words.now)) }
{
    let charge = length + 8;
    if words::remaining(words, quota) < charge {
        return Err(Refusal::QuotaExceeded);
    }
    let Some(_) = unused else {
        return Err(Refusal::HoldsExhausted);
    };
    Ok(())
}

// Rule 8.37: whether a quota can claim an object.
// It stands by itself, so that a send's stack holds one survey at a time.
#[inline(never)]
pub fn can_claim(
    heap: &[u8],
    words: &[u32; WORDS],
    quota: u32,
    handle: Handle,
) -> Result<(), Refusal>
    ensures { outcome heap.now (accounts_of words.now) (verdict_values result)
        ≡ can_claim (table (edition_of words.now)) heap.now (accounts_of words.now) quota handle }
{
    let known = survey::survey(heap, words, survey::asked(quota, handle))?;
    if QUOTAS <= quota as usize {
        return Err(Refusal::QuotaNumber);
    }
    if words::permissions(words, quota) / CLAIM % 2 == 0 {
        return Err(Refusal::NotPermitted);
    }
    let Some(block) = known.object else {
        return Err(Refusal::NoSuchObject);
    };
    let length = (block.size - 8) as u32;
    if let Some(at) = known.holder {
        return can_count(words, at);
    }
    can_pay(words, quota, known.low, length)
}
