// The call that takes permissions away from a quota (rules, section 15).
ghost use Rattle.std.specs.Prelude.{◌≡◌};
ghost use Rattle.rounding.specs.Rounding.{table};
ghost use Rattle.model.specs.Calls.{clear as clear_of};
ghost use Rattle.results.specs.Results.{amount_outcome, amount_result};
ghost use Rattle.words.specs.Words.{edition_of, accounts_of, Padded};

use accounts::QUOTAS;
use model::Refusal;
use words::WORDS;

// Rule 15.4: those permissions of a quota are cleared whose bit is set in a number: bit 0 is allocate, 1 claim, 2 free-all. The answer is what is left.
pub fn clear_permissions(
    heap: &[u8],
    words: &mut [u32; WORDS],
    quota: u32,
    bits: u32,
) -> Result<u32, Refusal>
    ensures holds { amount_outcome heap.now (amount_result words.new result)
        ≡ clear_of (table (edition_of words.old)) heap.now (accounts_of words.old) quota bits }
    ensures pads { Padded words.old words.new }
{
    survey::survey(heap, words, survey::unasked())?;
    if QUOTAS <= quota as usize {
        return Err(Refusal::QuotaNumber);
    }
    let left = words::left_permissions(words, quota, bits);
    words::clear_permissions(words, quota, bits);
    Ok(left as u32)
}
