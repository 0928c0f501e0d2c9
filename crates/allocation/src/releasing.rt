// Release (rules 8.16 to 8.19): a quota gives up one hold, and the block that no quota holds any more becomes free.
ghost use Rattle.std.specs.Prelude.{◌≡◌, Ok, is_some};
ghost use Rattle.rounding.specs.Rounding.{table};
ghost use Rattle.model.specs.Calls.{release as release_of};
ghost use Rattle.lookup.specs.Walk.{object_met};
ghost use Rattle.allocation.specs.Releasing.{claim_dropped};
ghost use Rattle.words.specs.Words.{edition_of, accounts_of, Padded};
ghost use Rattle.results.specs.Results.{amount_outcome, amount_result};
ghost use Rattle.survey.specs.Survey.{block_at};
ghost use Rattle.allocation.specs.Asked.{Droppable};

use accounts::{Hold, QUOTAS};
use model::{Handle, Refusal};
use words::WORDS;

// One hold of a quota on the block at a place is given up; the last one gives the quota its charge back, and the block of an object for which no other quota
// has a record is vacated. The amount that was given back is the result.
pub(crate) fn drop_claim(
    heap: &mut [u8],
    words: &mut [u32; WORDS],
    quota: u32,
    at: usize,
    place: usize,
    other: Option<usize>,
) -> u32
    requires { Droppable heap.old (accounts_of words.old) quota (block_at at heap.old) place (is_some other) }
    ensures holds { amount_outcome heap.new (amount_result words.new (Ok result))
        ≡ claim_dropped heap.old (accounts_of words.old) quota (object_met (block_at at heap.old)) }
    ensures pads { Padded words.old words.new }
{
    let hold = words::hold_at(words, place);
    if 1 < hold.count {
        let fewer = Hold {
            serial: hold.serial,
            quota: hold.quota,
            count: hold.count - 1,
        };
        words::put_hold(words, place, fewer);
        return 0;
    }
    let block = survey::block_at(heap, at);
    let length = (block.size - 8) as u32;
    let charge = length + 8;
    words::refund(words, quota, charge);
    words::drop_hold(words, place);
    let shared = other.is_some();
    if shared {
        return charge;
    }
    writer::vacate_block(heap, block, words::kind(words));
    charge
}

// One hold of a quota is given up.
pub fn release(
    heap: &mut [u8],
    words: &mut [u32; WORDS],
    quota: u32,
    handle: Handle,
) -> Result<u32, Refusal>
    ensures holds { amount_outcome heap.new (amount_result words.new result)
        ≡ release_of (table (edition_of words.old)) heap.old (accounts_of words.old) quota handle }
    ensures pads { Padded words.old words.new }
{
    let known = survey::survey(heap, words, survey::asked(quota, handle))?;
    if QUOTAS <= quota as usize {
        return Err(Refusal::QuotaNumber);
    }
    let Some(block) = known.object else {
        return Err(Refusal::NoSuchObject);
    };
    let Some(place) = known.holder else {
        return Err(Refusal::NotHeld);
    };
    let back = drop_claim(heap, words, quota, block.at, place, known.other);
    Ok(back)
}
