// The call that lets a quota hold an object, or hold it once more.
ghost use Rattle.std.specs.Prelude.{◌≡◌, ◌≤◌, ◌<◌};
ghost use Rattle.accounts.specs.Accounts.{QUOTAS, lowest_unused};
ghost use Rattle.rounding.specs.Rounding.{table};
ghost use Rattle.model.specs.Refusals.{greatest_length};
ghost use Rattle.model.specs.Calls.{claim as claim_of};
ghost use Rattle.results.specs.Results.{amount_outcome, amount_result};
ghost use Rattle.holding.specs.Claims.{claim_again, claim_first};
ghost use Rattle.words.specs.Words.{edition_of, accounts_of, Padded};

use accounts::{CLAIM, Hold, QUOTAS};
use model::{GREATEST_COUNT, Handle, Refusal};
use words::WORDS;

// Rule 8.13: the record at a place counts once more.
fn claim_again(words: &mut [u32; WORDS], at: usize, length: u32) -> Result<u32, Refusal>
    ensures holds { amount_result words.new result ≡ claim_again at length (accounts_of words.old) }
    ensures pads { Padded words.old words.new }
{
    let hold = words::hold_at(words, at);
    if hold.count == GREATEST_COUNT {
        return Err(Refusal::CountLimit);
    }
    let raised = Hold {
        serial: hold.serial,
        quota: hold.quota,
        count: hold.count + 1,
    };
    words::put_hold(words, at, raised);
    Ok(length)
}

// Rule 8.14: the quota pays for an object of this length, and the lowest unused record becomes its hold.
fn claim_first(
    words: &mut [u32; WORDS],
    quota: u32,
    unused: Option<usize>,
    hold: Hold,
    length: u32,
) -> Result<u32, Refusal>
    requires { (length ≤ greatest_length) × (unused ≡ lowest_unused (accounts_of words.old)) }
    ensures holds { amount_result words.new result ≡ claim_first quota hold length (accounts_of words.old) }
    ensures pads { Padded words.old words.new }
{
    let charge = length + 8;
    if words::remaining(words, quota) < charge {
        return Err(Refusal::QuotaExceeded);
    }
    let Some(at) = unused else {
        return Err(Refusal::HoldsExhausted);
    };
    words::charge(words, quota, charge);
    words::put_hold(words, at, hold);
    Ok(length)
}

// Rules 8.13 to 8.15 and 15.5: a quota holds an object once more, or pays and holds it for the first time. The answer is the object's length.
pub fn claim(
    heap: &[u8],
    words: &mut [u32; WORDS],
    quota: u32,
    handle: Handle,
) -> Result<u32, Refusal>
    ensures holds { amount_outcome heap.now (amount_result words.new result)
        ≡ claim_of (table (edition_of words.old)) heap.now (accounts_of words.old) quota handle }
    ensures pads { Padded words.old words.new }
{
    let known = survey::survey(heap, words, survey::asked(quota, handle))?;
    if QUOTAS <= quota as usize {
        return Err(Refusal::QuotaNumber);
    }
    if words::permissions(words, quota) / CLAIM % 2 == 0 {
        return Err(Refusal::NotPermitted);
    }
    let Some(block) = known.object else {
        return Err(Refusal::NoSuchObject);
    };
    let length = (block.size - 8) as u32;
    if let Some(at) = known.holder {
        return claim_again(words, at, length);
    }
    let hold = Hold {
        serial: handle.serial,
        quota: (quota % 256) as u8,
        count: 1,
    };
    claim_first(words, quota, known.low, hold, length)
}
