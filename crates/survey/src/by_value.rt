// The survey for accounts by value, and what the walk knows by numbers as the values that they stand for.
ghost use Rattle.std.specs.Prelude.{◌≡◌, ◌+◌, ◌-◌, ◌*◌, ◌^◌, ◌<◌, ◌≤◌};
ghost use Rattle.rounding.specs.Rounding.{table};
ghost use Rattle.model.specs.Answers.{verdict_values};
ghost use Rattle.model.specs.Calls.{check as check_of};
ghost use Rattle.layout.specs.Blocks.{greatest_heap};
ghost use Rattle.lookup.specs.Walk.{multiple_from, fitted, holds_named};
ghost use Rattle.survey.specs.Survey.{Survey, handle_of, block_of, place_of, fit_place};
ghost use Rattle.survey.specs.Route.{half_met};

use crate::walking::Walked;
use crate::wanting::{Alignment, is_named, unit_of};
use crate::{Known, Wanted, block_at, survey};
use accounts::{Accounts, HOLDS};
use lookup::Met;
use model::{Handle, Refusal};
use words::words_of;

// A survey that is asked for an object and a quota's record for it.
pub fn asked(quota: u32, handle: Handle) -> Wanted
    ensures { result ≡ record { base = handle.base; length = handle.length; serial = handle.serial; quota = quota; unit = 0; need = 0 } }
{
    Wanted {
        base: handle.base,
        length: handle.length,
        serial: handle.serial,
        quota: quota,
        unit: 0,
        need: 0,
    }
}

// A survey that is asked for its verdict alone.
pub fn unasked() -> Wanted
    ensures { result ≡ record { base = 0; length = 0; serial = 0; quota = 0; unit = 0; need = 0 } }
{
    Wanted {
        base: 0,
        length: 0,
        serial: 0,
        quota: 0,
        unit: 0,
        need: 0,
    }
}

// The survey of a heap with accounts by value.
pub fn survey_of(heap: &[u8], accounts: Accounts, wanted: Wanted) -> Result<Known, Refusal>
    ensures { Survey heap.now accounts wanted result }
{
    let words = words_of(accounts);
    survey(heap, &words, wanted)
}

// Rule 8.35, the verdict on a heap and its accounting state: refused for its length, refused as inconsistent, or
// accepted.
// A match and no `?`: tried, and its edit check_accepts_all was then refused for a name and not for a false fact.
pub fn check(heap: &[u8], accounts: Accounts) -> Result<(), Refusal>
    ensures { verdict_values result ≡ (check_of (table accounts.edition) heap.now accounts).values }
{
    match survey_of(heap, accounts, unasked()) {
        Ok(_) => Ok(()),
        Err(refusal) => Err(refusal),
    }
}

// The block before the place to which the walk's first part came, where the handle names its object.
pub(crate) fn found(heap: &[u8], wanted: Wanted, half: Walked) -> Option<Met>
    requires { (8 * half.back ≤ half.at) × (half.at ≤ greatest_heap) }
    ensures { result ≡ block_of (holds_named (handle_of wanted) (half_met half.at half.back half.before)) (half.at - 8 * half.back) heap.now }
{
    let size = 8 * half.back;
    let at = half.at - size;
    let block = Met {
        at: at,
        size: size,
        back: 0,
        serial: half.before,
    };
    if !is_named(wanted, block) {
        return None;
    }
    Some(block_at(heap, at))
}

// The place of a record by its number, none where that is HOLDS or more.
pub(crate) fn place(number: usize) -> Option<usize>
    ensures { result ≡ place_of number }
{
    if HOLDS <= number {
        return None;
    }
    Some(number)
}

// The lowest multiple of a unit behind the header at a place.
fn base_in(at: usize, unit: Alignment) -> usize
    requires { at < 2 ^ 63 }
    ensures { result ≡ multiple_from unit.bytes (at + 8) }
{
    (at + 8).next_multiple_of(unit.bytes)
}

// The block with room by its place, and the base of an object in it. The only multiple of 0 is 0.
pub(crate) fn room(heap: &[u8], fit: usize, unit: u32) -> Option<(Met, usize)>
    ensures { result ≡ fitted unit (fit_place fit heap.now) }
{
    if heap.len() <= fit {
        return None;
    }
    let block = block_at(heap, fit);
    if unit == 0 {
        return Some((block, 0));
    }
    Some((block, base_in(fit, unit_of(unit))))
}
