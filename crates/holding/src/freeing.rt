// Free-all (rules 8.20 to 8.22): a quota gives up every hold at once, and the blocks that no quota holds any more become free.
// One walk says which live blocks the records that are left still hold, and one walk frees the others.
ghost use Rattle.std.specs.Prelude.{◌≡◌, false};
ghost use Rattle.rounding.specs.Rounding.{table};
ghost use Rattle.model.specs.Calls.{free_all as free_all_of};
ghost use Rattle.lookup.specs.Walk.{Bounded};
ghost use Rattle.results.specs.Results.{amount_outcome, amount_result};
ghost use Rattle.holding.specs.Emptying.{counted, passed, passed_end, flags_of, Emptiable, Emptied};
ghost use Rattle.words.specs.Words.{edition_of, holds_of, accounts_of, Padded};

use accounts::{FREE_ALL, HOLDS, QUOTAS};
use layout::QUARANTINED;
use lookup::Met;
use model::Refusal;
use words::WORDS;

// How many live blocks a block with this serial is.
// A number and no bool: it counts, as `counted` (specs/Emptying.antt) does. `is_live` in survey is the same test and is
// private there: a public function of survey for two comparisons is no plainer.
fn counted(serial: u32) -> usize
    ensures { result ≡ counted serial }
{
    if serial == 0 {
        return 0;
    }
    if serial == QUARANTINED {
        return 0;
    }
    1
}

// A block that is not kept is passed: a live one is vacated. The place behind what is left of it is given.
// The kind is a byte, as `words::kind` gives it and `writer::vacate_block` takes it: an enum would be turned back here.
fn pass_block(heap: &mut [u8], kind: u8, block: Met) -> usize
    requires { Bounded block }
    ensures leaves { heap.new ≡ passed kind false block heap.old }
    ensures ends { result ≡ passed_end kind false block heap.old }
{
    let end = block.at + block.size;
    if counted(block.serial) == 0 {
        return end;
    }
    writer::vacate_block(heap, block, kind)
}

// The live blocks that are not kept are vacated, the flags taken in the order of the live blocks.
// The index counts live blocks and not turns, so a loop over a range would not be plainer. The kind is a byte, as above.
fn free_unkept(heap: &mut [u8], kind: u8, kept: &[bool; HOLDS])
    requires { Emptiable kind kept.now heap.old }
    ensures { Emptied kind kept.now heap.old heap.new }
{
    let mut i: usize = 0;
    let mut at: usize = 0;
    while i < HOLDS {
        let Some(header) = layout::start_at(heap, at) else {
            return;
        };
        let block = Met {
            at: at,
            size: 8 * header.size,
            back: header.back,
            serial: header.serial,
        };
        let stays = kept[i];
        at = if stays {
            block.at + block.size
        } else {
            pass_block(heap, kind, block)
        };
        i += counted(header.serial);
    }
}

// The live blocks that no used record holds are vacated. The flags lie beside the index of the records that are left, and not beside the survey's.
// It stands by itself, so that its flags are on the stack only while it runs, and not beside the survey.
#[inline(never)]
pub(crate) fn free_unheld(heap: &mut [u8], words: &[u32; WORDS])
    requires { Emptiable (accounts_of words.now).kind (flags_of (holds_of words.now) heap.old) heap.old }
    ensures { Emptied (accounts_of words.now).kind (flags_of (holds_of words.now) heap.old) heap.old heap.new }
{
    let mut kept = [false; HOLDS];
    survey::held_blocks(heap, words, &mut kept);
    free_unkept(heap, words::kind(words), &kept);
}

// Every hold of a quota is given up, and all that it has spent is given back; objects that no quota holds are freed.
pub fn free_all(heap: &mut [u8], words: &mut [u32; WORDS], quota: u32) -> Result<u32, Refusal>
    ensures holds { amount_outcome heap.new (amount_result words.new result)
        ≡ free_all_of (table (edition_of words.old)) heap.old (accounts_of words.old) quota }
    ensures pads { Padded words.old words.new }
{
    survey::survey(heap, words, survey::unasked())?;
    if QUOTAS <= quota as usize {
        return Err(Refusal::QuotaNumber);
    }
    if words::permissions(words, quota) / FREE_ALL % 2 == 0 {
        return Err(Refusal::NotPermitted);
    }
    let back = words::spent(words, quota);
    words::refund(words, quota, back);
    words::drop_holds(words, quota as u8);
    free_unheld(heap, words);
    Ok(back)
}
