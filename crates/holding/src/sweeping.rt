// Sweep (rules 22.6 to 22.8): every quarantined block becomes free and joins its free neighbours. One walk does it and adds up their sizes.
ghost use Rattle.std.specs.Prelude.{◌≡◌};
ghost use Rattle.rounding.specs.Rounding.{table};
ghost use Rattle.model.specs.Calls.{sweep as sweep_of};
ghost use Rattle.lookup.specs.Walk.{Bounded};
ghost use Rattle.results.specs.Results.{amount_outcome, amount_result};
ghost use Rattle.holding.specs.Sweeping.{quarantined_size, swept_bytes, swept_end, Sweepable, Swept};
ghost use Rattle.words.specs.Words.{edition_of, accounts_of};

use layout::QUARANTINED;
use lookup::Met;
use model::Refusal;
use words::WORDS;

// The bytes of a block that is quarantined, else 0.
fn quarantined_size(serial: u32, size: usize) -> usize
    ensures { result ≡ quarantined_size serial size }
{
    if serial == QUARANTINED {
        return size;
    }
    0
}

// A block is passed: a quarantined one becomes free and joins. The place behind what is left of it is given.
fn sweep_block(heap: &mut [u8], block: Met) -> usize
    requires { Bounded block }
    ensures leaves { heap.new ≡ swept_bytes block heap.old }
    ensures ends { result ≡ swept_end block heap.old }
{
    let end = block.at + block.size;
    if block.serial != QUARANTINED {
        return end;
    }
    writer::unquarantine_block(heap, block)
}

// All quarantined blocks become free, and the sum of their sizes is given.
// A walk: each header says where the next one starts, and no index is counted, so a loop over a range is not plainer.
pub(crate) fn sweep_blocks(heap: &mut [u8]) -> usize
    requires { Sweepable heap.old }
    ensures { Swept heap.old heap.new result }
{
    let mut sum: usize = 0;
    let mut at: usize = 0;
    while let Some(header) = layout::start_at(heap, at) {
        let block = Met {
            at: at,
            size: 8 * header.size,
            back: header.back,
            serial: header.serial,
        };
        at = sweep_block(heap, block);
        sum += quarantined_size(header.serial, 8 * header.size);
    }
    sum
}

// Every quarantined block becomes free, and the sum of their sizes is answered. No word changes.
pub fn sweep(heap: &mut [u8], words: &[u32; WORDS]) -> Result<u32, Refusal>
    ensures { amount_outcome heap.new (amount_result words.now result)
        ≡ sweep_of (table (edition_of words.now)) heap.old (accounts_of words.now) }
{
    survey::survey(heap, words, survey::unasked())?;
    let sum = sweep_blocks(heap);
    Ok(sum as u32)
}
