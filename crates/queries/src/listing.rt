// The listing (rules 8.32 and 8.33): the block that starts at a place, found by the walk from offset 0.
ghost use Rattle.std.specs.Prelude.{◌≡◌};
ghost use Rattle.model.specs.Answers.{block_values};
ghost use Rattle.rounding.specs.Rounding.{table};
ghost use Rattle.model.specs.Calls.{list_block};
ghost use Rattle.results.specs.Results.{outcome};
ghost use Rattle.queries.specs.Listing.{find_block};
ghost use Rattle.words.specs.Words.{edition_of, accounts_of};

use crate::query::check;
use model::{ListedBlock, Refusal};
use words::WORDS;

// The block that the walk meets at a place.
// A walk: each header says where the next one starts, and no index is counted, so a loop over a range is not plainer.
pub(crate) fn find_block(heap: &[u8], at: usize) -> Result<Option<ListedBlock>, Refusal>
    ensures { result ≡ find_block at heap.now }
{
    let mut place: usize = 0;
    while let Some(header) = layout::start_at(heap, place) {
        let size = 8 * header.size;
        if place == at {
            return Ok(Some(ListedBlock {
                offset: place,
                size: size,
                serial: header.serial,
            }));
        }
        place += size;
    }
    Ok(None)
}

// The block that starts at a place of the heap, if one does.
pub fn list_block(
    heap: &[u8],
    words: &[u32; WORDS],
    at: usize,
) -> Result<Option<ListedBlock>, Refusal>
    ensures { outcome heap.now (accounts_of words.now) (block_values result)
        ≡ list_block (table (edition_of words.now)) heap.now (accounts_of words.now) at }
{
    check(heap, words)?;
    find_block(heap, at)
}
