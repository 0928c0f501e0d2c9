// Opening a heap (rules 8.2 to 8.4): its bytes are cleared, and its accounts begin.
ghost use Rattle.std.specs.Prelude.{◌≡◌, ◌/◌};
ghost use Rattle.layout.specs.Bytes.{zero_part};
ghost use Rattle.layout.specs.Blocks.{write_header};
ghost use Rattle.words.specs.Words.{Unpadded};
ghost use Rattle.model.specs.Calls.{open_heap};
ghost use Rattle.results.specs.Results.{opened_outcome, opened_result};

use accounts::{QUOTAS, Settings};
use layout::Header;
use model::Refusal;
use words::WORDS;

// Rule 8.2: zeros everywhere, and at offset 0 the header of one free block.
pub(crate) fn clear(heap: &mut [u8], len: usize)
    ensures { heap.new ≡ write_header 0 (record { size = len / 8; back = 0; serial = 0 }) (zero_part 0 len heap.old) }
{
    layout::zero_part(heap, 0, len);
    let header = Header {
        size: len / 8,
        back: 0,
        serial: 0,
    };
    layout::write_header(heap, 0, header);
}

// One free block covers the heap, and every quota has its grant; or the length is not allowed, no byte changes, and the accounts are zero. All words are
// set, padding to zero.
pub fn open(
    heap: &mut [u8],
    words: &mut [u32; WORDS],
    grants: [u32; QUOTAS],
    settings: Settings,
) -> Result<(), Refusal>
    ensures holds { opened_outcome heap.new (opened_result words.new result) ≡ open_heap settings heap.old grants }
    ensures pads { Unpadded words.new }
{
    let len = heap.len();
    if !model::is_allowed(len) {
        words::clear(words);
        return Err(Refusal::HeapLength);
    }
    clear(heap, len);
    words::open(words, grants, settings);
    Ok(())
}
