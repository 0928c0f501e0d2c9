// Which live blocks a record holds, asked of the records' index.
ghost use Rattle.std.specs.Prelude.{◌≡◌, not, ◌&&◌, length, ◌==◌};
ghost use Rattle.accounts.specs.Accounts.{HOLDS};
ghost use Rattle.layout.specs.Blocks.{QUARANTINED};
ghost use Rattle.words.specs.Words.{holds_of};
ghost use Rattle.survey.specs.Holders.{counts_held, held_flags, put_flags, Indexed};

use crate::indexing::{HoldIndex, used_top};
use accounts::HOLDS;
use layout::QUARANTINED;
use words::WORDS;

// Whether a block with this serial is live. A bool, where `counted` of crate holding gives how many blocks that are.
fn is_live(serial: u32) -> bool
    ensures { result ≡ (not (serial == 0) && not (serial == QUARANTINED)) }
{
    if serial == 0 {
        return false;
    }
    serial != QUARANTINED
}

// Whether a used record has the serial; true where the records are not all well-formed.
// The flag is one: the index lies in the caller's frame, whole or not, and an `Option` of a reference to it would be
// made of the two at one call, and be taken apart at the next.
fn is_held(words: &[u32; WORDS], index: &HoldIndex, fine: bool, serial: u32) -> bool
    requires { Indexed words.now fine index.now.heads index.now.links }
    ensures { result ≡ counts_held (holds_of words.now) serial }
{
    if !fine {
        return true;
    }
    index.on_path(words, serial, |_| true).is_some()
}

// The walk over the blocks that puts a flag for each live one.
// A `while`: each header says where the next block is, and a block that is not live has no flag.
// `fine` is a flag, as in `is_held`.
fn put_flags(
    heap: &[u8],
    words: &[u32; WORDS],
    index: &HoldIndex,
    fine: bool,
    kept: &mut [bool; HOLDS],
)
    requires { Indexed words.now fine index.now.heads index.now.links }
    ensures { kept.new ≡ put_flags 0 (held_flags (holds_of words.now) heap.now) kept.old }
{
    let mut i: usize = 0;
    let mut at: usize = 0;
    while i < HOLDS {
        let Some(header) = layout::start_at(heap, at) else {
            return;
        };
        let serial = header.serial;
        at += 8 * header.size;
        if is_live(serial) {
            kept[i] = is_held(words, index, fine, serial);
            i += 1;
        }
    }
}

// For each live block in order whether a used record has its serial, as many as there are flags; the flags behind them
// stay as they are. Where a record is not well-formed, every block counts as held.
// It stands by itself, so that its index is on the stack only while it runs, and not beside the survey's.
#[inline(never)]
pub fn held_blocks(heap: &[u8], words: &[u32; WORDS], kept: &mut [bool; HOLDS])
    ensures { kept.new ≡ put_flags 0 (held_flags (holds_of words.now) heap.now) kept.old }
{
    let mut index = HoldIndex::empty();
    let top = used_top(words);
    let low = index.enter_all(words, top);
    put_flags(heap, words, &index, low.is_some(), kept);
}
