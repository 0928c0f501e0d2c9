// The verdict on a heap that lies in the frames of an image: the survey's index, and a walk that reads the headers out
// of the stream.
ghost use Rattle.std.specs.Prelude.{◌≡◌, ◌<◌, ◌≤◌, true, drop};
ghost use Rattle.rounding.specs.Rounding.{table};
ghost use Rattle.layout.specs.Blocks.{header_at};
ghost use Rattle.framing.specs.Frames.{padded, stream_of};
ghost use Rattle.model.specs.Answers.{verdict_values};
ghost use Rattle.model.specs.Consistent.{allowed};
ghost use Rattle.model.specs.Calls.{check as check_of};
ghost use Rattle.words.specs.Words.{edition_of, accounts_of};
ghost use Rattle.survey.specs.Clauses.{ReadyFor, judged_whole, heap_in};

use crate::begin;
use crate::indexing::HoldIndex;
use crate::numbers::Numbers;
use crate::settling::Unsettled;
use accounts::QUOTAS;
use layout::Header;
use model::Refusal;
use words::WORDS;

// The header of the eight bytes at a place of an image's stream.
fn header_in(image: &[u8], at: u32) -> Header
    ensures { (result ≡ header_at 0 (padded 8 (drop at (stream_of image.now)))) × (result.size < 65536) }
{
    let mut bytes = [0u8; 8];
    framing::copy_stream(image, at, &mut bytes);
    layout::header_at(&bytes, 0)
}

// The walk over the blocks of the heap that has so many bytes of the stream from a place on: whether the heap is cut
// into blocks, each as it must be and with an object that fits its unit, and then no record is open and no quota owes
// anything. It shares `visit` with `walk`, and not the loop: it copies each header out of the stream, where `walk` has
// the rest of a slice, and it seeks no room.
// A `while`: each header says where the next one is.
fn walk_frames(
    image: &[u8],
    from: u16,
    size: usize,
    words: &[u32; WORDS],
    unsettled: &mut Unsettled,
    numbers: Numbers,
) -> bool
    requires { (allowed size ≡ true) × ReadyFor words.now unsettled.old }
    ensures { result ≡ judged_whole numbers (heap_in from size image.now) words.now unsettled.old }
{
    let start = from as usize;
    let mut at: usize = 0;
    let mut back: usize = 0;
    let mut before: u32 = 1;
    while at + 8 <= size {
        let header = header_in(image, (start + at) as u32);
        let bytes = 8 * header.size;
        if size - at < bytes {
            return false;
        }
        if header.back != back {
            return false;
        }
        let serial = header.serial;
        let end = at + bytes;
        if !unsettled.visit(words, numbers, before, serial, bytes, end, 0) {
            return false;
        }
        before = serial;
        back = header.size;
        at = end;
    }
    unsettled.is_settled()
}

// Rule 8.35, the verdict on the heap that has so many bytes of an image's stream from a place on, and its accounting
// state: as `check` gives it for a heap in one piece.
pub fn check_in_frames(
    image: &[u8],
    from: u16,
    size: usize,
    words: &[u32; WORDS],
) -> Result<(), Refusal>
    ensures { verdict_values result ≡ (check_of (table (edition_of words.now)) (padded size (drop from (stream_of image.now)))
        (accounts_of words.now)).values }
{
    if !model::is_allowed(size) {
        return Err(Refusal::HeapLength);
    }
    let mut unsettled = Unsettled {
        index: HoldIndex::empty(),
        owed: [0; QUOTAS],
    };
    let Some(begun) = begin(words, &mut unsettled) else {
        return Err(Refusal::Inconsistent);
    };
    if !walk_frames(image, from, size, words, &mut unsettled, begun.numbers) {
        return Err(Refusal::Inconsistent);
    }
    Ok(())
}
