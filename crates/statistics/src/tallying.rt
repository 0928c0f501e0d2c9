// The walk over the blocks that tallies them: each is tallied alone, and its tally joins that of the blocks before it.
ghost use Rattle.std.specs.Prelude.{◌≡◌, ◌+◌, ◌^◌, ◌<◌, ◌≤◌, length};
ghost use Rattle.layout.specs.Blocks.{greatest_heap};
ghost use Rattle.lookup.specs.Walk.{met};
ghost use Rattle.statistics.specs.Tallies.{room_in, both_counts, single, joined, tally_of, Small, Within};

use crate::BlockCount;
use layout::QUARANTINED;

// The free, live and quarantined blocks, the bytes of the largest free block, and the greatest room from a multiple of each
// unit on: four fields, as the struct for C has them.
#[derive(Clone, Copy, Default)]
pub(crate) struct Tally {
    pub free: BlockCount,
    pub live: BlockCount,
    pub quarantined: BlockCount,
    pub largest: usize,
    pub room_8: usize,
    pub room_16: usize,
    pub room_32: usize,
    pub room_64: usize,
}

// The blocks of both.
fn both_counts(a: BlockCount, b: BlockCount) -> BlockCount
    requires { (a.blocks + b.blocks < 2 ^ 64) × (a.bytes + b.bytes < 2 ^ 64) }
    ensures { result ≡ both_counts a b }
{
    BlockCount {
        blocks: a.blocks + b.blocks,
        bytes: a.bytes + b.bytes,
    }
}

// The bytes of a free block from the lowest multiple of the unit behind its header on. The sum by hand and no
// `next_multiple_of`: the definition `multiple_from` (lookup/specs/Walk.antt) is this sum.
fn room_in(at: usize, size: usize, unit: usize) -> usize
    requires { (0 < unit) × (unit ≤ 64) × (at + size < 2 ^ 63) }
    ensures { result ≡ room_in unit (record { at = at; size = size; back = 0; serial = 0 }) }
{
    let base = (at + 8 + (unit - 1)) / unit * unit;
    (at + size).saturating_sub(base)
}

// The tally of one block.
fn single(at: usize, size: usize, serial: u32) -> Tally
    requires { at + size < 2 ^ 63 }
    ensures { result ≡ single (record { at = at; size = size; back = 0; serial = serial }) }
{
    let block = BlockCount {
        blocks: 1,
        bytes: size,
    };
    match serial {
        0 => Tally {
            free: block,
            largest: size,
            room_8: room_in(at, size, 8),
            room_16: room_in(at, size, 16),
            room_32: room_in(at, size, 32),
            room_64: room_in(at, size, 64),
            ..Tally::default()
        },
        QUARANTINED => Tally {
            quarantined: block,
            ..Tally::default()
        },
        _ => Tally {
            live: block,
            ..Tally::default()
        },
    }
}

// The tally of the blocks of both.
fn joined(a: Tally, b: Tally) -> Tally
    requires { Within (2 ^ 62) a × Within (2 ^ 62) b }
    ensures { result ≡ joined a b }
{
    let free = both_counts(a.free, b.free);
    let live = both_counts(a.live, b.live);
    let quarantined = both_counts(a.quarantined, b.quarantined);
    Tally {
        free: free,
        live: live,
        quarantined: quarantined,
        largest: a.largest.max(b.largest),
        room_8: a.room_8.max(b.room_8),
        room_16: a.room_16.max(b.room_16),
        room_32: a.room_32.max(b.room_32),
        room_64: a.room_64.max(b.room_64),
    }
}

// The tally of the blocks that the walk meets. Each header says where the next one is, so no index is counted.
pub(crate) fn walk(heap: &[u8]) -> Tally
    requires { length heap.now ≤ greatest_heap }
    ensures { result ≡ tally_of (met heap.now) }
{
    let mut tally = Tally::default();
    let mut at: usize = 0;
    loop {
        let Some(header) = layout::start_at(heap, at) else {
            return tally;
        };
        let size = 8 * header.size;
        tally = joined(tally, single(at, size, header.serial));
        at += size;
    }
}
