// Freeing (rules 8.18 and 8.19): a live block becomes free and joins its free neighbours.
ghost use Rattle.std.specs.Prelude.{◌≡◌, ◌+◌, ◌^◌, ◌≤◌, ◌<◌};
ghost use Rattle.layout.specs.Blocks.{greatest_heap};
ghost use Rattle.writer.specs.Writes.{join_bytes};
ghost use Rattle.writer.specs.Freeing.{Inside, room_at, joined_bytes, free_block, free_end, is_inside, vacate_block, vacate_end, vacate_in, vacate_end_in};
ghost use Rattle.writer.specs.Freeing.{unquarantine_block, unquarantine_in, free_end_in};

use crate::writing::{put_next, put_object};
use layout::{GREATEST_HEAP, Header, QUARANTINED};
use lookup::Met;

// What a header says of a block: its bytes if it is free, else 0, and the units of the block before it.
#[derive(Clone, Copy)]
struct Room {
    free: usize,
    back: usize,
}

// Two blocks that stand side by side become one free block; nothing is written where one of them has no bytes.
fn join(heap: &mut [u8], start: usize, mid: usize, stop: usize, back: usize)
    requires { stop < 2 ^ 32 }
    ensures { heap.new ≡ join_bytes start mid stop back heap.old }
{
    if mid <= start {
        return;
    }
    if stop <= mid {
        return;
    }
    let size = (stop - start) / 8;
    layout::zero_part(heap, mid, mid + 8);
    layout::write_header(
        heap,
        start,
        Header {
            size: size,
            back: back,
            serial: 0,
        },
    );
    put_next(heap, stop, size);
}

// The room at a place.
fn room_at(heap: &[u8], at: usize) -> Room
    ensures { result ≡ room_at at heap.now }
{
    let Some(header) = layout::start_at(heap, at) else {
        return Room { free: 0, back: 0 };
    };
    if header.serial != 0 {
        return Room {
            free: 0,
            back: header.back,
        };
    }
    Room {
        free: 8 * header.size,
        back: header.back,
    }
}

// A block that has become free joins its free neighbours, so many bytes behind it among them; the end of the free block that this makes is given.
fn join_neighbours(heap: &mut [u8], block: Met, front: Room, behind: usize) -> usize
    requires { (front.free ≤ block.at) × (block.at + block.size + behind ≤ greatest_heap) }
    ensures joins { heap.new ≡ joined_bytes block front behind heap.old }
    ensures ends { result ≡ block.at + block.size + behind }
{
    let end = block.at + block.size;
    let start = block.at - front.free;
    let stop = end + behind;
    join(heap, block.at, end, stop, block.back);
    join(heap, start, block.at, stop, front.back);
    stop
}

// A live block becomes free and joins its free neighbours; the end of the free block that this makes is given. The first
// block has no other in front of it and meets itself there, which is not free. That the block lies inside is a clause and
// no type, here and below: it speaks of the block and of the heap, and the heap changes.
fn make_free(heap: &mut [u8], block: Met) -> usize
    requires { Inside block heap.old }
    ensures frees { heap.new ≡ free_block block heap.old }
    ensures ends { result ≡ free_end block heap.old }
{
    let front = room_at(heap, block.at - 8 * block.back);
    let behind = room_at(heap, block.at + block.size);
    put_object(heap, block.at + 8, block.size - 8, block.back, 0);
    join_neighbours(heap, block, front, behind.free)
}

// Whether a block and the one in front of it lie in a heap of an allowed length.
fn is_inside(heap: &[u8], block: Met) -> bool
    ensures { result ≡ is_inside block heap.now }
{
    let len = heap.len();
    if GREATEST_HEAP < len {
        return false;
    }
    if len < block.at {
        return false;
    }
    if len - block.at < block.size {
        return false;
    }
    if block.size < 8 {
        return false;
    }
    if block.at / 8 < block.back {
        return false;
    }
    let front = room_at(heap, block.at - 8 * block.back);
    front.free <= block.at
}

// Rules 8.18 and 22.3, what becomes of a live block that nobody holds: in a plain heap it is free and joins, else it
// waits. The end of the block that this makes is given. The kind is a number, as `vacate_block` has it.
fn make_vacant(heap: &mut [u8], block: Met, kind: u8) -> usize
    requires { Inside block heap.old }
    ensures leaves { heap.new ≡ vacate_block kind block heap.old }
    ensures ends { result ≡ vacate_end kind block heap.old }
{
    if kind == 0 {
        return make_free(heap, block);
    }
    let at = block.at;
    let size = block.size;
    put_object(heap, at + 8, size - 8, block.back, QUARANTINED);
    at + size
}

// The same; nothing is written, and 0 is given, where the block does not lie in the heap: 0 and no `None`, since its
// clause `ends` promises that, which docs/PROMISES-QUARANTINE.md names. The kind is a number: its clauses `leaves` and
// `ends` promise what they do for every number.
pub fn vacate_block(heap: &mut [u8], block: Met, kind: u8) -> usize
    ensures leaves { heap.new ≡ vacate_in kind block heap.old }
    ensures ends { result ≡ vacate_end_in kind block heap.old }
{
    if !is_inside(heap, block) {
        return 0;
    }
    make_vacant(heap, block, kind)
}

// Rule 22.6: a quarantined block becomes free with the bytes that it has, and joins its free neighbours; the end of the free
// block that this makes is given. It shares `room_at` and `join_neighbours` with `make_free`, and its one write is another.
fn make_unquarantined(heap: &mut [u8], block: Met) -> usize
    requires { Inside block heap.old }
    ensures frees { heap.new ≡ unquarantine_block block heap.old }
    ensures ends { result ≡ free_end block heap.old }
{
    let front = room_at(heap, block.at - 8 * block.back);
    let behind = room_at(heap, block.at + block.size);
    let header = Header {
        size: block.size / 8,
        back: block.back,
        serial: 0,
    };
    layout::write_header(heap, block.at, header);
    join_neighbours(heap, block, front, behind.free)
}

// The same; nothing is written, and 0 is given, where the block does not lie in the heap. The 0 and the guard are those
// of `vacate_block`: a function that takes what follows it as a closure would be no shorter.
pub fn unquarantine_block(heap: &mut [u8], block: Met) -> usize
    ensures frees { heap.new ≡ unquarantine_in block heap.old }
    ensures ends { result ≡ free_end_in block heap.old }
{
    if !is_inside(heap, block) {
        return 0;
    }
    make_unquarantined(heap, block)
}
