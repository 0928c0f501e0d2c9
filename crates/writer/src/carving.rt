// Carving (rules 8.7 and 8.8): an object is cut out of a free block, whose two ends stay free.
ghost use Rattle.std.specs.Prelude.{◌≡◌, ◌+◌};
ghost use Rattle.writer.specs.Writes.{write_rest, units_after, carve_bytes};
ghost use Rattle.writer.specs.Carving.{Room, has_room, carve_in};

use crate::writing::{put_next, put_object};
use layout::{GREATEST_HEAP, Header};
use lookup::Met;

// The header of `count` free bytes at a place, if there are any.
fn write_rest(heap: &mut [u8], at: usize, count: usize, back: usize)
    ensures { heap.new ≡ write_rest at count back heap.old }
{
    if 0 < count {
        let header = Header {
            size: count / 8,
            back: back,
            serial: 0,
        };
        layout::write_header(heap, at, header);
    }
}

// The units of the block in front of what follows `count` free bytes.
fn units_after(back: usize, count: usize) -> usize
    ensures { result ≡ units_after back count }
{
    if 0 < count {
        return count / 8;
    }
    back
}

// The writes that cut an object out of a free block.
fn cut(heap: &mut [u8], block: Met, base: usize, length: usize, serial: u32)
    requires { Room block base length }
    ensures { heap.new ≡ carve_bytes block.at (block.at + block.size) base length block.back serial heap.old }
{
    let at = block.at;
    let back = block.back;
    let end = at + block.size;
    let front = base - 8 - at;
    let behind = end - (base + length);
    let own = (length + 8) / 8;
    write_rest(heap, at, front, back);
    put_object(heap, base, length, units_after(back, front), serial);
    write_rest(heap, base + length, behind, own);
    put_next(heap, end, units_after(own, behind));
}

// Whether an object with its header lies in a block, and the block in a heap of an allowed length.
fn has_room(block: Met, base: usize, length: usize) -> bool
    ensures { result ≡ has_room block base length }
{
    if GREATEST_HEAP < block.at {
        return false;
    }
    if GREATEST_HEAP - block.at < block.size {
        return false;
    }
    if base < block.at + 8 {
        return false;
    }
    let end = block.at + block.size;
    if end < base {
        return false;
    }
    length <= end - base
}

// An object of `length` zero bytes is cut out of a free block; nothing is written where it does not lie in the block.
pub fn carve(heap: &mut [u8], block: Met, base: usize, length: usize, serial: u32)
    ensures { heap.new ≡ carve_in block base length serial heap.old }
{
    if has_room(block, base, length) {
        cut(heap, block, base, length, serial);
    }
}
