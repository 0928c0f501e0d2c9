// The writes that carving and freeing share.
ghost use Rattle.std.specs.Prelude.{◌≡◌, ◌+◌, ◌^◌, ◌≤◌, ◌<◌};
ghost use Rattle.writer.specs.Writes.{write_object, write_next};

use layout::Header;

// An object's zero bytes, and its header in front of them.
pub(crate) fn put_object(heap: &mut [u8], base: usize, length: usize, back: usize, serial: u32)
    requires { (8 ≤ base) × (base + length < 2 ^ 32) }
    ensures { heap.new ≡ write_object base length back serial heap.old }
{
    layout::zero_part(heap, base, base + length);
    let header = Header {
        size: (length + 8) / 8,
        back: back,
        serial: serial,
    };
    layout::write_header(heap, base - 8, header);
}

// The back size of the block that starts at a place, if one does.
pub(crate) fn put_next(heap: &mut [u8], at: usize, back: usize)
    requires { (at < 2 ^ 32) × (back < 2 ^ 32) }
    ensures { heap.new ≡ write_next at back heap.old }
{
    if at < heap.len() {
        layout::write_u16(heap, at + 2, back as u32);
    }
}
