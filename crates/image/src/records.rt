// Hold records as an image has them: serial, quota, count and two spare bytes.
ghost use Rattle.std.specs.Prelude.{◌≡◌, ◌++◌, ◌+◌, ◌*◌, ◌≤◌, ◌<◌, ◌^◌, length, take, drop};
ghost use Rattle.accounts.specs.Accounts.{HOLDS, unused};
ghost use Rattle.words.specs.Words.{holds_of};
ghost use Rattle.layout.specs.Bytes.{bytes, overwrite};
ghost use Rattle.lists.specs.Lists.{all};
ghost use Rattle.framing.specs.Frames.{stream_of};
ghost use Rattle.image_model.specs.Items.{many, each, every};
ghost use Rattle.image_model.specs.Stream.{record_bytes, record_width, blank};
ghost use Rattle.image_model.specs.Reading.{record_of, record_right};
ghost use Rattle.image_model.specs.declared.Form.{Form};

use crate::numbers::{read_pair, read_quad};
use accounts::{HOLDS, Hold};
use words::WORDS;

// Whether no record from a place on is used.
pub(crate) fn none_used(words: &[u32; WORDS], from: usize) -> bool
    ensures { result ≡ all unused (drop from (holds_of words.now)) }
{
    for i in from..HOLDS {
        if words::hold_at(words, i).is_used() {
            return false;
        }
    }
    true
}

// A byte, written at a place of the head.
fn write_byte(head: &mut [u8], at: usize, byte: u8)
    requires { at < length head.old }
    ensures { head.new ≡ overwrite at (bytes 1 byte) head.old }
{
    head[at] = byte;
}

// A record, written at a place of the head.
fn write_record(head: &mut [u8], at: usize, hold: Hold)
    requires { at + 8 ≤ length head.old }
    ensures { head.new ≡ overwrite at (record_bytes hold) head.old }
{
    layout::write_u32(head, at, hold.serial);
    write_byte(head, at + 4, hold.quota);
    write_byte(head, at + 5, hold.count);
    layout::write_u16(head, at + 6, 0);
}

// The first records, so many of them, from a place of the head on.
// One function for these and the entries would take closures that read and write an item, and is no plainer.
pub(crate) fn write_records(head: &mut [u8], at: usize, words: &[u32; WORDS], count: usize)
    requires { (count ≤ HOLDS) × (at + count * 8 ≤ length head.old) }
    ensures { head.new ≡ overwrite at (many record_bytes (take count (holds_of words.now))) head.old }
{
    for i in 0..count {
        let hold = words::hold_at(words, i);
        write_record(head, at + i * 8, hold);
    }
}

// The record at a place of the stream.
pub(crate) fn read_record(image: &[u8], at: usize) -> Hold
    requires { at + 8 < 2 ^ 32 }
    ensures { result ≡ record_of (take record_width (drop at (stream_of image.now))) }
{
    Hold {
        serial: read_quad(image, at),
        quota: framing::stream_at(image, at + 4),
        count: framing::stream_at(image, at + 5),
    }
}

// Whether so many records from a place of the stream on have zeros in their spare bytes.
pub(crate) fn spares_right(image: &[u8], at: usize, count: usize) -> bool
    requires { (count ≤ HOLDS) × (at < 65536) }
    ensures { result ≡ every record_right record_width count (drop at (stream_of image.now)) }
{
    for i in 0..count {
        if read_pair(image, at + i * 8 + 6) != 0 {
            return false;
        }
    }
    true
}
