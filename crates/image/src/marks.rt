// The two bytes behind a form's number: in a full form the edition and the kind, in another one two zero bytes.
ghost use Rattle.std.specs.Prelude.{◌≡◌, ◌++◌, cond, ◌<◌, get_or, replicate};
ghost use Rattle.layout.specs.Bytes.{bytes};
ghost use Rattle.framing.specs.Frames.{stream_of};
ghost use Rattle.image_model.specs.Stream.{marks_right};
ghost use Rattle.image_model.specs.Reading.{marks_in};

use crate::numbers::read_pair;
use image_model::Form;

// The two bytes as one number. Bytes and no enums: `words::kind` and `words::edition` give bytes, and bytes are
// written.
pub(crate) fn marks(form: Form, kind: u8, edition: u8) -> u32
    ensures { (bytes 2 result ≡ cond form.full (bytes 1 edition ++ bytes 1 kind) (replicate 2 0)) × (result < 65536) }
{
    if !form.full {
        return 0;
    }
    u32::from(edition) + 256 * u32::from(kind)
}

// Whether the two bytes of an image are right.
pub(crate) fn marks_right(image: &[u8], form: Form) -> bool
    ensures { result ≡ marks_right form (marks_in (stream_of image.now)) }
{
    if !form.full {
        return read_pair(image, 2) == 0;
    }
    if 2 <= framing::stream_at(image, 2) {
        return false;
    }
    framing::stream_at(image, 3) < 2
}

// The kind that an image says; a form that is not full says that the heap is plain. A byte: `accounts_in` reads an image
// whatever its bytes are.
pub(crate) fn read_kind(image: &[u8], form: Form) -> u8
    ensures { result ≡ cond form.full (get_or (stream_of image.now) 3 0) 0 }
{
    if !form.full {
        return 0;
    }
    framing::stream_at(image, 3)
}

// The edition that an image says; a form that is not full says edition 1. A byte, as the kind is.
pub(crate) fn read_edition(image: &[u8], form: Form) -> u8
    ensures { result ≡ cond form.full (get_or (stream_of image.now) 2 0) 0 }
{
    if !form.full {
        return 0;
    }
    framing::stream_at(image, 2)
}
