// What an image says by its own bytes.
ghost use Rattle.std.specs.Prelude.{◌≡◌, drop};
ghost use Rattle.accounts.specs.Accounts.{zero_accounts};
ghost use Rattle.framing.specs.Frames.{stream_of};
ghost use Rattle.image_model.specs.Items.{all_zero};
ghost use Rattle.image_model.specs.Reading.{accounts_of, contents_right, form_of, length_in};
ghost use Rattle.image.specs.Parsing.{FormFits, shape_parts, parts_in, parts_of};

use crate::Parsed;
use crate::entries::entries_right;
use crate::forms::{entry_at, form_numbered, heap_at};
use crate::in_place::put_accounts;
use crate::marks::marks_right;
use crate::numbers::{read_pair, read_quad};
use crate::records::spares_right;
use accounts::Accounts;
use image_model::{Form, ImageRefusal};
use words::WORDS;

// Whether all bytes of the stream from a place on are zero.
fn zero_from(image: &[u8], from: usize) -> bool
    ensures { result ≡ all_zero (drop from (stream_of image.now)) }
{
    let end = image.len() / 512 * 504;
    for at in from..end {
        if framing::stream_at(image, at) != 0 {
            return false;
        }
    }
    true
}

// Whether the heap's length is allowed, the frames are as many as it needs, and the bytes that carry nothing are right.
fn contents_right(image: &[u8], form: Form, size: usize) -> bool
    requires { FormFits form × (form ≡ form_of image.now) × (size ≡ length_in (stream_of image.now)) }
    ensures { result ≡ contents_right image.now }
{
    if !model::is_allowed(size) {
        return false;
    }
    let end = heap_at(form) + size;
    if image.len() / 512 != end.div_ceil(504) {
        return false;
    }
    if !zero_from(image, end) {
        return false;
    }
    if !entries_right(image, form) {
        return false;
    }
    spares_right(image, entry_at(form.quotas, form), form.records)
}

// The accounts that an image of a form says.
// It stands by itself: a comparison reads both images' accounts at each step, and has 20 KB of code more with a copy of
// this in each.
#[inline(never)]
pub(crate) fn read_accounts(image: &[u8], form: Form) -> Accounts
    requires { FormFits form }
    ensures { result ≡ accounts_of form (stream_of image.now) }
{
    let mut words = [0u32; WORDS];
    put_accounts(&mut words, image, form);
    words::accounts_of(&words)
}

// An image that is refused.
pub(crate) fn refused(refusal: ImageRefusal) -> Parsed
    ensures { result ≡ record { accounts = zero_accounts; shape = Err refusal } }
{
    Parsed {
        accounts: Accounts::zero(),
        shape: Err(refusal),
    }
}

// What an image is by its own bytes, whatever they are: the parts that it has but its accounts.
pub fn shape_of(image: &[u8]) -> Result<(Form, usize), ImageRefusal>
    ensures { shape_parts result (parts_in image.now).accounts ≡ parts_in image.now }
{
    if image.len() == 0 {
        return Err(ImageRefusal::ImageLength);
    }
    if image.len() % 512 != 0 {
        return Err(ImageRefusal::ImageLength);
    }
    if !framing::all_right(image) {
        return Err(ImageRefusal::FrameWrong);
    }
    let form = form_numbered(read_pair(image, 0)).ok_or(ImageRefusal::FormNumber)?;
    if !marks_right(image, form) {
        return Err(ImageRefusal::FormNumber);
    }
    let size = read_quad(image, 4) as usize;
    if !contents_right(image, form, size) {
        return Err(ImageRefusal::Contents);
    }
    Ok((form, size))
}

// What an image says by its own bytes, whatever they are.
pub fn parse_image(image: &[u8]) -> Parsed
    ensures { parts_of result ≡ parts_in image.now }
{
    match shape_of(image) {
        Ok((form, size)) => Parsed {
            accounts: read_accounts(image, form),
            shape: Ok((form, size)),
        },
        Err(refusal) => refused(refusal),
    }
}
