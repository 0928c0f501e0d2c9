// What an image says, asked for with no heap lent.
ghost use Rattle.std.specs.Prelude.{◌≡◌};
ghost use Rattle.image_model.specs.Stream.{head_length};
ghost use Rattle.image_model.specs.Reading.{form_of, size_in, accounts_in};
ghost use Rattle.image.specs.Parsing.{examined_in, parts_of};

use crate::forms::{form_1, form_numbered, heap_at};
use crate::numbers::{read_pair, read_quad};
use crate::parsing::{parse_image, read_accounts, refused};
use crate::reading::is_consistent;
use crate::{HeapPlace, Parsed};
use accounts::Accounts;
use image_model::{Form, ImageRefusal};

// The form that an image is read as, whatever its bytes are.
pub fn form_of(image: &[u8]) -> Form
    ensures { result ≡ form_of image.now }
{
    form_numbered(read_pair(image, 0)).unwrap_or(form_1())
}

// The accounts that an image says, whatever its bytes are: nothing is judged. `comparison` asks it of images that it
// has examined; no header has it.
pub fn accounts_in(image: &[u8]) -> Accounts
    ensures { result ≡ accounts_in image.now }
{
    read_accounts(image, form_of(image))
}

// Where in its stream an image has the heap, and how long it says the heap is, whatever its bytes are.
pub fn heap_place(image: &[u8]) -> HeapPlace
    ensures { result ≡ record { start = head_length (form_of image.now); size = size_in image.now } }
{
    let form = form_of(image);
    HeapPlace {
        start: heap_at(form) as u32,
        size: read_quad(image, 4),
    }
}

// What an image says, and whether its heap and accounts are consistent: all that the reader tests but the lent heap's length.
pub fn examine(image: &[u8]) -> Parsed
    ensures { parts_of result ≡ examined_in image.now }
{
    let parsed = parse_image(image);
    let Ok((form, size)) = parsed.shape else {
        return parsed;
    };
    let from = heap_at(form) as u16;
    if !is_consistent(image, from, size, parsed.accounts) {
        return refused(ImageRefusal::Unsound);
    }
    parsed
}
