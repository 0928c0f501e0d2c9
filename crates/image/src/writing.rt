// The writer for accounts by value, and how long an image is.
ghost use Rattle.std.specs.Prelude.{◌≡◌};
ghost use Rattle.image_model.specs.Stream.{form_1, form_2};
ghost use Rattle.image_model.specs.Answers.{imaged};
ghost use Rattle.image_model.specs.Images.{write_image};
ghost use Rattle.image.specs.Parsing.{FormFits, length_for};

use crate::forms::{form_1, form_2, heap_at};
use crate::in_place;
use accounts::Accounts;
use image_model::{Form, ImageRefusal};

// The length of an image of a heap of so many bytes in a form, 0 where no heap has that length. 0 and no None:
// lokhazim_image_length gives it to C, and `length_for` (specs/Parsing.antt) says it.
fn length_in(form: Form, size: usize) -> usize
    requires { FormFits form }
    ensures { result ≡ length_for form size }
{
    if !model::is_allowed(size) {
        return 0;
    }
    let end = heap_at(form) + size;
    512 * end.div_ceil(504)
}

// The same in form 2, which `write_image` writes, and in form 1.
pub fn image_length(size: usize) -> usize
    ensures { result ≡ length_for form_2 size }
{
    length_in(form_2(), size)
}

pub fn form_1_length(size: usize) -> usize
    ensures { result ≡ length_for form_1 size }
{
    length_in(form_1(), size)
}

// The image of a heap and its accounts in form 2, written at the front of a lent one; its other bytes stay.
pub fn write_image(image: &mut [u8], heap: &[u8], accounts: Accounts) -> Result<usize, ImageRefusal>
    ensures { imaged image.new result ≡ write_image form_2 image.old heap.now accounts }
{
    let words = words::words_of(accounts);
    in_place::write_image(image, heap, &words)
}

// The same in form 1, which not all accounts fit.
pub fn write_form_1(
    image: &mut [u8],
    heap: &[u8],
    accounts: Accounts,
) -> Result<usize, ImageRefusal>
    ensures { imaged image.new result ≡ write_image form_1 image.old heap.now accounts }
{
    let words = words::words_of(accounts);
    in_place::write_form_1(image, heap, &words)
}
