// Images of a heap: each function is the one of `image` or `conversion` and its answer as numbers.
ghost use Rattle.std.specs.Prelude.{◌≡◌, ℕ, List};
ghost use Rattle.accounts.specs.declared.Accounts.{Accounts};
ghost use Rattle.words.specs.Words.{accounts_of, Unpadded};
ghost use Rattle.image_model.specs.Answers.{imaged, image_refusal_number};
ghost use Rattle.image_model.specs.Stream.{form_1, form_2};
ghost use Rattle.image_model.specs.Images.{write_image, read_image, restore_image};
ghost use Rattle.image.specs.Parsing.{length_for, shape_parts};
ghost use Rattle.image.specs.Restoring.{Left};
ghost use Rattle.conversion.specs.Moves.{move_up, move_down};
ghost use Rattle.exports.specs.ImageReplies.{image_reply, read_into, examine_reply, examine};

use crate::replies::{Numbered, number_of};
use image_model::{Form, ImageRefusal};
use words::WORDS;

// What the writer and a move give: how many bytes they wrote.
#[repr(C)]
#[derive(Clone, Copy)]
pub struct ImageReply {
    pub refusal: u32,
    pub length: usize,
}

// What an image is by its own bytes: its form's number and its heap's length.
#[repr(C)]
#[derive(Clone, Copy)]
pub struct ExamineReply {
    pub refusal: u32,
    pub form: u32,
    pub heap_length: usize,
}

// The reply of the writer. A C struct of its own, as in `replies`.
fn reply_of_write(answer: Result<usize, ImageRefusal>) -> ImageReply
    ensures { (o : List ℕ) → image_reply o result ≡ imaged o answer }
{
    match answer {
        Ok(length) => ImageReply {
            refusal: 0,
            length: length,
        },
        Err(refusal) => ImageReply {
            refusal: refusal.number(),
            length: 0,
        },
    }
}

impl Numbered for ImageRefusal {
    ghost numbered = { image_refusal_number };

    fn told(self) -> u32 {
        self.number()
    }
}

// The reply on an image's own bytes.
fn reply_of_shape(shape: Result<(Form, usize), ImageRefusal>) -> ExamineReply
    ensures { (k : Accounts) → result ≡ examine_reply (shape_parts shape k) }
{
    match shape {
        Ok((form, size)) => ExamineReply {
            refusal: 0,
            form: form.number,
            heap_length: size,
        },
        Err(refusal) => ExamineReply {
            refusal: refusal.number(),
            form: 0,
            heap_length: 0,
        },
    }
}

// The image of a heap and its accounts in form 2, at the front of the lent one; its other bytes stay.
#[unsafe(no_mangle)]
pub extern "C" fn lokhazim_raw_image_write(
    image: &mut [u8],
    heap: &[u8],
    words: &[u32; WORDS],
) -> ImageReply
    ensures { image_reply image.new result
        ≡ write_image form_2 image.old heap.now (accounts_of words.now) }
{
    reply_of_write(image::in_place::write_image(image, heap, words))
}

// The same in form 1, which not all accounts fit.
#[unsafe(no_mangle)]
pub extern "C" fn lokhazim_raw_image_write_form_1(
    image: &mut [u8],
    heap: &[u8],
    words: &[u32; WORDS],
) -> ImageReply
    ensures { image_reply image.new result
        ≡ write_image form_1 image.old heap.now (accounts_of words.now) }
{
    reply_of_write(image::in_place::write_form_1(image, heap, words))
}

// The heap of an image into the lent heap, and its accounts into the words: the refusal's number, and then the heap stays
// as it is and the accounts are zero.
#[unsafe(no_mangle)]
pub extern "C" fn lokhazim_raw_image_resume(
    image: &[u8],
    heap: &mut [u8],
    words: &mut [u32; WORDS],
) -> u32
    ensures holds { read_into heap.new words.new result
        ≡ read_image image.now heap.old }
    ensures pads { Unpadded words.new }
{
    number_of(image::in_place::read_image(image, heap, words))
}

// The same where heap and accounts are in use: where it is refused, every byte and every word stays as it is.
#[unsafe(no_mangle)]
pub extern "C" fn lokhazim_raw_image_restore(
    image: &[u8],
    heap: &mut [u8],
    words: &mut [u32; WORDS],
) -> u32
    ensures holds { read_into heap.new words.new result
        ≡ restore_image image.now heap.old (accounts_of words.old) }
    ensures leaves { Left result words.old words.new }
{
    number_of(image::in_place::restore_image(image, heap, words))
}

// The image in form 2 of the state that an image of form 1 says, at the front of the lent bytes; the others stay.
#[unsafe(no_mangle)]
pub extern "C" fn lokhazim_image_move_up(image: &[u8], out: &mut [u8]) -> ImageReply
    ensures { image_reply out.new result ≡ move_up image.now out.old }
{
    reply_of_write(conversion::move_up(image, out))
}

// The image in form 1 of the state that an image of form 2 says, which not every state fits.
#[unsafe(no_mangle)]
pub extern "C" fn lokhazim_image_move_down(image: &[u8], out: &mut [u8]) -> ImageReply
    ensures { image_reply out.new result ≡ move_down image.now out.old }
{
    reply_of_write(conversion::move_down(image, out))
}

// How many bytes an image in form 2 has of a heap of `heap_length` bytes, 0 where no heap has that length.
#[unsafe(no_mangle)]
pub extern "C" fn lokhazim_image_length(heap_length: usize) -> usize
    ensures { result ≡ length_for form_2 heap_length }
{
    image::image_length(heap_length)
}

// The same in form 1.
#[unsafe(no_mangle)]
pub extern "C" fn lokhazim_image_length_form_1(heap_length: usize) -> usize
    ensures { result ≡ length_for form_1 heap_length }
{
    image::form_1_length(heap_length)
}

// What heap is to be lent for an image: its form's number and the heap's length, by its own bytes alone.
#[unsafe(no_mangle)]
pub extern "C" fn lokhazim_image_examine(image: &[u8]) -> ExamineReply
    ensures { result ≡ examine image.now }
{
    reply_of_shape(image::shape_of(image))
}
