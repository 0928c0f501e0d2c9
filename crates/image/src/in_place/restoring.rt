// An image restored where a heap and its accounts are in use: a refused one leaves both as they are.
ghost use Rattle.std.specs.Prelude.{◌≡◌};
ghost use Rattle.words.specs.Words.{accounts_of};
ghost use Rattle.image_model.specs.Answers.{restored_to};
ghost use Rattle.image_model.specs.Images.{restore_image};
ghost use Rattle.image.specs.Restoring.{Left};

use crate::in_place;
use image_model::ImageRefusal;
use words::WORDS;

// The heap of an image into the lent heap, and its accounts into the words; padding becomes zero. A refused restore
// leaves every byte and every word: the accounts are read into words of its own, and copied where the image is
// accepted.
pub fn restore_image(
    image: &[u8],
    heap: &mut [u8],
    words: &mut [u32; WORDS],
) -> Result<(), ImageRefusal>
    ensures holds { restored_to heap.new (accounts_of words.new) result
        ≡ restore_image image.now heap.old (accounts_of words.old) }
    ensures leaves { Left
        (restore_image image.now heap.old (accounts_of words.old)).refusal
        words.old words.new }
{
    let mut fresh = [0u32; WORDS];
    in_place::read_image(image, heap, &mut fresh)?;
    *words = fresh;
    Ok(())
}
