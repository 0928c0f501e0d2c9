// The reader for accounts by value, and whether an image's heap and accounts are consistent.
ghost use Rattle.std.specs.Prelude.{◌≡◌, true, drop};
ghost use Rattle.model.specs.Consistent.{allowed};
ghost use Rattle.framing.specs.Frames.{padded, stream_of};
ghost use Rattle.words.specs.Words.{accounts_of};
ghost use Rattle.image_model.specs.Answers.{restored_to};
ghost use Rattle.image_model.specs.Images.{own_consistent, read_image};

use crate::in_place;
use accounts::Accounts;
use image_model::ReadResult;
use model::Refusal;
use words::WORDS;

// Whether an image's heap, of so many bytes of the stream from a place on, is consistent with the accounts that the
// words hold. It is checked where it lies: a lent heap stays as it is where they are not. `from` and `size` and no
// `HeapPlace`: `check_in_frames`, in a crate below, takes them so, and a place would be opened at once, which is no
// plainer. That the size is allowed is a clause: the image says the size, and it is tested once, where it is read.
pub(crate) fn is_consistent_in(image: &[u8], from: u16, size: usize, words: &[u32; WORDS]) -> bool
    requires { allowed size ≡ true }
    ensures { result ≡ own_consistent (padded size (drop from (stream_of image.now))) (accounts_of words.now) }
{
    survey::check_in_frames(image, from, size, words).is_ok()
}

// The same with the accounts by value.
pub(crate) fn is_consistent(image: &[u8], from: u16, size: usize, accounts: Accounts) -> bool
    requires { allowed size ≡ true }
    ensures { result ≡ own_consistent (padded size (drop from (stream_of image.now))) accounts }
{
    let words = words::words_of(accounts);
    is_consistent_in(image, from, size, &words)
}

// The heap of an image into the lent heap, and its accounts back. A refused read leaves the heap as it is and gives zero accounts.
pub fn read_image(image: &[u8], heap: &mut [u8]) -> ReadResult
    ensures { restored_to heap.new result.accounts result.answer ≡ read_image image.now heap.old }
{
    let mut words = [0u32; WORDS];
    let answer = in_place::read_image(image, heap, &mut words);
    ReadResult {
        accounts: words::accounts_of(&words),
        answer: answer,
    }
}
