// Images of a stopped heap: the forms and the answers, as types. The definitions in specs/ say what an image is, how it is written and how
// it is read; no code of a call is here.
#![tactic(auto)]

ghost use Rattle.std.specs.Prelude.{◌≡◌};
ghost use Rattle.image_model.specs.Answers.{image_refusal_number};
ghost use Rattle.image_model.specs.declared.ImageRefusal.TheVariants.{Call};

use accounts::Accounts;
use model::Refusal;

// What tells one form of image from another: its number, how many quotas and hold records it carries, and whether it says all that accounts have.
#[derive(Clone, Copy)]
pub struct Form {
    pub number: u32,
    pub quotas: usize,
    pub records: usize,
    pub full: bool,
}

// Why an image is not written, not read or not compared: a refusal that every call has, or one of the images' own, in the order of their numbers.
#[derive(Clone, Copy)]
pub enum ImageRefusal {
    Call(Refusal),
    ImageLength,
    FrameWrong,
    FormNumber,
    Contents,
    Room,
    Unsound,
    HeapLengths,
    NotCarried,
    FormsDiffer,
}

// What the reader hands back beside the heap. The accounts stand beside the answer: `unless_read` (specs/Images.antt)
// says that they are all zero on a refusal.
#[derive(Clone, Copy)]
pub struct ReadResult {
    pub accounts: Accounts,
    pub answer: Result<(), ImageRefusal>,
}

impl ImageRefusal {
    // The refusal's number. docs/PROMISES-IMAGES.md names it.
    pub fn number(self) -> u32
        ensures { result ≡ image_refusal_number self }
    {
        match self {
            ImageRefusal::Call(refusal) => refusal.number(),
            ImageRefusal::ImageLength => 21,
            ImageRefusal::FrameWrong => 22,
            ImageRefusal::FormNumber => 23,
            ImageRefusal::Contents => 24,
            ImageRefusal::Room => 25,
            ImageRefusal::Unsound => 26,
            ImageRefusal::HeapLengths => 27,
            ImageRefusal::NotCarried => 28,
            ImageRefusal::FormsDiffer => 29,
        }
    }
}

impl From<Refusal> for ImageRefusal {
    ghost from_gives = { λ refusal given. given ≡ Call refusal };

    // A refusal that every call has is one of an image.
    fn from(refusal: Refusal) -> ImageRefusal {
        ImageRefusal::Call(refusal)
    }
}
