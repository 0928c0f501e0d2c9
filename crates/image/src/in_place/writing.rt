// The writer.
ghost use Rattle.std.specs.Prelude.{◌≡◌, true, ◌≤◌, length};
ghost use Rattle.rounding.specs.Rounding.{table};
ghost use Rattle.words.specs.Words.{edition_of, accounts_of};
ghost use Rattle.model.specs.Answers.{verdict_values};
ghost use Rattle.model.specs.Calls.{check};
ghost use Rattle.image_model.specs.Stream.{form_1, form_2, carries, head_length};
ghost use Rattle.image_model.specs.Answers.{imaged};
ghost use Rattle.image_model.specs.Images.{write_image};
ghost use Rattle.image.specs.Parsing.{FormFits, put_image};

use crate::entries::{are_permitted, no_grants};
use crate::forms::{HEAD, form_1, form_2, heap_at};
use crate::head::write_head;
use crate::marks::marks;
use crate::records::none_used;
use image_model::{Form, ImageRefusal};
use model::Refusal;
use words::WORDS;

// Whether a form has room for everything in these accounts.
fn is_carried(form: Form, words: &[u32; WORDS]) -> bool
    ensures { result ≡ carries form (accounts_of words.now) }
{
    if form.full {
        return true;
    }
    if !no_grants(words, form.quotas) {
        return false;
    }
    if !none_used(words, form.records) {
        return false;
    }
    if !are_permitted(words) {
        return false;
    }
    marks(form_2(), words::kind(words), words::edition(words)) == 0
}

// Bytes for the longest head.
fn head_space() -> [u8; HEAD] {
    [0u8; HEAD]
}

// The head is made in `head`, and head and heap are written as frames; the form says all of the accounts.
fn put_with(
    image: &mut [u8],
    head: &mut [u8],
    form: Form,
    heap: &[u8],
    words: &[u32; WORDS],
) -> Result<usize, ImageRefusal>
    requires { (carries form (accounts_of words.now) ≡ true) × FormFits form × (length head.old ≡ head_length form) × (length heap.now ≤ 32768) }
    ensures { imaged image.new result ≡ put_image form image.old heap.now (accounts_of words.now) }
{
    write_head(head, form, heap.len() as u32, words);
    framing::write_frames(image, head, heap).ok_or(ImageRefusal::Room)
}

// The image of a heap and its accounts in a form, where the form says all of the accounts and there is room.
fn put_image(
    image: &mut [u8],
    form: Form,
    heap: &[u8],
    words: &[u32; WORDS],
) -> Result<usize, ImageRefusal>
    requires { FormFits form × (length heap.now ≤ 32768) }
    ensures { imaged image.new result ≡ put_image form image.old heap.now (accounts_of words.now) }
{
    if !is_carried(form, words) {
        return Err(ImageRefusal::NotCarried);
    }
    let end = heap_at(form);
    let mut head = head_space();
    put_with(image, &mut head[..end], form, heap, words)
}

// Rule 8.35's verdict on the heap and its accounts: as `queries::check`, on which this crate is not built. A function of
// `survey` for both would be the one call of the survey below again, and is no plainer.
fn verdict_on(heap: &[u8], words: &[u32; WORDS]) -> Result<(), Refusal>
    ensures { verdict_values result ≡ (check (table (edition_of words.now)) heap.now (accounts_of words.now)).values }
{
    survey::survey(heap, words, survey::unasked())?;
    Ok(())
}

// The image of a heap and its accounts in form 2, written at the front of a lent one; its other bytes stay. The frame with the head and that of the survey
// are never on the stack together: `put_image` has two callers, so the compiler keeps it apart.
pub fn write_image(
    image: &mut [u8],
    heap: &[u8],
    words: &[u32; WORDS],
) -> Result<usize, ImageRefusal>
    ensures { imaged image.new result ≡ write_image form_2 image.old heap.now (accounts_of words.now) }
{
    verdict_on(heap, words)?;
    put_image(image, form_2(), heap, words)
}

// The same in form 1, which not all accounts fit.
pub fn write_form_1(
    image: &mut [u8],
    heap: &[u8],
    words: &[u32; WORDS],
) -> Result<usize, ImageRefusal>
    ensures { imaged image.new result ≡ write_image form_1 image.old heap.now (accounts_of words.now) }
{
    verdict_on(heap, words)?;
    put_image(image, form_1(), heap, words)
}
