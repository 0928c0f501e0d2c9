// The reader: the accounts go into the words, which are free for it until its answer, and the image's heap is checked where it lies.
ghost use Rattle.std.specs.Prelude.{◌≡◌, true, ◌++◌, ◌≤◌, ◌<◌, drop};
ghost use Rattle.accounts.specs.Accounts.{QUOTAS, HOLDS, zero_accounts, with_quotas, with_holds};
ghost use Rattle.words.specs.Words.{accounts_of, quotas_of, holds_of, Padded, Unpadded};
ghost use Rattle.model.specs.Consistent.{allowed};
ghost use Rattle.framing.specs.Frames.{stream_of};
ghost use Rattle.image_model.specs.Items.{each};
ghost use Rattle.image_model.specs.Stream.{entry_width, entries_at, record_width, blank};
ghost use Rattle.image_model.specs.Reading.{entry_of, record_of, accounts_of as accounts_said};
ghost use Rattle.image_model.specs.declared.Form.{Form};
ghost use Rattle.image_model.specs.Answers.{restored_to};
ghost use Rattle.image_model.specs.Images.{read_image};
ghost use Rattle.image.specs.Parsing.{FormFits, restore};

use crate::entries::read_entry;
use crate::forms::{entry_at, heap_at};
use crate::marks::{read_edition, read_kind};
use crate::numbers::read_quad;
use crate::parsing::shape_of;
use crate::reading::is_consistent_in;
use crate::records::read_record;
use accounts::{Edition, Kind, QUOTAS, Settings};
use image_model::{Form, ImageRefusal};
use words::WORDS;

// The quotas of a form's entries, where all are blank.
fn put_entries(words: &mut [u32; WORDS], image: &[u8], form: Form)
    requires { (form.quotas ≤ QUOTAS) × (quotas_of words.old ≡ (blank form).quotas) }
    ensures holds { accounts_of words.new
        ≡ with_quotas (each (entry_of form) (entry_width form) form.quotas (drop entries_at (stream_of image.now))
        ++ drop form.quotas (blank form).quotas)
        (accounts_of words.old) }
    ensures pads { Padded words.old words.new }
{
    for i in 0..form.quotas {
        let quota = read_entry(image, entry_at(i, form), form);
        words::put_quota(words, i, quota);
    }
}

// The first records from a place of the stream on, so many of them, where all are blank.
// One function for these and the entries would take closures that read and put an item, and is no plainer.
fn put_records(words: &mut [u32; WORDS], image: &[u8], at: usize, count: usize)
    requires { (count ≤ HOLDS) × (at < 65536) × ((f : Form) → holds_of words.old ≡ (blank f).holds) }
    ensures holds { (f : Form) → accounts_of words.new
        ≡ with_holds (each record_of record_width count (drop at (stream_of image.now)) ++ drop count (blank f).holds)
        (accounts_of words.old) }
    ensures pads { Padded words.old words.new }
{
    for i in 0..count {
        let hold = read_record(image, at + i * 8);
        words::put_hold(words, i, hold);
    }
}

// The words become blank.
fn put_blank(words: &mut [u32; WORDS])
    ensures holds { (f : Form) → accounts_of words.new ≡ blank f }
    ensures pads { Unpadded words.new }
{
    let settings = Settings {
        kind: Kind::Plain,
        edition: Edition::First,
    };
    words::open(words, [0u32; QUOTAS], settings);
}

// The accounts that an image of a form says.
pub(crate) fn put_accounts(words: &mut [u32; WORDS], image: &[u8], form: Form)
    requires { FormFits form }
    ensures holds { accounts_of words.new ≡ accounts_said form (stream_of image.now) }
    ensures pads { Unpadded words.new }
{
    put_blank(words);
    put_entries(words, image, form);
    words::set_last_serial(words, read_quad(image, 8));
    put_records(words, image, entry_at(form.quotas, form), form.records);
    words::put_kinds(words, read_kind(image, form), read_edition(image, form));
}

// A read that is refused.
fn refused(words: &mut [u32; WORDS], refusal: ImageRefusal) -> Result<(), ImageRefusal>
    ensures tells { result ≡ Err refusal }
    ensures holds { accounts_of words.new ≡ zero_accounts }
    ensures pads { Unpadded words.new }
{
    words::clear(words);
    Err(refusal)
}

// The heap of an image of a form goes into the lent one, and its accounts into the words, where the lent heap has its length and the state is consistent.
fn restore(
    image: &[u8],
    heap: &mut [u8],
    words: &mut [u32; WORDS],
    form: Form,
    size: usize,
) -> Result<(), ImageRefusal>
    requires { FormFits form × (allowed size ≡ true) }
    ensures holds { restored_to heap.new (accounts_of words.new) result
        ≡ restore form size (stream_of image.now) heap.old (accounts_said form (stream_of image.now)) }
    ensures pads { Unpadded words.new }
{
    let from = heap_at(form) as u16;
    if heap.len() != size {
        return refused(words, ImageRefusal::Room);
    }
    put_accounts(words, image, form);
    if !is_consistent_in(image, from, size, words) {
        return refused(words, ImageRefusal::Unsound);
    }
    framing::copy_stream(image, from as u32, heap);
    Ok(())
}

// The heap of an image into the lent heap, and its accounts into the words. A refused read leaves the heap as it is and gives zero
// accounts. All words are set, padding to zero.
pub fn read_image(
    image: &[u8],
    heap: &mut [u8],
    words: &mut [u32; WORDS],
) -> Result<(), ImageRefusal>
    ensures holds { restored_to heap.new (accounts_of words.new) result ≡ read_image image.now heap.old }
    ensures pads { Unpadded words.new }
{
    match shape_of(image) {
        Ok((form, size)) => restore(image, heap, words, form, size),
        Err(refusal) => refused(words, refusal),
    }
}
