// The head of an image: what stands in front of the heap.
ghost use Rattle.std.specs.Prelude.{◌≡◌, length};
ghost use Rattle.words.specs.Words.{accounts_of};
ghost use Rattle.image_model.specs.Stream.{head_length, head_of};
ghost use Rattle.image.specs.Parsing.{FormFits};

use crate::entries::write_entries;
use crate::forms::entry_at;
use crate::marks::marks;
use crate::records::write_records;
use image_model::Form;
use words::WORDS;

// The head of a heap of so many bytes and its accounts, in place of bytes that are as many.
pub(crate) fn write_head(head: &mut [u8], form: Form, size: u32, words: &[u32; WORDS])
    requires { FormFits form × (length head.old ≡ head_length form) }
    ensures { head.new ≡ head_of form size (accounts_of words.now) }
{
    layout::write_u16(head, 0, form.number);
    layout::write_u16(
        head,
        2,
        marks(form, words::kind(words), words::edition(words)),
    );
    layout::write_u32(head, 4, size);
    layout::write_u32(head, 8, words::last_serial(words));
    write_entries(head, words, form);
    write_records(head, entry_at(form.quotas, form), words, form.records);
}
