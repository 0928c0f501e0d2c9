// The forms of image by their numbers, and where their parts lie.
ghost use Rattle.std.specs.Prelude.{◌≡◌, ◌+◌, ◌*◌, ◌≤◌};
ghost use Rattle.accounts.specs.Accounts.{QUOTAS};
ghost use Rattle.image_model.specs.Stream.{form_1, form_2, form_numbered, entries_at, entry_width, head_length};
ghost use Rattle.image.specs.Parsing.{FormFits, known_form};

use image_model::Form;

// The longest head of an image.
pub(crate) const HEAD: usize = 4492;

// Form 1. Forms 1 and 2 are two constants; the function of both is `form_numbered`, which has none for other numbers.
pub(crate) fn form_1() -> Form
    ensures { result ≡ form_1 }
{
    Form {
        number: 1,
        quotas: 8,
        records: 128,
        full: false,
    }
}

// Form 2.
pub(crate) fn form_2() -> Form
    ensures { result ≡ form_2 }
{
    Form {
        number: 2,
        quotas: 32,
        records: 512,
        full: true,
    }
}

// The form with a number, if there is one.
#[tactic(auto, unfolding(image_model::specs::Stream::form_numbered))]
pub(crate) fn form_numbered(number: u32) -> Option<Form>
    ensures { known_form result ≡ form_numbered number }
{
    match number {
        1 => Some(form_1()),
        2 => Some(form_2()),
        _ => None,
    }
}

// Where an entry begins in a form; the records begin behind the last.
pub(crate) fn entry_at(entry: usize, form: Form) -> usize
    requires { entry ≤ QUOTAS }
    ensures { (result ≡ entries_at + entry * entry_width form) × (result ≤ 12 + entry * 12) }
{
    if form.full {
        return 12 + entry * 12;
    }
    12 + entry * 8
}

// Where the heap begins. `FormFits` is a clause here and in others, as `form.quotas ≤ QUOTAS` and `count ≤ HOLDS` are,
// which are parts of it, and no invariant: `Form` is public, and docs/PROMISES-THEOREM.md and the definitions of
// image_model speak of any form.
pub(crate) fn heap_at(form: Form) -> usize
    requires { FormFits form }
    ensures { (result ≡ head_length form) × (result ≤ 4492) }
{
    entry_at(form.quotas, form) + form.records * 8
}
