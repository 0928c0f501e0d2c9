// The last serial, kind and edition of some accounts.
ghost use Rattle.std.specs.Prelude.{◌≡◌, ◌≤◌, true, false, ◌&&◌, nat_le, nat_lt, MatchOption};
ghost use Rattle.model.specs.Consistent.{greatest_serial, in_range};
ghost use Rattle.words.specs.Words.{last_of, kind_of, edition_of, accounts_of};

use model::GREATEST_SERIAL;
use words::WORDS;

// The last serial, kind and edition, in range.
// Kind and edition are numbers, though in range: `rounding::object_unit` and the definition `table` take the edition's
// byte, into which the walk would turn an enum back, and the kind is compared with 1 alone.
#[derive(Clone, Copy)]
pub(crate) struct Numbers {
    pub last: u32,
    pub kind: u8,
    pub edition: u8,
    ghost given: { last ≤ greatest_serial },
}

// Rules 22.2, 22.9 and 23.3: whether the last serial may have been given, the kind is one of two, and so is the
// edition.
// Numbers: C lends any byte as kind and edition, and refusal 2 answers what is none.
fn is_in_range(last: u32, kind: u8, edition: u8) -> bool
    ensures { result ≡ (nat_le last greatest_serial && (nat_lt kind 2 && nat_lt edition 2)) }
{
    if GREATEST_SERIAL < last {
        return false;
    }
    if 2 <= kind {
        return false;
    }
    edition < 2
}

// The numbers of some words, None where they are not in range.
pub(crate) fn numbers_in(words: &[u32; WORDS]) -> Option<Numbers>
    ensures { MatchOption result (in_range (accounts_of words.now) ≡ false)
        (λ n. (in_range (accounts_of words.now) ≡ true) × (n.last ≡ last_of words.now)
        × (n.kind ≡ kind_of words.now) × (n.edition ≡ edition_of words.now)) }
{
    let last = words::last_serial(words);
    let kind = words::kind(words);
    let edition = words::edition(words);
    if !is_in_range(last, kind, edition) {
        return None;
    }
    Some(Numbers {
        last: last,
        kind: kind,
        edition: edition,
    })
}
