// Parts of an input: lines and words up to their mark, and the name that a word is.
ghost use Rattle.std.specs.Prelude.{◌≡◌, ◌==◌, [], ◌∷◌, MatchOption};
ghost use Rattle.std.specs.List.{position};
ghost use Rattle.replay_model.specs.Lines.{split};
ghost use Rattle.replay_model.specs.Commands.{word_of};
ghost use Rattle.replay_text.specs.Clauses.{Cut, parts_left};

use replay_model::Word;

// The place of the first byte `mark`.
fn place_of(input: &[u8], mark: u8) -> Option<usize>
    ensures { result ≡ position (λ b. b == mark) input.now }
{
    input.iter().position(|byte| *byte == mark)
}

// What stands in front of the first byte `mark`, and what behind it.
pub(crate) fn split_once(input: &[u8], mark: u8) -> Option<(&[u8], &[u8])>
    ensures { MatchOption result (split mark input.now ≡ input.now ∷ [])
        (λ x. Cut mark input.now x.0.now x.1.now) }
{
    let at = place_of(input, mark)?;
    Some((&input[..at], &input[at + 1..]))
}

// The first part of a text, and what stands behind the mark that ends it.
pub(crate) fn first_part(text: &[u8], mark: u8) -> (&[u8], Option<&[u8]>)
    ensures { split mark text.now ≡ result.0.now ∷ parts_left mark result.1 }
{
    match split_once(text, mark) {
        Some((part, rest)) => (part, Some(rest)),
        None => (text, None),
    }
}

// The name that a word is.
// The names are compared by `==`: tried, and the proof of a match on the texts did not close (a goal for each byte).
#[tactic(auto, using(crate::proofs::Reading::bytes_same), unfolding(replay_model::specs::Commands::word_of))]
pub(crate) fn read_word(word: &[u8]) -> Word
    ensures { result ≡ word_of word.now }
{
    if word == b"open".as_slice() {
        return Word::Open;
    }
    if word == b"alloc".as_slice() {
        return Word::Alloc;
    }
    if word == b"array".as_slice() {
        return Word::Array;
    }
    if word == b"claim".as_slice() {
        return Word::Claim;
    }
    if word == b"free".as_slice() {
        return Word::Free;
    }
    if word == b"all".as_slice() {
        return Word::All;
    }
    if word == b"realloc".as_slice() {
        return Word::Realloc;
    }
    Word::Unknown
}
