// Numbers in decimal: a number is written as digits, and the digits of a word are read.
ghost use Rattle.std.specs.Prelude.{◌≡◌, length};
ghost use Rattle.replay_model.specs.Text.{digits, places, read_on, read_number};

// How many digits a number has.
// Digits are written by hand: std's `write_all` has no clause by which a write into lent bytes succeeds.
pub(crate) fn count_digits(n: u32) -> usize
    ensures { result ≡ places 9 n }
{
    match n.checked_ilog10() {
        Some(log) => log as usize + 1,
        None => 1,
    }
}

// The last digits of a number, as many as the place has bytes.
// The loop goes by the index: of what is written through a reversed `iter_mut`, a proof knows no byte.
pub(crate) fn put_digits(place: &mut [u8], n: u32)
    ensures { place.new ≡ digits (length place.old) n }
{
    let mut rest = n;
    for left in (0..place.len()).rev() {
        let digit = b'0' + (rest % 10) as u8;
        place[left] = digit;
        rest /= 10;
    }
}

// The number of a word's digits. std's `parse` reads a `str`, and takes zeros and a plus in front (rule 11.3 does not).
fn read_digits(word: &[u8]) -> Option<u32>
    ensures { result ≡ read_on 0 word.now }
{
    let mut value: u32 = 0;
    for byte in word {
        if !byte.is_ascii_digit() {
            return None;
        }
        value = value.checked_mul(10)?.checked_add(u32::from(*byte - b'0'))?;
    }
    Some(value)
}

// The number that a word is: digits, and no zero in front of others.
#[tactic(auto, using(crate::proofs::Reading::number_words))]
pub(crate) fn read_number(word: &[u8]) -> Option<u32>
    ensures { result ≡ read_number word.now }
{
    match word {
        [] | [b'0', _, ..] => None,
        _ => read_digits(word),
    }
}
