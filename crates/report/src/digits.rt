// Hexadecimal digits and words of eight of them.
ghost use Rattle.std.specs.Prelude.{◌≡◌, true, ◌+◌, ◌≤◌, ◌<◌, length, take};
ghost use Rattle.report.specs.Words.{digit, value, is_digit, all_digits, digits, number};

// The digit of a character, 16 where it is none: 16 and no `None`, as the definition `value` has it, by which rule 18.3's
// digits are told apart. By hand: std's `from_str_radix` wants a `str`, and takes upper case and a plus.
fn value_of(character: u8) -> u32
    ensures { result ≡ value character }
{
    let c = u32::from(character);
    match character {
        b'0'..=b'9' => c - 48,
        b'a'..=b'f' => c - 87,
        _ => 16,
    }
}

// Whether a character is a digit.
pub(crate) fn is_digit(character: u8) -> bool
    ensures { result ≡ is_digit character }
{
    value_of(character) < 16
}

// The character of a digit.
fn digit_of(value: u32) -> u8
    requires { value < 16 }
    ensures { result ≡ digit value }
{
    if value < 10 {
        return (48 + value) as u8;
    }
    (87 + value) as u8
}

// The number of the word in front.
pub(crate) fn read_word(text: &[u8]) -> u32
    requires { (8 ≤ length text.now) × (all_digits (take 8 text.now) ≡ true) }
    ensures { result ≡ number (take 8 text.now) }
{
    let mut n: u32 = 0;
    for i in 0..8 {
        n = n * 16 + value_of(text[i]);
    }
    n
}

// A number as a word.
pub(crate) fn word_of(n: u32) -> [u8; 8]
    ensures { result ≡ digits 8 n }
{
    let mut word = [0u8; 8];
    for i in 0..8 {
        word[i] = digit_of((n >> (28 - 4 * i)) % 16);
    }
    word
}
