// Lines: six words with a space behind each but the last, and a line feed.
ghost use Rattle.std.specs.Prelude.{◌≡◌, true, ◌+◌, ◌≤◌, length, drop};
ghost use Rattle.report.specs.Words.{word_right, words_right, words, all_zero, line_text};
ghost use Rattle.report.specs.Import.{line_of};

use crate::{LINE_LENGTH, ReportRefusal, digits};

// Whether a word stands in front, with this character behind it.
fn is_word(text: &[u8], mark: u8) -> bool
    requires { 9 ≤ length text.now }
    ensures { result ≡ word_right mark text.now }
{
    for i in 0..8 {
        if !digits::is_digit(text[i]) {
            return false;
        }
    }
    text[8] == mark
}

// Whether every character in front is one of a line.
fn is_line(text: &[u8]) -> bool
    requires { 54 ≤ length text.now }
    ensures { result ≡ words_right 6 text.now }
{
    for k in 0..5 {
        if !is_word(&text[9 * k..], 32) {
            return false;
        }
    }
    is_word(&text[45..], 10)
}

// Whether the words of the line in front are zero but the first.
fn is_rest_zero(text: &[u8]) -> bool
    requires { (54 ≤ length text.now) × (words_right 6 text.now ≡ true) }
    ensures { result ≡ all_zero (words 5 (drop 9 text.now)) }
{
    for k in 1..6 {
        if digits::read_word(&text[9 * k..]) != 0 {
            return false;
        }
    }
    true
}

// What the line in front says.
pub(crate) fn read_line(text: &[u8]) -> Result<u32, ReportRefusal>
    ensures { result ≡ line_of text.now }
{
    if text.len() < LINE_LENGTH {
        return Err(ReportRefusal::Character);
    }
    if !is_line(text) {
        return Err(ReportRefusal::Character);
    }
    if !is_rest_zero(text) {
        return Err(ReportRefusal::Reserved);
    }
    Ok(digits::read_word(text))
}

// The line of a grant.
pub(crate) fn grant_line(grant: u32) -> [u8; LINE_LENGTH]
    ensures { result ≡ line_text grant }
{
    let mut line = *b"00000000 00000000 00000000 00000000 00000000 00000000\n";
    line[..8].copy_from_slice(&digits::word_of(grant));
    line
}
