// A line as the call or the opening that it asks for: a name, and numbers between single spaces.
ghost use Rattle.std.specs.Prelude.{◌≡◌};
ghost use Rattle.replay_model.specs.Lines.{words, numbers};
ghost use Rattle.replay_model.specs.Commands.{line_call, line_opening};
ghost use Rattle.replay_text.specs.Clauses.{exactly, opening_line};

use crate::{Opening, digits, tokens};
use accounts::QUOTAS;
use model::{Call, Handle};
use replay_model::Word;

// So many numbers between single spaces; nothing where there are fewer or more, or a word is no number.
fn read_numbers<const N: usize>(text: &[u8]) -> Option<[u32; N]>
    ensures { result ≡ exactly N (numbers (words text.now)) }
{
    let mut values = [0u32; N];
    let mut left = Some(text);
    for value in &mut values {
        let (word, rest) = tokens::first_part(left?, b' ');
        *value = digits::read_number(word)?;
        left = rest;
    }
    left.is_none().then_some(values)
}

// The call that a line asks for: a name, and as many numbers as its call takes.
pub(crate) fn read_call(line: &[u8]) -> Option<Call>
    ensures { result ≡ line_call line.now }
{
    let (name, numbers) = tokens::split_once(line, b' ')?;
    match tokens::read_word(name) {
        Word::Alloc => {
            let [quota, length] = read_numbers::<2>(numbers)?;
            Some(Call::Allocate { quota, length })
        }
        Word::Array => {
            let [quota, count, size] = read_numbers::<3>(numbers)?;
            Some(Call::AllocateArray { quota, count, size })
        }
        Word::Claim => {
            let [quota, base, length, serial] = read_numbers::<4>(numbers)?;
            let handle = Handle {
                base,
                length,
                serial,
            };
            Some(Call::Claim { quota, handle })
        }
        Word::Free => {
            let [quota, base, length, serial] = read_numbers::<4>(numbers)?;
            let handle = Handle {
                base,
                length,
                serial,
            };
            Some(Call::Release { quota, handle })
        }
        Word::All => {
            let [quota] = read_numbers::<1>(numbers)?;
            Some(Call::FreeAll { quota })
        }
        Word::Realloc => {
            let [quota, base, size, serial, length] = read_numbers::<5>(numbers)?;
            let handle = Handle {
                base,
                length: size,
                serial,
            };
            Some(Call::Reallocate {
                quota,
                handle,
                length,
            })
        }
        Word::Open | Word::Unknown => None,
    }
}

// The opening that a line asks for: its name, the heap's length, and a grant for each quota.
pub(crate) fn read_opening(line: &[u8]) -> Option<Opening>
    ensures { result ≡ opening_line (line_opening line.now) }
{
    let (name, numbers) = tokens::split_once(line, b' ')?;
    let Word::Open = tokens::read_word(name) else {
        return None;
    };
    let (heap, grants) = tokens::split_once(numbers, b' ')?;
    Some(Opening {
        heap: digits::read_number(heap)?,
        grants: read_numbers::<QUOTAS>(grants)?,
    })
}
