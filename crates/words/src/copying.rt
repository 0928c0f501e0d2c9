// The accounts that some words hold, by value.
ghost use Rattle.std.specs.Prelude.{◌≡◌};
ghost use Rattle.words.specs.Words.{accounts_of};

use crate::WORDS;
use crate::readers::{edition, entry_in, hold_at, kind, last_serial};
use accounts::Accounts;
use std::array;

// The accounts.
pub fn accounts_of(words: &[u32; WORDS]) -> Accounts
    ensures { result ≡ accounts_of words.now }
{
    Accounts {
        quotas: array::from_fn(|q| entry_in(words, q)),
        last_serial: last_serial(words),
        holds: array::from_fn(|place| hold_at(words, place)),
        kind: kind(words),
        edition: edition(words),
    }
}
