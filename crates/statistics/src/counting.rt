// The pass over the hold records that counts those that are used.
ghost use Rattle.std.specs.Prelude.{◌≡◌};
ghost use Rattle.accounts.specs.Accounts.{used, hold_at};
ghost use Rattle.words.specs.Words.{holds_of, accounts_of};
ghost use Rattle.survey.specs.Shares.{one_if, how_many};

use accounts::HOLDS;
use words::WORDS;

// 1 where the record at a place is used.
fn used_at(words: &[u32; WORDS], at: usize) -> usize
    ensures { result ≡ one_if (used (hold_at at (accounts_of words.now))) }
{
    let hold = words::hold_at(words, at);
    usize::from(hold.is_used())
}

// Rule 25.8: how many records are used.
pub(crate) fn used_records(words: &[u32; WORDS]) -> usize
    ensures { result ≡ how_many used (holds_of words.now) }
{
    // A record is two words, and `hold_at` reads it by its place: no slice of records is there to iterate over.
    let mut count: usize = 0;
    for i in 0..HOLDS {
        count += used_at(words, i);
    }
    count
}
