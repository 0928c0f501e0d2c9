// Every record of a quota becomes unused.
ghost use Rattle.std.specs.Prelude.{◌≡◌};
ghost use Rattle.accounts.specs.Accounts.{with_holds, drop_records};
ghost use Rattle.words.specs.Words.{holds_of, accounts_of, Padded};
ghost use Rattle.words.specs.Emptying.{drop_at};

use crate::WORDS;
use crate::readers::hold_at;
use crate::writers::drop_hold;
use accounts::HOLDS;

// The record at a place becomes unused if it is one of this quota.
fn drop_at(words: &mut [u32; WORDS], at: usize, quota: u8)
    ensures holds { accounts_of words.new ≡ drop_at at quota (accounts_of words.old) }
    ensures pads { Padded words.old words.new }
{
    let hold = hold_at(words, at);
    if hold.quota != quota {
        return;
    }
    if !hold.is_used() {
        return;
    }
    drop_hold(words, at);
}

// Every record of a quota becomes unused.
pub fn drop_holds(words: &mut [u32; WORDS], quota: u8)
    ensures holds { accounts_of words.new ≡ with_holds (drop_records quota (holds_of words.old)) (accounts_of words.old) }
    ensures pads { Padded words.old words.new }
{
    // A record is two words, and `drop_at` finds them by its place: no slice of records is there to iterate over.
    for at in 0..HOLDS {
        drop_at(words, at, quota);
    }
}
