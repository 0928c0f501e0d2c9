// The words that hold some accounts by value, with padding 0.
ghost use Rattle.std.specs.Prelude.{◌≡◌};
ghost use Rattle.words.specs.Words.{accounts_of, words_of};
ghost use Rattle.words.specs.Filling.{HasQuotas, HasHolds};

use crate::{FIRST, KINDS, LAST, WORDS};
use accounts::{Accounts, HOLDS, Hold, QUOTAS, Quota};

// The quotas are written. What is written of a quota and of a record shares nothing but the loop, so each has its own.
fn put_quotas(words: &mut [u32; WORDS], quotas: [Quota; QUOTAS])
    ensures { HasQuotas quotas words.new }
{
    for (i, quota) in quotas.iter().enumerate() {
        words[3 * i] = quota.grant;
        words[3 * i + 1] = quota.remainder;
        words[3 * i + 2] = u32::from(quota.permissions);
    }
}

// The records are written.
fn put_holds(words: &mut [u32; WORDS], holds: [Hold; HOLDS])
    ensures { HasHolds holds words.old words.new }
{
    for (i, hold) in holds.iter().enumerate() {
        let low = u32::from(hold.quota);
        let high = u32::from(hold.count);
        words[FIRST + 2 * i] = hold.serial;
        words[FIRST + 2 * i + 1] = 256 * high + low;
    }
}

// The words of some accounts.
pub fn words_of(accounts: Accounts) -> [u32; WORDS]
    ensures is { result ≡ words_of accounts }
    ensures holds { accounts_of result ≡ accounts }
{
    let quotas = accounts.quotas;
    let holds = accounts.holds;
    let low = u32::from(accounts.kind);
    let high = u32::from(accounts.edition);
    let mut words = [0u32; WORDS];
    put_quotas(&mut words, quotas);
    put_holds(&mut words, holds);
    words[LAST] = accounts.last_serial;
    words[KINDS] = 256 * high + low;
    words
}
