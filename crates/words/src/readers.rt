// What the accounts that some words hold say.
ghost use Rattle.std.specs.Prelude.{◌≡◌, ◌<◌, get_or};
ghost use Rattle.accounts.specs.Accounts.{QUOTAS, quota_at, remaining, spent, hold_at, left_permissions};
ghost use Rattle.words.specs.Words.{WORDS, entry_in, accounts_of};

use crate::{FIRST, KINDS, LAST, WORDS};
use accounts::{HOLDS, Hold, QUOTAS, Quota};

// The word at a place.
pub(crate) fn word_at(words: &[u32; WORDS], at: usize) -> u32
    requires { at < WORDS }
    ensures { result ≡ get_or words.now at 0 }
{
    words[at]
}

// The record at a place, of zeros where there is none.
pub fn hold_at(words: &[u32; WORDS], place: usize) -> Hold
    ensures { result ≡ hold_at place (accounts_of words.now) }
{
    if HOLDS <= place {
        return Hold::zero();
    }
    let serial = word_at(words, FIRST + 2 * place);
    let rest = word_at(words, FIRST + 2 * place + 1);
    Hold {
        serial: serial,
        quota: (rest % 256) as u8,
        count: (rest / 256 % 256) as u8,
    }
}

// The quota with a number.
pub(crate) fn entry_in(words: &[u32; WORDS], q: usize) -> Quota
    requires { q < QUOTAS }
    ensures { result ≡ entry_in words.now q }
{
    Quota {
        grant: word_at(words, 3 * q),
        remainder: word_at(words, 3 * q + 1),
        permissions: (word_at(words, 3 * q + 2) % 256) as u8,
    }
}

// The quota with a number, of zeros where there is none.
pub fn quota_at(words: &[u32; WORDS], q: usize) -> Quota
    ensures { result ≡ quota_at q (accounts_of words.now) }
{
    if QUOTAS <= q {
        return Quota {
            grant: 0,
            remainder: 0,
            permissions: 0,
        };
    }
    entry_in(words, q)
}

// What remains of a quota; 0 where there is no such quota.
pub fn remaining(words: &[u32; WORDS], quota: u32) -> u32
    ensures { result ≡ remaining quota (accounts_of words.now) }
{
    let q = quota as usize;
    if QUOTAS <= q {
        return 0;
    }
    word_at(words, 3 * q + 1)
}

// What a quota has spent of its grant; 0 where there is no such quota, or more remains than was granted.
pub fn spent(words: &[u32; WORDS], quota: u32) -> u32
    ensures { result ≡ spent quota (accounts_of words.now) }
{
    let q = quota as usize;
    if QUOTAS <= q {
        return 0;
    }
    let grant = word_at(words, 3 * q);
    let remainder = word_at(words, 3 * q + 1);
    if grant < remainder {
        return 0;
    }
    grant - remainder
}

// The permissions of a quota by their bits; 0 where there is no such quota.
pub fn permissions(words: &[u32; WORDS], quota: u32) -> u8
    ensures { result ≡ (quota_at quota (accounts_of words.now)).permissions }
{
    let q = quota as usize;
    if QUOTAS <= q {
        return 0;
    }
    (word_at(words, 3 * q + 2) % 256) as u8
}

// What clearing permissions leaves to a quota (rule 15.4); 0 where there is no such quota.
pub fn left_permissions(words: &[u32; WORDS], quota: u32, bits: u32) -> u8
    ensures { result ≡ left_permissions quota bits (accounts_of words.now) }
{
    accounts::cleared(bits, permissions(words, quota))
}

// The last serial given.
pub fn last_serial(words: &[u32; WORDS]) -> u32
    ensures { result ≡ (accounts_of words.now).last_serial }
{
    word_at(words, LAST)
}

// The heap's kind. A number: C lends any byte as one.
pub fn kind(words: &[u32; WORDS]) -> u8
    ensures { result ≡ (accounts_of words.now).kind }
{
    (word_at(words, KINDS) % 256) as u8
}

// The heap's edition. A number: C lends any byte as one.
pub fn edition(words: &[u32; WORDS]) -> u8
    ensures { result ≡ (accounts_of words.now).edition }
{
    (word_at(words, KINDS) / 256 % 256) as u8
}
