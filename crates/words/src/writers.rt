// Changes of the accounts that some words hold.
ghost use Rattle.std.specs.Prelude.{◌≡◌, ◌<◌};
ghost use Rattle.accounts.specs.Accounts.{less_paid, paid_back, charge, refund, clear_permissions, with_last_serial, put_hold, drop_hold};
ghost use Rattle.words.specs.Words.{accounts_of, Padded};
ghost use Rattle.words.specs.Changing.{Makes};

use crate::readers::{left_permissions, word_at};
use crate::{FIRST, LAST, WORDS};
use accounts::{HOLDS, Hold, QUOTAS};

// The remainder of a quota is what the function makes of it; where there is no such quota, nothing changes. `charge` and
// `refund` share it: they stay two, since callers name them, and each has its own closure and nothing more.
fn change_remainder<F: FnOnce(u32) -> u32>(words: &mut [u32; WORDS], quota: u32, change: F)
    requires { F.IsAlwaysCallable change }
    ensures { Makes (F.post change) quota words.old words.new }
{
    let q = quota as usize;
    if QUOTAS <= q {
        return;
    }
    words[3 * q + 1] = change(word_at(words, 3 * q + 1));
}

// The quota pays; where there is no such quota, or it has less than that, nothing changes.
pub fn charge(words: &mut [u32; WORDS], quota: u32, amount: u32)
    ensures holds { accounts_of words.new ≡ charge quota amount (accounts_of words.old) }
    ensures pads { Padded words.old words.new }
{
    change_remainder(
        words,
        quota,
        |remainder|
            ensures { result ≡ less_paid amount remainder }
        { remainder.checked_sub(amount).unwrap_or(remainder) },
    );
}

// The quota is paid back; where there is no such quota, or the sum needs more than 32 bits, nothing changes.
pub fn refund(words: &mut [u32; WORDS], quota: u32, amount: u32)
    ensures holds { accounts_of words.new ≡ refund quota amount (accounts_of words.old) }
    ensures pads { Padded words.old words.new }
{
    change_remainder(
        words,
        quota,
        |remainder|
            ensures { result ≡ paid_back amount remainder }
        { remainder.checked_add(amount).unwrap_or(remainder) },
    );
}

// The quota's permissions are cleared by the bits of a number; where there is no such quota, nothing changes.
pub fn clear_permissions(words: &mut [u32; WORDS], quota: u32, bits: u32)
    ensures holds { accounts_of words.new ≡ clear_permissions quota bits (accounts_of words.old) }
    ensures pads { Padded words.old words.new }
{
    let q = quota as usize;
    if QUOTAS <= q {
        return;
    }
    let left = u32::from(left_permissions(words, quota, bits));
    let spare = word_at(words, 3 * q + 2);
    words[3 * q + 2] = 256 * (spare / 256) + left;
}

// Another last serial.
pub fn set_last_serial(words: &mut [u32; WORDS], serial: u32)
    ensures holds { accounts_of words.new ≡ with_last_serial serial (accounts_of words.old) }
    ensures pads { Padded words.old words.new }
{
    words[LAST] = serial;
}

// Another record at a place; a place out of range changes nothing.
pub fn put_hold(words: &mut [u32; WORDS], at: usize, hold: Hold)
    ensures holds { accounts_of words.new ≡ put_hold at hold (accounts_of words.old) }
    ensures pads { Padded words.old words.new }
{
    if HOLDS <= at {
        return;
    }
    let quota = u32::from(hold.quota);
    let times = u32::from(hold.count);
    let rest = word_at(words, FIRST + 2 * at + 1);
    words[FIRST + 2 * at] = hold.serial;
    words[FIRST + 2 * at + 1] = 65536 * (rest / 65536) + (256 * times + quota);
}

// The record at a place becomes unused; a place out of range changes nothing.
pub fn drop_hold(words: &mut [u32; WORDS], at: usize)
    ensures holds { accounts_of words.new ≡ drop_hold at (accounts_of words.old) }
    ensures pads { Padded words.old words.new }
{
    put_hold(words, at, Hold::zero());
}
