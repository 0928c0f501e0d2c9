// The accounts at an opening or a restore: all words are set.
ghost use Rattle.std.specs.Prelude.{◌≡◌};
ghost use Rattle.accounts.specs.Accounts.{zero_accounts, opened};
ghost use Rattle.words.specs.Words.{accounts_of, Padded, Unpadded};
ghost use Rattle.words.specs.Opening.{Blank, with_quota, with_grant, with_kinds};

use crate::readers::word_at;
use crate::{KINDS, WORDS};
use accounts::{ALL_PERMISSIONS, QUOTAS, Quota, Settings};

// Every word becomes 0.
fn wipe(words: &mut [u32; WORDS])
    ensures { Blank words.new }
{
    words.fill(0);
}

// The accounts become zero, padding too.
pub fn clear(words: &mut [u32; WORDS])
    ensures holds { accounts_of words.new ≡ zero_accounts }
    ensures pads { Unpadded words.new }
{
    wipe(words);
}

// Another quota with a number; a number out of range changes nothing.
pub fn put_quota(words: &mut [u32; WORDS], q: usize, quota: Quota)
    ensures holds { accounts_of words.new ≡ with_quota q quota (accounts_of words.old) }
    ensures pads { Padded words.old words.new }
{
    if QUOTAS <= q {
        return;
    }
    let permissions = u32::from(quota.permissions);
    let spare = word_at(words, 3 * q + 2);
    words[3 * q] = quota.grant;
    words[3 * q + 1] = quota.remainder;
    words[3 * q + 2] = 256 * (spare / 256) + permissions;
}

// The quota with a number has its grant whole, with all permissions.
fn put_grant(words: &mut [u32; WORDS], q: usize, grant: u32)
    ensures holds { accounts_of words.new ≡ with_grant q grant (accounts_of words.old) }
    ensures pads { Padded words.old words.new }
{
    let quota = Quota {
        grant: grant,
        remainder: grant,
        permissions: ALL_PERMISSIONS,
    };
    put_quota(words, q, quota);
}

// The kind and the edition, as numbers: `image::accounts_in` writes the bytes of an image, which can be any.
pub fn put_kinds(words: &mut [u32; WORDS], kind: u8, edition: u8)
    ensures holds { accounts_of words.new ≡ with_kinds kind edition (accounts_of words.old) }
    ensures pads { Padded words.old words.new }
{
    let low = u32::from(kind);
    let high = u32::from(edition);
    let spare = word_at(words, KINDS);
    words[KINDS] = 65536 * (spare / 65536) + (256 * high + low);
}

// The accounts at opening: every grant is there whole, and the heap is as it was chosen. All words are set, padding to zero.
pub fn open(words: &mut [u32; WORDS], grants: [u32; QUOTAS], settings: Settings)
    ensures holds { accounts_of words.new ≡ opened settings grants }
    ensures pads { Unpadded words.new }
{
    let kind = settings.kind;
    let edition = settings.edition;
    wipe(words);
    for (i, grant) in grants.iter().enumerate() {
        put_grant(words, i, *grant);
    }
    put_kinds(words, kind.number(), edition.number());
}
