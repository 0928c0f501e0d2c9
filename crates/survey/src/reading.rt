// Small functions that read the words, the slots and the links.
// Crate words has readers of a whole record or quota, which give zeros past the table. Each of these gives one word of
// it, at a place that a pass knows to lie in the table. A place is any number; accounts/src/lib.rt says why.
ghost use Rattle.std.specs.Prelude.{◌≡◌, ◌+◌, ◌<◌, ◌≤◌, length, slice_index};
ghost use Rattle.accounts.specs.Accounts.{QUOTAS, HOLDS};
ghost use Rattle.words.specs.Words.{serial_in, quota_in, count_in, grant_in, remainder_in, spare_in};
ghost use Rattle.survey.specs.Index.{SLOTS, LINKS, slot, fork, step};

use crate::indexing::HoldIndex;
use crate::{LINKS, SLOTS};
use accounts::{HOLDS, QUOTAS};
use words::{FIRST, WORDS};

// The serial of the record at a place.
pub(crate) fn serial_in(words: &[u32; WORDS], at: usize) -> u32
    requires { at < HOLDS }
    ensures { result ≡ serial_in words.now at }
{
    words[FIRST + 2 * at]
}

// Its quota.
pub(crate) fn quota_in(words: &[u32; WORDS], at: usize) -> u32
    requires { at < HOLDS }
    ensures { result ≡ quota_in words.now at }
{
    words[FIRST + 2 * at + 1] % 256
}

// Its count.
pub(crate) fn count_in(words: &[u32; WORDS], at: usize) -> u32
    requires { at < HOLDS }
    ensures { result ≡ count_in words.now at }
{
    words[FIRST + 2 * at + 1] / 256 % 256
}

// The grant of a quota.
pub(crate) fn grant_in(words: &[u32; WORDS], at: usize) -> u32
    requires { at < QUOTAS }
    ensures { result ≡ grant_in words.now at }
{
    words[3 * at]
}

// What remains of it.
pub(crate) fn remainder_in(words: &[u32; WORDS], at: usize) -> u32
    requires { at < QUOTAS }
    ensures { result ≡ remainder_in words.now at }
{
    words[3 * at + 1]
}

// Its permissions, with what is unused of their word.
pub(crate) fn spare_in(words: &[u32; WORDS], at: usize) -> u32
    requires { at < QUOTAS }
    ensures { result ≡ spare_in words.now at }
{
    words[3 * at + 2]
}

// The slot of a serial.
pub(crate) fn slot_of(serial: u32) -> usize
    ensures { (result ≡ slot serial) × (result < SLOTS) }
{
    serial as usize % SLOTS
}

// Which of the two links of a record some bits choose.
pub(crate) fn fork(bits: u32) -> usize
    ensures { (result ≡ fork bits) × (result ≤ HOLDS) }
{
    HOLDS * (bits as usize / HOLDS % 2)
}

impl HoldIndex {
    // The number of a slot.
    pub(crate) fn head_in(&self, slot: usize) -> usize
        requires { slot < SLOTS }
        ensures { (result ≡ slice_index self.now.heads slot) × (result < 65536) }
    {
        usize::from(self.heads[slot])
    }

    // The number of the link that some bits choose at a record.
    pub(crate) fn link_in(&self, at: usize, bits: u32) -> usize
        requires { at < HOLDS }
        ensures { (result ≡ step self.now.links bits at) × (result < 65536) }
    {
        usize::from(self.links[at + fork(bits)])
    }

    // The number of a link. A record's first link stands at its place, and has the flag of a closed record.
    pub(crate) fn number_in(&self, link: usize) -> usize
        requires { link < LINKS }
        ensures { (result ≡ slice_index self.now.links link) × (result < 65536) }
    {
        usize::from(self.links[link])
    }
}
