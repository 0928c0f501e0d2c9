// The statistics of a heap (rules, section 25): what is free, live and quarantined, the greatest lengths that could be
// allocated now, and what a quota has. Each function checks heap and accounts for itself and changes nothing.
#![tactic(auto)]

ghost use Rattle.std.specs.Prelude.{◌≡◌, ◌<◌};
ghost use Rattle.accounts.specs.Accounts.{QUOTAS};
ghost use Rattle.rounding.specs.Rounding.{table};
ghost use Rattle.words.specs.Words.{grant_in, edition_of, accounts_of};
ghost use Rattle.statistics.specs.Statistics.{heap_statistics, quota_statistics, no_statistics, no_quota_statistics};
ghost use Rattle.model.specs.Answers.{refusal_number};

use accounts::QUOTAS;
use model::Refusal;
use words::WORDS;

mod counting;
mod reaching;
mod tallying;

use counting::used_records;
use reaching::{most_units, reach};
use tallying::walk;

// Some blocks: how many, and their bytes with the headers, 8 for each block.
#[repr(C)]
#[derive(Clone, Copy, Default)]
pub struct BlockCount {
    pub blocks: usize,
    pub bytes: usize,
}

// The statistics of a heap: the refusal's number, 0 where there is none, since C gets this struct; the last serial given; the
// hold records that are used; the free, live and quarantined blocks; the bytes of the largest free block, and those of all
// other free blocks; and the greatest length in each unit that an allocation could get now if quota, records and serials
// allowed it.
#[repr(C)]
#[derive(Clone, Copy, Default)]
pub struct Statistics {
    pub refusal: u32,
    pub last_serial: u32,
    pub records: usize,
    pub free: BlockCount,
    pub live: BlockCount,
    pub quarantined: BlockCount,
    pub largest_free: usize,
    pub fragmented: usize,
    pub largest_8: usize,
    pub largest_16: usize,
    pub largest_32: usize,
    pub largest_64: usize,
}

// The statistics of a quota: the refusal's number, since C gets this struct, what was granted and what remains, the objects
// that it holds, and those of them that another quota holds too.
#[repr(C)]
#[derive(Clone, Copy, Default)]
pub struct QuotaStatistics {
    pub refusal: u32,
    pub grant: u32,
    pub remaining: u32,
    pub objects: usize,
    pub shared: usize,
}

// What is refused: zeros beside the refusal's number. Each of the two structs that C gets has such a function: one generic
// over Default could not write the field `refusal`, and a trait that does is no plainer.
fn no_statistics(refusal: Refusal) -> Statistics
    ensures { result ≡ no_statistics (refusal_number refusal) }
{
    Statistics {
        refusal: refusal.number(),
        ..Statistics::default()
    }
}

// The same of a quota.
fn no_quota_statistics(refusal: Refusal) -> QuotaStatistics
    ensures { result ≡ no_quota_statistics (refusal_number refusal) }
{
    QuotaStatistics {
        refusal: refusal.number(),
        ..QuotaStatistics::default()
    }
}

// What was granted to a quota: one word, as survey's `grant_in` reads it, which is private there. A public function of
// survey for a word is no plainer.
fn grant_in(words: &[u32; WORDS], quota: usize) -> u32
    requires { quota < QUOTAS }
    ensures { result ≡ grant_in words.now quota }
{
    words[3 * quota]
}

// Rules 25.1 to 25.8: the statistics of a heap.
pub fn heap_statistics(heap: &[u8], words: &[u32; WORDS]) -> Statistics
    ensures { result ≡ heap_statistics (table (edition_of words.now)) heap.now (accounts_of words.now) }
{
    if let Err(refusal) = queries::check(heap, words) {
        return no_statistics(refusal);
    }
    let tally = walk(heap);
    let units = most_units(words::edition(words));
    let free = tally.free;
    let live = tally.live;
    let quarantined = tally.quarantined;
    let largest = tally.largest;
    Statistics {
        refusal: 0,
        last_serial: words::last_serial(words),
        records: used_records(words),
        free: free,
        live: live,
        quarantined: quarantined,
        largest_free: largest,
        fragmented: free.bytes - largest,
        largest_8: reach(tally.room_8, 8, units),
        largest_16: reach(tally.room_16, 16, units),
        largest_32: reach(tally.room_32, 32, units),
        largest_64: reach(tally.room_64, 64, units),
    }
}

// Rules 25.1, 25.9 and 25.10: the statistics of a quota.
pub fn quota_statistics(heap: &[u8], words: &[u32; WORDS], quota: u32) -> QuotaStatistics
    ensures { result ≡ quota_statistics (table (edition_of words.now)) heap.now (accounts_of words.now) quota }
{
    if let Err(refusal) = queries::check(heap, words) {
        return no_quota_statistics(refusal);
    }
    if QUOTAS <= quota as usize {
        return no_quota_statistics(Refusal::QuotaNumber);
    }
    let held = survey::held_by(words, quota);
    QuotaStatistics {
        refusal: 0,
        grant: grant_in(words, quota as usize),
        remaining: words::remaining(words, quota),
        objects: held.objects,
        shared: held.shared,
    }
}
