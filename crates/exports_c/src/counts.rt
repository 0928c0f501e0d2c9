// Statistics: the functions of `statistics`.
ghost use Rattle.std.specs.Prelude.{◌≡◌};
ghost use Rattle.statistics.specs.Statistics.{heap_statistics, quota_statistics};
ghost use Rattle.exports.specs.HeapReplies.{on_words};

use statistics::{QuotaStatistics, Statistics};
use words::WORDS;

// The statistics of a heap.
#[unsafe(no_mangle)]
pub extern "C" fn lokhazim_raw_statistics(heap: &[u8], words: &[u32; WORDS]) -> Statistics
    ensures { result ≡ on_words heap_statistics heap.now words.now }
{
    exports::lokhazim_raw_statistics(heap, words)
}

// The statistics of a quota.
#[unsafe(no_mangle)]
pub extern "C" fn lokhazim_raw_quota_statistics(
    heap: &[u8],
    words: &[u32; WORDS],
    quota: u32,
) -> QuotaStatistics
    ensures { result ≡ on_words quota_statistics heap.now words.now quota }
{
    exports::lokhazim_raw_quota_statistics(heap, words, quota)
}
