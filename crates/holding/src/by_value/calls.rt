// Each call is made over the words that hold the accounts, and the accounts that these hold then come back.
ghost use Rattle.std.specs.Prelude.{◌≡◌};
ghost use Rattle.accounts.specs.Accounts.{plain};
ghost use Rattle.rounding.specs.Rounding.{table};
ghost use Rattle.model.specs.Calls.{claim as claim_of, clear as clear_of, free_all as free_all_of, open_heap, sweep as sweep_of};
ghost use Rattle.results.specs.Results.{amount_outcome, opened_outcome};

use accounts::{Accounts, Edition, Kind, QUOTAS, Settings};
use model::Handle;
use results::{AmountResult, Opened};
use words::WORDS;

// One free block covers the heap, and every quota has its grant; or the length is not allowed, and nothing changes.
pub fn open(heap: &mut [u8], grants: [u32; QUOTAS], settings: Settings) -> Opened
    ensures { opened_outcome heap.new result ≡ open_heap settings heap.old grants }
{
    let mut words = [0u32; WORDS];
    let verdict = crate::open(heap, &mut words, grants, settings);
    Opened {
        accounts: words::accounts_of(&words),
        verdict: verdict,
    }
}

// A plain heap of edition 1 is opened.
pub fn open_plain(heap: &mut [u8], grants: [u32; QUOTAS]) -> Opened
    ensures { opened_outcome heap.new result ≡ open_heap plain heap.old grants }
{
    let settings = Settings {
        kind: Kind::Plain,
        edition: Edition::First,
    };
    open(heap, grants, settings)
}

// Rules 8.13 to 8.15 and 15.5: a quota holds an object once more, or pays and holds it for the first time. The answer is the object's length.
pub fn claim(heap: &[u8], accounts: Accounts, quota: u32, handle: Handle) -> AmountResult
    ensures { amount_outcome heap.now result ≡ claim_of (table accounts.edition) heap.now accounts quota handle }
{
    let mut words = words::words_of(accounts);
    let answer = crate::claim(heap, &mut words, quota, handle);
    AmountResult::of(&words, answer)
}

// Every hold of a quota is given up, and all that it has spent is given back; objects that no quota holds are freed.
pub fn free_all(heap: &mut [u8], accounts: Accounts, quota: u32) -> AmountResult
    ensures { amount_outcome heap.new result ≡ free_all_of (table accounts.edition) heap.old accounts quota }
{
    let mut words = words::words_of(accounts);
    let answer = crate::free_all(heap, &mut words, quota);
    AmountResult::of(&words, answer)
}

// Rule 15.4: those permissions of a quota are cleared whose bit is set in a number: bit 0 is allocate, 1 claim, 2 free-all. The answer is what is left.
pub fn clear_permissions(heap: &[u8], accounts: Accounts, quota: u32, bits: u32) -> AmountResult
    ensures { amount_outcome heap.now result ≡ clear_of (table accounts.edition) heap.now accounts quota bits }
{
    let mut words = words::words_of(accounts);
    let answer = crate::clear_permissions(heap, &mut words, quota, bits);
    AmountResult::of(&words, answer)
}

// Every quarantined block becomes free, and the sum of their sizes is answered.
pub fn sweep(heap: &mut [u8], accounts: Accounts) -> AmountResult
    ensures { amount_outcome heap.new result ≡ sweep_of (table accounts.edition) heap.old accounts }
{
    let words = words::words_of(accounts);
    let answer = crate::sweep(heap, &words);
    AmountResult::of(&words, answer)
}
