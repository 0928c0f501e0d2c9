// What calls with the accounts by value give, and the laws on lines of refusals and on lookups that all calls share.
#![tactic(auto)]

ghost use Rattle.std.specs.Prelude.{◌≡◌};
ghost use Rattle.results.specs.Results.{call_result};

use accounts::Accounts;
use model::{Handle, Refusal};
use words::WORDS;

// What open gives: the accounts, all zero where it is refused, and the verdict. The accounts stand beside it: the clause of
// `open` by value, `open_heap`, promises the zeros.
#[derive(Clone, Copy)]
pub struct Opened {
    pub accounts: Accounts,
    pub verdict: Result<(), Refusal>,
}

// What a call gives that answers a T where it is not refused.
#[derive(Clone, Copy)]
pub struct CallResult<T> {
    pub accounts: Accounts,
    pub answer: Result<T, Refusal>,
}

// What claim, release, free-all, clear permissions and sweep give.
pub type AmountResult = CallResult<u32>;

// What allocate, allocate array and reallocate give.
pub type HandleResult = CallResult<Handle>;

impl<T: Copy> CallResult<T> {
    // A call over words has answered: the accounts that they hold, and the answer.
    pub fn of(words: &[u32; WORDS], answer: Result<T, Refusal>) -> CallResult<T>
        ensures { result ≡ call_result words.now answer }
    {
        let accounts = words::accounts_of(words);
        CallResult { accounts, answer }
    }
}
