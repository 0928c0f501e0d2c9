// A call of a history with the accounts by value: it is made over the words that hold them.
ghost use Rattle.std.specs.Prelude.{◌≡◌};
ghost use Rattle.rounding.specs.Rounding.{table};
ghost use Rattle.model.specs.Step.{performed};

use accounts::Accounts;
use model::{Answer, Call};

// What a call of a history gives: the accounts after it, and its answer.
#[derive(Clone, Copy)]
pub struct Performed {
    pub accounts: Accounts,
    pub answer: Answer,
}

// The call is made, and its answer is given with the accounts after it.
pub fn perform(heap: &mut [u8], accounts: Accounts, call: Call) -> Performed
    ensures { record { heap = heap.exit.now; accounts = result.accounts; answer = result.answer }
        ≡ performed (table accounts.edition) call heap.entry.now accounts }
{
    let mut words = words::words_of(accounts);
    let answer = crate::in_place::perform(heap, &mut words, call);
    Performed {
        accounts: words::accounts_of(&words),
        answer: answer,
    }
}
