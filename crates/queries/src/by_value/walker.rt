// A walker over the heap's blocks (rule 8.34): it has the heap and a place, and its steps give the blocks in order.
ghost use Rattle.std.specs.Prelude.{◌≡◌};
ghost use Rattle.model.specs.Answers.{block_values};
ghost use Rattle.rounding.specs.Rounding.{table};
ghost use Rattle.model.specs.Calls.{list_block};
ghost use Rattle.results.specs.Results.{outcome};
ghost use Rattle.queries.specs.Listing.{Stepped};

use accounts::Accounts;
use model::{ListedBlock, Refusal};

// The heap, and the place of the block that comes next.
#[derive(Clone, Copy)]
pub struct Walker<'a> {
    pub heap: &'a [u8],
    pub at: usize,
}

// A step: what it answers, and the walker behind it.
#[derive(Clone, Copy)]
pub struct Step<'a> {
    pub heap: &'a [u8],
    pub at: usize,
    pub answer: Result<Option<ListedBlock>, Refusal>,
}

// What a step from a place answers, and the place behind it.
#[derive(Clone, Copy)]
struct Given {
    answer: Result<Option<ListedBlock>, Refusal>,
    at: usize,
}

// The block that starts at a place, if one does: the listing in place, on words of the accounts.
fn block_from(heap: &[u8], accounts: Accounts, at: usize) -> Result<Option<ListedBlock>, Refusal>
    ensures { outcome heap.now accounts (block_values result) ≡ list_block (table accounts.edition) heap.now accounts at }
{
    let words = words::words_of(accounts);
    crate::list_block(heap, &words, at)
}

// The block that starts at a place, and the place behind it; where none is given, the same place.
fn step_from(heap: &[u8], accounts: Accounts, at: usize) -> Given
    ensures { Stepped (table accounts.edition) heap.now accounts at result.answer result.at }
{
    let answer = block_from(heap, accounts, at);
    match answer {
        Ok(Some(block)) => Given {
            answer,
            at: block.offset + block.size,
        },
        Ok(None) => Given { answer, at },
        Err(_) => Given { answer, at },
    }
}

// A walker at the first block.
pub fn walk<'a>(heap: &'a [u8]) -> Walker<'a>
    ensures { (result.heap ≡ heap.entry) × (result.at ≡ 0) }
{
    Walker { heap, at: 0 }
}

// A step: the block that starts at the walker's place, and the walker moved on to the block's end. Where no block is given, it stays.
pub fn next<'a>(walker: Walker<'a>, accounts: Accounts) -> Step<'a>
    ensures { (result.heap ≡ walker.entry.heap)
        × Stepped (table accounts.edition) walker.entry.heap.now accounts walker.entry.at result.answer result.at }
{
    let given = step_from(walker.heap, accounts, walker.at);
    Step {
        heap: walker.heap,
        at: given.at,
        answer: given.answer,
    }
}

// What a step of a walker at a place answers: with plain parameters.
pub fn list_from(heap: &[u8], accounts: Accounts, at: usize) -> Result<Option<ListedBlock>, Refusal>
    ensures { outcome heap.now accounts (block_values result) ≡ list_block (table accounts.edition) heap.now accounts at }
{
    next(Walker { heap, at }, accounts).answer
}
