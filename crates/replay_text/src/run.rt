// The run of an input: its first line opens a heap, each further line is a call on it, and at the end its blocks are
// listed.
// Heap and accounts are two parameters, and `Reached` is a clause of four functions: `heap::perform` and
// `heap::list_from` take the two apart, so a struct with that invariant would be taken apart and made again at each
// call, which is no plainer.
ghost use Rattle.std.specs.Prelude.{◌≡◌, ◌+◌, ◌≤◌, length, replicate, IfSome};
ghost use Rattle.accounts.specs.Accounts.{plain};
ghost use Rattle.layout.specs.Blocks.{greatest_heap};
ghost use Rattle.model.specs.Calls.{open_heap};
ghost use Rattle.model.specs.Objects.{blocks_of};
ghost use Rattle.model.proofs.Listing.{block_at};
ghost use Rattle.replay_model.specs.Lines.{lines};
ghost use Rattle.replay_model.specs.Replay.{heap_lines, ending, run_lines, run_opened, run_input};
ghost use Rattle.replay_text.specs.Clauses.{Room, Put, Zeros};
ghost use Rattle.replay_model.specs.Events.{Reached, Granted};

use crate::output::Output;
use crate::{Opening, answers, commands, tokens};
use accounts::{Accounts, QUOTAS};
use layout::GREATEST_HEAP;
use model::{ListedBlock, Refusal};

// The block that begins at a place, nothing at the heap's end: the listing refuses no state that a history leads to.
fn block_at(heap: &[u8], accounts: Accounts, place: usize) -> Option<ListedBlock>
    requires { Reached heap.now accounts }
    ensures block { result ≡ block_at (blocks_of heap.now) place }
    ensures inside { IfSome result (λ b. b.offset + b.size ≤ length heap.now) }
{
    heap::list_from(heap, accounts, place).unwrap_or(None)
}

// The lines of the heap's blocks, in order. The loop is a walk: each block says where the next one begins.
fn put_blocks(heap: &[u8], accounts: Accounts, output: &mut Output<'_>)
    requires { Reached heap.now accounts × Room (heap_lines heap.now) output.old }
    ensures { Put (heap_lines heap.now) output.old output.new }
{
    let mut place: usize = 0;
    while let Some(block) = block_at(heap, accounts, place) {
        answers::put_block(output, block);
        place = block.offset + block.size;
    }
}

// The end of an input: the list, where nothing stands behind the last line feed.
fn put_ending(rest: &[u8], heap: &[u8], accounts: Accounts, output: &mut Output<'_>)
    requires { Reached heap.now accounts × Room (ending rest.now heap.now) output.old }
    ensures { Put (ending rest.now heap.now) output.old output.new }
{
    if rest.is_empty() {
        put_blocks(heap, accounts, output);
    } else {
        answers::put_bad(output);
    }
}

// The lines behind an opening: each is a call, which is made and answered.
// The loop is a walk: a call is made on the heap that the call before it left, and the first bad line ends all.
fn run_calls(input: &[u8], heap: &mut [u8], accounts: Accounts, output: &mut Output<'_>)
    requires { Reached heap.old accounts × Room (run_lines (lines input.now) heap.old accounts) output.old }
    ensures { Put (run_lines (lines input.now) heap.old accounts) output.old output.new }
{
    let mut left = input;
    let mut current = accounts;
    while let Some((line, rest)) = tokens::split_once(left, b'\n') {
        let Some(call) = commands::read_call(line) else {
            return answers::put_bad(output);
        };
        let done = heap::perform(heap, current, call);
        answers::put_answer(output, call, done.answer);
        current = done.accounts;
        left = rest;
    }
    put_ending(left, heap, current, output);
}

// The lines behind an opening, on a heap that is opened with these grants.
fn run_opened(input: &[u8], heap: &mut [u8], grants: [u32; QUOTAS], output: &mut Output<'_>)
    requires { Granted grants × Room (run_opened (open_heap plain heap.old grants) (lines input.now)) output.old }
    ensures { Put (run_opened (open_heap plain heap.old grants) (lines input.now)) output.old output.new }
{
    let opened = heap::open_plain(heap, grants);
    if let Err(refusal) = opened.verdict {
        return answers::put_refusal(output, refusal);
    }
    output.put_line(b"ok", &[]);
    run_calls(input, heap, opened.accounts, output);
}

// A heap's bytes before it is opened.
fn zero_bytes() -> [u8; GREATEST_HEAP]
    ensures { Zeros greatest_heap result }
{
    [0u8; GREATEST_HEAP]
}

// The lines behind an opening, on a heap of as many bytes as it says.
fn run_opening(input: &[u8], opening: Opening, output: &mut Output<'_>)
    requires { Granted opening.grants × Room
        (run_opened (open_heap plain (replicate opening.heap 0) opening.grants) (lines input.now)) output.old }
    ensures { Put (run_opened (open_heap plain (replicate opening.heap 0) opening.grants) (lines input.now))
        output.old output.new }
{
    let len = opening.heap as usize;
    if GREATEST_HEAP < len {
        return answers::put_refusal(output, Refusal::HeapLength);
    }
    let mut store = zero_bytes();
    run_opened(input, &mut store[..len], opening.grants, output);
}

// All lines of an input: the first opens a heap.
pub(crate) fn run_all(input: &[u8], output: &mut Output<'_>)
    requires { Room (run_input (lines input.now)) output.old }
    ensures { Put (run_input (lines input.now)) output.old output.new }
{
    let Some((line, rest)) = tokens::split_once(input, b'\n') else {
        return answers::put_bad(output);
    };
    let Some(opening) = commands::read_opening(line) else {
        return answers::put_bad(output);
    };
    run_opening(rest, opening, output);
}
