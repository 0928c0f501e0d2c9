// Answers as lines: the numbers of an answer, and the lines of answers and of blocks.
ghost use Rattle.std.specs.Prelude.{◌≡◌, ◌+◌, ◌≤◌};
ghost use Rattle.layout.specs.Blocks.{greatest_heap};
ghost use Rattle.model.specs.Answers.{answer_values, refusal_number};
ghost use Rattle.replay_model.specs.Replay.{no_line, bad_line, gives_handle, answer_line, block_line};
ghost use Rattle.replay_text.specs.Clauses.{Tells, Put, Room};

use crate::output::Output;
use model::{Answer, Call, Handle, ListedBlock, Refusal};

// What is answered where no handle is.
const NO_HANDLE: Handle = Handle {
    base: 0,
    length: 0,
    serial: 0,
};

// The handle and the amount of an answer, of zeros where it has none; or its refusal.
#[tactic(auto, unfolding(crate::proofs::Answering::values))]
fn numbers_of(answer: Answer) -> Result<(Handle, u32), Refusal>
    ensures { Tells (answer_values answer) result }
{
    match answer {
        Answer::Handle(Ok(handle)) => Ok((handle, 0)),
        Answer::Amount(Ok(amount)) => Ok((NO_HANDLE, amount)),
        Answer::Verdict(Ok(())) | Answer::Range(Ok(_)) | Answer::Block(Ok(_)) => Ok((NO_HANDLE, 0)),
        Answer::Verdict(Err(refusal))
        | Answer::Handle(Err(refusal))
        | Answer::Amount(Err(refusal))
        | Answer::Range(Err(refusal))
        | Answer::Block(Err(refusal)) => Err(refusal),
    }
}

// Whether a call answers a handle.
fn answers_handle(call: Call) -> bool
    ensures { result ≡ gives_handle call }
{
    matches!(
        call,
        Call::Allocate { .. } | Call::AllocateArray { .. } | Call::Reallocate { .. }
    )
}

// The line of a call that is refused.
#[tactic(auto, unfolding(replay_model::specs::Replay::no_line))]
pub(crate) fn put_refusal(output: &mut Output<'_>, refusal: Refusal)
    requires { Room (no_line (refusal_number refusal)) output.old }
    ensures { Put (no_line (refusal_number refusal)) output.old output.new }
{
    output.put_line(b"no", &[refusal.number()]);
}

// The line of another kind of line.
#[tactic(auto, unfolding(replay_model::specs::Replay::bad_line))]
pub(crate) fn put_bad(output: &mut Output<'_>)
    requires { Room bad_line output.old }
    ensures { Put bad_line output.old output.new }
{
    output.put_line(b"bad", &[]);
}

// The line of a call's answer.
pub(crate) fn put_answer(output: &mut Output<'_>, call: Call, answer: Answer)
    requires { Room (answer_line call (answer_values answer)) output.old }
    ensures { Put (answer_line call (answer_values answer)) output.old output.new }
{
    match numbers_of(answer) {
        Err(refusal) => put_refusal(output, refusal),
        Ok((handle, _)) if answers_handle(call) => {
            output.put_line(b"ok", &[handle.base, handle.length, handle.serial]);
        }
        Ok((_, amount)) => output.put_line(b"ok", &[amount]),
    }
}

// The line of a block.
pub(crate) fn put_block(output: &mut Output<'_>, block: ListedBlock)
    requires { (block.offset + block.size ≤ greatest_heap) × Room (block_line block) output.old }
    ensures { Put (block_line block) output.old output.new }
{
    output.put_number(block.offset as u32);
    output.put_tail(&[block.size as u32, block.serial]);
}
