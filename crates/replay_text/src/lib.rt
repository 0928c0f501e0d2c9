// The replay's text: the lines of an input are read as calls, the calls are performed on a heap, and the answers are written as lines.
#![tactic(auto)]

use accounts::QUOTAS;
use output::Output;

mod answers;
mod commands;
mod digits;
mod output;
mod run;
mod tokens;

ghost use Rattle.std.specs.Prelude.{◌≡◌};
ghost use Rattle.replay_model.specs.Replay.{replay};
ghost use Rattle.replay_text.specs.Answer.{replayed};
ghost use Rattle.replay_text.specs.Clauses.{Room, Put};

// The most bytes of input that are read.
pub const LONGEST: usize = 65536;

// The bytes of output that are enough for every input: six for each byte of the longest input, and three more for the list of blocks.
pub const OUTPUT: usize = 589824;

// The opening that a line asks for: the heap's length and the grants.
#[derive(Clone, Copy)]
pub(crate) struct Opening {
    heap: u32,
    grants: [u32; QUOTAS],
}

// The replay of an input, on an output that has room for it: too long an input is a line of another kind.
fn print_replay(input: &[u8], output: &mut Output<'_>)
    requires { Room (replay input.now) output.old }
    ensures { Put (replay input.now) output.old output.new }
{
    if LONGEST < input.len() {
        answers::put_bad(output);
    } else {
        run::run_all(input, output);
    }
}

// The replay of an input: what the lines print, at the front of the output, and how many bytes these are; nothing is
// written to an output that is shorter than OUTPUT.
#[tactic(auto, using(crate::proofs::InputRuns::replay_short))]
pub fn replay(input: &[u8], output: &mut [u8]) -> Option<usize>
    ensures { record { answer = result; output = output.new } ≡ replayed input.now output.old }
{
    if output.len() < OUTPUT {
        return None;
    }
    let mut printed = Output::new(output);
    print_replay(input, &mut printed);
    Some(printed.written)
}
