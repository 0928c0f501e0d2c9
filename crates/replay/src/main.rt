// The replay program: it reads standard input, has it replayed, and writes what that prints to standard output.
#![tactic(auto)]

ghost use Rattle.std.specs.Prelude.{◌≡◌, length};
ghost use Rattle.io.specs.Counts.{IsPrefixLen};
ghost use Rattle.replay_model.specs.Replay.{OUTPUT as OutputLength};

use replay_text::OUTPUT;

// The numbers of standard input and output.
const STDIN_FILENO: i32 = 0;

const STDOUT_FILENO: i32 = 1;

// One byte more than is read of an input, so that too long an input is seen to be too long.
const INPUT: usize = 65537;

// Room for an input.
fn input_space() -> [u8; INPUT]
    ensures { 65537 ≡ length result }
{
    [0u8; INPUT]
}

// Room for an output.
fn output_space() -> [u8; OUTPUT]
    ensures { OutputLength ≡ length result }
{
    [0u8; OUTPUT]
}

// What the input prints, at the front of the output, and how many bytes that is.
fn print(input: &[u8], output: &mut [u8]) -> usize
    ensures { IsPrefixLen result output.new }
{
    replay_text::replay(input, output).unwrap_or(0)
}

fn main() {
    let mut input = input_space();
    let mut output = output_space();
    let read = io::read_full(STDIN_FILENO, &mut input);
    let count = print(&input[..read], &mut output);
    io::write_all(STDOUT_FILENO, &output[..count]);
}
