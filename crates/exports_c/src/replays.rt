// The replay.
ghost use Rattle.std.specs.Prelude.{◌≡◌};
ghost use Rattle.replay_text.specs.Answer.{replayed};
ghost use Rattle.exports.specs.ReplayReplies.{reply_of};

use exports::ReplayReply;

// What the lines of an input print, at the front of the output, which has at least 589,824 bytes; nothing is written to a
// shorter one.
#[unsafe(no_mangle)]
pub extern "C" fn lokhazim_replay(input: &[u8], output: &mut [u8]) -> ReplayReply
    ensures replies { result ≡ reply_of (replayed input.now output.old).answer }
    ensures prints { output.new ≡ (replayed input.now output.old).output }
{
    exports::lokhazim_replay(input, output)
}
