// The replay.
ghost use Rattle.std.specs.Prelude.{◌≡◌};
ghost use Rattle.replay_text.specs.Answer.{replayed};
ghost use Rattle.exports.specs.ReplayReplies.{reply_of};

// What the replay gives: done is 1 and length the bytes that are written, or both are 0 where the output is too short.
#[repr(C)]
#[derive(Clone, Copy)]
pub struct ReplayReply {
    pub done: u32,
    pub length: usize,
}

// What the lines of an input print, at the front of the output, which has at least 589,824 bytes; nothing is written to a
// shorter one.
#[unsafe(no_mangle)]
pub extern "C" fn lokhazim_replay(input: &[u8], output: &mut [u8]) -> ReplayReply
    ensures replies { result ≡ reply_of (replayed input.now output.old).answer }
    ensures prints { output.new ≡ (replayed input.now output.old).output }
{
    let Some(count) = replay_text::replay(input, output) else {
        return ReplayReply { done: 0, length: 0 };
    };
    ReplayReply {
        done: 1,
        length: count,
    }
}
