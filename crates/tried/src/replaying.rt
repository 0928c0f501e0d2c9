// The replay as C calls it: what a script prints, every byte behind it, and an output that is too short.
ghost use Rattle.std.specs.Prelude.{◌≡◌, length};

use crate::comparing::begins;
use crate::telling::tell;

// The room that the replay asks for, and a byte less.
const ROOM: usize = 589824;

const SHORT: usize = 589823;

// The room, and one that is a byte too short: the check counts out neither.
fn room() -> [u8; ROOM]
    ensures { ROOM ≡ length result }
{
    [170u8; ROOM]
}

fn short_room() -> [u8; SHORT]
    ensures { SHORT ≡ length result }
{
    [170u8; SHORT]
}

fn replays() -> bool {
    let script =
        b"open 64 100 0 0 0 0 0 0 0 0 0 0 0 0 0 0 0 0 0 0 0 0 0 0 0 0 0 0 0 0 0 0 0\nalloc 0 10\nalloc 1 1\nall 0\n";
    let mut output = room();
    let reply = exports::lokhazim_replay(script, &mut output);
    if reply.done != 1 || reply.length != 31 {
        return false;
    }
    begins(&output, b"ok\nok 8 16 1\nno 8\nok 24\n0 64 0\n")
}

fn finds_no_room() -> bool {
    let mut output = short_room();
    let reply = exports::lokhazim_replay(b"\n", &mut output);
    reply.done == 0 && reply.length == 0 && begins(&output, b"")
}

pub(crate) fn all() {
    tell(b"lokhazim_replay", replays() && finds_no_room());
}
