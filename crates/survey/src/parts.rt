// The walk in two parts: to the block that a handle may name, and from there to the end.
ghost use Rattle.std.specs.Prelude.{◌≡◌, ◌^◌, ◌<◌, ◌≤◌, false, MatchOption};
ghost use Rattle.survey.specs.Clauses.{StageOf, judged_whole, WalkedBy};
ghost use Rattle.survey.specs.Route.{Seeking, Halved};

use crate::numbers::Numbers;
use crate::settling::Unsettled;
use crate::walking::{Walked, walk};
use crate::wanting::Alignment;
use words::WORDS;

// What both parts give: where the walk ends, and where its first part ends.
#[derive(Clone, Copy)]
pub(crate) struct Course {
    pub end: Walked,
    pub half: Walked,
}

// The walk from the start to the first edge, and from there to the end; one walk where that edge is 8. None where a
// block is not as it must be. One or two turns:
// a `for` over both edges would not tell, where the first one is 8, that there is no first part.
pub(crate) fn walk_parts(
    heap: &[u8],
    words: &[u32; WORDS],
    unsettled: &mut Unsettled,
    numbers: Numbers,
    first: usize,
    unit: Alignment,
    sought: usize,
) -> Option<Course>
    requires { (8 ≤ first) × StageOf heap.now words.now unsettled.old 0 }
    ensures { MatchOption result (judged_whole numbers heap.now words.now unsettled.old ≡ false)
        (λ c. WalkedBy numbers 8 heap.now words.now (judged_whole numbers heap.now words.now unsettled.old) c.end unsettled.new
        × Seeking unit.bytes sought heap.now c.end.at c.end.fit c.end.need
        × Halved first heap.now c.half.at c.half.back c.half.before) }
{
    let mut edge = first;
    let mut end = Walked {
        at: 0,
        back: 0,
        before: 1,
        fit: heap.len(),
        need: sought,
    };
    loop {
        let walked = walk(heap, words, unsettled, numbers, edge, unit, end)?;
        if edge <= 8 {
            return Some(Course {
                end: walked,
                half: end,
            });
        }
        end = walked;
        edge = 8;
    }
}
