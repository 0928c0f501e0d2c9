// The first place from one on at which two images' streams differ, or do not.
ghost use Rattle.std.specs.Prelude.{◌<◌, ◌^◌};
ghost use Rattle.comparison.specs.Finding.{same_byte, Finds};

// The first offset from one on, below an end, at which two streams have the same byte, or at which they have not, as it
// is wanted, if there is one; each stream's offsets are counted from a start of its own. A flag and no closure: it
// is what the comparison has to give, and chooses no step.
pub(crate) fn find_byte(
    first: &[u8],
    second: &[u8],
    start: usize,
    other: usize,
    from: usize,
    end: usize,
    same: bool,
) -> Option<usize>
    requires { (start < 2 ^ 32) × (other < 2 ^ 32) × (end < 2 ^ 32) }
    ensures { Finds (same_byte first.now second.now start other) same from end result }
{
    (from..end).find(|at| {
        (framing::stream_at(first, start + *at) == framing::stream_at(second, other + *at)) == same
    })
}
