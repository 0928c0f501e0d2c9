// Two images compared: first whether they can be, then the difference that was asked for, by its number or from a
// position on.
ghost use Rattle.std.specs.Prelude.{◌≡◌};
ghost use Rattle.comparison.specs.Compare.{compared, nth_of, compare_of, advanced, advance_of};

use crate::going::step_from;
use crate::pairing::pair_of;
use crate::{Difference, Position, Which};
use image_model::ImageRefusal;

// The n-th difference, from 0, of what two images say.
fn nth_difference(first: &[u8], second: &[u8], n: usize) -> Option<Difference>
    ensures { compared (Ok result) ≡ nth_of first.now second.now n }
{
    let mut from = Position::Start;
    for _ in 0..n {
        let (_, behind) = step_from(first, second, from)?;
        from = behind;
    }
    let (difference, _) = step_from(first, second, from)?;
    Some(difference)
}

// The n-th difference, from 0, of the states that two images say, if there are so many; or why they are not compared,
// and which of them it is about.
pub fn compare(
    first: &[u8],
    second: &[u8],
    n: usize,
) -> Result<Option<Difference>, (ImageRefusal, Which)>
    ensures { compared result ≡ compare_of first.now second.now n }
{
    pair_of(first, second)?;
    Ok(nth_difference(first, second, n))
}

// The first difference from a position on of the states that two images say, and the position behind it, if there is
// one; or why they are not compared, and which of them it is about.
pub fn next_difference(
    first: &[u8],
    second: &[u8],
    from: Position,
) -> Result<Option<(Difference, Position)>, (ImageRefusal, Which)>
    ensures { advanced result ≡ advance_of first.now second.now from }
{
    pair_of(first, second)?;
    Ok(step_from(first, second, from))
}
