// Whether two images are compared: the reader's refusals of the first, those of the second, then those of both
// together.
ghost use Rattle.std.specs.Prelude.{◌≡◌, MatchResult};
ghost use Rattle.model.specs.Refusals.{first_refusal};
ghost use Rattle.image_model.specs.Answers.{image_refusal_number};
ghost use Rattle.image_model.specs.Images.{examine_lines};
ghost use Rattle.comparison.specs.Compare.{paired, why_both, why_not};

use crate::Which;
use image_model::ImageRefusal;

// Whether two images that are accepted alone are compared.
fn both(first: &[u8], second: &[u8]) -> Result<(), (ImageRefusal, Which)>
    ensures { paired result ≡ why_both first.now second.now }
{
    let ours = image::form_of(first);
    let theirs = image::form_of(second);
    if ours.number != theirs.number {
        return Err((ImageRefusal::FormsDiffer, Which::Neither));
    }
    let one = image::heap_place(first);
    let two = image::heap_place(second);
    if one.size != two.size {
        return Err((ImageRefusal::HeapLengths, Which::Neither));
    }
    Ok(())
}

// Whether an image is accepted alone; or why not, and which of the two it is. A match, since `map` and `map_err` would
// take a closure for each of its two arms, which is no plainer.
fn accepted(image: &[u8], which: Which) -> Result<(), (ImageRefusal, Which)>
    ensures { MatchResult result (λ x. first_refusal (examine_lines image.now) ≡ 0)
        (λ e. (first_refusal (examine_lines image.now) ≡ image_refusal_number e.0) × (e.1 ≡ which)) }
{
    match image::examine(image).shape {
        Ok(_) => Ok(()),
        Err(refusal) => Err((refusal, which)),
    }
}

// Whether two images are compared; or why not, and which of them it is about.
pub(crate) fn pair_of(first: &[u8], second: &[u8]) -> Result<(), (ImageRefusal, Which)>
    ensures { paired result ≡ why_not first.now second.now }
{
    accepted(first, Which::First)?;
    accepted(second, Which::Second)?;
    both(first, second)
}
