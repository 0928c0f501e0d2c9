// What the calls that make an object have in common: a request as a question to the survey, its first lines, and the answer to one that is accepted.
ghost use Rattle.std.specs.Prelude.{◌≡◌, ◌≤◌, Ok};
ghost use Rattle.layout.specs.Blocks.{greatest_heap};
ghost use Rattle.words.specs.Words.{accounts_of};
ghost use Rattle.allocation.specs.Asked.{Admitted, Asks};

use accounts::{ALLOCATE, QUOTAS};
use model::{GREATEST_LENGTH, Handle, Refusal};
use survey::{Known, Wanted};
use words::WORDS;

// The greatest length of a request, as wide as a product.
const LONGEST: u64 = GREATEST_LENGTH as u64;

// What the survey is asked for: an object, a quota's record for it, and room for a new object where its length is allowed.
// The edition is a byte, as C lends it: a survey refuses one that is none, and it has not been made yet.
pub(crate) fn request(edition: u8, quota: u32, handle: Handle, length: u64) -> Wanted
    ensures { Asks edition quota handle length result }
{
    if length == 0 {
        return survey::asked(quota, handle);
    }
    if LONGEST < length {
        return survey::asked(quota, handle);
    }
    let asked = length as u32;
    let size = rounding::object_length(edition, asked) as u32;
    let unit = rounding::object_unit(edition, size);
    Wanted {
        base: handle.base,
        length: handle.length,
        serial: handle.serial,
        quota: quota,
        unit: unit,
        need: size as usize,
    }
}

// The first lines of a request for so many bytes: what the survey gave, the quota's number, its permission and the length.
pub(crate) fn admitted(
    words: &[u32; WORDS],
    surveyed: Result<Known, Refusal>,
    quota: u32,
    length: u64,
) -> Result<Known, Refusal>
    ensures { Admitted (accounts_of words.now) surveyed quota length result }
{
    let known = surveyed?;
    if QUOTAS <= quota as usize {
        return Err(Refusal::QuotaNumber);
    }
    if words::permissions(words, quota) / ALLOCATE % 2 == 0 {
        return Err(Refusal::NotPermitted);
    }
    if length == 0 {
        return Err(Refusal::ObjectLength);
    }
    if LONGEST < length {
        return Err(Refusal::ObjectLength);
    }
    Ok(known)
}

// An accepted call's answer.
pub(crate) fn given(base: usize, length: u32, serial: u32) -> Result<Handle, Refusal>
    requires { base ≤ greatest_heap }
    ensures { result ≡ Ok (record { base = base; length = length; serial = serial }) }
{
    let handle = Handle {
        base: base as u32,
        length: length,
        serial: serial,
    };
    Ok(handle)
}
