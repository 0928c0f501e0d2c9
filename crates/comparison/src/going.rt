// From difference to difference: the first one from a position on, and the position behind it, of what two images say.
// Nothing is tested here: `comparing` calls it for images that it has found comparable. The two images stand beside each
// other in all functions, and in no struct: lokhazim_image_compare lends them so.
ghost use Rattle.std.specs.Prelude.{◌≡◌};
ghost use Rattle.comparison.specs.Differences.{state_in, differences};
ghost use Rattle.comparison.specs.Positions.{from_byte, from_record, from_quota, from_edition, from_kind, first_of, next_of};

use crate::finding::find_byte;
use crate::{Difference, Position};
use accounts::{HOLDS, QUOTAS};
use std::cmp::min;

// The first run of heap bytes from an offset on.
fn from_byte(first: &[u8], second: &[u8], at: usize) -> Option<(Difference, Position)>
    ensures { result ≡ first_of (from_byte (state_in first.now) (state_in second.now) at) }
{
    let one = image::heap_place(first);
    let two = image::heap_place(second);
    let start = one.start as usize;
    let other = two.start as usize;
    let end = min(one.size, two.size) as usize;
    let from = find_byte(first, second, start, other, at, end, false)?;
    let to = find_byte(first, second, start, other, from, end, true).unwrap_or(end);
    Some((Difference::Bytes(from, to - from), Position::Byte(to)))
}

// The first hold record from a place on, or the first run of bytes.
fn from_record(first: &[u8], second: &[u8], place: usize) -> Option<(Difference, Position)>
    ensures { result ≡ first_of (from_record (state_in first.now) (state_in second.now) place) }
{
    let one = image::accounts_in(first);
    let two = image::accounts_in(second);
    let Some(p) = (place..HOLDS).find(|p| one.holds[*p] != two.holds[*p]) else {
        return from_byte(first, second, 0);
    };
    Some((Difference::Record(p), Position::Record(p + 1)))
}

// The first quota from a number on, or what is first behind the quotas. This and `from_record` differ in the table, the
// names and what is behind; one function for both would take a closure for each, and is no plainer. The same holds of
// `from_edition`, `from_kind` and `from_start`, which differ in the field, the names and what is behind.
fn from_quota(first: &[u8], second: &[u8], number: usize) -> Option<(Difference, Position)>
    ensures { result ≡ first_of (from_quota (state_in first.now) (state_in second.now) number) }
{
    let one = image::accounts_in(first);
    let two = image::accounts_in(second);
    let Some(q) = (number..QUOTAS).find(|q| one.quotas[*q] != two.quotas[*q]) else {
        return from_record(first, second, 0);
    };
    Some((Difference::Quota(q), Position::Quota(q + 1)))
}

// The edition, or what is first behind it.
fn from_edition(first: &[u8], second: &[u8]) -> Option<(Difference, Position)>
    ensures { result ≡ first_of (from_edition (state_in first.now) (state_in second.now)) }
{
    let one = image::accounts_in(first);
    let two = image::accounts_in(second);
    if one.edition != two.edition {
        return Some((Difference::Edition, Position::Quota(0)));
    }
    from_quota(first, second, 0)
}

// The kind, or what is first behind it.
fn from_kind(first: &[u8], second: &[u8]) -> Option<(Difference, Position)>
    ensures { result ≡ first_of (from_kind (state_in first.now) (state_in second.now)) }
{
    let one = image::accounts_in(first);
    let two = image::accounts_in(second);
    if one.kind != two.kind {
        return Some((Difference::Kind, Position::Edition));
    }
    from_edition(first, second)
}

// The first difference of all.
fn from_start(first: &[u8], second: &[u8]) -> Option<(Difference, Position)>
    ensures { result ≡ first_of (differences (state_in first.now) (state_in second.now)) }
{
    let one = image::accounts_in(first);
    let two = image::accounts_in(second);
    if one.last_serial != two.last_serial {
        return Some((Difference::LastSerial, Position::Kind));
    }
    from_kind(first, second)
}

// The first difference from a position on, and the position behind it.
pub(crate) fn step_from(
    first: &[u8],
    second: &[u8],
    from: Position,
) -> Option<(Difference, Position)>
    ensures { result ≡ next_of from (state_in first.now) (state_in second.now) }
{
    match from {
        Position::Start => from_start(first, second),
        Position::Kind => from_kind(first, second),
        Position::Edition => from_edition(first, second),
        Position::Quota(number) => from_quota(first, second, number),
        Position::Record(place) => from_record(first, second, place),
        Position::Byte(at) => from_byte(first, second, at),
    }
}
