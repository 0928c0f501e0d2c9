// Comparing images: each function is the one of `comparison` and its answer as numbers.
ghost use Rattle.std.specs.Prelude.{◌≡◌};
ghost use Rattle.comparison.specs.Compare.{compared, advanced, compare_of, advance_of};
ghost use Rattle.exports.specs.ComparisonReplies.{which_number, difference_number, place_number, length_number};
ghost use Rattle.exports.specs.ComparisonReplies.{compare_reply, position_of, part_number, place_in, next_reply};

use crate::replies::Numbered;
use comparison::{Difference, Position, Which};
use image_model::ImageRefusal;

// What compare gives: the refusal's number, 0 where there is none; which image it is about, 1 or 2, 0 for neither; and
// the difference. Its kind is 0 for none, 1 for the last serial, 2 for a quota, 3 for a hold record, 4 for a run of heap
// bytes, 5 for the heap's kind and 6 for its edition; its place is the quota's number, the record's place or the run's
// offset; its length is the run's. What has no meaning is 0.
#[repr(C)]
#[derive(Clone, Copy)]
pub struct CompareReply {
    pub refusal: u32,
    pub which: u32,
    pub kind: u32,
    pub place: usize,
    pub length: usize,
}

// What the next difference gives: refusal and which as of compare; a difference, and the position behind it. Its part
// is 0 for the start, 1 for a quota, 2 for a hold record and 3 for a heap byte, and at is which; it is 4 for the
// heap's kind and 5 for its edition. What has no meaning is 0.
#[repr(C)]
#[derive(Clone, Copy)]
pub struct NextReply {
    pub refusal: u32,
    pub which: u32,
    pub kind: u32,
    pub place: usize,
    pub length: usize,
    pub part: u32,
    pub at: usize,
}

impl Numbered for Which {
    ghost numbered = { which_number };

    // The image that a refusal is about.
    fn told(self) -> u32 {
        match self {
            Which::First => 1,
            Which::Second => 2,
            Which::Neither => 0,
        }
    }
}

impl Numbered for Difference {
    ghost numbered = { difference_number };

    // A difference's kind.
    fn told(self) -> u32 {
        match self {
            Difference::LastSerial => 1,
            Difference::Kind => 5,
            Difference::Edition => 6,
            Difference::Quota(_) => 2,
            Difference::Record(_) => 3,
            Difference::Bytes(_, _) => 4,
        }
    }
}

// The other numbers of a difference: its place and its length. A match each: C gets both, 0 where a difference has none,
// and one Option or pair of them would be taken apart again at both replies.
fn place_of(difference: Difference) -> usize
    ensures { result ≡ place_number difference }
{
    match difference {
        Difference::LastSerial => 0,
        Difference::Kind => 0,
        Difference::Edition => 0,
        Difference::Quota(number) => number,
        Difference::Record(place) => place,
        Difference::Bytes(offset, _) => offset,
    }
}

fn length_of(difference: Difference) -> usize
    ensures { result ≡ length_number difference }
{
    match difference {
        Difference::LastSerial => 0,
        Difference::Kind => 0,
        Difference::Edition => 0,
        Difference::Quota(_) => 0,
        Difference::Record(_) => 0,
        Difference::Bytes(_, length) => length,
    }
}

// The reply of compare. It and the next difference's have five fields alike, but each is a C struct of its own, and C
// has no generic one.
fn reply_of_compare(answer: Result<Option<Difference>, (ImageRefusal, Which)>) -> CompareReply
    ensures { result ≡ compare_reply (compared answer) }
{
    match answer {
        Ok(Some(difference)) => CompareReply {
            refusal: 0,
            which: 0,
            kind: difference.told(),
            place: place_of(difference),
            length: length_of(difference),
        },
        Ok(None) => CompareReply {
            refusal: 0,
            which: 0,
            kind: 0,
            place: 0,
            length: 0,
        },
        Err((refusal, which)) => CompareReply {
            refusal: refusal.number(),
            which: which.told(),
            kind: 0,
            place: 0,
            length: 0,
        },
    }
}

// The position of a part's number and a place in it; a number above 5 is taken as 3, which no TryFrom would say, and
// the types are of other crates, so there is no `From`.
#[tactic(auto, unfolding(crate::specs::ComparisonReplies::position_of))]
fn position_of(part: u32, at: usize) -> Position
    ensures { result ≡ position_of part at }
{
    match part {
        0 => Position::Start,
        1 => Position::Quota(at),
        2 => Position::Record(at),
        4 => Position::Kind,
        5 => Position::Edition,
        _ => Position::Byte(at),
    }
}

impl Numbered for Position {
    ghost numbered = { part_number };

    // A position's part.
    fn told(self) -> u32 {
        match self {
            Position::Start => 0,
            Position::Kind => 4,
            Position::Edition => 5,
            Position::Quota(_) => 1,
            Position::Record(_) => 2,
            Position::Byte(_) => 3,
        }
    }
}

// The place in a position's part. A number: the two numbers that C lends back are the position again, by `position_of`.
fn place_in(from: Position) -> usize
    ensures { result ≡ place_in from }
{
    match from {
        Position::Start => 0,
        Position::Kind => 0,
        Position::Edition => 0,
        Position::Quota(number) => number,
        Position::Record(place) => place,
        Position::Byte(offset) => offset,
    }
}

// The reply of the next difference.
fn reply_of_next(answer: Result<Option<(Difference, Position)>, (ImageRefusal, Which)>) -> NextReply
    ensures { result ≡ next_reply (advanced answer) }
{
    match answer {
        Ok(Some((difference, behind))) => NextReply {
            refusal: 0,
            which: 0,
            kind: difference.told(),
            place: place_of(difference),
            length: length_of(difference),
            part: behind.told(),
            at: place_in(behind),
        },
        Ok(None) => NextReply {
            refusal: 0,
            which: 0,
            kind: 0,
            place: 0,
            length: 0,
            part: 0,
            at: 0,
        },
        Err((refusal, which)) => NextReply {
            refusal: refusal.number(),
            which: which.told(),
            kind: 0,
            place: 0,
            length: 0,
            part: 0,
            at: 0,
        },
    }
}

// The n-th difference, from 0, of two images, or why they are not compared.
#[unsafe(no_mangle)]
pub extern "C" fn lokhazim_image_compare(first: &[u8], second: &[u8], n: usize) -> CompareReply
    ensures { result ≡ compare_reply (compare_of first.now second.now n) }
{
    reply_of_compare(comparison::compare(first, second, n))
}

// The first difference from a position on, and the position behind it, or why the images are not compared.
#[unsafe(no_mangle)]
pub extern "C" fn lokhazim_image_compare_next(
    first: &[u8],
    second: &[u8],
    part: u32,
    at: usize,
) -> NextReply
    ensures { result ≡ next_reply (advance_of first.now second.now (position_of part at)) }
{
    reply_of_next(comparison::next_difference(first, second, position_of(part, at)))
}
