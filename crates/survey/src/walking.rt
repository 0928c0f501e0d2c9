// The walk over the blocks.
ghost use Rattle.std.specs.Prelude.{◌≡◌, ◌-◌, ◌%◌, ◌^◌, ◌<◌, ◌≤◌, false, ◌&&◌, ◌==◌, nat_le, MatchOption};
ghost use Rattle.rounding.specs.Rounding.{table};
ghost use Rattle.layout.specs.Blocks.{QUARANTINED};
ghost use Rattle.model.specs.Consistent.{fits_unit};
ghost use Rattle.survey.specs.Clauses.{ReadyFor, VisitedBy, StageOf, judged_of, WalkedBy};
ghost use Rattle.survey.specs.Route.{Reaches, Passed};
ghost use Rattle.lookup.specs.Walk.{has_room};

use crate::numbers::Numbers;
use crate::settling::Unsettled;
use crate::wanting::Alignment;
use layout::QUARANTINED;
use std::num::wrapping_sub_usize;
use words::WORDS;

// How many sizes from 16 bytes on a live block may have whose object has unit 8 in both editions.
const SHORT: usize = 4104 - 16;

// Whether a live block that ends at a place is long enough, and base and length of its object are multiples of its
// unit. Sizes and ends are multiples of 8, which is the unit of a short object, so one comparison decides most blocks.
// A length is a multiple of its unit exactly if it is one of the unit by its leading zeros, and then the two are the
// same; and then the base is a multiple exactly if the end is.
// The edition is a number: `rounding::object_unit` and the definition `table` take the byte, into which an enum would
// be turned back here. What is required of a size, here and in others, is a clause: it is a number of the walk's, of
// one block, and a struct would be made anew for each.
fn is_fitting(edition: u8, size: usize, end: usize) -> bool
    requires { (size % 8 ≡ 0) × (end % 8 ≡ 0) × (size ≤ end) × (size < 2 ^ 32) }
    ensures { result ≡ (nat_le 16 size && fits_unit (table edition) (end - (size - 8)) (size - 8)) }
{
    if wrapping_sub_usize(size, 16) < SHORT {
        return true;
    }
    if size < 16 {
        return false;
    }
    let length = size - 8;
    let unit = rounding::object_unit(edition, length as u32) as usize;
    if length % unit != 0 {
        return false;
    }
    end % unit == 0
}

// Whether a block is quarantined, long enough, and of the heap's kind.
// The kind is a number: it is compared with 1 alone, so an enum would be made of it for one comparison.
fn is_waiting(kind: u8, serial: u32, size: usize) -> bool
    ensures { result ≡ (serial == QUARANTINED && (nat_le 16 size && kind == 1)) }
{
    if serial != QUARANTINED {
        return false;
    }
    if size < 16 {
        return false;
    }
    kind == 1
}

// More bytes than a block has.
pub(crate) const TAKEN: usize = 8 * 65536;

// Where the walk has come to: the place, units and serial of the block before it, the place of the first free block
// with room, and the bytes that are still sought.
// Numbers and no Option: `fit` is the heap's length where no block was found, and `need` is TAKEN where one was, as the
// definition `Seeking` (specs/Route.antt) says. So one comparison tells for each free block whether it is too small or
// not sought; an Option would be matched before it is compared.
#[derive(Clone, Copy)]
pub(crate) struct Walked {
    pub at: usize,
    pub back: usize,
    pub before: u32,
    pub fit: usize,
    pub need: usize,
}

impl Unsettled {
    // A block of the walk, behind one with the serial `before`: a live one closes its records and is paid for. False
    // where the block is not as it must be, not of the heap's kind, or its object does not fit its unit. The block ends
    // where `after` of `whole` bytes are left; that place is worked out for long objects only, which keeps a register
    // free. Where this is a call, a check runs up to 65 % more instructions.
    #[inline(always)]
    pub(crate) fn visit(
        &mut self,
        words: &[u32; WORDS],
        numbers: Numbers,
        before: u32,
        serial: u32,
        size: usize,
        whole: usize,
        after: usize,
    ) -> bool
        requires { ReadyFor words.now self.old
            × (size % 8 ≡ 0) × ((whole - after) % 8 ≡ 0) × (size ≤ whole - after) × (size < 2 ^ 32) × (after ≤ whole) }
        ensures { VisitedBy numbers serial size (whole - after) before words.now self.old result self.new }
    {
        if serial == 0 {
            if before == 0 {
                return false;
            }
            return 8 <= size;
        }
        if numbers.last < serial {
            return is_waiting(numbers.kind, serial, size);
        }
        if !is_fitting(numbers.edition, size, whole - after) {
            return false;
        }
        self.settle(words, serial, size)
    }
}

// Whether a block that ends at a place is free and has room for `need` bytes at a multiple of `unit`.
// By the gap and no `next_multiple_of`: what is needed is compared with the room, and the base is not asked for.
fn is_roomy(serial: u32, size: usize, end: usize, unit: Alignment, need: usize) -> bool
    requires { (8 ≤ size) × (size ≤ end) × (size < 2 ^ 32) }
    ensures { result ≡ has_room unit.bytes need (record { at = end - size; size = size; back = 0; serial = serial }) }
{
    if serial != 0 {
        return false;
    }
    if size <= need {
        return false;
    }
    let room = size - 8;
    let start = end - room;
    let gap = unit.bytes - 1 - (start - 1) % unit.bytes;
    gap + need <= room
}

// The walk over the blocks from a place on, as long as `edge` bytes are left: whether the heap is cut into blocks
// there, each as it must be and with an object that fits its unit; None where it is not.
// A `while`: each header says where the next one is.
pub(crate) fn walk(
    heap: &[u8],
    words: &[u32; WORDS],
    unsettled: &mut Unsettled,
    numbers: Numbers,
    edge: usize,
    unit: Alignment,
    from: Walked,
) -> Option<Walked>
    requires { (8 ≤ edge) × StageOf heap.now words.now unsettled.old from.at }
    ensures { MatchOption result
        (judged_of numbers from heap.now words.now unsettled.old ≡ false)
        (λ w. WalkedBy numbers edge heap.now words.now (judged_of numbers from heap.now words.now unsettled.old) w unsettled.new
        × (Reaches heap.now from.at → Passed heap.now edge unit.bytes from.at from.fit from.need
        w.at w.back w.before w.fit w.need)) }
{
    let mut before = from.before;
    let mut back = from.back;
    let mut fit = from.fit;
    let mut need = from.need;
    let mut rest = &heap[from.at..];
    while edge <= rest.len() {
        let header = layout::header_at(rest, 0);
        let size = 8 * header.size;
        if rest.len() < size {
            return None;
        }
        if header.back != back {
            return None;
        }
        let serial = header.serial;
        let after = &rest[size..];
        if !unsettled.visit(
            words,
            numbers,
            before,
            serial,
            size,
            heap.len(),
            after.len(),
        ) {
            return None;
        }
        if serial == 0 {
            let end = heap.len() - after.len();
            if is_roomy(serial, size, end, unit, need) {
                fit = end - size;
                need = TAKEN;
            }
        }
        before = serial;
        back = header.size;
        rest = after;
    }
    Some(Walked {
        at: heap.len() - rest.len(),
        back: back,
        before: before,
        fit: fit,
        need: need,
    })
}
