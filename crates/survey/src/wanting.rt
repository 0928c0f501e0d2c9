// What the walk is asked for, and what its answers say of it.
ghost use Rattle.std.specs.Prelude.{◌≡◌, ◌+◌, ◌^◌, ◌<◌, ◌≤◌, if◌then◌else◌, ◌≢◌, nat_eq};
ghost use Rattle.lookup.specs.Walk.{holds_named};
ghost use Rattle.survey.specs.Survey.{handle_of};
ghost use Rattle.survey.specs.Route.{edge_of};

use crate::Wanted;
use crate::walking::TAKEN;
use layout::QUARANTINED;
use lookup::Met;

// The bytes that are left where a block may start whose object has a base; 8, which is the end, where no object has it.
// 8 and no None: the walk ends at edge 8, so it goes there in one part. The definition `edge_of` has 8 too.
pub(crate) fn edge_of(base: u32, len: usize) -> usize
    ensures { (result ≡ edge_of base len) × (8 ≤ result) }
{
    let at = base as usize;
    if at < 8 {
        return 8;
    }
    if len < at {
        return 8;
    }
    len - at + 8
}

// The alignment of an object's base.
#[derive(Clone, Copy)]
pub(crate) struct Alignment {
    pub bytes: usize,
    ghost some: { 0 < bytes },
    ghost small: { bytes < 2 ^ 32 },
}

// The alignment that is sought, 1 where none is.
// 1 and no None: the walk takes an alignment, and `need_of` says that nothing is sought.
pub(crate) fn unit_of(unit: u32) -> Alignment
    ensures { (unit ≢ 0) → result.bytes ≡ unit }
{
    if unit == 0 {
        return Alignment { bytes: 1 };
    }
    Alignment {
        bytes: unit as usize,
    }
}

// The bytes that are sought, more than any block has where none are.
// TAKEN and no None, as in `Walked`.
pub(crate) fn need_of(unit: u32, need: usize) -> usize
    ensures { (unit ≢ 0) → result ≡ need }
{
    if unit == 0 {
        return TAKEN;
    }
    need
}

// The place of the block with room, the heap's length where none is sought.
// The length and no None, as in `Walked`; `room` makes the Option of it.
pub(crate) fn fit_of(unit: u32, fit: usize, len: usize) -> usize
    ensures { result ≡ (if nat_eq unit 0 then len else fit) }
{
    if unit == 0 {
        return len;
    }
    fit
}

// Rule 4.3: whether a block is live, and the handle that was asked for names its object.
pub(crate) fn is_named(wanted: Wanted, block: Met) -> bool
    requires { block.at + block.size ≤ 2 ^ 32 }
    ensures { result ≡ holds_named (handle_of wanted) block }
{
    if block.serial == 0 {
        return false;
    }
    if wanted.serial != block.serial {
        return false;
    }
    if block.serial == QUARANTINED {
        return false;
    }
    if wanted.length == 0 {
        return false;
    }
    let from = wanted.base as usize;
    if from < block.at + 8 {
        return false;
    }
    from + wanted.length as usize <= block.at + block.size
}
