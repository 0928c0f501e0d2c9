// The survey of a heap and its accounts where they lie: one pass over the hold records and one walk over the blocks.
// Each used record is open, in the slot of its serial. Each live block closes its serial's records, and their quotas
// pay for it. At the end no record is open and no quota owes anything. A slot with several records has them in a tree.
// The bits of a serial lead through it, so a search passes few records of other serials, whatever they are.
#![tactic(auto)]

ghost use Rattle.std.specs.Prelude.{◌≡◌, MatchOption};
ghost use Rattle.words.specs.Words.{accounts_of};
ghost use Rattle.survey.specs.Survey.{block_at, Survey};
ghost use Rattle.survey.specs.Index.{Built};
ghost use Rattle.survey.specs.Clauses.{Refuses, Begins};

use accounts::{HOLDS, QUOTAS};
use lookup::Met;
use model::Refusal;
use words::WORDS;

mod by_value;
mod finding;
mod framed;
mod holders;
mod indexing;
mod numbers;
mod parts;
mod paying;
mod reading;
mod settling;
mod sharing;
mod walking;
mod wanting;

pub use by_value::{asked, check, survey_of, unasked};
use by_value::{found, place, room};
pub use framed::check_in_frames;
pub use holders::held_blocks;
use indexing::{HoldIndex, used_top};
use numbers::{Numbers, numbers_in};
use parts::walk_parts;
use paying::owing;
use settling::Unsettled;
pub use sharing::{Holdings, held_by};
use wanting::{edge_of, fit_of, need_of, unit_of};

// The number of slots and of links.
const SLOTS: usize = 2 * HOLDS;

const LINKS: usize = 2 * HOLDS;

// The number of an empty slot or link. It is no record's place, and both of its bytes are the same, so that the
// compiler fills a table by memset.
const END: usize = HOLDS + HOLDS / 256;

// Added to a slot's number when the record has others below it.
const FORKED: usize = 2 * HOLDS;

// Added to a record's first link when it is closed.
const CLOSED: usize = 2 * HOLDS;

// What a survey is asked for: the object that a handle names, a quota's record for it, and room for `need` bytes at a
// multiple of `unit`; 0 asks for no room.
// `unit` 0 and no Option: the definition `find_fit` (lookup/specs/Walk.antt), by which a survey's promise is stated
// (docs/PROMISES.md), has unit 0 for no room.
#[derive(Clone, Copy)]
pub struct Wanted {
    pub base: u32,
    pub length: u32,
    pub serial: u32,
    pub quota: u32,
    pub unit: u32,
    pub need: usize,
}

// What a survey that accepts knows: the lowest unused record; the block whose object the handle names; the quota's
// record for it, and another quota's; the first free block with room for a new object, and the object's base in it.
#[derive(Clone, Copy)]
pub struct Known {
    pub low: Option<usize>,
    pub object: Option<Met>,
    pub holder: Option<usize>,
    pub other: Option<usize>,
    pub fit: Option<(Met, usize)>,
}

// The block by the header at a place.
pub fn block_at(heap: &[u8], at: usize) -> Met
    ensures { result ≡ block_at at heap.now }
{
    let header = layout::header_at(heap, at);
    Met {
        at: at,
        size: 8 * header.size,
        back: header.back,
        serial: header.serial,
    }
}

// What a survey knows before its walk: the numbers, and the place of the lowest unused record, HOLDS where none is.
// A number and no Option: `place`, which two edits of wrong/survey change (place_is_0, place_of_512_taken), makes the
// Option of it in `survey`.
#[derive(Clone, Copy)]
pub(crate) struct Begun {
    pub numbers: Numbers,
    pub low: usize,
}

// The beginning of a survey: the records are indexed, and what the quotas owe is told. None where the accounts alone
// are inconsistent.
pub(crate) fn begin(words: &[u32; WORDS], unsettled: &mut Unsettled) -> Option<Begun>
    requires { Built words.now 0 unsettled.old.index.heads unsettled.old.index.links }
    ensures { MatchOption result (Refuses words.now)
        (λ b. Begins words.now unsettled.new b.numbers b.low) }
{
    let numbers = numbers_in(words)?;
    let top = used_top(words);
    let low = unsettled.index.enter_all(words, top)?;
    if !owing(words, &mut unsettled.owed) {
        return None;
    }
    Some(Begun {
        numbers: numbers,
        low: low,
    })
}

// The survey: rule 8.35's verdict on a heap and its accounts, and where that accepts, what was asked for.
pub fn survey(heap: &[u8], words: &[u32; WORDS], wanted: Wanted) -> Result<Known, Refusal>
    ensures { Survey heap.now (accounts_of words.now) wanted result }
{
    if !model::is_allowed(heap.len()) {
        return Err(Refusal::HeapLength);
    }
    let mut unsettled = Unsettled {
        index: HoldIndex::empty(),
        owed: [0; QUOTAS],
    };
    let Some(begun) = begin(words, &mut unsettled) else {
        return Err(Refusal::Inconsistent);
    };
    let index = &unsettled.index;
    let holder = index.on_path(words, wanted.serial, |quota| quota == wanted.quota);
    let other = index.on_path(words, wanted.serial, |quota| quota != wanted.quota);
    let edge = edge_of(wanted.base, heap.len());
    let unit = unit_of(wanted.unit);
    let need = need_of(wanted.unit, wanted.need);
    let walked = walk_parts(heap, words, &mut unsettled, begun.numbers, edge, unit, need);
    let Some(course) = walked else {
        return Err(Refusal::Inconsistent);
    };
    if !unsettled.is_settled() {
        return Err(Refusal::Inconsistent);
    }
    let fit = fit_of(wanted.unit, course.end.fit, heap.len());
    Ok(Known {
        low: place(begun.low),
        object: found(heap, wanted, course.half),
        holder: holder,
        other: other,
        fit: room(heap, fit, wanted.unit),
    })
}
