// The pass over the records that builds the index.
ghost use Rattle.std.specs.Prelude.{◌≡◌, ℕ, ◌+◌, ◌<◌, ◌≤◌, true, false, ◌&&◌, List, ◌==◌, ◌≢◌, nat_le, nat_lt, MatchOption};
ghost use Rattle.lists.specs.Lists.{all};
ghost use Rattle.audit.specs.Keys.{well_formed};
ghost use Rattle.accounts.specs.Accounts.{QUOTAS, HOLDS};
ghost use Rattle.words.specs.Words.{serial_in, quota_in, count_in, holds_of};
ghost use Rattle.survey.specs.Index.{bits_of, Growing, Built};
ghost use Rattle.survey.specs.Clauses.{Zeros, Blank, Hung, Index};

use crate::reading::{count_in, fork, quota_in, serial_in, slot_of};
use crate::{END, FORKED, LINKS, SLOTS};
use accounts::{HOLDS, QUOTAS};
use words::{FIRST, WORDS};

// Whether so many records from a place on are all zero. The last one is read first: where the table is full up to
// there, no other is.
fn are_blank(words: &[u32; WORDS], from: usize, count: usize) -> bool
    requires { (0 < count) × (from + count ≤ HOLDS) }
    ensures { result ≡ true → Zeros words.now from count }
{
    if serial_in(words, from + count - 1) != 0 {
        return false;
    }
    let mut bits: u32 = 0;
    let start = FIRST + 2 * from;
    for word in &words[start..start + 2 * count] {
        bits |= *word;
    }
    bits == 0
}

// A place from which on all records are blank, by one step down at most from one that is such.
fn one_down(words: &[u32; WORDS], top: usize, step: usize) -> usize
    requires { (top ≤ HOLDS) × (0 < step) × Blank words.now top }
    ensures { (result ≤ HOLDS) × Blank words.now result }
{
    if top < step {
        return top;
    }
    if !are_blank(words, top - step, step) {
        return top;
    }
    top - step
}

// Whether a record without a serial is unused.
fn is_blank(words: &[u32; WORDS], at: usize) -> bool
    requires { at < HOLDS }
    ensures { result ≡ (quota_in words.now at == 0 && count_in words.now at == 0) }
{
    if quota_in(words, at) != 0 {
        return false;
    }
    count_in(words, at) == 0
}

// Whether a record with a serial has a quota and a count that are possible.
fn is_possible(words: &[u32; WORDS], at: usize) -> bool
    requires { at < HOLDS }
    ensures { result ≡ (nat_lt (quota_in words.now at) QUOTAS && nat_le 1 (count_in words.now at)) }
{
    let quota = quota_in(words, at) as usize;
    if QUOTAS <= quota {
        return false;
    }
    1 <= count_in(words, at)
}

// A place from which on all records are blank, by steps that halve. It is no part of the index, which is then short
// enough to be compiled into its callers.
pub(crate) fn used_top(words: &[u32; WORDS]) -> usize
    ensures { (result ≤ HOLDS) × Blank words.now result }
{
    let mut top = HOLDS;
    for step in [256, 128, 64, 32, 16, 8] {
        top = one_down(words, top, step);
    }
    top
}

// The index of the hold records: the number of each slot and of the two links of each record, and how many records are
// open. A number is the record's place: there is no heap for nodes. The count stands between the tables so that the
// compiler fills each of them by itself: valgrind counts 3,841 instructions more where it fills both as one.
// The words are no part of it, so `Built` and `all well_formed` are clauses, and so is `ReadyFor` of `Unsettled`: C
// lends them, and each call takes them beside the index.
#[derive(Drop)]
pub(crate) struct HoldIndex {
    pub heads: [u16; SLOTS],
    pub left: usize,
    pub links: [u16; LINKS],
}

impl HoldIndex {
    // The index of no record.
    #[inline(always)]
    pub(crate) fn empty() -> HoldIndex
        ensures { (words : List ℕ) → Built words 0 result.heads result.links }
    {
        let end = END as u16;
        HoldIndex {
            heads: [end; SLOTS],
            left: 0,
            links: [end; LINKS],
        }
    }

    // A record is hung into the empty link at the end of its serial's path.
    // A `while`: the loop follows links, and counts no index.
    fn hang(&mut self, root: usize, serial: u32, i: usize)
        requires { (root < i) × (i < HOLDS) × Growing i self.old.links }
        ensures { Hung (bits_of serial) root i self.old.links self.new.links × (self.new.heads ≡ self.old.heads) }
    {
        let mut at = root;
        let mut bits = serial / 2;
        let mut link: usize = 0;
        while at < HOLDS {
            link = at + fork(bits);
            at = self.number_in(link);
            bits = bits / 2;
        }
        self.links[link] = i as u16;
    }

    // A used record is entered into its serial's slot: alone, or at the end of its path.
    fn enter(&mut self, words: &[u32; WORDS], i: usize)
        requires { (i < HOLDS) × (serial_in words.now i ≢ 0) × Built words.now i self.old.heads self.old.links }
        ensures { Built words.now (i + 1) self.new.heads self.new.links }
    {
        let serial = serial_in(words, i);
        let slot = slot_of(serial);
        let head = self.head_in(slot);
        if head == END {
            self.heads[slot] = i as u16;
        } else if head < HOLDS {
            self.heads[slot] = (FORKED + head) as u16;
            self.hang(head, serial, i);
        } else {
            self.hang(head - FORKED, serial, i);
        }
    }

    // The used records before a place are entered from the first place up; from there on all are blank. The answer is
    // the place of the lowest unused record, HOLDS where none is; None where a record is not well-formed.
    // HOLDS and no Option in the answer: the pass begins with `top`, from which on all are blank, and takes the least
    // place. An index and no iterator: what is entered of a record is its place.
    pub(crate) fn enter_all(&mut self, words: &[u32; WORDS], top: usize) -> Option<usize>
        requires { (top ≤ HOLDS) × Blank words.now top × Built words.now 0 self.old.heads self.old.links }
        ensures { MatchOption result (all well_formed (holds_of words.now) ≡ false)
            (λ low. Index words.now self.new.heads self.new.links low self.new.left) }
    {
        let mut low = top;
        let mut blank: usize = 0;
        for i in 0..top {
            let serial = serial_in(words, i);
            if serial == 0 {
                if !is_blank(words, i) {
                    return None;
                }
                low = low.min(i);
                blank += 1;
                continue;
            }
            if !is_possible(words, i) {
                return None;
            }
            self.enter(words, i);
        }
        self.left = top - blank;
        Some(low)
    }
}
