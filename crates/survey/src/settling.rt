// The settlement of a live block: the open records of its serial are closed, and the quota of each pays for the block,
// once.
ghost use Rattle.std.specs.Prelude.{◌≡◌, ◌+◌, ◌-◌, ◌<◌, ◌≤◌, length, ◌≢◌, slice_index, slice_set};
ghost use Rattle.accounts.specs.Accounts.{QUOTAS, HOLDS};
ghost use Rattle.audit.specs.Clauses.{Charged};
ghost use Rattle.survey.specs.Index.{LINKS, CLOSED, slot, inner, plain, step};
ghost use Rattle.survey.specs.Clauses.{ReadyFor, SettledBy};

use crate::indexing::HoldIndex;
use crate::reading::{quota_in, serial_in, slot_of};
use crate::{CLOSED, END, FORKED};
use accounts::{HOLDS, QUOTAS};
use std::num::wrapping_sub_usize;
use words::WORDS;

// What the walk over the blocks settles: the records that are open, and what each quota owes. A survey makes it in
// place: where a function makes it and hands it out, it is copied, and the stack of a call has it twice.
#[derive(Drop)]
pub(crate) struct Unsettled {
    pub index: HoldIndex,
    pub owed: [u32; QUOTAS],
}

// The charge is taken off what a quota owes; false where it owes less.
fn pay(owed: &mut [u32; QUOTAS], quota: usize, charge: usize) -> bool
    requires { quota < QUOTAS }
    ensures { Charged charge quota owed.old result owed.new }
{
    let due = owed[quota] as usize;
    if due < charge {
        return false;
    }
    owed[quota] = (due - charge) as u32;
    true
}

impl HoldIndex {
    // The next record of a path, or a place behind the table.
    fn next_in(&self, at: usize, bits: u32) -> usize
        requires { at < HOLDS }
        ensures { inner result ≡ step (plain self.now.links) bits at }
    {
        self.link_in(at, bits) % CLOSED
    }

    // A record of a tree is closed.
    fn close(&mut self, at: usize)
        requires { (at < HOLDS) × (length self.old.links ≡ LINKS) × (slice_index self.old.links at < CLOSED) × (1 ≤ self.old.left) }
        ensures { (self.new.links ≡ slice_set self.old.links at (slice_index self.old.links at + CLOSED))
            × (self.new.heads ≡ self.old.heads) × (self.new.left ≡ self.old.left - 1) }
    {
        let flagged = self.number_in(at) + CLOSED;
        self.links[at] = flagged as u16;
        self.left -= 1;
    }
}

impl Unsettled {
    // The open records of a serial, in a tree or nowhere: the number of an empty slot is below FORKED, so the first
    // place lies behind the table. False where there is none, or a quota cannot pay.
    // A `while`: the loop follows links, and counts no index.
    // 0 and 1 in `seen`, and no bools: the definition `pays` (audit/specs/Keys.antt) marks so which quotas have paid.
    fn settle_path(&mut self, words: &[u32; WORDS], serial: u32, charge: usize) -> bool
        requires { (serial ≢ 0) × (HOLDS ≤ slice_index self.old.index.heads (slot serial)) × ReadyFor words.now self.old }
        ensures { SettledBy serial charge words.now self.old result self.new }
    {
        let mut seen = [0u8; QUOTAS];
        let mut found = false;
        let mut at = wrapping_sub_usize(self.index.head_in(slot_of(serial)), FORKED);
        let mut bits = serial / 2;
        while at < HOLDS {
            let word = serial_in(words, at);
            if word != serial {
                at = self.index.next_in(at, bits);
                bits = bits / 2;
            } else if CLOSED <= self.index.number_in(at) {
                at = self.index.next_in(at, bits);
                bits = bits / 2;
            } else {
                let quota = quota_in(words, at) as usize;
                if seen[quota] != 0 {
                    return false;
                }
                if !pay(&mut self.owed, quota, charge) {
                    return false;
                }
                seen[quota] = 1;
                self.index.close(at);
                found = true;
                at = self.index.next_in(at, bits);
                bits = bits / 2;
            }
        }
        found
    }

    // The open records of a serial. False where there is none, or a quota cannot pay. Where this is a call, a check
    // runs up to 45 % more instructions.
    #[inline(always)]
    pub(crate) fn settle(&mut self, words: &[u32; WORDS], serial: u32, charge: usize) -> bool
        requires { (serial ≢ 0) × ReadyFor words.now self.old }
        ensures { SettledBy serial charge words.now self.old result self.new }
    {
        let slot = slot_of(serial);
        let head = self.index.head_in(slot);
        if HOLDS <= head {
            return self.settle_path(words, serial, charge);
        }
        if serial_in(words, head) != serial {
            return false;
        }
        let quota = quota_in(words, head) as usize;
        if !pay(&mut self.owed, quota, charge) {
            return false;
        }
        self.index.heads[slot] = END as u16;
        self.index.left -= 1;
        true
    }
}
