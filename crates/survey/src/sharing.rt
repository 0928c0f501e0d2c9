// What a quota holds, in one pass over the records. A path of the index leads to another quota's record for the same
// object, past few records of other serials.
ghost use Rattle.std.specs.Prelude.{◌≡◌, ◌<◌, true};
ghost use Rattle.accounts.specs.Accounts.{HOLDS};
ghost use Rattle.lists.specs.Lists.{all};
ghost use Rattle.audit.specs.Keys.{well_formed};
ghost use Rattle.words.specs.Words.{hold_in, holds_of};
ghost use Rattle.survey.specs.Index.{Built};
ghost use Rattle.survey.specs.Shares.{how_many, is_own, is_shared, holdings};

use crate::indexing::{HoldIndex, used_top};
use crate::reading::{quota_in, serial_in};
use accounts::HOLDS;
use words::WORDS;

// How many objects a quota holds, and how many of them another quota holds too.
#[repr(C)]
#[derive(Clone, Copy)]
pub struct Holdings {
    pub objects: usize,
    pub shared: usize,
}

// Whether the record at a place is the quota's own.
fn own_at(words: &[u32; WORDS], quota: u32, at: usize) -> bool
    requires { (at < HOLDS) × (all well_formed (holds_of words.now) ≡ true) }
    ensures { result ≡ is_own quota (hold_in words.now at) }
{
    if serial_in(words, at) == 0 {
        return false;
    }
    quota_in(words, at) == quota
}

// Whether it is, and another quota holds its object too.
fn shared_at(words: &[u32; WORDS], index: &HoldIndex, quota: u32, at: usize) -> bool
    requires { (at < HOLDS) × Built words.now HOLDS index.now.heads index.now.links × (all well_formed (holds_of words.now) ≡ true) }
    ensures { result ≡ is_shared (holds_of words.now) quota (hold_in words.now at) }
{
    if !own_at(words, quota, at) {
        return false;
    }
    let serial = serial_in(words, at);
    index
        .on_path(words, serial, |other| other != quota)
        .is_some()
}

// The counts over the records that are indexed.
// One `for` counts both: as chains that filter and count they would be two passes.
fn held_in(words: &[u32; WORDS], index: &HoldIndex, quota: u32) -> Holdings
    requires { Built words.now HOLDS index.now.heads index.now.links × (all well_formed (holds_of words.now) ≡ true) }
    ensures { result ≡ record {
      objects = how_many (is_own quota) (holds_of words.now);
      shared = how_many (is_shared (holds_of words.now) quota) (holds_of words.now);
    } }
{
    let mut objects: usize = 0;
    let mut shared: usize = 0;
    for i in 0..HOLDS {
        objects += usize::from(own_at(words, quota, i));
        shared += usize::from(shared_at(words, index, quota, i));
    }
    Holdings {
        objects: objects,
        shared: shared,
    }
}

// Rules 25.9 and 25.10: what a quota holds; nothing where a record is not well-formed.
pub fn held_by(words: &[u32; WORDS], quota: u32) -> Holdings
    ensures { result ≡ holdings quota (holds_of words.now) }
{
    let mut index = HoldIndex::empty();
    let top = used_top(words);
    let Some(_) = index.enter_all(words, top) else {
        return Holdings {
            objects: 0,
            shared: 0,
        };
    };
    held_in(words, &index, quota)
}
