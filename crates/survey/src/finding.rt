// The records of a serial, along its path. No record is closed yet.
ghost use Rattle.std.specs.Prelude.{◌≡◌, ℕ, true, Bool};
ghost use Rattle.accounts.specs.Accounts.{HOLDS, first_from};
ghost use Rattle.lists.specs.Lists.{all};
ghost use Rattle.audit.specs.Keys.{well_formed};
ghost use Rattle.words.specs.Words.{holds_of};
ghost use Rattle.survey.specs.Index.{Built};
ghost use Rattle.survey.specs.Clauses.{sought, Tests};

use crate::FORKED;
use crate::indexing::HoldIndex;
use crate::reading::{quota_in, serial_in, slot_of};
use accounts::HOLDS;
use words::WORDS;

impl HoldIndex {
    // The place of the first record of a serial whose quota passes a test; None where there is none.
    // A `while`: the loop follows links, and counts no index.
    pub(crate) fn on_path<F: Fn(u32) -> bool>(
        &self,
        words: &[u32; WORDS],
        serial: u32,
        passes: F,
    ) -> Option<usize>
        requires { Built words.now HOLDS self.now.heads self.now.links × (all well_formed (holds_of words.now) ≡ true)
            × F.IsAlwaysCallable passes }
        ensures { (test : ℕ → Bool) → Tests (F.post passes) test
            → result ≡ first_from (sought test serial) 0 (holds_of words.now) }
    {
        if serial == 0 {
            return None;
        }
        let slot = slot_of(serial);
        let mut at = self.head_in(slot) % FORKED;
        let mut bits = serial / 2;
        while at < HOLDS {
            if serial_in(words, at) == serial {
                let quota = quota_in(words, at);
                if passes(quota) {
                    return Some(at);
                }
            }
            at = self.link_in(at, bits);
            bits = bits / 2;
        }
        None
    }
}
