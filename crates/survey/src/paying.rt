// What the quotas owe.
ghost use Rattle.std.specs.Prelude.{◌≡◌, ◌-◌, ◌&&◌, length, ◌==◌};
ghost use Rattle.accounts.specs.Accounts.{QUOTAS};
ghost use Rattle.audit.specs.Audit.{all_zero};
ghost use Rattle.audit.specs.Clauses.{Owing};
ghost use Rattle.words.specs.Words.{quotas_of};

use crate::reading::{grant_in, remainder_in, spare_in};
use crate::settling::Unsettled;
use accounts::{ALL_PERMISSIONS, QUOTAS};
use words::WORDS;

// What each quota owes; false where a remainder is above its grant, or a number is no quota's permissions (rule 15.2).
// No quota ends the loop, which is so the faster.
// A flag and no Option of the debts: they are filled in place, where `Unsettled` has them (settling.rt says why).
// An index and no iterator: each turn reads three words and writes one debt, all by the quota's number.
pub(crate) fn owing(words: &[u32; WORDS], owed: &mut [u32; QUOTAS]) -> bool
    ensures { Owing (quotas_of words.now) result owed.new }
{
    let mut short = false;
    let mut bits: u32 = 0;
    for i in 0..QUOTAS {
        let grant = grant_in(words, i);
        let remainder = remainder_in(words, i);
        let spare = spare_in(words, i);
        let due = grant.saturating_sub(remainder);
        short |= grant < remainder;
        bits |= spare;
        owed[i] = due;
    }
    if short {
        return false;
    }
    let most = ALL_PERMISSIONS as u32;
    bits % 256 <= most
}

// Whether nothing is owed: whether the debts have no bit between them.
fn is_paid(owed: &[u32; QUOTAS]) -> bool
    ensures { result ≡ all_zero owed.now }
{
    let mut bits: u32 = 0;
    for due in owed {
        bits |= *due;
    }
    bits == 0
}

impl Unsettled {
    // Whether no record is open and nothing is owed.
    pub(crate) fn is_settled(&self) -> bool
        ensures { result ≡ (self.now.index.left == 0 && all_zero self.now.owed) }
    {
        if self.index.left != 0 {
            return false;
        }
        is_paid(&self.owed)
    }
}
