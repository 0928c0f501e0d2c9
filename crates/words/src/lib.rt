// The accounts as words where they lie: grant, remainder and permissions of each quota, the last serial, serial and quota
// with count of each hold record, then kind and edition. The definitions in specs/ say which accounts some words hold. The
// functions read and change the accounts that the words hold, as the methods of the accounts do; padding stays as it was.
// Both stand: docs/PROMISES.md names both, the methods for accounts by value, and these since C lends words.
// A call of the heap takes the heap's bytes and these words as two parameters, and no struct of both: C lends two places.
#![tactic(auto)]

ghost use Rattle.std.specs.Prelude.{◌≡◌, length};
ghost use Rattle.words.specs.Words.{WORDS, Narrow};

use accounts::{HOLDS, QUOTAS};

mod copying;
mod emptying;
mod filling;
mod opening;
mod readers;
mod writers;

pub use copying::accounts_of;
pub use emptying::drop_holds;
pub use filling::words_of;
pub use opening::{clear, open, put_kinds, put_quota};
pub use readers::{
    edition, hold_at, kind, last_serial, left_permissions, permissions, quota_at, remaining, spent,
};
pub use writers::{charge, clear_permissions, drop_hold, put_hold, refund, set_last_serial};

// The number of words, and where the last serial, the first record, and kind and edition stand.
pub const WORDS: usize = 3 * QUOTAS + 2 * HOLDS + 2;

pub const LAST: usize = 3 * QUOTAS;

pub const FIRST: usize = 3 * QUOTAS + 1;

pub const KINDS: usize = 3 * QUOTAS + 2 * HOLDS + 1;

// The number of words. The contract tells what the type of the words does: their number, and that each has 32 bits. A call is compiled to nothing.
pub fn count(words: [u32; WORDS]) -> usize
    ensures { (length words ≡ WORDS) × Narrow words × (result ≡ WORDS) }
{
    WORDS
}
