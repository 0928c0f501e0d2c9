// The accounts of a shared heap: quotas, the last serial and hold records, taken by value and given back by value (rules, section 3).
#![tactic(auto)]

ghost use Rattle.std.specs.Prelude.{◌<◌, ◌≡◌};
ghost use Rattle.accounts.specs.Accounts.{zero_hold, zero_accounts, granted, begun, charged, refunded, used, dropped, opened};
ghost use Rattle.accounts.specs.Accounts.{remaining, spent, change_quota, charge, refund};
ghost use Rattle.accounts.specs.Accounts.{with_remainder, with_permissions, bit_left, cleared};

mod records;
mod settings;

pub use settings::{Edition, Kind, Settings};

// The number of quotas. A quota is named by a number of any size and no type of its own: callers give any, and refusal 3
// answers what names none.
pub const QUOTAS: usize = 32;

// The number of hold records. A place of one is any number too: a loop over `0..HOLDS` gives it, and past them all records
// are zero.
pub const HOLDS: usize = 512;

// The greatest number of 32 bits, which a remainder can be.
pub const GREATEST_NUMBER: u32 = 4294967295;

// The three permissions of a quota, by their bits, and the number of a quota that has all of them (rule 15.1).
pub const ALLOCATE: u8 = 1;

pub const CLAIM: u8 = 2;

pub const FREE_ALL: u8 = 4;

pub const ALL_PERMISSIONS: u8 = 7;

// What a quota was granted at the opening, what remains of it, and its permissions by their bits (rules, section 15).
#[repr(C)]
#[derive(Clone, Copy, PartialEq, Eq)]
pub struct Quota {
    pub grant: u32,
    pub remainder: u32,
    pub permissions: u8,
}

// A hold record: how often a quota holds the object with a serial (rule 3.4). An unused record is all zero.
#[repr(C)]
#[derive(Clone, Copy, PartialEq, Eq)]
pub struct Hold {
    pub serial: u32,
    pub quota: u8,
    pub count: u8,
}

// The accounting state. The kind is 0 for a plain heap and 1 for one with quarantine; the edition is 0 for edition 1 of the
// table of units and 1 for 2. Both are numbers: C lends any byte as one, and refusal 2 answers one that is neither.
#[repr(C)]
#[derive(Clone, Copy)]
pub struct Accounts {
    pub quotas: [Quota; QUOTAS],
    pub last_serial: u32,
    pub holds: [Hold; HOLDS],
    pub kind: u8,
    pub edition: u8,
}

// Bit 0 of the permissions; 0 where bit 0 of the other number is set.
fn bit_left(bits: u32, permissions: u8) -> u8
    ensures { (result ≡ bit_left bits permissions) × (result < 2) }
{
    if bits % 2 == 0 {
        return permissions % 2;
    }
    0
}

// The permissions without those whose bit, 0 to 2, is set in the other number.
pub fn cleared(bits: u32, permissions: u8) -> u8
    ensures { result ≡ cleared bits permissions }
{
    let allocate = bit_left(bits, permissions);
    let claim = bit_left(bits / 2, permissions / 2);
    let free_all = bit_left(bits / 4, permissions / 4);
    allocate + (2 * claim + 4 * free_all)
}

impl Quota {
    // A quota whose grant is there whole, with all permissions.
    fn granted(grant: u32) -> Quota
        ensures { result ≡ granted grant }
    {
        Quota {
            grant: grant,
            remainder: grant,
            permissions: ALL_PERMISSIONS,
        }
    }

    // The quota with other permissions.
    fn with_permissions(self, permissions: u8) -> Quota
        ensures { result ≡ with_permissions permissions self }
    {
        Quota {
            permissions,
            ..self
        }
    }

    // The quota with another remainder.
    fn with_remainder(self, remainder: u32) -> Quota
        ensures { result ≡ with_remainder remainder self }
    {
        Quota { remainder, ..self }
    }
}

impl Hold {
    // An unused record.
    pub fn zero() -> Hold
        ensures { result ≡ zero_hold }
    {
        Hold {
            serial: 0,
            quota: 0,
            count: 0,
        }
    }

    // Whether the record is used: whether it is not all zero.
    #[tactic(auto, unfolding(crate::specs::Accounts::used))]
    pub fn is_used(self) -> bool
        ensures { result ≡ used self }
    {
        self != Hold::zero()
    }

    // The record as it is, or zeros where it is one of this quota.
    fn dropped(self, quota: u8) -> Hold
        ensures { result ≡ dropped quota self }
    {
        if self.is_used() {
            if quota == self.quota {
                return Hold::zero();
            }
        }
        self
    }
}

impl Accounts {
    // Accounts of zeros.
    pub fn zero() -> Accounts
        ensures { result ≡ zero_accounts }
    {
        let quota = Quota {
            grant: 0,
            remainder: 0,
            permissions: 0,
        };
        let hold = Hold::zero();
        Accounts {
            quotas: [quota; QUOTAS],
            last_serial: 0,
            holds: [hold; HOLDS],
            kind: 0,
            edition: 0,
        }
    }

    // The accounts of a plain heap of edition 1 at opening: every grant is there whole, with all permissions.
    fn begin(grants: [u32; QUOTAS]) -> Accounts
        ensures { result ≡ begun grants }
    {
        Accounts {
            quotas: grants.map(Quota::granted),
            ..Accounts::zero()
        }
    }

    // The accounts at opening: every grant is there whole, and the heap is as it was chosen.
    pub fn open(grants: [u32; QUOTAS], settings: Settings) -> Accounts
        ensures { result ≡ opened settings grants }
    {
        let kind = settings.kind;
        let edition = settings.edition;
        let mut accounts = Accounts::begin(grants);
        accounts.kind = kind.number();
        accounts.edition = edition.number();
        accounts
    }

    // What remains of a quota; 0 where there is no such quota.
    pub fn remaining(self, quota: u32) -> u32
        ensures { result ≡ remaining quota self }
    {
        let number = quota as usize;
        if number < QUOTAS {
            return self.quotas[number].remainder;
        }
        0
    }

    // What a quota has spent of its grant; 0 where there is no such quota, or more remains than was granted.
    pub fn spent(self, quota: u32) -> u32
        ensures { result ≡ spent quota self }
    {
        let q = quota as usize;
        if QUOTAS <= q {
            return 0;
        }
        let entry = self.quotas[q];
        if entry.grant < entry.remainder {
            return 0;
        }
        entry.grant - entry.remainder
    }

    // A quota is what the function makes of it; where there is no such quota, nothing changes. `charge` and `refund` share
    // it: they stay two, since callers name them, and each has its own closure and nothing more.
    fn change_quota<F: FnOnce(Quota) -> Quota>(mut self, quota: u32, change: F) -> Accounts
        requires { F.IsAlwaysCallable change }
        ensures { (f : Quota → Quota) → ((x y : Quota) → F.post change x y → y ≡ f x) → result ≡ change_quota quota f self }
    {
        let q = quota as usize;
        if QUOTAS <= q {
            return self;
        }
        self.quotas[q] = change(self.quotas[q]);
        self
    }

    // The quota pays; where there is no such quota, or it has less than that, nothing changes.
    pub fn charge(self, quota: u32, amount: u32) -> Accounts
        ensures { result ≡ charge quota amount self }
    {
        self.change_quota(
            quota,
            |entry|
                ensures { result ≡ charged amount entry }
            {
                let old = entry.remainder;
                entry.with_remainder(old.checked_sub(amount).unwrap_or(old))
            },
        )
    }

    // The quota is paid back; where there is no such quota, or the sum needs more than 32 bits, nothing changes.
    pub fn refund(self, quota: u32, amount: u32) -> Accounts
        ensures { result ≡ refund quota amount self }
    {
        self.change_quota(
            quota,
            |entry|
                ensures { result ≡ refunded amount entry }
            {
                let old = entry.remainder;
                entry.with_remainder(old.checked_add(amount).unwrap_or(old))
            },
        )
    }
}
