// The permissions of a quota, the last serial and the hold records of the accounts.
ghost use Rattle.std.specs.Prelude.{◌≡◌};
ghost use Rattle.accounts.specs.Accounts.{left_permissions, clear_permissions, with_last_serial};
ghost use Rattle.accounts.specs.Accounts.{hold_at, put_hold, drop_hold, drop_records, with_holds};

use crate::{Accounts, HOLDS, Hold, QUOTAS, cleared};

impl Accounts {
    // What clearing permissions leaves to a quota (rule 15.4); 0 where there is no such quota.
    pub fn left_permissions(self, quota: u32, bits: u32) -> u8
        ensures { result ≡ left_permissions quota bits self }
    {
        let at = quota as usize;
        if at < QUOTAS {
            return cleared(bits, self.quotas[at].permissions);
        }
        0
    }

    // The quota's permissions are cleared so; where there is no such quota, nothing changes.
    pub fn clear_permissions(self, quota: u32, bits: u32) -> Accounts
        ensures { result ≡ clear_permissions quota bits self }
    {
        self.change_quota(quota, |entry| {
            entry.with_permissions(cleared(bits, entry.permissions))
        })
    }

    // The accounts with another last serial.
    pub fn with_last_serial(mut self, serial: u32) -> Accounts
        ensures { result ≡ with_last_serial serial self }
    {
        self.last_serial = serial;
        self
    }

    // The record at a place, of zeros where there is none.
    pub fn hold_at(self, place: usize) -> Hold
        ensures { result ≡ hold_at place self }
    {
        if place < HOLDS {
            return self.holds[place];
        }
        Hold::zero()
    }

    // Another record at a place; a place out of range changes nothing. The test stays: the edit `put_hold_stores_past_the_holds`
    // breaks it, and `get_mut` is no plainer.
    pub fn put_hold(mut self, at: usize, hold: Hold) -> Accounts
        ensures { result ≡ put_hold at hold self }
    {
        if at < HOLDS {
            self.holds[at] = hold;
        }
        self
    }

    // The record at a place becomes unused; a place out of range changes nothing.
    pub fn drop_hold(self, at: usize) -> Accounts
        ensures { result ≡ drop_hold at self }
    {
        self.put_hold(at, Hold::zero())
    }

    // Every record of a quota becomes unused.
    pub fn drop_holds(mut self, quota: u8) -> Accounts
        ensures { result ≡ with_holds (drop_records quota self.holds) self }
    {
        self.holds = self.holds.map(|hold| hold.dropped(quota));
        self
    }
}
