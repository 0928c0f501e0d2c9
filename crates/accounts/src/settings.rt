// What an opening chooses beside the grants: the kind of a heap and the edition of its table of units (rules 22.1 and 23.3).
ghost use Rattle.std.specs.Prelude.{◌≡◌};
ghost use Rattle.accounts.specs.Accounts.{kind_number, edition_number};

// What becomes of a block that nobody holds: it is free at once, or waits for a sweep.
#[derive(Clone, Copy, PartialEq, Eq)]
pub enum Kind {
    Plain,
    Quarantine,
}

// Which table of units lengths are rounded by.
#[derive(Clone, Copy, PartialEq, Eq)]
pub enum Edition {
    First,
    Second,
}

// What an opening chooses beside the grants.
#[derive(Clone, Copy, PartialEq, Eq)]
pub struct Settings {
    pub kind: Kind,
    pub edition: Edition,
}

impl Kind {
    // The kind as a number of the accounts. docs/PROMISES-QUARANTINE.md names it.
    pub fn number(self) -> u8
        ensures { result ≡ kind_number self }
    {
        match self {
            Kind::Plain => 0,
            Kind::Quarantine => 1,
        }
    }
}

impl Edition {
    // The edition as a number of the accounts. docs/PROMISES-EDITIONS.md names it.
    pub fn number(self) -> u8
        ensures { result ≡ edition_number self }
    {
        match self {
            Edition::First => 0,
            Edition::Second => 1,
        }
    }
}
