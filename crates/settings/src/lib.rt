// Settings with versions (rules, section 20): stores of entries, the value of a name at a version as the bytes where they lie, and a new entry behind
// the others.
#![tactic(auto)]

ghost use Rattle.std.specs.Prelude.{◌≡◌};
ghost use Rattle.settings.specs.Refusals.{settings_refusal_number};

mod adding;
mod entries;
mod finding;

pub use adding::add;
pub use entries::nth_entry;
pub use finding::{find, lookup};

// The greatest length of a value, and how many bytes of an entry stand before it.
pub const GREATEST_VALUE: usize = 64;

pub const ENTRY_FRONT: usize = 4;

// Where a value lies in its store: from the byte at start to before the one at end.
#[derive(Clone, Copy)]
pub struct Span {
    pub start: usize,
    pub end: usize,
}

// An entry of a store: its version, its name's number, and where its value lies.
#[derive(Clone, Copy)]
pub struct Entry {
    pub version: u16,
    pub name: u8,
    pub start: usize,
    pub end: usize,
}

// Why a value is not found or an entry is not added, in the order of their numbers.
#[derive(Clone, Copy)]
pub enum SettingsRefusal {
    Malformed,
    Missing,
    ValueLength,
    VersionFalls,
    Full,
}

// The store in which a value lies, and where.
#[derive(Clone, Copy)]
pub enum Place {
    Board(Span),
    Default(Span),
}

impl SettingsRefusal {
    // The refusal's number. docs/PROMISES-SETTINGS.md names it.
    pub fn number(self) -> u32
        ensures { result ≡ settings_refusal_number self }
    {
        match self {
            SettingsRefusal::Malformed => 41,
            SettingsRefusal::Missing => 42,
            SettingsRefusal::ValueLength => 43,
            SettingsRefusal::VersionFalls => 44,
            SettingsRefusal::Full => 45,
        }
    }
}
