// Entries read one after the other.
ghost use Rattle.std.specs.Prelude.{ℕ, Option, ◌≡◌, ◌+◌, ◌≤◌, ◌<◌, length, MatchResult, None};
ghost use Rattle.settings.specs.declared.SettingsRefusal.TheVariants.{Malformed};
ghost use Rattle.settings.specs.declared.Entry.{Entry as EntryOf};
ghost use Rattle.settings.specs.Entries.{entry_at, read_entry, entries, stored, last_of, entry_told, nth_of};
ghost use Rattle.settings.specs.Walks.{Acts, walked, given_in, turn, told_at_end, picked};

use crate::{ENTRY_FRONT, Entry, GREATEST_VALUE, SettingsRefusal};

// The entry whose four bytes stand at a place.
fn entry_at(store: &[u8], at: usize) -> Entry
    requires { at + 4 ≤ length store.now }
    ensures { result ≡ entry_at at store.now }
{
    let start = at + ENTRY_FRONT;
    Entry {
        version: u16::from_le_bytes([store[at], store[at + 1]]),
        name: store[at + 2],
        start: start,
        end: start + usize::from(store[at + 3]),
    }
}

// The entry at a place, behind one of version `last`, if it is not cut short, its value is not too long and its version does not fall.
fn read_entry(store: &[u8], at: usize, last: u16) -> Option<Entry>
    requires { at < length store.now }
    ensures { result ≡ read_entry last at store.now }
{
    let left = store.len() - at;
    if left < ENTRY_FRONT {
        return None;
    }
    let entry = entry_at(store, at);
    if at + ENTRY_FRONT + GREATEST_VALUE < entry.end {
        return None;
    }
    if entry.version < last {
        return None;
    }
    if store.len() < entry.end {
        return None;
    }
    Some(entry)
}

// What `take` gives of the last of these entries of which it gives something. It gets each with its number, from 0.
// Each entry says where the next one starts, so the loop is a walk; `in_turn` says it as a fold, one entry's turn after
// the other's.
pub(crate) fn walk<T: Copy, F: Fn(usize, Entry) -> Option<T>>(
    store: &[u8],
    take: F,
) -> Result<Option<T>, SettingsRefusal>
    requires { F.IsAlwaysCallable take }
    ensures given { (g : ℕ → EntryOf → Option T) → Acts (F.post take) g → result ≡ given_in g (entries store.now) }
    ensures in_turn { (g : ℕ → EntryOf → Option T) → Acts (F.post take) g
        → result ≡ told_at_end (walked (turn g) (0, None) (entries store.now)) }
{
    let mut told: Option<T> = None;
    let mut number: usize = 0;
    let mut last: u16 = 0;
    let mut at: usize = 0;
    while at < store.len() {
        let Some(entry) = read_entry(store, at, last) else {
            return Err(SettingsRefusal::Malformed);
        };
        if let Some(given) = take(number, entry) {
            told = Some(given);
        }
        number += 1;
        last = entry.version;
        at = entry.end;
    }
    Ok(told)
}

// The used bytes of a store. C lends a store and its used length, so public functions take two values; all others take
// what this gives.
pub(crate) fn used_bytes(store: &[u8], used: usize) -> Result<&[u8], SettingsRefusal>
    ensures { MatchResult result (λ s. stored store.now used ≡ entries s.now)
        (λ e. (e ≡ Malformed) × (stored store.now used ≡ None)) }
{
    store.get(..used).ok_or(SettingsRefusal::Malformed)
}

// The version of the last of these entries, 0 where there is none: the walk with a closure of its own, as the n-th entry
// and a name's value are found by it.
pub(crate) fn last_version(store: &[u8]) -> Result<u16, SettingsRefusal>
    ensures { result ≡ last_of (entries store.now) }
{
    Ok(walk(store, |_, entry| Some(entry.version))?.unwrap_or(0))
}

// The entry, where it has the number that is asked for.
fn picked(number: usize, entry: Entry, n: usize) -> Option<Entry>
    ensures { result ≡ picked n number entry }
{
    if number != n {
        return None;
    }
    Some(entry)
}

// The n-th entry, from 0, of a store; the whole store is read.
pub fn nth_entry(store: &[u8], used: usize, n: usize) -> Result<Option<Entry>, SettingsRefusal>
    ensures { entry_told result ≡ nth_of n (stored store.now used) }
{
    walk(
        used_bytes(store, used)?,
        |number, entry| picked(number, entry, n),
    )
}

#[cfg(test)]
mod tests {
    use super::*;

    // Name 7 at version 1, with no value, and at version 2, with a value of one byte.
    const TWO: [u8; 9] = [1, 0, 7, 0, 2, 0, 7, 1, 9];

    #[test]
    fn a_walk_gives_what_was_given_last(rt: HostRuntime) {
        let numbered = walk(&TWO, |number, entry| Some((number, entry.version)));
        assert_eq!(rt; numbered.ok(), Some(Some((1, 2))));
        let of_the_first = walk(
            &TWO,
            |number, entry| if number == 0 { Some(entry.end) } else { None },
        );
        assert_eq!(rt; of_the_first.ok(), Some(Some(4)));
        assert_eq!(rt; walk(&TWO[..0], |number, _| Some(number)).ok(), Some(None));
        assert_eq!(rt;
            walk(&TWO[..8], |number, _| Some(number)).ok(),
            None,
            "the second entry is cut short"
        );
    }
}
