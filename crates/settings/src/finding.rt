// The value of a name at a version: where it lies, and the bytes themselves.
ghost use Rattle.std.specs.Prelude.{◌≡◌, Ok};
ghost use Rattle.settings.specs.Entries.{entries};
ghost use Rattle.settings.specs.Walks.{answered};
ghost use Rattle.settings.specs.Find.{value_of, found_in, chosen, find, located, refusal_of, bytes_of, lies_at};

use crate::entries::{used_bytes, walk};
use crate::{Entry, Place, SettingsRefusal, Span};

// The entry, where it answers.
fn answered(entry: Entry, name: u8, version: u16) -> Option<Entry>
    ensures { result ≡ answered name version entry }
{
    if entry.name != name {
        return None;
    }
    if version < entry.version {
        return None;
    }
    Some(entry)
}

// Where the value of an entry lies.
fn value_of(entry: Entry) -> Span
    ensures { result ≡ value_of entry }
{
    Span {
        start: entry.start,
        end: entry.end,
    }
}

// What these entries have for a name at a version: where the value of the last entry that answers lies.
fn find_in(store: &[u8], name: u8, version: u16) -> Result<Option<Span>, SettingsRefusal>
    ensures { result ≡ found_in name version (entries store.now) }
{
    let found = walk(store, |_, entry| answered(entry, name, version))?;
    Ok(found.map(value_of))
}

// The board's value, else the default.
#[tactic(auto, unfolding(crate::specs::Find::chosen))]
fn chosen(own: Option<Span>, other: Option<Span>) -> Result<Place, SettingsRefusal>
    ensures { result ≡ chosen (Ok own) (Ok other) }
{
    own.map(Place::Board)
        .or(other.map(Place::Default))
        .ok_or(SettingsRefusal::Missing)
}

// Where the value of a name at a version lies: in the board's store, else in the defaults. C lends each store with its
// used length, here and below.
pub fn find(
    board: &[u8],
    board_used: usize,
    defaults: &[u8],
    defaults_used: usize,
    name: u8,
    version: u16,
) -> Result<Place, SettingsRefusal>
    ensures { located result
        ≡ located (find name version board.now board_used defaults.now defaults_used) }
{
    let own = find_in(used_bytes(board, board_used)?, name, version)?;
    let other = find_in(used_bytes(defaults, defaults_used)?, name, version)?;
    chosen(own, other)
}

// The value of a name at a version, as the bytes where they lie; an empty part of the board's store where it is refused.
// The refusal's number, 0 where there is none, is left in `refusal`.
// A number beside the part: clause `lies` says where the part of a refused lookup lies, which no Err would.
pub fn lookup<'a>(
    board: &'a [u8],
    board_used: usize,
    defaults: &'a [u8],
    defaults_used: usize,
    name: u8,
    version: u16,
    refusal: &mut u32,
) -> &'a [u8]
    ensures holds { result.now ≡ bytes_of (find name version board.now board_used defaults.now defaults_used)
        board.now defaults.now }
    ensures lies { result.ref_ptr ≡ lies_at (find name version board.now board_used defaults.now defaults_used)
        board.entry.ref_ptr defaults.entry.ref_ptr }
    ensures refuses { refusal.new ≡ refusal_of (find name version board.now board_used defaults.now defaults_used) }
{
    match find(board, board_used, defaults, defaults_used, name, version) {
        Ok(Place::Board(span)) => {
            *refusal = 0;
            let start = span.start;
            let end = span.end;
            &board[start..end]
        }
        Ok(Place::Default(span)) => {
            *refusal = 0;
            let start = span.start;
            let end = span.end;
            &defaults[start..end]
        }
        Err(why) => {
            *refusal = why.number();
            &board[0..0]
        }
    }
}
