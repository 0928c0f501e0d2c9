// Stores of settings: each function is the one of `settings` and its answer as numbers.
ghost use Rattle.std.specs.Prelude.{ℕ, ◌≡◌, List};
ghost use Rattle.settings.specs.Entries.{stored, nth_of, entry_told};
ghost use Rattle.settings.specs.Find.{find, located};
ghost use Rattle.settings.specs.Add.{add_of, add_told, added_to};
ghost use Rattle.exports.specs.StoreReplies.{find_reply, add_reply, entry_reply};

use settings::{Entry, Place, SettingsRefusal};

// What find gives: the store in which the value lies, 1 for the board's and 2 for the defaults, and the value's start and
// end in it.
#[repr(C)]
#[derive(Clone, Copy)]
pub struct FindReply {
    pub refusal: u32,
    pub store: u32,
    pub start: usize,
    pub end: usize,
}

// What add gives: the new used length.
#[repr(C)]
#[derive(Clone, Copy)]
pub struct AddReply {
    pub refusal: u32,
    pub used: usize,
}

// What an entry gives: whether there is one, 1 or 0, its version and name, and its value's start and end.
#[repr(C)]
#[derive(Clone, Copy)]
pub struct EntryReply {
    pub refusal: u32,
    pub there: u32,
    pub version: u16,
    pub name: u8,
    pub start: usize,
    pub end: usize,
}

// The reply of find, and below those of add and of an entry. Each is a C struct of its own, as in `replies`.
#[tactic(auto, unfolding(settings::specs::Find::located))]
fn reply_of_find(place: Result<Place, SettingsRefusal>) -> FindReply
    ensures { result ≡ find_reply (located place) }
{
    match place {
        Ok(Place::Board(span)) => FindReply {
            refusal: 0,
            store: 1,
            start: span.start,
            end: span.end,
        },
        Ok(Place::Default(span)) => FindReply {
            refusal: 0,
            store: 2,
            start: span.start,
            end: span.end,
        },
        Err(refusal) => FindReply {
            refusal: refusal.number(),
            store: 0,
            start: 0,
            end: 0,
        },
    }
}

// The reply of add.
#[tactic(auto, unfolding(settings::specs::Add::added_to))]
fn reply_of_add(answer: Result<usize, SettingsRefusal>) -> AddReply
    ensures { (s : List ℕ) → result ≡ add_reply (added_to s answer) }
{
    match answer {
        Ok(used) => AddReply {
            refusal: 0,
            used: used,
        },
        Err(refusal) => AddReply {
            refusal: refusal.number(),
            used: 0,
        },
    }
}

// The reply of an entry.
#[tactic(auto, unfolding(settings::specs::Entries::entry_told))]
fn reply_of_entry(answer: Result<Option<Entry>, SettingsRefusal>) -> EntryReply
    ensures { result ≡ entry_reply (entry_told answer) }
{
    match answer {
        Ok(Some(entry)) => EntryReply {
            refusal: 0,
            there: 1,
            version: entry.version,
            name: entry.name,
            start: entry.start,
            end: entry.end,
        },
        Ok(None) => EntryReply {
            refusal: 0,
            there: 0,
            version: 0,
            name: 0,
            start: 0,
            end: 0,
        },
        Err(why) => EntryReply {
            refusal: why.number(),
            there: 0,
            version: 0,
            name: 0,
            start: 0,
            end: 0,
        },
    }
}

// Where the value of a name at a version lies: in the board's store, else in the defaults. C lends each store as a
// pointer and a length, and how many of its bytes are used.
#[unsafe(no_mangle)]
pub extern "C" fn lokhazim_raw_settings_find(
    board: &[u8],
    board_used: usize,
    defaults: &[u8],
    defaults_used: usize,
    name: u8,
    version: u16,
) -> FindReply
    ensures { result
        ≡ find_reply
        (located (find name version board.now board_used defaults.now defaults_used)) }
{
    reply_of_find(settings::find(board, board_used, defaults, defaults_used, name, version))
}

// An entry behind the used bytes of a store, which C lends with their number; a store stays as it is where this is
// refused.
#[unsafe(no_mangle)]
pub extern "C" fn lokhazim_raw_settings_add(
    store: &mut [u8],
    used: usize,
    name: u8,
    version: u16,
    value: &[u8],
) -> AddReply
    ensures answers { result
        ≡ add_reply (add_told (add_of name version value.now store.old used)) }
    ensures writes { store.new ≡ (add_of name version value.now store.old used).store }
{
    reply_of_add(settings::add(store, used, name, version, value))
}

// The n-th entry, from 0, of a store, which C lends with the number of its used bytes.
#[unsafe(no_mangle)]
pub extern "C" fn lokhazim_raw_settings_entry(store: &[u8], used: usize, n: usize) -> EntryReply
    ensures { result ≡ entry_reply (nth_of n (stored store.now used)) }
{
    reply_of_entry(settings::nth_entry(store, used, n))
}
