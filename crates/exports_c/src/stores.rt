// Stores of settings: each function is the one of `settings` and its answer as numbers.
ghost use Rattle.std.specs.Prelude.{◌≡◌};
ghost use Rattle.settings.specs.Entries.{stored, nth_of};
ghost use Rattle.settings.specs.Find.{find, located};
ghost use Rattle.settings.specs.Add.{add_of, add_told};
ghost use Rattle.exports.specs.StoreReplies.{find_reply, add_reply, entry_reply};

use exports::{AddReply, EntryReply, FindReply};

// Where the value of a name at a version lies: in the board's store, else in the defaults. C lends each store as a
// pointer and a length, and how many of its bytes are used.
#[unsafe(no_mangle)]
pub extern "C" fn lokhazim_raw_settings_find(
    board: &[u8],
    board_used: usize,
    defaults: &[u8],
    defaults_used: usize,
    name: u8,
    version: u16,
) -> FindReply
    ensures { result
        ≡ find_reply
        (located (find name version board.now board_used defaults.now defaults_used)) }
{
    exports::lokhazim_raw_settings_find(board, board_used, defaults, defaults_used, name, version)
}

// An entry behind the used bytes of a store, which C lends with their number; a store stays as it is where this is
// refused.
#[unsafe(no_mangle)]
pub extern "C" fn lokhazim_raw_settings_add(
    store: &mut [u8],
    used: usize,
    name: u8,
    version: u16,
    value: &[u8],
) -> AddReply
    ensures answers { result
        ≡ add_reply (add_told (add_of name version value.now store.old used)) }
    ensures writes { store.new ≡ (add_of name version value.now store.old used).store }
{
    exports::lokhazim_raw_settings_add(store, used, name, version, value)
}

// The n-th entry, from 0, of a store, which C lends with the number of its used bytes.
#[unsafe(no_mangle)]
pub extern "C" fn lokhazim_raw_settings_entry(store: &[u8], used: usize, n: usize) -> EntryReply
    ensures { result ≡ entry_reply (nth_of n (stored store.now used)) }
{
    exports::lokhazim_raw_settings_entry(store, used, n)
}
