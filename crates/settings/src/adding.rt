// A new entry behind the used bytes of a store.
ghost use Rattle.std.specs.Prelude.{◌≡◌, ◌+◌, ◌≤◌, length};
ghost use Rattle.layout.specs.Bytes.{overwrite};
ghost use Rattle.settings.specs.Add.{entry_bytes, add_of, added_to, add_told};

use crate::entries::{last_version, used_bytes};
use crate::{ENTRY_FRONT, GREATEST_VALUE, SettingsRefusal};

// The bytes of an entry, written at a place.
fn put_entry(store: &mut [u8], at: usize, name: u8, version: u16, value: &[u8])
    requires { (at + (4 + length value.now) ≤ length store.old) × (length value.now ≤ 64) }
    ensures { store.new ≡ overwrite at (entry_bytes version name value.now) store.old }
{
    layout::write_u16(store, at, u32::from(version));
    store[at + 2] = name;
    store[at + 3] = value.len() as u8;
    let start = at + ENTRY_FRONT;
    store[start..start + value.len()].copy_from_slice(value);
}

// An entry behind the used bytes of a store, and its new used length; bytes behind the entry stay. A refusal writes nothing.
// C lends a store and its used length.
pub fn add(
    store: &mut [u8],
    used: usize,
    name: u8,
    version: u16,
    value: &[u8],
) -> Result<usize, SettingsRefusal>
    ensures { added_to store.new result
        ≡ add_told (add_of name version value.now store.old used) }
{
    let last = last_version(used_bytes(store, used)?)?;
    if GREATEST_VALUE < value.len() {
        return Err(SettingsRefusal::ValueLength);
    }
    if version < last {
        return Err(SettingsRefusal::VersionFalls);
    }
    if store.len() - used < ENTRY_FRONT + value.len() {
        return Err(SettingsRefusal::Full);
    }
    put_entry(store, used, name, version, value);
    Ok(used + ENTRY_FRONT + value.len())
}
