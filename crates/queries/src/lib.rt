// The calls that leave blocks and accounts as they are, over the accounts where they lie: check, remaining, can release, can claim, lend and the write
// of a byte, and the listing. Each surveys heap and accounts for itself, and no word changes.
#![tactic(auto)]

pub mod by_value;
mod claiming;
mod lending;
mod listing;
mod query;

pub use claiming::can_claim;
pub use lending::{lend, write_object};
pub use listing::list_block;
pub use query::{can_release, check, object_range, remaining};
