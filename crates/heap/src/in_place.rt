// Every call over the accounts where they lie, under one name, and `perform`, which makes any call of a history.
mod performing;

pub use allocation::{allocate, allocate_array, reallocate, release};
pub use holding::{claim, clear_permissions, free_all, open, sweep};
pub use performing::perform;
pub use queries::{
    can_claim, can_release, check, lend, list_block, object_range, remaining, write_object,
};
