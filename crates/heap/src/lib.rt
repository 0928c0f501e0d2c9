// The shared heap: every call under one name, and `perform`, which makes any call of a history. The module `in_place`
// has the same over the accounts where they lie.
#![tactic(auto)]

pub mod in_place;
mod performing;

pub use allocation::by_value::{allocate, allocate_array, reallocate, release};
pub use holding::by_value::{claim, clear_permissions, free_all, open, open_plain, sweep};
pub use performing::{Performed, perform};
pub use queries::by_value::{
    Step, Walker, can_release, lend, list_from, next, object_range, remaining, walk, write_object,
};
pub use results::{AmountResult, HandleResult, Opened};
pub use survey::check;
