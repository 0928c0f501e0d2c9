// The same calls with the accounts by value, and the walker over the blocks.
mod calls;
mod walker;

pub use calls::{can_release, lend, object_range, remaining, write_object};
pub use walker::{Step, Walker, list_from, next, walk};
