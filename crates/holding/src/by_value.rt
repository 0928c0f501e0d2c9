// The same calls with the accounts by value: they go in, and come back changed in the result.
mod calls;

pub use calls::{claim, clear_permissions, free_all, open, open_plain, sweep};
