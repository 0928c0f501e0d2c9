// The same calls with the accounts by value: they go in, and come back changed in the result.
mod calls;

pub use calls::{allocate, allocate_array, reallocate, release};
