// The writes that change a heap's blocks where they lie: an object is cut out of a free block, and a block becomes free. It knows of no quota and no record.
#![tactic(auto)]

mod carving;
mod freeing;
mod writing;

pub use carving::carve;
pub use freeing::{unquarantine_block, vacate_block};
