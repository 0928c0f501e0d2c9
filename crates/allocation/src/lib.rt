// The calls that make objects and give them up, over the accounts where they lie: allocate, allocate array, release and reallocate. Each surveys heap and
// accounts for itself and answers, or gives one refusal and changes nothing.
#![tactic(auto)]

mod allocating;
pub mod by_value;
mod reallocating;
mod releasing;
mod requests;

pub use allocating::{allocate, allocate_array};
pub use reallocating::reallocate;
pub use releasing::release;
