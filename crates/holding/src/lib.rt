// The calls that change what quotas hold or may do, or what waits in quarantine, and make no object, over the accounts where they lie: open, claim, free-all,
// clear permissions and sweep. Each surveys heap and accounts for itself and answers, or gives one refusal and changes nothing.
#![tactic(auto)]

pub mod by_value;
mod claiming;
mod freeing;
mod opening;
mod permissions;
mod sweeping;

pub use claiming::claim;
pub use freeing::free_all;
pub use opening::open;
pub use permissions::clear_permissions;
pub use sweeping::sweep;
