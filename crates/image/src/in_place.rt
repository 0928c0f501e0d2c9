// Images written, read and restored over the accounts where they lie.
mod reading;
mod restoring;
mod writing;

pub(crate) use reading::put_accounts;
pub use reading::read_image;
pub use restoring::restore_image;
pub use writing::{write_form_1, write_image};
