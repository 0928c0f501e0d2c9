// The static library for programs in C and Rust: each export calls the function of crate `exports` that has its name, and
// states its clauses again. Each function stands twice for the C interface: a static library alone exports to C, and
// no other crate can name what it exports (decision 153). scripts/exports holds the two to each other.
#![tactic(auto)]

mod comparisons;
mod counts;
mod heaps;
mod images;
mod queues;
mod replays;
mod reports;
mod stores;

pub use comparisons::{lokhazim_image_compare, lokhazim_image_compare_next};
pub use counts::{lokhazim_raw_quota_statistics, lokhazim_raw_statistics};
pub use heaps::{
    lokhazim_raw_allocate, lokhazim_raw_allocate_array, lokhazim_raw_can_release,
    lokhazim_raw_check, lokhazim_raw_claim, lokhazim_raw_clear_permissions, lokhazim_raw_free_all,
    lokhazim_raw_lend, lokhazim_raw_list_block, lokhazim_raw_open, lokhazim_raw_reallocate,
    lokhazim_raw_release, lokhazim_raw_remaining, lokhazim_raw_sweep, lokhazim_raw_write,
};
pub use images::{
    lokhazim_image_examine, lokhazim_image_length, lokhazim_image_length_form_1,
    lokhazim_image_move_down, lokhazim_image_move_up, lokhazim_raw_image_restore,
    lokhazim_raw_image_resume, lokhazim_raw_image_write, lokhazim_raw_image_write_form_1,
};
pub use queues::{lokhazim_queue_new, lokhazim_raw_queue_receive, lokhazim_raw_queue_send};
pub use replays::lokhazim_replay;
pub use reports::{lokhazim_raw_report_export, lokhazim_raw_report_import};
pub use stores::{
    lokhazim_raw_settings_add, lokhazim_raw_settings_entry, lokhazim_raw_settings_find,
};
