// Everything that programs in C and Rust call, in one library: a module for each topic. A reply holds numbers alone:
// the refusal's number, 0 where the call is accepted, and what is answered, else zeros. Every call works in place. No
// call asks anything of its caller but that each pointer and length are those of memory that is its own.
#![tactic(auto)]

mod comparisons;
mod counts;
mod heaps;
mod images;
mod queues;
mod replays;
mod replies;
mod reports;
mod stores;

pub use comparisons::{
    CompareReply, NextReply, lokhazim_image_compare, lokhazim_image_compare_next,
};
pub use counts::{lokhazim_raw_quota_statistics, lokhazim_raw_statistics};
pub use heaps::{
    lokhazim_raw_allocate, lokhazim_raw_allocate_array, lokhazim_raw_can_release,
    lokhazim_raw_check, lokhazim_raw_claim, lokhazim_raw_clear_permissions, lokhazim_raw_free_all,
    lokhazim_raw_lend, lokhazim_raw_list_block, lokhazim_raw_open, lokhazim_raw_reallocate,
    lokhazim_raw_release, lokhazim_raw_remaining, lokhazim_raw_sweep, lokhazim_raw_write,
};
pub use images::{
    ExamineReply, ImageReply, lokhazim_image_examine, lokhazim_image_length,
    lokhazim_image_length_form_1, lokhazim_image_move_down, lokhazim_image_move_up,
    lokhazim_raw_image_restore, lokhazim_raw_image_resume, lokhazim_raw_image_write,
    lokhazim_raw_image_write_form_1,
};
pub use queues::{lokhazim_queue_new, lokhazim_raw_queue_receive, lokhazim_raw_queue_send};
pub use replays::{ReplayReply, lokhazim_replay};
pub use replies::{AmountReply, BlockReply, Grants, HandleReply, RangeReply};
pub use reports::{
    ExportReply, ImportReply, lokhazim_raw_report_export, lokhazim_raw_report_import,
};
pub use stores::{
    AddReply, EntryReply, FindReply, lokhazim_raw_settings_add, lokhazim_raw_settings_entry,
    lokhazim_raw_settings_find,
};
