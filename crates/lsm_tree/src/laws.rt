//! Theorems as the contracts of functions that do nothing: each is proved of the words that the contracts of
//! other calls are made of.
pub use lsm_below::{entries_are_ordered, first_visible_is_top, keys_are_ordered, merges_by_key};
pub use lsm_commit::stored_files_are_ready;
pub use lsm_iter::shown_is_the_view;
pub use lsm_log_runs::{
    any_number_of_logged_lives, crashed_logs_open, logs_open_once, new_logs_open,
    opened_logs_stand, opened_runs_are_lives, openings_are_logged_lives, standing_logs_are_taken,
    steps_lead,
};
pub use lsm_logged::{
    images_have_logs, logs_can_be_settled, records_are_those_read, versions_are_told_once,
};
pub use lsm_manifest::{
    crashes_settle, found_tables_show, images_stand_once, openings_leave_what_was_read,
    settled_stores_are_ready, unread_names_dont_matter,
};
pub use lsm_model::{
    counted_is_in_order, deeds_join, every_crash_recovers, every_run_reads_right, levels_rise,
    maps_are_read, opening_starts, parts_are_whole, reads_are_sound, tables_are_placed,
    tables_show_above,
};
pub use lsm_pick::{leveled_is_lawful, leveled_never_drops, major_never_drops};
pub use lsm_runs::{any_number_of_lives, openings_are_lives, runs_are_lives};
pub use lsm_state::{
    clears_keep_reads, compactions_are_deeds, compactions_keep_reads, flushes_are_deeds,
    flushes_keep_reads, lists_are_steps, opened_trees_are_fresh, ranges_are_overlaid,
};
pub use lsm_store::runs_of_calls;
pub use lsm_tables::{cuts_are_runs, no_image_begins_another, sums_of_parts};
