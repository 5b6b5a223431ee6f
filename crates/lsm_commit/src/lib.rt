//! The files of a tree that is open: tables that are written, versions that become the current one, names that are
//! removed, and what a crash leaves of them.
//!
//! | Module | Holds |
//! |-|-|
//! | `stored` | what a crash leaves of a tree's files, as contracts of functions |
//! | `contents` | files of tables that are written from their contents |
//! | `tables` | tables that are written and on the disk |
//! | `commit` | how a version becomes the current one |
//! | `removal` | names that nothing needs any more |
#![tactic(auto)]

mod commit;
mod contents;
mod removal;
mod stored;
mod tables;

pub use commit::commit_version;
pub use contents::write_contents;
pub use removal::{remove_tables, remove_version, remove_written};
pub use stored::{
    crashes_leave_versions, files_are_tables, foreign_names_spare, opening_stores, openings_pass,
    openings_settle, stored_files_are_ready,
};
pub use tables::write_tables;
