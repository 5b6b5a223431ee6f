//! Entries as the content of files, and back: tables, their files' bytes, and where entries are cut into tables.
//!
//! | Module | Holds |
//! |-|-|
//! | `checksum` | the checksum of a file's bytes |
//! | `image` | the content of a table's file |
//! | `parts` | entries that stand in several slices |
//! | `table` | the entries of one file |
//! | `multi_writer` | entries cut into tables |
//! | `table_error` | what reading a table refuses |
#![tactic(auto)]

mod checksum;
mod image;
mod multi_writer;
mod parts;
mod table;
mod table_error;

pub use checksum::{Checksum, sums_of_parts};
pub use image::{
    OpenImage, decode, encode, encode_parts, fits_image, is_writable, no_image_begins_another,
};
pub use multi_writer::{
    MultiWriter, cuts_are_runs, first_ends_cut, kept_is_writable, size_of_entry, split_table,
    write_tables,
};
pub use parts::{Entries, Parts};
pub use table::Table;
pub use table_error::TableError;
