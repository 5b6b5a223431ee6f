//! A log above a tree: a record for each batch, which is on the disk before the batch is in the tree.
//!
//! | Module | Holds |
//! |-|-|
//! | `record`, `record_error` | what a record tells, and what reading one refuses |
//! | `layout`, `writing`, `reading` | a record's bytes |
//! | `names`, `kinds` | the names of records, and what a name is to a log |
//! | `listing`, `log`, `loading` | which records a store has, and those that are read |
//! | `putting`, `removing` | a record that is put in one step, and records that are removed |
#![tactic(auto)]

mod kinds;
mod layout;
mod listing;
mod loading;
mod log;
mod names;
mod putting;
mod reading;
mod record;
mod record_error;
mod removing;
mod writing;

pub use kinds::{LogName, kind_of};
pub use loading::{check_log, first_from, read_record};
pub use log::LogNumbers;
pub use names::{RecordName, record_name};
pub use putting::put_record;
pub use reading::{decode, no_record_begins_another};
pub use record::Record;
pub use record_error::RecordError;
pub use removing::remove_below;
pub use writing::encode;
