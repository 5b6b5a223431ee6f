//! A tree with a log above it: each batch has a record in the store before it is in the tree, so no crash takes it.
//!
//! | Module | Holds |
//! |-|-|
//! | `logged` | the tree and its log |
//! | `opening` | how it is opened over a store |
//! | `writes` | its writes |
//! | `reads` | its reads |
//! | `counts` | what is counted of it |
//! | `flush` | its flushes, and a clear |
//! | `compaction` | its compactions |
//! | `removing` | how records that the version has passed are removed |
//! | `laws` | what is known of a log between two lives, and of an image of it |
#![tactic(auto)]

mod compaction;
mod counts;
mod flush;
mod laws;
mod logged;
mod opening;
mod reads;
mod removing;
mod writes;

pub use laws::{
    images_have_logs, logs_can_be_settled, records_are_those_read, versions_are_told_once,
};
pub use logged::Logged;
