//! What becomes of calls in a journal: entries made of what callers passed, calls beside what is noted of them, copies of
//! entries, and whether two are the same.
//!
//! | Module | Holds |
//! |-|-|
//! | `lists` | lists of entries |
//! | `reads` | entries of point reads |
//! | `reads::ranges` | the pairs that reads of many keys answer, and their entries |
//! | `writes` | writes of entries and of batches, and what is noted of them |
//! | `flush` | flushes, and what is noted of them |
//! | `clear` | a clear, and what is noted of it |
//! | `compaction` | a strategy's choice, beside what a journal notes of it if it is done |
//! | `compaction::ranges` | the key ranges of the tables that a drop drops |
//! | `compaction::beginning` | how a choice begins, and what is noted of that |
//! | `compaction::finishing` | how a merge ends, and what is noted of that |
//! | `compaction::whole` | a compaction in one call, and what is noted of it |
//! | `laws` | what compactions leave of reads, as the contract of a function |
//! | `copies` | copies of entries and of operations |
//! | `same` | whether two entries are the same |
#![tactic(auto)]

mod clear;
mod compaction;
mod copies;
mod flush;
mod laws;
mod lists;
mod reads;
mod same;
mod writes;

pub use clear::{clear_entries, clear_noting};
pub use compaction::{
    Chosen, ask, ask_with, begin_chosen, compact_chosen, drops_nothing, finish_entries,
    finish_noting,
};
pub use copies::{copy_bound, copy_entry, question_between, share_ops};
pub use flush::{flush_active_noting, flush_entries, flush_noting, register_noting};
pub use laws::noted_compactions_keep_reads;
pub use lists::one_entry;
pub use reads::{pairs_entry, read_entry, share_pairs, take_pairs};
pub use same::same_entry;
pub use writes::{append_noting, batch_entries, write_entry, write_noting};
