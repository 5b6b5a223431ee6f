//! The tree with one owner.
//!
//! | Module | Holds |
//! |-|-|
//! | `tree` | the tree: its counters, rotation |
//! | `opening` | how it is opened over a store, and what it says of its version |
//! | `opening::unlogged` | how it is opened where no record of a log counts |
//! | `opening::found` | what a store holds of it, before anything is changed |
//! | `counts` | what is counted of its memtables and tables |
//! | `writes` | its writes |
//! | `writes::recording` | its writes, each after a record of a log |
//! | `lending` | its store, lent to a log: how records are read and removed |
//! | `reads` | its reads of one key |
//! | `reads::ranges` | its reads of many keys |
//! | `commit` | how a super version becomes the latest one, and what is cleaned up after it |
//! | `commit::settling` | how a version takes the place of the latest one, outside a flush |
//! | `flush` | the calls of a flush, up to its tables |
//! | `flush::register` | how a flush is installed |
//! | `flush::whole` | a flush in one call |
//! | `compaction` | what the calls of a compaction take and answer |
//! | `compaction::beginning` | how a compaction begins: a move or a drop is installed, a merge becomes a job |
//! | `compaction::finishing` | how a merge ends |
//! | `compaction::whole` | a compaction in one call |
//! | `clear` | a clear, and how unflushed entries are forgotten |
//! | `laws` | what reads, flushes, compactions, clears and openings are to the theory |
#![tactic(auto)]

mod clear;
mod commit;
mod compaction;
mod counts;
mod flush;
mod laws;
mod lending;
mod opening;
mod reads;
mod tree;
mod writes;

pub use compaction::{Begun, Finished, Options, do_compaction, told_as};
pub use laws::{
    clears_keep_reads, compactions_are_deeds, compactions_keep_reads, flushes_are_deeds,
    flushes_keep_reads, lists_are_steps, opened_trees_are_fresh, ranges_are_overlaid,
};
pub use opening::Found;
pub use tree::TreeState;

// What its calls take and answer.
pub use lsm_below::{
    Error, InternalValue, KvPair, MAX_KEY_LEN, MAX_VALUE_LEN, MemtableId, SeqNo, TableId, UserKey,
    UserValue, ValueType,
};
pub use lsm_checks::{Input, Why};
pub use lsm_compaction::{CompactionJob, MergedCompaction};
pub use lsm_flush::{FlushJob, MergedFlush, Registered, SealedMemtable, WrittenFlush};
pub use lsm_iter::{
    End, Guard, IterGuard, IterState, Overlay, Pairs, RangeItem, TreeIter, end_shown,
    prefix_to_range, take_ends,
};
pub use lsm_model::{JournalEntry, Op, Ops};
pub use lsm_parts::{
    Config, Iter, LIMIT, Memtable, SealedMemtables, SequenceNumberCounter, SuperVersion,
    SuperVersions, Version, VersionId,
};
pub use lsm_pick::{
    Choice, ChooseError, CompactionStrategy, DropRange, Fifo, Leveled, Major, OwnedBounds, fifo,
    leveled,
};
pub use lsm_store::{Fault, MemStore, Pick, Store, StoreError};
pub use lsm_tables::Checksum;
pub use lsm_versions::{CompactionState, TreeType};
