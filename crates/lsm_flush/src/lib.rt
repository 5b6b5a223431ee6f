//! The parts of a flush that need no tree: memtables that are shared, what is kept of them, and the jobs in between.
//!
//! | Module | Holds |
//! |-|-|
//! | `sealed` | a memtable that takes no more entries, shared |
//! | `source` | its entries as a source of a merge |
//! | `merging` | what a compaction keeps of memtables |
//! | `jobs` | the jobs of a flush, stage by stage |
//! | `kept` | the same as values that may be let go |
//! | `open_flush` | what a tree knows of its open flush |
//! | `same` | whether a job is what it was |
#![tactic(auto)]

mod jobs;
mod kept;
mod merging;
mod open_flush;
mod same;
mod sealed;
mod source;

pub use jobs::{FlushJob, MergedFlush, Registered, WrittenFlush};
pub use kept::{KeptFlush, KeptMerged, KeptWritten};
pub use merging::merge_memtables;
pub use open_flush::OpenFlush;
pub use same::{same_entries, same_tables};
pub use sealed::SealedMemtable;
pub use source::MemtableSource;
