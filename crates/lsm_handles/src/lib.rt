//! Handles on a tree that several callers share, behind one lock.
//!
//! | Module | Holds |
//! |-|-|
//! | `handle` | the shared trees, and what holds one |
//! | `shared` | the calls of a tree behind the lock |
//! | `shared::flush` | its flushes |
//! | `shared::compaction` | its compactions |
//! | `lock` | how a call takes the lock |
//! | `gate` | who does the merge of a compaction while no lock is held |
//! | `recorded` | the calls of a tree with its journal, behind the lock |
//! | `recorded::flush` | its flushes |
//! | `recorded::compaction` | its compactions |
//! | `logged` | the calls of a tree with a log above it, behind the lock |
//! | `logged::flush` | its flushes |
//! | `logged::compaction` | its compactions |
//! | `reads` | the reads of those that note none |
//! | `counts` | what is counted and told of each of them |
#![tactic(auto)]

mod counts;
mod gate;
mod handle;
mod lock;
mod logged;
mod reads;
mod recorded;
mod shared;

pub use counts::HasTree;
pub use gate::{Gate, RunJob};
pub use handle::{Handle, LoggedTree, RecordedTree, Tree};
pub use reads::ReadsTree;
