//! What a tree is made of in memory: sequence numbers, memtables, and super versions: which of them a snapshot sees.
//!
//! | Module | Holds |
//! |-|-|
//! | `seqno` | the counter of sequence numbers, and which of them a snapshot sees |
//! | `memtables` | the memtables that are held, by id |
//! | `memtables::sealed` | one that takes no more writes, and room for one more |
//! | `version` | super versions and their history |
#![tactic(auto)]

mod memtables;
mod seqno;
mod version;

pub use lsm_below::Error;
pub use lsm_memtable::{Iter, Memtable, Span, Steps};
pub use lsm_versions::{Config, DEFAULT_LEVEL_COUNT, LIMIT, Version, VersionId};
pub use memtables::{Memtables, Room, greater_of};
pub use seqno::{SequenceNumberCounter, seqno_filter};
pub use version::{SealedMemtables, SuperVersion, SuperVersions};
