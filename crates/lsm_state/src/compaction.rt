// What the calls of a compaction take and answer.
ghost use Rattle.std.specs.Prelude.{◌≡◌};

use crate::TreeState;
pub use beginning::told_as;
use lsm_below::SeqNo;
use lsm_checks::Why;
use lsm_compaction::CompactionJob;
use lsm_store::Store;
pub use whole::do_compaction;

/// How a compaction is done.
///
/// ```text
/// let options = tree.options_at(oldest_snapshot);
/// ```
#[derive(Clone, Copy, Debug, PartialEq, Eq)]
pub struct Options {
    /// The watermark: snapshots from here on stay answered.
    pub mvcc_gc_watermark: SeqNo,
    /// The moment at which its tables are made, in nanoseconds.
    pub moment: u64,
}

impl Options {
    /// Those where nothing is forgotten, at the tree's moment.
    pub fn from_tree<S: Store>(tree: &TreeState<S>) -> Options
        ensures { result ≡ record { mvcc_gc_watermark = 0; moment = tree.now.core.moment } }
    {
        Options {
            mvcc_gc_watermark: 0,
            moment: tree.moment(),
        }
    }
}

/// How a compaction began.
///
/// ```text
/// match begun {
///     Begun::Job(job) => merge(job), // outside the tree
///     done => return Ok(done),
/// }
/// ```
pub enum Begun {
    /// Nothing is to be done.
    DidNothing,
    /// The choice was declined: the first reason that holds.
    Declined(Why),
    /// A move or a drop was installed.
    Installed,
    /// A merge is open; its job is to be run, and then finished or abandoned. Nothing is written for it before.
    Job(CompactionJob),
}

/// How a compaction ended.
#[derive(Clone, Copy, Debug, PartialEq, Eq)]
pub enum Finished {
    /// The merge was installed.
    Installed,
    /// The merge was declined: the first reason that holds.
    Declined(Why),
}

mod beginning;
mod finishing;
mod whole;
