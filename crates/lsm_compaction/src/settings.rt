// How a merge is done.
ghost use Rattle.std.specs.Prelude.{◌≡◌};
ghost use Rattle.lsm_compaction.specs.Merges.{evicts};

use lsm_below::SeqNo;

/// The last level: nothing older stands below it, so tombstones need not stay there.
const LAST_LEVEL: u8 = 6;

/// How a merge is done, and where its tables go.
///
/// ```text
/// let settings = MergeSettings { dest_level: 6, target_size: u64::MAX, watermark: 0, made_at: moment };
/// ```
#[derive(Clone, Copy, Debug, PartialEq, Eq)]
pub struct MergeSettings {
    /// The level into which the entries go.
    pub dest_level: u8,
    /// A table ends as soon as its entries have so many bytes, but never between two entries of one key.
    pub target_size: u64,
    /// Snapshots from here on stay answered.
    pub watermark: SeqNo,
    /// When the tables are made, in nanoseconds.
    pub made_at: u64,
}

impl MergeSettings {
    /// Whether tombstones are evicted that hide nothing more: exactly in the last level, 6.
    pub fn evicts(&self) -> bool
        ensures { result ≡ evicts self.now }
    {
        self.dest_level == LAST_LEVEL
    }
}
