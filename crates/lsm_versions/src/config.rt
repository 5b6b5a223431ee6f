// What a tree is opened with, and where its counters end.
ghost use Rattle.std.specs.Prelude.{◌≡◌};
ghost use Rattle.lsm_versions.specs.Configs.{raised};

use crate::DEFAULT_LEVEL_COUNT;
use lsm_below::{SeqNo, TreeId};

/// No counter gives this number or a greater one, and no write has it as its sequence number: 2^63.
pub const LIMIT: SeqNo = 9_223_372_036_854_775_808;

/// What a tree is opened with: its id, and where its counters start.
///
/// # Examples
///
/// ```text
/// let config = Config::new(0, 0, 0); // tree 0, both counters at 0
/// let opened = TreeState::open_unlogged(alloc, config, MemStore::new(alloc));
/// ```
#[derive(Clone, Copy, Debug, PartialEq, Eq)]
pub struct Config {
    /// What `id` tells; no file has it.
    pub id: TreeId,
    /// The first sequence number that the tree draws, also below entries that `open` finds; `open_raised` and a logged tree
    /// go on above all that they find.
    pub seqno: SeqNo,
    /// The first snapshot that callers are to take, raised alike.
    pub visible_seqno: SeqNo,
}

impl Config {
    /// A configuration of these parts: `seqno` is the first sequence number that a write draws,
    /// `visible_seqno` the first snapshot that callers are to take.
    pub fn new(id: TreeId, seqno: SeqNo, visible_seqno: SeqNo) -> Config
        ensures { result ≡ record { id = id; seqno = seqno; visible_seqno = visible_seqno } }
    {
        Config {
            id,
            seqno,
            visible_seqno,
        }
    }

    /// The same, with both counters at this number at least: above all that was found, say (`Version::next_seqno`), so
    /// that later writes are numbered above it.
    pub fn raised(self, least: SeqNo) -> Config
        ensures { result ≡ raised least self }
    {
        Config {
            id: self.id,
            seqno: self.seqno.max(least),
            visible_seqno: self.visible_seqno.max(least),
        }
    }

    /// The number of levels, always `DEFAULT_LEVEL_COUNT`.
    pub fn level_count(&self) -> u8
        ensures { result ≡ 7 }
    {
        DEFAULT_LEVEL_COUNT
    }
}
