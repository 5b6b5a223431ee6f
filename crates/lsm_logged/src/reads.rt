// Reads of a logged tree.
ghost use Rattle.std.specs.declared.ops.Bound.TheVariants.{Unbounded};
ghost use Rattle.std.specs.Prelude.{◌≡◌, ◌↔◌, None, Some, IfOk, IfErr, IsErrOf};
ghost use Rattle.lsm_parts.specs.History.{found_version};
ghost use Rattle.lsm_iter.specs.declared.tree_iter.End.TheVariants.{Front, Back};
ghost use Rattle.lsm_state.specs.Reading.{Looks, ReadsKey, ReadsEntry, TellsValue, TellsSize, Reads, ReadsRange, ReadsPrefix, LendsRange, LendsPrefix};
ghost use Rattle.lsm_state.specs.Ranges.{Numbers, PairAt, TellsEmpty};

use crate::Logged;
use lsm_below::{InternalValue, SeqNo, UserKey, UserValue};
use lsm_iter::{Guard, Overlay, Pairs, TreeIter};
use lsm_parts::{Error, SuperVersion};
use lsm_store::Store;
use std::ops::Bound;

/// Each read answers, or is refused, as the one of the same name of `TreeState`, on the tree below the log.
impl<S: Store> Logged<S> {
    /// The value of a key at a snapshot, as `TreeState::get`.
    pub fn get(&self, key: &[u8], snapshot: SeqNo) -> Result<Option<UserValue>, Error>
        ensures { ReadsKey self.now.core key.now snapshot result }
    {
        self.tree.get(key, snapshot)
    }

    /// The entry that decides `get`, as `TreeState::get_internal_entry`.
    pub fn get_internal_entry(
        &self,
        key: &[u8],
        snapshot: SeqNo,
    ) -> Result<Option<InternalValue>, Error>
        ensures { ReadsEntry self.now.core key.now snapshot result }
    {
        self.tree.get_internal_entry(key, snapshot)
    }

    /// Whether a key has a value at a snapshot, as `TreeState::contains_key`.
    pub fn contains_key(&self, key: &[u8], snapshot: SeqNo) -> Result<bool, Error>
        ensures { Looks (TellsValue self.now.core key.now snapshot) self.now.core snapshot result }
    {
        self.tree.contains_key(key, snapshot)
    }

    /// The bytes of a key's value at a snapshot, as `TreeState::size_of`.
    pub fn size_of(&self, key: &[u8], snapshot: SeqNo) -> Result<Option<u32>, Error>
        ensures { Looks (TellsSize self.now.core key.now snapshot) self.now.core snapshot result }
    {
        self.tree.size_of(key, snapshot)
    }

    /// What a snapshot shows within bounds, under an index, as `TreeState::range`.
    pub fn range(
        &self,
        bounds: &(Bound<UserKey>, Bound<UserKey>),
        snapshot: SeqNo,
        index: Overlay<'_>,
    ) -> Result<TreeIter, Error>
        ensures { ReadsRange self.now.core index.entry bounds.now.0 bounds.now.1 snapshot result }
    {
        self.tree.range(bounds, snapshot, index)
    }

    /// What a snapshot shows of the keys that begin so, as `TreeState::prefix`.
    pub fn prefix(
        &self,
        prefix: &[u8],
        snapshot: SeqNo,
        index: Overlay<'_>,
    ) -> Result<TreeIter, Error>
        ensures { ReadsPrefix self.now.core index.entry prefix.now snapshot result }
    {
        self.tree.prefix(prefix, snapshot, index)
    }

    /// All that a snapshot shows, as `TreeState::iter`.
    pub fn iter(&self, snapshot: SeqNo, index: Overlay<'_>) -> Result<TreeIter, Error>
        ensures { ReadsRange self.now.core index.entry Unbounded Unbounded snapshot result }
    {
        self.tree.iter(snapshot, index)
    }

    /// `range`, under another name, as `TreeState::create_range`.
    pub fn create_range(
        &self,
        bounds: &(Bound<UserKey>, Bound<UserKey>),
        snapshot: SeqNo,
        index: Overlay<'_>,
    ) -> Result<TreeIter, Error>
        ensures { ReadsRange self.now.core index.entry bounds.now.0 bounds.now.1 snapshot result }
    {
        self.tree.create_range(bounds, snapshot, index)
    }

    /// `prefix`, under another name, as `TreeState::create_prefix`.
    pub fn create_prefix(
        &self,
        prefix: &[u8],
        snapshot: SeqNo,
        index: Overlay<'_>,
    ) -> Result<TreeIter, Error>
        ensures { ReadsPrefix self.now.core index.entry prefix.now snapshot result }
    {
        self.tree.create_prefix(prefix, snapshot, index)
    }

    /// `iter`, under another name, as `TreeState::create_iter`.
    pub fn create_iter(&self, snapshot: SeqNo, index: Overlay<'_>) -> Result<TreeIter, Error>
        ensures { ReadsRange self.now.core index.entry Unbounded Unbounded snapshot result }
    {
        self.tree.create_iter(snapshot, index)
    }

    /// What a snapshot shows within bounds, from both ends, as `TreeState::create_internal_range`.
    pub fn create_internal_range(
        &self,
        bounds: &(Bound<UserKey>, Bound<UserKey>),
        snapshot: SeqNo,
        index: Overlay<'_>,
    ) -> Result<TreeIter, Error>
        ensures { ReadsRange self.now.core index.entry bounds.now.0 bounds.now.1 snapshot result }
    {
        self.tree.create_internal_range(bounds, snapshot, index)
    }

    /// What a snapshot shows within bounds, lent, as `TreeState::pairs`.
    pub fn pairs<'a>(
        &'a self,
        bounds: &(Bound<UserKey>, Bound<UserKey>),
        snapshot: SeqNo,
        index: Overlay<'a>,
    ) -> Result<Pairs<'a>, Error>
        ensures { LendsRange self.now.core index.entry bounds.now.0 bounds.now.1 snapshot result }
    {
        self.tree.pairs(bounds, snapshot, index)
    }

    /// What a snapshot shows of the keys that begin so, lent, as `TreeState::pairs_with_prefix`.
    pub fn pairs_with_prefix<'a>(
        &'a self,
        prefix: &[u8],
        snapshot: SeqNo,
        index: Overlay<'a>,
    ) -> Result<Pairs<'a>, Error>
        ensures { LendsPrefix self.now.core index.entry prefix.now snapshot result }
    {
        self.tree.pairs_with_prefix(prefix, snapshot, index)
    }

    /// How many keys a snapshot shows, as `TreeState::len`.
    pub fn len(&self, snapshot: SeqNo, index: Overlay<'_>) -> Result<usize, Error>
        ensures { Reads (Numbers self.now.core index.entry snapshot) self.now.core snapshot result }
    {
        self.tree.len(snapshot, index)
    }

    /// Whether a snapshot shows nothing, as `TreeState::is_empty`.
    pub fn is_empty(&self, snapshot: SeqNo, index: Overlay<'_>) -> Result<bool, Error>
        ensures { Reads (TellsEmpty Front self.now.core index.entry snapshot) self.now.core snapshot result }
    {
        self.tree.is_empty(snapshot, index)
    }

    /// The pair with the least key that a snapshot shows, as `TreeState::first_key_value`.
    pub fn first_key_value(
        &self,
        snapshot: SeqNo,
        index: Overlay<'_>,
    ) -> Result<Option<Guard>, Error>
        ensures { Reads (PairAt Front self.now.core index.entry snapshot) self.now.core snapshot result }
    {
        self.tree.first_key_value(snapshot, index)
    }

    /// The pair with the greatest key that a snapshot shows, as `TreeState::last_key_value`.
    pub fn last_key_value(
        &self,
        snapshot: SeqNo,
        index: Overlay<'_>,
    ) -> Result<Option<Guard>, Error>
        ensures { Reads (PairAt Back self.now.core index.entry snapshot) self.now.core snapshot result }
    {
        self.tree.last_key_value(snapshot, index)
    }

    /// The super version that a snapshot reads, as `TreeState::get_version_for_snapshot`.
    pub fn get_version_for_snapshot(&self, snapshot: SeqNo) -> Result<&SuperVersion, Error>
        ensures ok { IfOk result (λ sv. found_version snapshot self.now.core.history ≡ Some sv.now) }
        ensures too_old { IsErrOf result Error.SnapshotTooOld ↔ (found_version snapshot self.now.core.history ≡ None) }
        ensures only { IfErr result (λ e. e ≡ Error.SnapshotTooOld) }
    {
        self.tree.get_version_for_snapshot(snapshot)
    }
}
