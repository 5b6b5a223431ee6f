// The reads of a tree behind the lock, where they are noted nowhere.
ghost use Rattle.std.specs.declared.ops.Bound.TheVariants.{Unbounded};
ghost use Rattle.lsm_iter.specs.declared.tree_iter.End.TheVariants.{Front, Back};
ghost use Rattle.lsm_state.specs.Ranges.{Numbers, PairAt, TellsEmpty};
ghost use Rattle.lsm_state.specs.Reading.{Reads, Looks, ReadsKey, ReadsEntry, ReadsRange, ReadsPrefix, TellsValue, TellsSize};
ghost use Rattle.lsm_handles.specs.Shared.{AtSomeTree};

use crate::counts::HasTree;
use crate::handle::Handle;
use crate::lock::read_tree;
use lsm_below::{InternalValue, SeqNo, UserKey, UserValue};
use lsm_iter::{Guard, Overlay, TreeIter};
use lsm_logged::Logged;
use lsm_parts::Error;
use lsm_state::TreeState;
use lsm_store::Store;
use std::ops::Bound;
use std::sync::Wait;

/// A tree whose reads are noted nowhere: the tree itself, or one with a log above it. Handles on both read alike.
///
/// # Examples
///
/// ```text
/// fn read<C: ReadsTree>(handle: &Handle<C>, rt: &impl Wait, key: &[u8]) -> Result<Option<UserValue>, Error> {
///     handle.get(rt, key, handle.visible_number(rt))
/// }
/// ```
pub trait ReadsTree: HasTree {}

impl<S: Store> ReadsTree for TreeState<S> {}

impl<S: Store> ReadsTree for Logged<S> {}

/// Each call returns what the one of the same name of `TreeState` does, of the tree as the lock finds it.
/// An iterator owns its pairs, so the lock is released before it is asked for the first one.
impl<C: ReadsTree> Handle<C> {
    /// The value of a key at a snapshot, as `TreeState::get`.
    pub fn get(
        &self,
        rt: &impl Wait,
        key: &[u8],
        snapshot: SeqNo,
    ) -> Result<Option<UserValue>, Error>
        ensures { AtSomeTree (λ c. ReadsKey c key.now snapshot result) }
    {
        read_tree!(self, rt, |tree| tree.get(key, snapshot))
    }

    /// The entry that decides `get`, as `TreeState::get_internal_entry`.
    pub fn get_internal_entry(
        &self,
        rt: &impl Wait,
        key: &[u8],
        snapshot: SeqNo,
    ) -> Result<Option<InternalValue>, Error>
        ensures { AtSomeTree (λ c. ReadsEntry c key.now snapshot result) }
    {
        read_tree!(self, rt, |tree| tree.get_internal_entry(key, snapshot))
    }

    /// Whether a key has a value at a snapshot, as `TreeState::contains_key`.
    pub fn contains_key(&self, rt: &impl Wait, key: &[u8], snapshot: SeqNo) -> Result<bool, Error>
        ensures { AtSomeTree (λ c. Looks (TellsValue c key.now snapshot) c snapshot result) }
    {
        read_tree!(self, rt, |tree| tree.contains_key(key, snapshot))
    }

    /// The bytes of a key's value at a snapshot, as `TreeState::size_of`.
    pub fn size_of(&self, rt: &impl Wait, key: &[u8], snapshot: SeqNo) -> Result<Option<u32>, Error>
        ensures { AtSomeTree (λ c. Looks (TellsSize c key.now snapshot) c snapshot result) }
    {
        read_tree!(self, rt, |tree| tree.size_of(key, snapshot))
    }

    /// What a snapshot shows in the bounds, under an index, as `TreeState::create_internal_range`.
    pub fn create_internal_range(
        &self,
        rt: &impl Wait,
        bounds: &(Bound<UserKey>, Bound<UserKey>),
        snapshot: SeqNo,
        index: Overlay<'_>,
    ) -> Result<TreeIter, Error>
        ensures { AtSomeTree (λ c. ReadsRange c index.entry bounds.now.0 bounds.now.1 snapshot result) }
    {
        read_tree!(
            self,
            rt,
            |tree| tree.create_internal_range(bounds, snapshot, index)
        )
    }

    /// What a snapshot shows in the bounds, as `TreeState::range`.
    pub fn range(
        &self,
        rt: &impl Wait,
        bounds: &(Bound<UserKey>, Bound<UserKey>),
        snapshot: SeqNo,
        index: Overlay<'_>,
    ) -> Result<TreeIter, Error>
        ensures { AtSomeTree (λ c. ReadsRange c index.entry bounds.now.0 bounds.now.1 snapshot result) }
    {
        read_tree!(self, rt, |tree| tree.range(bounds, snapshot, index))
    }

    /// The same, as `TreeState::create_range`.
    pub fn create_range(
        &self,
        rt: &impl Wait,
        bounds: &(Bound<UserKey>, Bound<UserKey>),
        snapshot: SeqNo,
        index: Overlay<'_>,
    ) -> Result<TreeIter, Error>
        ensures { AtSomeTree (λ c. ReadsRange c index.entry bounds.now.0 bounds.now.1 snapshot result) }
    {
        read_tree!(self, rt, |tree| tree.create_range(bounds, snapshot, index))
    }

    /// All that a snapshot shows, as `TreeState::iter`.
    pub fn iter(
        &self,
        rt: &impl Wait,
        snapshot: SeqNo,
        index: Overlay<'_>,
    ) -> Result<TreeIter, Error>
        ensures { AtSomeTree (λ c. ReadsRange c index.entry Unbounded Unbounded snapshot result) }
    {
        read_tree!(self, rt, |tree| tree.iter(snapshot, index))
    }

    /// The same, as `TreeState::create_iter`.
    pub fn create_iter(
        &self,
        rt: &impl Wait,
        snapshot: SeqNo,
        index: Overlay<'_>,
    ) -> Result<TreeIter, Error>
        ensures { AtSomeTree (λ c. ReadsRange c index.entry Unbounded Unbounded snapshot result) }
    {
        read_tree!(self, rt, |tree| tree.create_iter(snapshot, index))
    }

    /// What a snapshot shows of the keys that begin so, as `TreeState::prefix`.
    pub fn prefix(
        &self,
        rt: &impl Wait,
        prefix: &[u8],
        snapshot: SeqNo,
        index: Overlay<'_>,
    ) -> Result<TreeIter, Error>
        ensures { AtSomeTree (λ c. ReadsPrefix c index.entry prefix.now snapshot result) }
    {
        read_tree!(self, rt, |tree| tree.prefix(prefix, snapshot, index))
    }

    /// The same, as `TreeState::create_prefix`.
    pub fn create_prefix(
        &self,
        rt: &impl Wait,
        prefix: &[u8],
        snapshot: SeqNo,
        index: Overlay<'_>,
    ) -> Result<TreeIter, Error>
        ensures { AtSomeTree (λ c. ReadsPrefix c index.entry prefix.now snapshot result) }
    {
        read_tree!(self, rt, |tree| tree.create_prefix(prefix, snapshot, index))
    }

    /// How many keys a snapshot shows, as `TreeState::len`.
    pub fn len(&self, rt: &impl Wait, snapshot: SeqNo, index: Overlay<'_>) -> Result<usize, Error>
        ensures { AtSomeTree (λ c. Reads (Numbers c index.entry snapshot) c snapshot result) }
    {
        read_tree!(self, rt, |tree| tree.len(snapshot, index))
    }

    /// Whether a snapshot shows nothing, as `TreeState::is_empty`.
    pub fn is_empty(
        &self,
        rt: &impl Wait,
        snapshot: SeqNo,
        index: Overlay<'_>,
    ) -> Result<bool, Error>
        ensures { AtSomeTree (λ c. Reads (TellsEmpty Front c index.entry snapshot) c snapshot result) }
    {
        read_tree!(self, rt, |tree| tree.is_empty(snapshot, index))
    }

    /// The pair with the least key that a snapshot shows, as `TreeState::first_key_value`.
    pub fn first_key_value(
        &self,
        rt: &impl Wait,
        snapshot: SeqNo,
        index: Overlay<'_>,
    ) -> Result<Option<Guard>, Error>
        ensures { AtSomeTree (λ c. Reads (PairAt Front c index.entry snapshot) c snapshot result) }
    {
        read_tree!(self, rt, |tree| tree.first_key_value(snapshot, index))
    }

    /// The pair with the greatest key that a snapshot shows, as `TreeState::last_key_value`.
    pub fn last_key_value(
        &self,
        rt: &impl Wait,
        snapshot: SeqNo,
        index: Overlay<'_>,
    ) -> Result<Option<Guard>, Error>
        ensures { AtSomeTree (λ c. Reads (PairAt Back c index.entry snapshot) c snapshot result) }
    {
        read_tree!(self, rt, |tree| tree.last_key_value(snapshot, index))
    }
}
