// The tree's reads over many keys.
ghost use Rattle.std.specs.Prelude.{◌≡◌, ℕ, List, [], ◌∷◌, ◌++◌, Option, None, Some, is_none, reverse, option_to_list, MatchOption, IfOk, OnOk};
ghost use Rattle.std.specs.declared.ops.Bound.TheVariants.{Unbounded};
ghost use Rattle.lsm_iter.specs.declared.tree_iter.End.TheVariants.{Front, Back};
ghost use Rattle.lsm_below.specs.Entries.{Entry};
ghost use Rattle.lsm_state.specs.Calls.{RefusesRead};
ghost use Rattle.lsm_state.specs.Copies.{AreThose, IsReading};
ghost use Rattle.lsm_state.specs.Core.{shown_as};
ghost use Rattle.lsm_state.specs.Ranges.{AtVersion, Numbers, PairAt, TellsEmpty, EndOf};
ghost use Rattle.lsm_state.specs.Reading.{Reads, ReadsRange, ReadsPrefix, LendsRange, LendsPrefix};

use crate::{TreeState, lists_are_steps};
use lsm_below::{InternalValue, MemtableId, SeqNo, UserKey};
use lsm_iter::{End, Guard, IterState, Overlay, Pairs, TreeIter, count_shown, end_shown};
use lsm_parts::{Error, Memtable, Memtables, SuperVersion};
use lsm_store::Store;
use std::alloc::{AllocError, Global};
use std::ops::Bound;

/// All keys.
const ALL: (Bound<UserKey>, Bound<UserKey>) = (Bound::Unbounded, Bound::Unbounded);

/// Appends a memtable that was found to the list.
fn push_found<'a>(
    list: &mut Vec<&'a Memtable>,
    found: Option<&'a Memtable>,
) -> Result<(), AllocError>
    ensures { OnOk result (list.new.items ≡ list.old.items ++ option_to_list found.entry) }
{
    if let Some(memtable) = found {
        list.push(memtable)?;
    }
    Ok(())
}

/// Appends the sealed memtables to the list, the one that was sealed last before the others.
fn push_sealed<'a>(
    list: &mut Vec<&'a Memtable>,
    memtables: &'a Memtables,
    sealed: &[MemtableId],
) -> Result<(), AllocError>
    ensures { OnOk result
        ((ids : List ℕ) → AreThose memtables.now ids list.old.items → AreThose memtables.now (ids ++ reverse sealed.now) list.new.items) }
{
    let mut rest = sealed;
    while let Some((id, older)) = rest.split_last() {
        push_found(list, memtables.find(*id))?;
        rest = older;
    }
    Ok(())
}

/// The memtables that a super version reads, the newest first.
fn memtables_of<'a>(
    alloc: Global,
    memtables: &'a Memtables,
    version: &SuperVersion,
) -> Result<Vec<&'a Memtable>, AllocError>
    ensures { IfOk result
        (λ list. AreThose memtables.now ((shown_as version.now).active ∷ (shown_as version.now).sealed) list.items) }
{
    let mut list = Vec::new(alloc);
    push_found(&mut list, memtables.find(version.active_memtable))?;
    push_sealed(&mut list, memtables, version.sealed_memtables.as_slice())?;
    Ok(list)
}

/// Whether no pair is left.
fn is_over(pairs: Pairs<'_>) -> bool
    ensures { (e : Option Entry) × (result ≡ is_none e) × MatchOption e (pairs.entry ≡ []) (λ e. (rest : List Entry) × (pairs.entry ≡ e ∷ rest)) }
{
    let mut pairs = pairs;
    pairs.next().is_none()
}

impl<S: Store> TreeState<S> {
    /// What an iterator reads at a snapshot, under an index: the memtables and tables of the snapshot's super version.
    fn state_at<'a>(&'a self, snapshot: SeqNo, index: Overlay<'a>) -> Result<IterState<'a>, Error>
        ensures ok { IfOk result (λ state. AtVersion self.now.core snapshot (λ sv. IsReading self.now.core.memtables index.entry sv state)) }
        ensures refuses { RefusesRead self.now.core snapshot result }
    {
        let version = self.version_at(snapshot)?;
        let list = memtables_of(self.alloc, &self.memtables, version)?;
        Ok(IterState::new(&version.version, list, index))
    }

    /// What a snapshot shows within bounds, under an index, from both ends: of each key the entry with the
    /// greatest sequence number that counts, unless that is a tombstone. The index's entries count below its own sequence number,
    /// those of the tree below the snapshot. It stands as of its making. Bounds in the wrong order show nothing.
    ///
    /// `SnapshotTooOld` exactly where no super version is found for the snapshot; else only memory may be missing.
    pub fn create_internal_range(
        &self,
        bounds: &(Bound<UserKey>, Bound<UserKey>),
        snapshot: SeqNo,
        index: Overlay<'_>,
    ) -> Result<TreeIter, Error>
        ensures { ReadsRange self.now.core index.entry bounds.now.0 bounds.now.1 snapshot result }
    {
        lists_are_steps();
        let state = self.state_at(snapshot, index)?;
        TreeIter::create_range(self.alloc, &state, bounds, snapshot)
    }

    /// What a snapshot shows within bounds, as `range`, lent by the tree: no entry is copied and no owner counted, at the
    /// making and at each step. The tree doesn't change while the pairs are there. Only the list of its sources needs memory.
    ///
    /// # Errors
    ///
    /// `SnapshotTooOld` exactly where no super version is found for the snapshot; else only memory may be missing.
    ///
    /// # Examples
    ///
    /// ```text
    /// let mut total = 0;
    /// for (key, value) in tree.pairs(&bounds, snapshot, None)? {
    ///     total += value.len();
    /// }
    /// ```
    pub fn pairs<'a>(
        &'a self,
        bounds: &(Bound<UserKey>, Bound<UserKey>),
        snapshot: SeqNo,
        index: Overlay<'a>,
    ) -> Result<Pairs<'a>, Error>
        ensures { LendsRange self.now.core index.entry bounds.now.0 bounds.now.1 snapshot result }
    {
        lists_are_steps();
        let state = self.state_at(snapshot, index)?;
        Pairs::create_range(self.alloc, &state, bounds, snapshot)
    }

    /// What a snapshot shows of the keys that begin so, as `prefix`, lent by the tree as `pairs` are.
    ///
    /// `SnapshotTooOld` exactly where no super version is found for the snapshot; else only memory may be missing.
    pub fn pairs_with_prefix<'a>(
        &'a self,
        prefix: &[u8],
        snapshot: SeqNo,
        index: Overlay<'a>,
    ) -> Result<Pairs<'a>, Error>
        ensures { LendsPrefix self.now.core index.entry prefix.now snapshot result }
    {
        lists_are_steps();
        let state = self.state_at(snapshot, index)?;
        Pairs::create_prefix(self.alloc, &state, prefix, snapshot)
    }

    /// What a snapshot shows within bounds, as `create_internal_range`: an iterator from both ends that owns its pairs. To
    /// make it copies the newest entry of each key of memtables in the bounds: with an open end all of a memtable behind its
    /// beginning, however few pairs are taken (`range100_open_mem` of docs/PERFORMANCE.md). `pairs` lends them instead, and
    /// copies none, so that one page costs a page.
    ///
    /// # Examples
    ///
    /// ```text
    /// let bounds = (Bound::Included(first), Bound::Unbounded);
    /// for pair in tree.range(&bounds, tree.visible_seqno().get(), None)? {
    ///     let (key, value) = pair.into_inner()?;
    /// }
    /// ```
    pub fn range(
        &self,
        bounds: &(Bound<UserKey>, Bound<UserKey>),
        snapshot: SeqNo,
        index: Overlay<'_>,
    ) -> Result<TreeIter, Error>
        ensures { ReadsRange self.now.core index.entry bounds.now.0 bounds.now.1 snapshot result }
    {
        self.create_internal_range(bounds, snapshot, index)
    }

    /// `range`, under the name that it has in the crate that this one follows.
    pub fn create_range(
        &self,
        bounds: &(Bound<UserKey>, Bound<UserKey>),
        snapshot: SeqNo,
        index: Overlay<'_>,
    ) -> Result<TreeIter, Error>
        ensures { ReadsRange self.now.core index.entry bounds.now.0 bounds.now.1 snapshot result }
    {
        self.create_internal_range(bounds, snapshot, index)
    }

    /// All that a snapshot shows, as `range` with open bounds.
    pub fn iter(&self, snapshot: SeqNo, index: Overlay<'_>) -> Result<TreeIter, Error>
        ensures { ReadsRange self.now.core index.entry Unbounded Unbounded snapshot result }
    {
        self.create_internal_range(&ALL, snapshot, index)
    }

    /// `iter`, under the name that it has in the crate that this one follows.
    pub fn create_iter(&self, snapshot: SeqNo, index: Overlay<'_>) -> Result<TreeIter, Error>
        ensures { ReadsRange self.now.core index.entry Unbounded Unbounded snapshot result }
    {
        self.create_internal_range(&ALL, snapshot, index)
    }

    /// What a snapshot shows of the keys that begin so, as `range` within the bounds of the prefix.
    pub fn create_prefix(
        &self,
        prefix: &[u8],
        snapshot: SeqNo,
        index: Overlay<'_>,
    ) -> Result<TreeIter, Error>
        ensures { ReadsPrefix self.now.core index.entry prefix.now snapshot result }
    {
        lists_are_steps();
        let state = self.state_at(snapshot, index)?;
        TreeIter::create_prefix(self.alloc, &state, prefix, snapshot)
    }

    /// What a snapshot shows of the keys that begin so, as `create_prefix`.
    pub fn prefix(
        &self,
        prefix: &[u8],
        snapshot: SeqNo,
        index: Overlay<'_>,
    ) -> Result<TreeIter, Error>
        ensures { ReadsPrefix self.now.core index.entry prefix.now snapshot result }
    {
        self.create_prefix(prefix, snapshot, index)
    }

    /// How many keys a snapshot shows. It walks over all of them as `pairs` does.
    pub fn len(&self, snapshot: SeqNo, index: Overlay<'_>) -> Result<usize, Error>
        ensures { Reads (Numbers self.now.core index.entry snapshot) self.now.core snapshot result }
    {
        let state = self.state_at(snapshot, index)?;
        count_shown(self.alloc, &state, &ALL, snapshot)
    }

    /// Whether a snapshot shows nothing. It stops at the first pair that it finds, which isn't copied.
    pub fn is_empty(&self, snapshot: SeqNo, index: Overlay<'_>) -> Result<bool, Error>
        ensures { Reads (TellsEmpty Front self.now.core index.entry snapshot) self.now.core snapshot result }
    {
        match self.pairs(&ALL, snapshot, index) {
            Ok(pairs) => Ok(is_over(pairs)),
            Err(error) => Err(error),
        }
    }

    /// The pair with the least key that a snapshot shows. It passes what doesn't count at the ends of each source, and
    /// then takes one step, as of `pairs`: it looks no further than to that pair, and copies that one alone.
    pub fn first_key_value(
        &self,
        snapshot: SeqNo,
        index: Overlay<'_>,
    ) -> Result<Option<Guard>, Error>
        ensures { Reads (PairAt Front self.now.core index.entry snapshot) self.now.core snapshot result }
    {
        self.end_pair(End::Front, snapshot, index)
    }

    /// The pair with the greatest key that a snapshot shows, at the cost of `first_key_value`.
    pub fn last_key_value(
        &self,
        snapshot: SeqNo,
        index: Overlay<'_>,
    ) -> Result<Option<Guard>, Error>
        ensures { Reads (PairAt Back self.now.core index.entry snapshot) self.now.core snapshot result }
    {
        self.end_pair(End::Back, snapshot, index)
    }

    /// The pair at an end of all that a snapshot shows, under an index.
    fn end_pair(
        &self,
        end: End,
        snapshot: SeqNo,
        index: Overlay<'_>,
    ) -> Result<Option<Guard>, Error>
        ensures { Reads (PairAt end self.now.core index.entry snapshot) self.now.core snapshot result }
    {
        match self.end_entry(end, snapshot, index) {
            Ok(Some(entry)) => Ok(Some(Guard::of_entry(entry))),
            Ok(None) => Ok(None),
            Err(error) => Err(error),
        }
    }

    /// The entry at an end of all that a snapshot shows, under an index, without those after it.
    fn end_entry(
        &self,
        end: End,
        snapshot: SeqNo,
        index: Overlay<'_>,
    ) -> Result<Option<InternalValue>, Error>
        ensures { Reads (EndOf end self.now.core index.entry snapshot) self.now.core snapshot result }
    {
        let state = self.state_at(snapshot, index)?;
        end_shown(self.alloc, &state, end, &ALL, snapshot)
    }
}
