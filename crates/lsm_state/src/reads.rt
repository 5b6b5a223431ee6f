// The tree's reads.
ghost use Rattle.std.specs.Prelude.{◌≡◌, None, Some, is_some, option_map, map, reverse, option_copied, IfOk};
ghost use Rattle.lsm_below.specs.Entries.{value_of as value_given};
ghost use Rattle.lsm_model.specs.Views.{found_at, sources, walk as walk_sources, shown as value_shown};
ghost use Rattle.lsm_parts.specs.Held.{entries_of};
ghost use Rattle.lsm_state.specs.Core.{latest_of, older_of, shown_as};
ghost use Rattle.lsm_state.specs.Calls.{Finds, RefusesOld, live, value_size};
ghost use Rattle.lsm_state.specs.Reading.{Looks, ReadsKey, ReadsEntry, TellsValue, TellsSize};

use crate::TreeState;
use lsm_below::{InternalValue, MemtableId, SeqNo, UserValue, ValueType};
use lsm_parts::{Error, Memtables, SuperVersion};
use lsm_store::Store;
use std::alloc::AllocError;

/// The value that an entry gives its key.
fn value_of(entry: &InternalValue) -> Result<Option<UserValue>, AllocError>
    ensures { IfOk result (λ v. v ≡ value_given entry.now) }
{
    match entry.key.value_type {
        ValueType::Value => Ok(Some(entry.value.clone()?)),
        ValueType::Tombstone => Ok(None),
        ValueType::WeakTombstone => Ok(None),
    }
}

/// What a walk finds among sealed memtables, the one that was sealed last before the others.
fn walk_sealed<'a>(
    memtables: &'a Memtables,
    sealed: &[MemtableId],
    key: &[u8],
    snapshot: SeqNo,
) -> Option<&'a InternalValue>
    ensures { option_copied result ≡ walk_sources key.now snapshot (map (entries_of memtables.now) (reverse sealed.now)) }
{
    let mut rest = sealed;
    while let Some((id, older)) = rest.split_last() {
        if let Some(entry) = memtables.search(*id, key, snapshot) {
            return Some(entry);
        }
        rest = older;
    }
    None
}

/// What a walk finds from source to source, the newest before the others.
fn walk<'a>(
    memtables: &'a Memtables,
    version: &'a SuperVersion,
    key: &[u8],
    snapshot: SeqNo,
) -> Option<&'a InternalValue>
    ensures { option_copied result ≡ walk_sources key.now snapshot (sources (entries_of memtables.now) (shown_as version.now)) }
{
    if let Some(entry) = memtables.search(version.active_memtable, key, snapshot) {
        return Some(entry);
    }
    if let Some(entry) = walk_sealed(
        memtables,
        version.sealed_memtables.as_slice(),
        key,
        snapshot,
    ) {
        return Some(entry);
    }
    version.version.get(key, snapshot)
}

/// The bytes of the value that an entry gives its key, None for a tombstone.
fn size_of_value(entry: Option<&InternalValue>) -> Option<u32>
    ensures { result ≡ option_map value_size (value_shown (option_copied entry.entry)) }
{
    let entry = entry?;
    if entry.is_tombstone() {
        return None;
    }
    Some(u32::try_from(entry.value.len()).unwrap_or(u32::MAX))
}

/// Whether an entry gives its key a value.
fn has_value(entry: Option<&InternalValue>) -> bool
    ensures { result ≡ is_some (value_shown (option_copied entry.entry)) }
{
    match entry {
        Some(entry) => !entry.is_tombstone(),
        None => false,
    }
}

impl<S: Store> TreeState<S> {
    /// The value of a key at a snapshot: that of its entry with the greatest sequence number below the snapshot
    /// in the first source that has one. None for a tombstone, or where there is no entry.
    /// `SnapshotTooOld` exactly where no super version is found for the snapshot; else only memory may be missing.
    ///
    /// The value shares its bytes with the tree. Who keeps a small one keeps what it stands in: a chunk of up to 64 KiB, or, of a
    /// value that was flushed, all bytes of its table's file. Copy it to keep it for long.
    pub fn get(&self, key: &[u8], snapshot: SeqNo) -> Result<Option<UserValue>, Error>
        ensures { ReadsKey self.now.core key.now snapshot result }
    {
        match self.find(key, snapshot)? {
            Some(entry) => Ok(value_of(entry)?),
            None => Ok(None),
        }
    }

    /// The entry that decides `get`, None for a tombstone. Its key is the one that was asked for and its value what `get`
    /// gives, and both share the bytes of the tree. Refused as `get`.
    pub fn get_internal_entry(
        &self,
        key: &[u8],
        snapshot: SeqNo,
    ) -> Result<Option<InternalValue>, Error>
        ensures { ReadsEntry self.now.core key.now snapshot result }
    {
        match self.find(key, snapshot)? {
            Some(entry) => Ok(copy_live(entry)?),
            None => Ok(None),
        }
    }

    /// Whether a key has a value at a snapshot. `SnapshotTooOld` as `get`; it takes no memory.
    pub fn contains_key(&self, key: &[u8], snapshot: SeqNo) -> Result<bool, Error>
        ensures { Looks (TellsValue self.now.core key.now snapshot) self.now.core snapshot result }
    {
        match self.find(key, snapshot) {
            Ok(entry) => Ok(has_value(entry)),
            Err(error) => Err(error),
        }
    }

    /// The bytes of a key's value at a snapshot, None where it has none. `SnapshotTooOld` as `get`; it takes no memory.
    pub fn size_of(&self, key: &[u8], snapshot: SeqNo) -> Result<Option<u32>, Error>
        ensures { Looks (TellsSize self.now.core key.now snapshot) self.now.core snapshot result }
    {
        match self.find(key, snapshot) {
            Ok(entry) => Ok(size_of_value(entry)),
            Err(error) => Err(error),
        }
    }

    fn find(&self, key: &[u8], snapshot: SeqNo) -> Result<Option<&InternalValue>, Error>
        ensures ok { IfOk result (λ e. Finds self.now.core key.now snapshot (option_copied e)) }
        ensures refuses { RefusesOld self.now.core snapshot result }
    {
        match self.version_at(snapshot) {
            Ok(version) => Ok(walk(&self.memtables, version, key, snapshot)),
            Err(error) => Err(error),
        }
    }

    /// The super version that a snapshot reads, in the theory's words.
    pub(crate) fn version_at(&self, snapshot: SeqNo) -> Result<&SuperVersion, Error>
        ensures ok { IfOk result (λ sv. found_at snapshot (latest_of self.now.core) (older_of self.now.core) ≡ Some (shown_as sv.now)) }
        ensures refuses { RefusesOld self.now.core snapshot result }
    {
        match self.history.get_version_for_snapshot(snapshot) {
            Ok(version) => Ok(version),
            Err(error) => Err(error),
        }
    }
}

/// A copy of an entry, unless it is a tombstone.
fn copy_live(entry: &InternalValue) -> Result<Option<InternalValue>, AllocError>
    ensures { IfOk result (λ e. e ≡ live (Some entry.now)) }
{
    if entry.is_tombstone() {
        return Ok(None);
    }
    Ok(Some(entry.copy()?))
}

mod ranges;
