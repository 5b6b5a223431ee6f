// A table in memory: the entries of one file.
ghost use Rattle.std.specs.Prelude.{◌≡◌, ◌+◌, ◌-◌, ◌<◌, ◌≤◌, take, drop, length, IfOk, IfErr, IfSome, IfNone, option_copied};
ghost use Rattle.std.specs.List.{AllByRecursion};
ghost use Rattle.lsm_below.specs.Entries.{HasBytes, entry_cmp, top};
ghost use Rattle.lsm_below.specs.Sorted.{Rises};
ghost use Rattle.lsm_below.specs.Lookups.{IsTop, HasNone, within};
ghost use Rattle.lsm_tables.specs.Image.{IsTable, IsImageOf, IsNoImage, image, entry_bytes};
ghost use Rattle.lsm_tables.specs.Sum.{sum_of};
ghost use Rattle.lsm_tables.specs.Tables.{IsCovered, IsKeptTable, range_of, greatest, tombstones, weak_tombstones, reclaimable};
ghost use Rattle.lsm_tables.specs.declared.table_error.TableError.TheVariants.{BadTable};

mod counts;
mod heads;

use crate::image::decode_headed;
use crate::{Checksum, TableError};
use bytes::Bytes;
use counts::{Counts, count};
use heads::{find, places};
use lsm_below::{
    InternalValue, KeyRange, Ranged, SeqNo, Stretch, TableId, UserKey, entries_are_ordered,
    entries_are_parted, first_visible_is_top, keys_are_ordered, share,
};
use std::alloc::{AllocError, Global};
use std::marker::Model;
use std::ops::Bound;
use std::sync::Arc;

/// What copies of a table share.
#[derive(Drop)]
struct TableInner {
    id: TableId,
    created_at: u64,
    entries: Vec<InternalValue>,
    heads: Vec<u128>,
    key_range: KeyRange,
    file_size: u64,
    checksum: Checksum,
    counts: Counts,
}

/// The entries of one file, decoded: at least one, by rising key, and under one key by falling
/// sequence number. Keys and values share the bytes of the file, and copies share the entries.
///
/// ```text
/// let table = Table::recover(alloc, id, bytes)?;
/// let newest = table.get(b"key", snapshot)?;
/// ```
#[derive(Drop)]
pub struct Table {
    inner: Arc<TableInner>,
}

impl Model for Table {
    ghost use Rattle.std.specs.Arc.{arc_value};
    ghost use Rattle.lsm_tables.specs.Tables.{SeenTable, IsKeptTable};

    ghost Value = { SeenTable };

    ghost view = { λ t. let inner = arc_value t.inner in record { id = inner.id; created_at = inner.created_at; entries = inner.entries.items } };

    ghost invariant = { λ t. IsKeptTable (arc_value t.inner) };
}

/// The range from the first entry's key to the last one's.
fn range_between(entries: &[InternalValue]) -> Result<KeyRange, AllocError>
    requires some { 0 < length entries.now }
    requires rises { Rises entry_cmp entries.now }
    ensures { IfOk result (λ r. r ≡ range_of entries.now) }
{
    keys_are_ordered();
    entries_are_ordered();
    let first = &entries[0].key.user_key;
    let last = &entries[entries.len() - 1].key.user_key;
    Ok(KeyRange::new((share(first)?, share(last)?)))
}

/// The entry of a key with the greatest sequence number below the snapshot.
fn find_in<'a>(inner: &'a TableInner, key: &[u8], seqno: SeqNo) -> Option<&'a InternalValue>
    requires { IsKeptTable inner.now }
    ensures is { option_copied result ≡ top key.now seqno inner.now.entries.items }
    ensures greatest { IfSome result (λ e. IsTop inner.now.entries.items key.now seqno e.now) }
    ensures none { IfNone result (HasNone inner.now.entries.items key.now seqno) }
{
    entries_are_parted();
    first_visible_is_top();
    find(&inner.heads, &inner.entries, key, seqno)
}

/// Where the entries in the bounds stand.
fn places_in(inner: &TableInner, lower: &Bound<UserKey>, upper: &Bound<UserKey>) -> (usize, usize)
    requires { IsKeptTable inner.now }
    ensures in_order { result.0 ≤ result.1 }
    ensures inside { result.1 ≤ length inner.now.entries.items }
    ensures within { take (result.1 - result.0) (drop result.0 inner.now.entries.items) ≡ within lower.now upper.now inner.now.entries.items }
{
    places(&inner.heads, &inner.entries, lower, upper)
}

impl Table {
    /// The table with this id whose file has these bytes. Keys and values share them. The cost is
    /// linear in the bytes.
    ///
    /// # Errors
    ///
    /// `BadTable` where the bytes are the content of no table's file, and only there; `OutOfMemory` where a
    /// growth was refused.
    pub fn recover(alloc: Global, id: TableId, bytes: Bytes) -> Result<Table, TableError>
        ensures id { IfOk result (λ t. t.id ≡ id) }
        ensures entries { IfOk result (λ t. IsImageOf t.created_at t.entries bytes) }
        ensures bad { IfErr result (λ e. e ≡ BadTable → IsNoImage bytes) }
    {
        let checksum = Checksum::of(bytes.as_slice());
        let file_size = bytes.len() as u64;
        let (created_at, entries, heads) = decode_headed(alloc, bytes)?;
        let key_range = range_between(&entries)?;
        let counts = count(&entries);
        let inner = TableInner {
            id,
            created_at,
            entries,
            heads,
            key_range,
            file_size,
            checksum,
            counts,
        };
        Ok(Table {
            inner: Arc::new(alloc, inner)?,
        })
    }

    /// The table's id, which is also its file's name.
    pub fn id(&self) -> TableId
        ensures { result ≡ self.now.id }
    {
        self.inner.id
    }

    /// When the table was made, in nanoseconds.
    pub fn created_at(&self) -> u64
        ensures { result ≡ self.now.created_at }
    {
        self.inner.created_at
    }

    /// The entries, by rising key, and under one key by falling sequence number.
    pub fn entries(&self) -> &[InternalValue]
        ensures { result.now ≡ self.now.entries }
    {
        &self.inner.entries
    }

    /// The entries, lent with the heads of their keys.
    pub fn headed_entries(&self) -> Stretch<'_>
        ensures { result ≡ self.now.entries }
    {
        Stretch::new(&self.inner.entries, &self.inner.heads)
    }

    /// What every table meets: it has an entry at least, its entries rise and fit a file, their keys have the
    /// numbers of bytes, and its range has their keys.
    pub fn facts(&self)
        ensures table { IsTable self.now.entries }
        ensures bytes { AllByRecursion HasBytes self.now.entries }
        ensures covered { IsCovered self.now.entries (range_of self.now.entries) }
    {
        keys_are_ordered();
        entries_are_ordered();
        let _ = &self.inner;
    }

    /// The entry of a key with the greatest sequence number below the snapshot. `None` only where there is none.
    /// The cost is logarithmic in the number of entries.
    pub fn get(&self, key: &[u8], seqno: SeqNo) -> Option<&InternalValue>
        ensures is { option_copied result ≡ top key.now seqno self.now.entries }
        ensures greatest { IfSome result (λ e. IsTop self.now.entries key.now seqno e.now) }
        ensures none { IfNone result (HasNone self.now.entries key.now seqno) }
    {
        find_in(&self.inner, key, seqno)
    }

    /// The entries in the bounds: a part of the table, found in logarithmic time. There is none where the
    /// lower bound is above the upper one.
    pub fn range(&self, lower: &Bound<UserKey>, upper: &Bound<UserKey>) -> &[InternalValue]
        ensures { result.now ≡ within lower.now upper.now self.now.entries }
    {
        let (start, end) = places_in(&self.inner, lower, upper);
        &self.inner.entries[start..end]
    }

    /// Where the entries in the bounds stand: from the first place on, and up to the second without it. Found in
    /// logarithmic time.
    pub fn places(&self, lower: &Bound<UserKey>, upper: &Bound<UserKey>) -> (usize, usize)
        ensures in_order { result.0 ≤ result.1 }
        ensures inside { result.1 ≤ length self.now.entries }
        ensures within { take (result.1 - result.0) (drop result.0 self.now.entries) ≡ within lower.now upper.now self.now.entries }
    {
        places_in(&self.inner, lower, upper)
    }

    /// The bytes of the table's file: 20, and for each entry 15, its key's and its value's.
    pub fn file_size(&self) -> u64
        ensures { result ≡ 20 + entry_bytes self.now.entries }
    {
        self.inner.file_size
    }

    /// The checksum of the table's file.
    pub fn checksum(&self) -> Checksum
        ensures { result.0 ≡ sum_of (image self.now.created_at self.now.entries) }
    {
        self.inner.checksum
    }

    /// The greatest sequence number of an entry.
    pub fn get_highest_seqno(&self) -> SeqNo
        ensures { result ≡ greatest self.now.entries }
    {
        self.inner.counts.highest
    }

    /// How many entries there are.
    pub fn item_count(&self) -> usize
        ensures { result ≡ length self.now.entries }
    {
        self.inner.entries.len()
    }

    /// How many entries remove their key, weakly or not.
    pub fn tombstone_count(&self) -> usize
        ensures { result ≡ tombstones self.now.entries }
    {
        self.inner.counts.tombstones
    }

    /// How many entries remove their key weakly.
    pub fn weak_tombstone_count(&self) -> usize
        ensures { result ≡ weak_tombstones self.now.entries }
    {
        self.inner.counts.weak
    }

    /// How many weak tombstones stand directly above a value of their key.
    pub fn weak_tombstone_reclaimable(&self) -> usize
        ensures { result ≡ reclaimable self.now.entries }
    {
        self.inner.counts.reclaimable
    }

    /// What is added to the sequence numbers of the entries: 0.
    pub fn global_seqno(&self) -> SeqNo
        ensures { result ≡ 0 }
    {
        0
    }

    /// The table once more, its entries shared. Refused only for want of memory.
    pub fn copy(&self) -> Result<Table, AllocError>
        ensures { IfOk result (λ t. t ≡ self.now) }
    {
        Ok(Table {
            inner: Arc::try_clone(&self.inner)?,
        })
    }
}

impl Ranged for Table {
    ghost use Rattle.lsm_tables.specs.Tables.{range_of};

    ghost range = { λ t. range_of t.entries };

    fn key_range(&self) -> &KeyRange {
        &self.inner.key_range
    }
}

impl Clone for Table {
    ghost is_clone = { λ t copy. copy ≡ t };

    fn clone(&self) -> Result<Table, AllocError> {
        self.copy()
    }
}
