// A sorted table of entries in memory.
ghost use Rattle.std.specs.Prelude.{◌≡◌, ℕ, ◌+◌, ◌<◌, ◌≤◌, ◌↔◌, [], ◌∷◌, List, length, IsTrue, IfOk, IfErr, OnOk, OnErr, IfSome, IfNone, option_copied, vec_len, vec_capacity, true, MatchOption};
ghost use Rattle.lsm_below.specs.declared.value.InternalValue.{InternalValue};
ghost use Rattle.lsm_below.specs.Entries.{Entry, entry_cmp, top};
ghost use Rattle.lsm_below.specs.Sorted.{Rises};
ghost use Rattle.lsm_memtable.specs.Memtables.{SeenMemtable, entry_size, new_memtable, with_entry, with_entries, highest_of, within, IsTop, HasNone};
ghost use Rattle.lsm_memtable.specs.Blocks.{AreSoManyBlocks, CountsDigits};
ghost use Rattle.lsm_memtable.specs.Contents.{content_of, entries_of, added, all_added, IsContent};
ghost use Rattle.lsm_memtable.specs.Undo.{Undoes, AreUndone, undo_of};
ghost use Rattle.lsm_memtable.specs.Revoking.{Reverts, TakesBack};

use crate::arena::housed;
use crate::block::Block;
use crate::block_list::{Undo, first_visible, put_entry, take_all_back};
use crate::bounds::blocks_within;
use crate::iter::whole;
use crate::span::span_of;
use crate::{Iter, Span, Steps};
use bytes::BytesMut;
use lsm_below::{
    ENTRY_OVERHEAD, Error, InternalValue, MemtableId, SeqNo, UserKey, entries_are_parted,
    first_visible_is_top, slices_hold_bytes,
};
use std::alloc::{AllocError, Global};
use std::collections::VecDeque;
use std::marker::Model;
use std::ops::Bound;

/// A sorted table of entries in memory: by rising key, and under one key by falling sequence number, of which
/// each stands once. It takes any sequence number, and any key and value.
///
/// The entries stand in blocks of at most 64. `get` and `insert` are logarithmic, and `insert` moves at most 64
/// of the entries that are there. Keys and values of up to 1,024 bytes together are copied into chunks of 1 to 64 KiB; an
/// entry that is copied out shares its chunk, which stays in memory as long as one of its entries does.
///
/// # Examples
///
/// ```text
/// let mut memtable = Memtable::new(alloc, 0);
/// let (bytes, size) = memtable.insert(entry)?;
/// let newest = memtable.get(b"key", snapshot);
/// ```
#[derive(Drop)]
pub struct Memtable {
    id: MemtableId,
    alloc: Global,
    content: Content,
    flagged: bool,
}

/// The entries, how many there are, the sizes of all accepted inserts, the greatest sequence number, and the rest of
/// the chunk that the next entry's bytes go to, which holds none between two inserts.
#[derive(Drop)]
struct Content {
    blocks: VecDeque<Block>,
    count: usize,
    size: u64,
    highest: Option<SeqNo>,
    arena: BytesMut,
}

impl Model for Memtable {
    ghost use Rattle.std.specs.Prelude.{◌≡◌};
    ghost use Rattle.lsm_memtable.specs.Memtables.{SeenMemtable};
    ghost use Rattle.lsm_memtable.specs.Contents.{entries_of, IsContent};

    ghost Value = { SeenMemtable };

    ghost view = { λ t. record { id = t.id; entries = entries_of t.content; size = t.content.size; flagged = t.flagged } };

    ghost invariant = { λ t. IsContent t.content };
}

/// The bytes that an entry counts: those of its key and value, and 48.
fn size_of_entry(entry: &InternalValue) -> u64
    ensures { result ≡ entry_size entry.now }
{
    (entry.key.user_key.len() as u64)
        .saturating_add(entry.value.len() as u64)
        .saturating_add(ENTRY_OVERHEAD)
}

/// How many entries there are after a put: one more, or as many where an entry was replaced.
fn count_after(count: usize, more: usize, replaced: &Option<InternalValue>) -> usize
    ensures { MatchOption replaced.now (result ≡ more) (λ _. result ≡ count) }
{
    match replaced {
        None => more,
        Some(_) => count,
    }
}

/// The entry, its bytes in the chunk that entries share.
fn house(content: &mut Content, alloc: Global, entry: InternalValue) -> InternalValue
    requires { IsContent content.old }
    ensures same { result ≡ entry }
    ensures stays { content_of content.new ≡ content_of content.old }
    ensures blocks { content.new.blocks ≡ content.old.blocks }
    ensures sound { IsContent content.new }
{
    housed(&mut content.arena, alloc, entry, content.size)
}

/// Puts an entry in its place, with the bytes that it has, and returns the one that it replaces. Refused only for want of
/// memory, also where there are 2^64 - 1 entries, and then nothing changes.
fn add_entry(
    content: &mut Content,
    alloc: Global,
    entry: InternalValue,
    steps: &mut Steps,
) -> Result<Option<InternalValue>, AllocError>
    requires { IsContent content.old }
    ensures ok { OnOk result (content_of content.new ≡ added entry (content_of content.old)) }
    ensures undo { IfOk result (λ replaced. Undoes (undo_of entry.key replaced) (entries_of content.old) (entries_of content.new)) }
    ensures err { OnErr result (content_of content.new ≡ content_of content.old) }
    ensures sound { IsContent content.new }
    ensures compared { CountsDigits (length content.old.blocks.items) 8 steps.old.compared steps.new.compared }
    ensures moved { steps.new.moved ≤ steps.old.moved + 64 }
    ensures unmoved { OnErr result (steps.new.moved ≡ steps.old.moved) }
{
    let Some(more) = content.count.checked_add(1) else {
        return Err(AllocError);
    };
    slices_hold_bytes(entry.key.user_key.as_slice());
    let size = content.size.saturating_add(size_of_entry(&entry));
    let highest = content.highest.unwrap_or(0).max(entry.key.seqno);
    let replaced = put_entry(&mut content.blocks, alloc, entry, steps)?;
    content.count = count_after(content.count, more, &replaced);
    content.size = size;
    content.highest = Some(highest);
    Ok(replaced)
}

/// Puts an entry in its place, and notes how that is taken back. There is room for the note.
/// Refused only for want of memory, and then nothing changes.
fn add_noted(
    content: &mut Content,
    alloc: Global,
    entry: InternalValue,
    log: &mut Vec<Undo>,
) -> Result<(), AllocError>
    requires sound { IsContent content.old }
    requires room { vec_len log.old < vec_capacity log.old }
    ensures ok { OnOk result (content_of content.new ≡ added entry (content_of content.old)) }
    ensures err { OnErr result (content_of content.new ≡ content_of content.old) }
    ensures sound { IsContent content.new }
    ensures noted { (before : List InternalValue) → AreUndone log.old.items before (entries_of content.old) → AreUndone log.new.items before (entries_of content.new) }
    ensures len { vec_len log.new ≤ vec_len log.old + 1 }
    ensures capacity { vec_capacity log.old ≤ vec_capacity log.new }
{
    let entry = house(content, alloc, entry);
    let key = entry.key.copy()?;
    let replaced = add_entry(content, alloc, entry, &mut Steps::new())?;
    log.push(Undo { key, replaced }).unwrap();
    Ok(())
}

/// Puts each entry in its place, in turn, and notes how that is taken back. There is room for the notes.
/// Refused only for want of memory.
fn add_entries(
    content: &mut Content,
    alloc: Global,
    batch: Vec<InternalValue>,
    log: &mut Vec<Undo>,
) -> Result<(), AllocError>
    requires sound { IsContent content.old }
    requires room { vec_len log.old + vec_len batch ≤ vec_capacity log.old }
    ensures ok { OnOk result (content_of content.new ≡ all_added batch.items (content_of content.old)) }
    ensures sound { IsContent content.new }
    ensures noted { (before : List InternalValue) → AreUndone log.old.items before (entries_of content.old) → AreUndone log.new.items before (entries_of content.new) }
{
    for entry in batch {
        add_noted(content, alloc, entry, log)?;
    }
    Ok(())
}

/// What takes a batch back that was put into a memtable.
#[derive(Drop)]
pub struct Revocable {
    log: Vec<Undo>,
    count: usize,
    size: u64,
    highest: Option<SeqNo>,
}

/// What takes back the puts that are made from now on, with room to note so many. Refused only for want of memory.
fn begin_batch(content: &Content, alloc: Global, room: usize) -> Result<Revocable, AllocError>
    requires { IsContent content.now }
    ensures reverts { IfOk result (λ r. Reverts r (entries_of content.now) content.now.size (entries_of content.now)) }
    ensures room { IfOk result (λ r. vec_len r.log + room ≤ vec_capacity r.log) }
{
    Ok(Revocable {
        log: Vec::with_capacity(alloc, room)?,
        count: content.count,
        size: content.size,
        highest: content.highest,
    })
}

/// Takes a batch back.
fn revert(content: &mut Content, batch: Revocable)
    requires sound { IsContent content.old }
    requires made { (before : List Entry) × (total : ℕ) × Reverts batch before total (entries_of content.old) }
    ensures same { (before : List Entry) (total : ℕ) → Reverts batch before total (entries_of content.old) → content_of content.new ≡ record { entries = before; size = total; highest = highest_of before } }
    ensures sound { IsContent content.new }
{
    take_all_back(&mut content.blocks, batch.log);
    content.count = batch.count;
    content.size = batch.size;
    content.highest = batch.highest;
}

impl Memtable {
    /// An empty memtable.
    pub fn new(alloc: Global, id: MemtableId) -> Memtable
        ensures { result ≡ new_memtable id }
    {
        Memtable {
            id,
            alloc,
            content: Content {
                blocks: VecDeque::new(alloc),
                count: 0,
                size: 0,
                highest: None,
                arena: BytesMut::new(alloc),
            },
            flagged: false,
        }
    }

    /// What every memtable meets: its entries stand in order.
    pub fn facts(&self)
        ensures { Rises entry_cmp self.now.entries }
    {
        let _ = &self.id;
    }

    /// The memtable's id.
    pub fn id(&self) -> MemtableId
        ensures { result ≡ self.now.id }
    {
        self.id
    }

    /// The entry of a key with the greatest sequence number below the snapshot. None only where there is none.
    pub fn get(&self, key: &[u8], snapshot: SeqNo) -> Option<&InternalValue>
        ensures is { option_copied result ≡ top key.now snapshot self.now.entries }
        ensures greatest { IfSome result (λ e. IsTop self.now.entries key.now snapshot e.now) }
        ensures none { IfNone result (HasNone self.now.entries key.now snapshot) }
    {
        self.get_counted(key, snapshot, &mut Steps::new())
    }

    /// `get`, with a count of its steps: it tells in how many blocks, of 1 to 64 entries each, the entries stand, and counts at
    /// most as many comparisons of keys as that number has binary digits, and 8 more.
    pub fn get_counted(
        &self,
        key: &[u8],
        snapshot: SeqNo,
        steps: &mut Steps,
    ) -> Option<&InternalValue>
        ensures is { option_copied result ≡ top key.now snapshot self.now.entries }
        ensures greatest { IfSome result (λ e. IsTop self.now.entries key.now snapshot e.now) }
        ensures none { IfNone result (HasNone self.now.entries key.now snapshot) }
        ensures blocks { AreSoManyBlocks self.now.entries steps.new.blocks }
        ensures compared { CountsDigits steps.new.blocks 8 steps.old.compared steps.new.compared }
        ensures moved { steps.new.moved ≡ steps.old.moved }
    {
        entries_are_parted();
        first_visible_is_top();
        let found = first_visible(&self.content.blocks, key, snapshot, steps);
        steps.blocks = self.content.blocks.len() as u64;
        found
    }

    /// The entries in order.
    pub fn iter(&self) -> Iter<'_>
        ensures { result ≡ self.now.entries }
    {
        whole(&self.content.blocks)
    }

    /// The entries in order, as a part that may be cut.
    pub fn span(&self) -> Span<'_>
        ensures { result ≡ self.now.entries }
    {
        span_of(&self.content.blocks)
    }

    /// The entries in the bounds, in order. There is none where the lower bound is above the upper one.
    pub fn range(&self, bounds: &(Bound<UserKey>, Bound<UserKey>)) -> Iter<'_>
        ensures { result ≡ within bounds.now.0 bounds.now.1 self.now.entries }
    {
        blocks_within(&self.content.blocks, &bounds.0, &bounds.1)
    }

    /// The bytes of all accepted inserts, replaced ones counted again, up to 2^64 - 1.
    /// An entry counts its key's and its value's bytes, and 48.
    pub fn size(&self) -> u64
        ensures { result ≡ self.now.size }
    {
        self.content.size
    }

    /// How many entries there are.
    pub fn len(&self) -> usize
        ensures { result ≡ length self.now.entries }
    {
        self.content.count
    }

    /// Whether there is none.
    pub fn is_empty(&self) -> bool
        ensures { IsTrue result ↔ (self.now.entries ≡ []) }
    {
        self.content.count == 0
    }

    /// The greatest sequence number, None where there is no entry.
    pub fn get_highest_seqno(&self) -> Option<SeqNo>
        ensures { result ≡ highest_of self.now.entries }
    {
        self.content.highest
    }

    /// Whether `flag_rotated` was called.
    pub fn is_flagged_for_rotation(&self) -> bool
        ensures { result ≡ self.now.flagged }
    {
        self.flagged
    }

    /// Notes that the memtable is to be rotated.
    pub fn flag_rotated(&mut self)
        ensures { self.new ≡ record self.old { flagged = true } }
    {
        self.flagged = true;
    }

    /// Puts an entry in its place, over one of the same key and sequence number, its type too.
    /// Returns the bytes that it counts, and those of all inserts so far.
    /// Refused only for want of memory, and then nothing changes.
    pub fn insert(&mut self, item: InternalValue) -> Result<(u64, u64), Error>
        ensures sizes { IfOk result (λ r. (r.0 ≡ entry_size item) × (r.1 ≡ self.new.size)) }
        ensures ok { OnOk result (self.new ≡ with_entry item self.old) }
        ensures id { self.new.id ≡ self.old.id }
        ensures err { OnErr result (self.new ≡ self.old) }
        ensures memory { IfErr result (λ e. e ≡ Error.OutOfMemory) }
    {
        self.insert_counted(item, &mut Steps::new())
    }

    /// `insert`, with a count of its steps: it tells in how many blocks the entries stood, compares at most as many keys as
    /// `get_counted`, and moves at most 64 entries that were there, also where a block grows or is split; a refused one moves
    /// none.
    pub fn insert_counted(
        &mut self,
        item: InternalValue,
        steps: &mut Steps,
    ) -> Result<(u64, u64), Error>
        ensures sizes { IfOk result (λ r. (r.0 ≡ entry_size item) × (r.1 ≡ self.new.size)) }
        ensures ok { OnOk result (self.new ≡ with_entry item self.old) }
        ensures id { self.new.id ≡ self.old.id }
        ensures err { OnErr result (self.new ≡ self.old) }
        ensures memory { IfErr result (λ e. e ≡ Error.OutOfMemory) }
        ensures blocks { AreSoManyBlocks self.old.entries steps.new.blocks }
        ensures compared { CountsDigits steps.new.blocks 8 steps.old.compared steps.new.compared }
        ensures moved { steps.new.moved ≤ steps.old.moved + 64 }
        ensures unmoved { OnErr result (steps.new.moved ≡ steps.old.moved) }
    {
        let item = self.house(item);
        let added = size_of_entry(&item);
        let blocks = self.content.blocks.len() as u64;
        let put = add_entry(&mut self.content, self.alloc, item, steps);
        steps.blocks = blocks;
        put?;
        Ok((added, self.content.size))
    }

    /// The entry with its bytes where `insert` puts them: a key and value of up to 1,024 bytes together are copied into a
    /// chunk. Copies that are made of it before `insert_housed` puts it share these bytes with the memtable. The entries
    /// stay; an entry that is not put takes its place in the chunk all the same.
    pub fn house(&mut self, item: InternalValue) -> InternalValue
        ensures same { result ≡ item }
        ensures stays { self.new ≡ self.old }
    {
        house(&mut self.content, self.alloc, item)
    }

    /// `insert`, of an entry that `house` gave: its bytes are copied no more.
    pub fn insert_housed(&mut self, item: InternalValue) -> Result<(u64, u64), Error>
        ensures sizes { IfOk result (λ r. (r.0 ≡ entry_size item) × (r.1 ≡ self.new.size)) }
        ensures ok { OnOk result (self.new ≡ with_entry item self.old) }
        ensures id { self.new.id ≡ self.old.id }
        ensures err { OnErr result (self.new ≡ self.old) }
        ensures memory { IfErr result (λ e. e ≡ Error.OutOfMemory) }
    {
        let added = size_of_entry(&item);
        add_entry(&mut self.content, self.alloc, item, &mut Steps::new())?;
        Ok((added, self.content.size))
    }

    /// Puts each entry of a batch in its place, in turn, over one of the same key and sequence number.
    /// Refused only for want of memory, and then nothing changes.
    pub fn insert_all(&mut self, batch: Vec<InternalValue>) -> Result<(), Error>
        ensures ok { OnOk result (self.new ≡ with_entries batch.items self.old) }
        ensures id { self.new.id ≡ self.old.id }
        ensures err { OnErr result (self.new ≡ self.old) }
        ensures memory { IfErr result (λ e. e ≡ Error.OutOfMemory) }
    {
        drop(self.insert_all_revocably(batch)?);
        Ok(())
    }

    /// `insert_all`, and answers what takes the batch back, as long as nothing else is done to the memtable.
    /// Refused only for want of memory, and then nothing changes.
    pub fn insert_all_revocably(&mut self, batch: Vec<InternalValue>) -> Result<Revocable, Error>
        ensures ok { OnOk result (self.new ≡ with_entries batch.items self.old) }
        ensures revocable { IfOk result (λ r. TakesBack r self.old self.new) }
        ensures id { self.new.id ≡ self.old.id }
        ensures err { OnErr result (self.new ≡ self.old) }
        ensures memory { IfErr result (λ e. e ≡ Error.OutOfMemory) }
    {
        let mut revocable = begin_batch(&self.content, self.alloc, batch.len())?;
        let log = &mut revocable.log;
        if let Err(error) = add_entries(&mut self.content, self.alloc, batch, log) {
            revert(&mut self.content, revocable);
            return Err(error.into());
        }
        Ok(revocable)
    }

    /// `insert_all_revocably`, of one entry, which needs no list.
    pub fn insert_revocably(&mut self, item: InternalValue) -> Result<Revocable, Error>
        ensures ok { OnOk result (self.new ≡ with_entries (item ∷ []) self.old) }
        ensures revocable { IfOk result (λ r. TakesBack r self.old self.new) }
        ensures id { self.new.id ≡ self.old.id }
        ensures err { OnErr result (self.new ≡ self.old) }
        ensures memory { IfErr result (λ e. e ≡ Error.OutOfMemory) }
    {
        let mut revocable = begin_batch(&self.content, self.alloc, 1)?;
        add_noted(&mut self.content, self.alloc, item, &mut revocable.log)?;
        Ok(revocable)
    }

    /// Takes a batch back: the memtable is as it was. It takes no memory.
    pub fn take_back(&mut self, batch: Revocable)
        requires { (before : SeenMemtable) × TakesBack batch before self.old }
        ensures { (before : SeenMemtable) → TakesBack batch before self.old → self.new ≡ before }
    {
        revert(&mut self.content, batch);
    }
}
