// What a compaction keeps of memtables.
ghost use Rattle.std.specs.Prelude.{◌≡◌, ◌↔◌, map, false, IsTrue, IfOk, IfErr};
ghost use Rattle.lsm_below.specs.Slots.{rest_of};
ghost use Rattle.lsm_below.specs.Kept.{HidesNone};
ghost use Rattle.lsm_tables.specs.Cutting.{IsWritable};
ghost use Rattle.lsm_flush.specs.Jobs.{entries_in, first_source, kept_in, KeptOf, AreWritable};

use crate::{MemtableSource, SealedMemtable};
use lsm_below::{AsEntry, Error, InternalValue, SeqNo, Source, all_is_kept, compact, has_same_key};
use lsm_memtable::{Iter, Memtable};
use lsm_tables::{Parts, kept_is_writable};
use std::alloc::{AllocError, Global};

/// What is kept of memtables.
#[derive(Drop)]
pub(crate) enum Kept {
    /// All entries of the only one: they stay where they stand.
    Whole,
    /// These. They share keys and values with the memtables.
    Listed(Vec<InternalValue>),
}

/// What a source gives: copies, which share keys and values. Refused where the source is, or for want of memory.
fn take_all<S: Source<Error = Error>>(
    alloc: Global,
    mut source: S,
) -> Result<Vec<InternalValue>, Error>
    requires { (e : Error) → S.may_refuse e → e ≡ Error.OutOfMemory }
    ensures ok { IfOk result (λ list. list.items ≡ (S.rest source).entries) }
    ensures memory { IfErr result (λ e. e ≡ Error.OutOfMemory) }
{
    let mut list = Vec::new(alloc);
    loop {
        match source.next_entry() {
            None => return Ok(list),
            Some(Err(error)) => return Err(error),
            Some(Ok(entry)) => list.push(entry.as_entry().copy()?)?,
        }
    }
}

/// Memtables as sources.
fn sources_of<'a>(
    alloc: Global,
    memtables: &'a [SealedMemtable],
) -> Result<Vec<MemtableSource<'a>>, AllocError>
    ensures { IfOk result (λ sources. map (λ s. rest_of s.over s.entries) sources.items ≡ map (λ es. rest_of false es) (entries_in memtables.now)) }
{
    let mut sources = Vec::with_capacity(alloc, memtables.len())?;
    for memtable in memtables {
        sources.push(MemtableSource {
            entries: memtable.as_memtable().iter(),
            over: false,
        })?;
    }
    Ok(sources)
}

/// What a compaction at a watermark keeps of memtables from the newest, whose entries fit files: it may be written.
/// Keys and values are shared. The cost is linear in the entries, and logarithmic in the memtables for each.
///
/// # Errors
///
/// Refused only for want of memory.
pub fn merge_memtables(
    alloc: Global,
    memtables: &[SealedMemtable],
    watermark: SeqNo,
) -> Result<Vec<InternalValue>, Error>
    requires { AreWritable memtables.now }
    ensures kept { IfOk result (λ list. KeptOf (entries_in memtables.now) watermark list.items) }
    ensures writable { IfOk result (λ list. IsWritable list.items) }
    ensures memory { IfErr result (λ e. e ≡ Error.OutOfMemory) }
{
    kept_is_writable();
    let sources = sources_of(alloc, memtables)?;
    let stream = compact(alloc, sources, watermark, false)?;
    take_all(alloc, stream)
}

/// Whether no entry is hidden by the one before it, of the same key. Keys are compared only below the watermark, so at 0
/// nothing is looked at.
fn hides_none(watermark: SeqNo, entries: Iter<'_>) -> bool
    ensures { IsTrue result ↔ HidesNone watermark entries.entry }
{
    if watermark == 0 {
        return true;
    }
    let mut rest = entries;
    let Some(first) = rest.next() else {
        return true;
    };
    let mut last = first;
    while let Some(entry) = rest.next() {
        if entry.key.seqno < watermark && has_same_key(last, entry) {
            return false;
        }
        last = entry;
    }
    true
}

/// Whether there is one memtable, of which a compaction at the watermark keeps all.
fn is_whole(memtables: &[SealedMemtable], watermark: SeqNo) -> bool
    ensures { IsTrue result → KeptOf (entries_in memtables.now) watermark (first_source (entries_in memtables.now)) }
{
    all_is_kept();
    if memtables.len() != 1 {
        return false;
    }
    memtables[0].facts();
    hides_none(watermark, memtables[0].as_memtable().iter())
}

/// What a compaction at a watermark keeps of memtables from the newest, whose entries fit files. Of one memtable of which
/// it keeps all no entry is shared.
///
/// # Errors
///
/// Refused only for want of memory.
pub(crate) fn merge_unless_whole(
    alloc: Global,
    memtables: &[SealedMemtable],
    watermark: SeqNo,
) -> Result<Kept, Error>
    requires { AreWritable memtables.now }
    ensures kept { IfOk result (λ kept. KeptOf (entries_in memtables.now) watermark (kept_in (entries_in memtables.now) kept)) }
    ensures writable { IfOk result (λ kept. IsWritable (kept_in (entries_in memtables.now) kept)) }
    ensures memory { IfErr result (λ e. e ≡ Error.OutOfMemory) }
{
    if is_whole(memtables, watermark) {
        return Ok(Kept::Whole);
    }
    Ok(Kept::Listed(merge_memtables(alloc, memtables, watermark)?))
}

/// The entries of a memtable, block by block.
fn parts_of(alloc: Global, memtable: &Memtable) -> Result<Parts<'_>, AllocError>
    ensures { IfOk result (λ parts. parts ≡ memtable.now.entries) }
{
    let mut parts = Parts::new(alloc);
    let mut rest = memtable.iter();
    while let Some(block) = rest.next_block() {
        parts.push(block)?;
    }
    Ok(parts)
}

/// What is kept of memtables, where it stands.
pub(crate) fn parts_kept<'a>(
    alloc: Global,
    memtables: &'a [SealedMemtable],
    kept: &'a Kept,
) -> Result<Parts<'a>, AllocError>
    ensures { IfOk result (λ parts. parts ≡ kept_in (entries_in memtables.now) kept.now) }
{
    if let Kept::Listed(entries) = kept {
        let mut parts = Parts::new(alloc);
        parts.push(entries)?;
        return Ok(parts);
    }
    match memtables.first() {
        None => Ok(Parts::new(alloc)),
        Some(memtable) => parts_of(alloc, memtable.as_memtable()),
    }
}
