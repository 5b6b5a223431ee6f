// Streams of entries: what a merger gives, the first entry of each key, and what a compaction keeps.
//
// What owns a stream hands it on, or asks it and has no `?` after: a deep value that is dropped is long to prove.

ghost use Rattle.std.specs.Prelude.{◌≡◌, false, IfOk};
ghost use Rattle.std.specs.Iterator.{IsFinite};
ghost use Rattle.lsm_below.specs.Streams.{IsInOrder};

use crate::samples::{T, V, W, entry};
use lsm_below::{
    AsEntry, CompactionStream, InternalValue, ListSource, Merger, MvccStream, SeqNo, Source,
    ValueType, compact,
};
use std::alloc::{AllocError, Global};
use std::test::Fail;

fn fill(
    source: &mut ListSource,
    key: &'static [u8],
    rows: &[(SeqNo, ValueType)],
) -> Result<(), AllocError> {
    for row in rows.iter().rev() {
        source.add_front(entry(key, row.0, row.1))?;
    }
    Ok(())
}

/// The entries of one key, the newest first.
fn list(
    alloc: Global,
    key: &'static [u8],
    rows: &[(SeqNo, ValueType)],
) -> Result<ListSource, AllocError> {
    let mut source = ListSource::new(alloc);
    match fill(&mut source, key, rows) {
        Ok(()) => Ok(source),
        Err(error) => Err(error),
    }
}

fn one(alloc: Global, source: ListSource) -> Result<Vec<ListSource>, AllocError> {
    Ok(vec![in alloc; source]?)
}

fn two(
    alloc: Global,
    first: ListSource,
    second: ListSource,
) -> Result<Vec<ListSource>, AllocError> {
    Ok(vec![in alloc; first, second]?)
}

/// A merger of one list, of the key a.
fn merged_one(alloc: Global, rows: &[(SeqNo, ValueType)]) -> Result<Merger<ListSource>, AllocError>
    ensures { IfOk result (λ m. IsInOrder m.entries) }
{
    Merger::new(alloc, one(alloc, list(alloc, b"a", rows)?)?)
}

fn merged_two(
    alloc: Global,
    first: ListSource,
    second: ListSource,
) -> Result<Merger<ListSource>, AllocError>
    ensures { IfOk result (λ m. IsInOrder m.entries) }
{
    Merger::new(alloc, two(alloc, first, second)?)
}

/// Whether the next entry is there and has this sequence number.
fn gives_next<S: Source>(source: &mut S, number: SeqNo) -> bool {
    match source.next_entry() {
        Some(Ok(entry)) => entry.as_entry().key.seqno == number,
        Some(Err(_)) | None => false,
    }
}

/// Whether a stream has ended, also when it is asked again.
fn is_over<S: Source>(source: &mut S) -> bool {
    source.next_entry().is_none() && source.next_entry().is_none()
}

/// Whether a stream gives the entries of just these sequence numbers, and then nothing, however often it is asked.
fn gives<S: Source>(mut source: S, numbers: &[SeqNo]) -> bool {
    for number in numbers {
        if !gives_next(&mut source, *number) {
            return false;
        }
    }
    is_over(&mut source)
}

/// What a compaction keeps of one key's entries.
fn kept(
    alloc: Global,
    entries: &[(SeqNo, ValueType)],
    watermark: SeqNo,
) -> Result<CompactionStream<Merger<ListSource>>, AllocError>
    ensures in_order { IfOk result (λ s. IsInOrder s.input) }
    ensures open { IfOk result (λ s. s.over ≡ false) }
{
    Ok(CompactionStream::new(merged_one(alloc, entries)?, watermark))
}

#[test]
fn rows_of_the_table(rt: HostRuntime) -> Result<(), Fail> {
    let alloc = rt.alloc();
    assert!(rt; gives(kept(alloc, &[(5, V), (3, V)], 4)?, &[5]));
    assert!(rt; gives(kept(alloc, &[(5, V), (3, V)], 3)?, &[5, 3]));
    assert!(rt; gives(kept(alloc, &[(5, T)], 0)?, &[5]));
    assert!(rt; gives(kept(alloc, &[(5, T), (3, V)], 4)?, &[5]));
    assert!(rt; gives(kept(alloc, &[(5, W), (3, V)], 4)?, &[]));
    Ok(())
}

/// The same where tombstones are evicted.
fn kept_evicting(
    alloc: Global,
    entries: &[(SeqNo, ValueType)],
    watermark: SeqNo,
) -> Result<CompactionStream<Merger<ListSource>>, AllocError> {
    Ok(kept(alloc, entries, watermark)?.evict_tombstones(true))
}

#[test]
fn rows_with_eviction(rt: HostRuntime) -> Result<(), Fail> {
    let alloc = rt.alloc();
    assert!(rt; gives(kept_evicting(alloc, &[(5, T)], 0)?, &[]));
    assert!(rt; gives(kept_evicting(alloc, &[(5, T), (3, V)], 4)?, &[]));
    assert!(rt; gives(kept_evicting(alloc, &[(5, W), (3, T)], 4)?, &[5]));
    assert!(rt; gives(kept_evicting(alloc, &[(9, V), (5, T), (3, V)], 4)?, &[9]));
    Ok(())
}

#[test]
fn two_sources_are_merged(rt: HostRuntime) -> Result<(), Fail> {
    let alloc = rt.alloc();
    let first = list(alloc, b"a", &[(7, V), (4, V), (1, V)])?;
    let second = list(alloc, b"a", &[(6, V), (4, T), (2, V)])?;
    assert!(rt; gives(merged_two(alloc, first, second)?, &[7, 6, 4, 4, 2, 1]));
    Ok(())
}

#[test]
fn first_of_each_key(rt: HostRuntime) -> Result<(), Fail> {
    let alloc = rt.alloc();
    let first = list(alloc, b"b", &[(7, V), (4, V)])?;
    let second = list(alloc, b"a", &[(6, V), (2, V)])?;
    assert!(rt; gives(MvccStream::new(merged_two(alloc, first, second)?), &[6, 7]));
    Ok(())
}

/// A source whose only entry is refused, for a reason with the number 7.
#[derive(Drop)]
struct Refusing {
    over: bool,
}

impl Source for Refusing {
    type Item = InternalValue;

    type Error = u8;

    ghost rest = { λ s. record { entries = []; over = s.over } };

    ghost may_refuse = { λ reason. reason ≡ 7 };

    ghost use Rattle.std.specs.Prelude.{[]};

    fn next_entry(&mut self) -> Option<Result<InternalValue, u8>> {
        if self.over {
            return None;
        }
        self.over = true;
        Some(Err(7))
    }
}

fn merge_refused(alloc: Global) -> Result<Merger<Refusing>, AllocError>
    ensures { IfOk result (λ m. IsInOrder m.entries) }
{
    Merger::new(alloc, vec![in alloc; Refusing { over: false }]?)
}

fn refuses_next<S: Source<Error = u8>>(source: &mut S) -> bool {
    matches!(source.next_entry(), Some(Err(7)))
}

/// Whether a stream gives that refusal first, and nothing after it, however often it is asked.
fn refuses_once<S: Source<Error = u8>>(mut source: S) -> bool {
    refuses_next(&mut source) && is_over(&mut source)
}

#[test]
fn a_refusal_ends_the_stream(rt: HostRuntime) -> Result<(), Fail> {
    let alloc = rt.alloc();
    assert!(rt; refuses_once(merge_refused(alloc)?));
    assert!(rt; refuses_once(MvccStream::new(merge_refused(alloc)?)));
    assert!(rt; refuses_once(CompactionStream::new(merge_refused(alloc)?, 0)));
    Ok(())
}

const ROWS: [(SeqNo, ValueType); 3] = [(7, V), (4, T), (2, V)];

/// The number of the last entry.
fn last_of<I: Iterator<Item = Result<InternalValue, AllocError>>>(
    stream: I,
) -> Result<Option<SeqNo>, AllocError>
    requires { I.can_next stream × IsFinite (I.remaining stream) }
{
    let mut last = None;
    for item in stream {
        last = Some(item?.key.seqno);
    }
    Ok(last)
}

#[test]
fn streams_are_iterators(rt: HostRuntime) -> Result<(), Fail> {
    let alloc = rt.alloc();
    assert!(rt; last_of(merged_one(alloc, &ROWS)?)? == Some(2));
    assert!(rt; last_of(MvccStream::new(merged_one(alloc, &ROWS)?))? == Some(7));
    Ok(())
}

fn compacted(alloc: Global) -> Result<CompactionStream<Merger<ListSource>>, AllocError> {
    compact(alloc, one(alloc, list(alloc, b"a", &ROWS)?)?, 3, false)
}

#[test]
fn a_compaction_is_an_iterator(rt: HostRuntime) -> Result<(), Fail> {
    assert!(rt; last_of(compacted(rt.alloc())?)? == Some(4));
    Ok(())
}
