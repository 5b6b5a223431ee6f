// What a compaction keeps.

ghost use Rattle.std.specs.Prelude.{IfErr, ◌≡◌, ◌≤◌, [], ◌∷◌, ◌++◌, length, false, IfOk, MatchOption, List, flat_map, map, option_map};
ghost use Rattle.std.specs.List.{All};
ghost use Rattle.std.specs.List.Sorted.{IsPermutation};
ghost use Rattle.lsm_below.specs.declared.value.InternalValue.{InternalValue};
ghost use Rattle.lsm_below.specs.Keys.{Bytes};
ghost use Rattle.lsm_below.specs.Entries.{IsFalling, IsOrdered, stack, keep};
ghost use Rattle.lsm_below.specs.Streams.{Gives, RefusesOnly, IsInOrder, IsByKey, KeepsOfMerge, keep_distinct, goes_alone, goes_with, unless};
ghost use Rattle.lsm_below.specs.Slots.{all_of, compacted, left_of, calls_left};

use crate::merger::Merger;
use crate::source::{AsEntry, Source, next_past, take_next};
use crate::{SeqNo, ValueType};
use std::alloc::{AllocError, Global};
use std::marker::Model;

/// What a compaction keeps of its source: of each key the entries that a snapshot at or above the watermark may read.
///
/// The keys stay in order. No more than two entries are held, and none is copied.
///
/// ```text
/// for kept in compact(alloc, sources, watermark, true)? { .. }
/// ```
#[derive(Drop)]
pub struct CompactionStream<S: Source> {
    pending: Option<S::Item>,
    source: S,
    watermark: SeqNo,
    evict: bool,
    over: bool,
}

impl<S: Source> Model for CompactionStream<S> {
    ghost use Rattle.std.specs.Prelude.{option_map};
    ghost use Rattle.lsm_below.specs.Streams.{Compacting};
    ghost use Rattle.lsm_below.specs.Slots.{all_of};

    ghost Value = { Compacting };

    ghost view = { λ m. record { input = all_of (option_map S.Item.shows m.pending) (S.rest m.source).entries; watermark = m.watermark; evict = m.evict; over = m.over } };
}

/// Whether an entry is dropped that has no older one of its key after it.
fn drops_alone<I: AsEntry>(entry: &I, evict: bool) -> bool
    ensures { result ≡ goes_alone evict (I.shows entry.now) }
{
    evict
        && match entry.as_entry().key.value_type {
            ValueType::Value => false,
            ValueType::Tombstone | ValueType::WeakTombstone => true,
        }
}

/// Whether an entry is dropped, where the next one of its key is below the watermark.
fn drops_with<I: AsEntry>(entry: &I, below: &I, evict: bool) -> bool
    ensures { result ≡ goes_with evict (I.shows entry.now) (I.shows below.now) }
{
    match (
        entry.as_entry().key.value_type,
        below.as_entry().key.value_type,
    ) {
        (ValueType::Tombstone, _) => evict,
        (ValueType::WeakTombstone, ValueType::Value) => true,
        _ => false,
    }
}

/// Whether the entry is dropped, and what comes after it.
fn judge<S: Source>(
    source: &mut S,
    entry: &S::Item,
    watermark: SeqNo,
    evict: bool,
) -> Result<(bool, Option<S::Item>), S::Error>
    ensures cause { IfErr result S.may_refuse }
    ensures kept { IfOk result
        (λ r. compacted watermark evict (S.Item.shows entry.now ∷ (S.rest source.old).entries) ≡ unless r.0 (S.Item.shows entry.now) ++ compacted watermark evict (all_of (option_map S.Item.shows r.1) (S.rest source.new).entries)) }
    ensures shorter { IfOk result
        (λ r. length (all_of (option_map S.Item.shows r.1) (S.rest source.new).entries) ≤ length (S.rest source.old).entries) }
{
    match next_past(source, true, entry)? {
        None => Ok((drops_alone(entry, evict), None)),
        Some(below) => {
            if !entry.has_same_key(&below) {
                Ok((drops_alone(entry, evict), Some(below)))
            } else if below.as_entry().key.seqno < watermark {
                let next = next_past(source, false, &below)?;
                Ok((drops_with(entry, &below, evict), next))
            } else {
                Ok((false, Some(below)))
            }
        }
    }
}

/// The next entry that is kept.
fn next_kept<S: Source>(
    pending: &mut Option<S::Item>,
    source: &mut S,
    watermark: SeqNo,
    evict: bool,
) -> Option<Result<S::Item, S::Error>>
    ensures cause { RefusesOnly S.may_refuse result }
    ensures entry { MatchOption result
        (compacted watermark evict (all_of (option_map S.Item.shows pending.old) (S.rest source.old).entries) ≡ [])
        (λ r. IfOk r (λ e. compacted watermark evict (all_of (option_map S.Item.shows pending.old) (S.rest source.old).entries) ≡ S.Item.shows e ∷ compacted watermark evict (all_of (option_map S.Item.shows pending.new) (S.rest source.new).entries))) }
{
    loop {
        let entry = match take_next(pending, source) {
            Some(Ok(entry)) => entry,
            Some(Err(error)) => return Some(Err(error)),
            None => return None,
        };
        match judge(source, &entry, watermark, evict) {
            Ok((goes, next)) => {
                *pending = next;
                if !goes {
                    return Some(Ok(entry));
                }
            }
            Err(error) => return Some(Err(error)),
        }
    }
}

impl<S: Source> CompactionStream<S> {
    /// What is kept of a source in order. Tombstones are not evicted, unless that is asked for.
    pub fn new(source: S, watermark: SeqNo) -> CompactionStream<S>
        requires { IsInOrder (S.rest source).entries }
        ensures settings { result ≡ record { input = (S.rest source).entries; watermark = watermark; evict = false; over = false } }
        ensures kept { IsByKey (keep_distinct watermark false) (S.rest source).entries (left_of result).entries }
    {
        CompactionStream {
            pending: None,
            source,
            watermark,
            evict: false,
            over: false,
        }
    }

    /// Whether tombstones are evicted that hide nothing more: right where nothing older is outside the source.
    pub fn evict_tombstones(self, evict: bool) -> CompactionStream<S>
        requires in_order { IsInOrder self.input }
        requires open { self.over ≡ false }
        ensures settings { result ≡ record self { evict = evict } }
        ensures kept { IsByKey (keep_distinct self.watermark evict) self.input (left_of result).entries }
    {
        let CompactionStream {
            pending,
            source,
            watermark,
            evict: _,
            over,
        } = self;
        CompactionStream {
            pending,
            source,
            watermark,
            evict,
            over,
        }
    }
}

/// What a compaction keeps of several sources, each in order.
///
/// Whatever the sequence numbers are, it is what is kept of some merge of all entries. Where of each key those in an
/// earlier source are above those in a later one, and fall within each, it is what is kept of the key's entries in
/// all sources, source by source; and whatever the order of the sources, where the entries of a key can be put into
/// one order in which their sequence numbers fall, it is what is kept of them in that order.
///
/// # Errors
///
/// Refused only for want of memory.
pub fn compact<S: Source>(
    alloc: Global,
    sources: Vec<S>,
    watermark: SeqNo,
    evict: bool,
) -> Result<CompactionStream<Merger<S>>, AllocError>
    requires { All (λ s. IsInOrder (S.rest s).entries) sources.items }
    ensures in_order { IfOk result (λ c. IsInOrder (left_of c).entries) }

    // Whatever the sequence numbers are.
    ensures merged { IfOk result
        (λ c. KeepsOfMerge watermark evict (map (λ s. (S.rest s).entries) sources.items) (left_of c).entries) }

    // Where they fall along the sources, key by key.
    ensures kept { IfOk result
        (λ c. (key : Bytes) → IsFalling (flat_map (λ s. stack key (S.rest s).entries) sources.items) → stack key (left_of c).entries ≡ keep watermark evict (flat_map (λ s. stack key (S.rest s).entries) sources.items)) }
    ensures ordered { IfOk result
        (λ c. IsOrdered (map (λ s. (S.rest s).entries) sources.items) → (key : Bytes) → stack key (left_of c).entries ≡ keep watermark evict (stack key (flat_map (λ s. (S.rest s).entries) sources.items))) }

    // In whatever order the sources are, what is kept is that of the key's entries as they fall.
    ensures in_any_order { IfOk result
        (λ c. (key : Bytes) (es : List InternalValue) → IsFalling es → IsPermutation (flat_map (λ s. stack key (S.rest s).entries) sources.items) es → stack key (left_of c).entries ≡ keep watermark evict es) }
{
    let merger = Merger::new(alloc, sources)?;
    let stream = CompactionStream::new(merger, watermark);
    Ok(stream.evict_tombstones(evict))
}

impl<S: Source> Source for CompactionStream<S> {
    type Item = S::Item;

    type Error = S::Error;

    ghost use Rattle.lsm_below.specs.Slots.{left_of};

    ghost rest = { left_of };

    ghost may_refuse = { S.may_refuse };

    fn next_entry(&mut self) -> Option<Result<S::Item, S::Error>> {
        if self.over {
            return None;
        }
        let told = next_kept(
            &mut self.pending,
            &mut self.source,
            self.watermark,
            self.evict,
        );
        self.over = !matches!(told, Some(Ok(_)));
        told
    }
}

impl<S: Source> Iterator for CompactionStream<S> {
    type Item = Result<S::Item, S::Error>;

    ghost next_gives = { λ s r t. Gives S.Item.shows (left_of s) r (left_of t) × RefusesOnly S.may_refuse r };

    ghost remaining = { λ s. calls_left (left_of s) };

    fn next(&mut self) -> Option<Result<S::Item, S::Error>> {
        self.next_entry()
    }
}
