// Calls as rows of a table have them, and the steps that they are.
use lsm_runs::{Count, Counter, JobStep, Slot, Step};
use lsm_state::{InternalValue, Op, Ops, Options, SeqNo, UserKey};
use std::alloc::{AllocError, Global};
use std::ops::Bound;

/// A call on one key, under a sequence number or at a snapshot.
pub(crate) enum Key {
    Remove,
    RemoveWeak,
    /// Appends a tombstone.
    Append,
    Get,
    Entry,
    Contains,
    Size,
    Prefix,
}

/// A call at a snapshot, at a watermark or at a moment.
pub(crate) enum At {
    Iter,
    Len,
    IsEmpty,
    First,
    Last,
    Flush,
    FlushActive,
    SetMoment,
}

/// A call without anything beside it.
pub(crate) enum Bare {
    Rotate,
    Clear,
    Forget,
    NextTableId,
    IsUncertain,
    IsCompacting,
    TreeType,
}

/// A compaction: by the strategy of an index, at a watermark.
pub(crate) enum Compact {
    Begin(Slot, usize, SeqNo),
    Compact(usize, SeqNo),
    Do(usize, SeqNo),
    /// A target, and a watermark.
    Major(u64, SeqNo),
    /// From a key to another one, both included.
    DropRange(&'static str, &'static str),
}

/// A call.
pub(crate) enum Call {
    /// Keys with their values, in one batch.
    Set(&'static [(&'static str, &'static str)]),
    Insert(&'static str, &'static str, SeqNo),
    Key(Key, &'static str, SeqNo),
    At(At, SeqNo),
    /// After a key, up to another one.
    Between(&'static str, &'static str, SeqNo),
    /// All keys, by their bounds.
    All(SeqNo),
    Next(Counter),
    Raise(Counter, SeqNo),
    SetCounter(Counter, SeqNo),
    Job(Slot, JobStep),
    Compact(Compact),
    Count(Count),
    Bare(Bare),
}

/// A key or a value of these letters.
fn text(spelled: &'static str) -> UserKey {
    UserKey::from_static(spelled.as_bytes())
}

fn options(watermark: SeqNo) -> Options {
    Options {
        mvcc_gc_watermark: watermark,
        moment: 0,
    }
}

fn step_of_key(call: &Key, key: UserKey, number: SeqNo) -> Step {
    match call {
        Key::Remove => Step::Remove(key, number),
        Key::RemoveWeak => Step::RemoveWeak(key, number),
        Key::Append => Step::AppendEntry(InternalValue::new_tombstone(key, number)),
        Key::Get => Step::Get(key, number),
        Key::Entry => Step::GetInternalEntry(key, number),
        Key::Contains => Step::ContainsKey(key, number),
        Key::Size => Step::SizeOf(key, number),
        Key::Prefix => Step::Prefix(key, number),
    }
}

fn step_at(call: &At, number: SeqNo) -> Step {
    match call {
        At::Iter => Step::Iter(number),
        At::Len => Step::Len(number),
        At::IsEmpty => Step::IsEmpty(number),
        At::First => Step::FirstKeyValue(number),
        At::Last => Step::LastKeyValue(number),
        At::Flush => Step::Flush(number),
        At::FlushActive => Step::FlushActiveMemtable(number),
        At::SetMoment => Step::SetMoment(number),
    }
}

fn bare_step(call: &Bare) -> Step {
    match call {
        Bare::Rotate => Step::RotateMemtable,
        Bare::Clear => Step::Clear,
        Bare::Forget => Step::ClearActiveMemtable,
        Bare::NextTableId => Step::GetNextTableId,
        Bare::IsUncertain => Step::IsUncertain,
        Bare::IsCompacting => Step::IsCompacting,
        Bare::TreeType => Step::TreeType,
    }
}

fn compacting_step(call: &Compact) -> Step {
    match call {
        Compact::Begin(slot, at, watermark) => {
            Step::AtSlot(*slot, JobStep::BeginCompaction(*at, options(*watermark)))
        }
        Compact::Compact(at, watermark) => Step::Compact(*at, *watermark),
        Compact::Do(at, watermark) => Step::DoCompaction(*at, options(*watermark)),
        Compact::Major(target, watermark) => Step::MajorCompact(*target, *watermark),
        Compact::DropRange(low, high) => {
            Step::DropRange(Bound::Included(text(*low)), Bound::Included(text(*high)))
        }
    }
}

fn batch(alloc: Global, pairs: &[(&'static str, &'static str)]) -> Result<Step, AllocError> {
    let mut ops = Vec::new(alloc);
    for (key, value) in pairs {
        ops.push((text(*key), Op::Set(text(*value))))?;
    }
    Ok(Step::Write(Ops::new(ops)))
}

/// The step that a call is.
pub(crate) fn step_of(alloc: Global, call: &Call) -> Result<Step, AllocError> {
    Ok(match call {
        Call::Set(pairs) => return batch(alloc, *pairs),
        Call::Insert(key, value, seqno) => Step::Insert(text(*key), text(*value), *seqno),
        Call::Key(what, key, number) => step_of_key(what, text(*key), *number),
        Call::At(what, number) => step_at(what, *number),
        Call::Between(low, high, snapshot) => {
            let low = Bound::Excluded(text(*low));
            Step::Range(low, Bound::Included(text(*high)), *snapshot)
        }
        Call::All(snapshot) => Step::Range(Bound::Unbounded, Bound::Unbounded, *snapshot),
        Call::Next(counter) => Step::Next(*counter),
        Call::Raise(counter, seqno) => Step::FetchMax(*counter, *seqno),
        Call::SetCounter(counter, seqno) => Step::Set(*counter, *seqno),
        Call::Job(slot, step) => Step::AtSlot(*slot, *step),
        Call::Compact(what) => compacting_step(what),
        Call::Count(what) => Step::Count(*what),
        Call::Bare(what) => bare_step(what),
    })
}
