// Calls on a tree as rows of data, and what each answers.
use crate::samples::bytes;
use crate::works::{Work, compact};
use lsm_state::{Error, FlushJob, MemtableId, Op, SeqNo, TreeState, UserKey, Why, WrittenFlush};
use std::alloc::Global;

/// A call on a tree.
pub enum Step {
    /// Writes under the next number.
    Set(&'static str, &'static str),
    Del(&'static str),
    Weak(&'static str),
    /// Keys with their values, or None for a tombstone.
    Batch(&'static [(&'static str, Option<&'static str>)]),
    Clear,
    /// Writes under a number of their own.
    Insert(&'static str, &'static str, SeqNo),
    Remove(&'static str, SeqNo),
    /// A key of so many bytes.
    Long(usize),
    /// The counter of numbers is set.
    Counter(SeqNo),
    /// The moment, in seconds.
    Now(u64),
    Rotate,
    /// What isn't flushed is forgotten.
    Forget,
    /// The active memtable is flushed in one call, at a watermark.
    Flush(SeqNo),
    /// The same, and what is answered is the size of what was flushed.
    FlushSized(SeqNo),
    /// It is flushed by the parts of a flush.
    FlushParts(SeqNo),
    /// A flush begins; its job is dropped.
    BeginFlush,
    Compact(Work),
}

/// What is answered.
#[derive(Clone, Copy, PartialEq)]
pub enum Told {
    /// The number of a write or a clear.
    Number(SeqNo),
    /// The size of an entry, and that of its memtable.
    Sizes((u64, u64)),
    /// The size of what was flushed.
    Size(u64),
    Done,
    /// The memtable that was sealed, if anything was written to it.
    Sealed(Option<MemtableId>),
    Installed,
    /// Installed, with files left that nothing needs.
    Unclean,
    /// Not installed, since a clear came first.
    Stale,
    Nothing,
    Declined(Why),
    Job,
    /// The number of the error.
    Refused(u8),
    /// Refused after a rotation, which stays.
    RefusedSealed(u8),
    /// A row in between was wrong.
    Wrong,
}

// ---- answers

pub fn outcome(answer: Result<Told, Error>) -> Told {
    match answer {
        Ok(told) => told,
        Err(error) => Told::Refused(error.number()),
    }
}

fn numbered(answer: Result<SeqNo, Error>) -> Told {
    match answer {
        Ok(number) => Told::Number(number),
        Err(error) => Told::Refused(error.number()),
    }
}

fn sized(answer: Result<(u64, u64), Error>) -> Told {
    match answer {
        Ok(sizes) => Told::Sizes(sizes),
        Err(error) => Told::Refused(error.number()),
    }
}

fn rotated(answer: Result<Option<MemtableId>, Error>) -> Told {
    match answer {
        Ok(sealed) => Told::Sealed(sealed),
        Err(error) => Told::Refused(error.number()),
    }
}

fn done(answer: Result<(), Error>) -> Told {
    match answer {
        Ok(()) => Told::Done,
        Err(error) => Told::Refused(error.number()),
    }
}

fn is_job(answer: Result<Option<FlushJob>, Error>) -> Told {
    match answer {
        Ok(Some(job)) => {
            drop(job.keep());
            Told::Job
        }
        Ok(None) => Told::Nothing,
        Err(error) => Told::Refused(error.number()),
    }
}

// ---- writes

fn write(alloc: Global, tree: &mut TreeState, name: &'static str, op: Op) -> Result<SeqNo, Error> {
    tree.write(vec![in alloc; (bytes(name), op)]?)
}

fn batch(
    alloc: Global,
    tree: &mut TreeState,
    list: &[(&'static str, Option<&'static str>)],
) -> Result<SeqNo, Error> {
    let mut ops = Vec::new(alloc);
    for (name, text) in list {
        let op = match *text {
            Some(text) => Op::Set(bytes(text)),
            None => Op::Del,
        };
        ops.push((bytes(*name), op))?;
    }
    tree.write(ops)
}

fn insert_long(alloc: Global, tree: &mut TreeState, len: usize) -> Result<(u64, u64), Error> {
    let key = UserKey::copy_from_slice(alloc, &vec![in alloc; b'a'; len]?)?;
    tree.insert(key, bytes("x"), 0)
}

// ---- flushes

/// Merges a job and writes its tables; refused, it is given up.
pub fn written(
    tree: &mut TreeState,
    job: FlushJob,
    watermark: SeqNo,
) -> Result<WrittenFlush, Error> {
    let merged = match job.run(watermark) {
        Ok(merged) => merged,
        Err((error, job)) => {
            tree.abandon_flush(job);
            return Err(error);
        }
    };
    match tree.flush_to_tables(merged) {
        Ok(written) => Ok(written),
        Err((error, merged)) => {
            tree.abandon_flush(merged.into_job());
            Err(error)
        }
    }
}

/// Registers tables that were written.
pub fn registered(tree: &mut TreeState, written: WrittenFlush) -> Result<Told, Error> {
    let end = tree.register_tables(written)?;
    if !end.installed {
        return Ok(Told::Stale);
    }
    Ok(if end.cleaned {
        Told::Installed
    } else {
        Told::Unclean
    })
}

/// Seals the active memtable and flushes what is sealed, by the parts of a flush.
fn flush_by_parts(tree: &mut TreeState, watermark: SeqNo) -> Result<Told, Error> {
    tree.rotate_memtable()?;
    let Some(job) = tree.begin_flush()? else {
        return Ok(Told::Nothing);
    };
    let written = written(tree, job, watermark)?;
    registered(tree, written)
}

fn flush(tree: &mut TreeState, watermark: SeqNo) -> Told {
    match tree.flush_active_memtable(watermark) {
        Ok(_) => Told::Done,
        Err((error, Some(_))) => Told::RefusedSealed(error.number()),
        Err((error, None)) => Told::Refused(error.number()),
    }
}

fn flush_sized(tree: &mut TreeState, watermark: SeqNo) -> Told {
    match tree.flush_active_memtable(watermark) {
        Ok((_, Some((size, _)))) => Told::Size(size),
        Ok((_, None)) => Told::Nothing,
        Err((error, _)) => Told::Refused(error.number()),
    }
}

/// Sets a to a value of one byte.
fn set_byte(alloc: Global, tree: &mut TreeState, byte: u8) -> Result<SeqNo, Error> {
    let value = UserKey::copy_from_slice(alloc, &[byte])?;
    write(alloc, tree, "a", Op::Set(value))
}

/// Whether a is set to a new value of one byte and the active memtable, of that alone, is flushed in one call, so many times.
pub fn flushes_times(alloc: Global, tree: &mut TreeState, times: u8) -> bool {
    for byte in 0..times {
        let set = set_byte(alloc, tree, byte);
        let flushed = tree.flush_active_memtable(0);
        if set.is_err() || !matches!(flushed, Ok((Some(_), Some((50, done)))) if done.installed) {
            return false;
        }
    }
    true
}

// ---- all

pub fn take(alloc: Global, tree: &mut TreeState, step: &Step) -> Told {
    match step {
        Step::Set(name, text) => numbered(write(alloc, tree, *name, Op::Set(bytes(*text)))),
        Step::Del(name) => numbered(write(alloc, tree, *name, Op::Del)),
        Step::Weak(name) => numbered(write(alloc, tree, *name, Op::Weak)),
        Step::Batch(list) => numbered(batch(alloc, tree, *list)),
        Step::Clear => numbered(tree.clear()),
        Step::Insert(name, text, seqno) => sized(tree.insert(bytes(*name), bytes(*text), *seqno)),
        Step::Remove(name, seqno) => sized(tree.remove(bytes(*name), *seqno)),
        Step::Long(len) => sized(insert_long(alloc, tree, *len)),
        Step::Counter(seqno) => {
            tree.seqno_mut().set(*seqno);
            Told::Done
        }
        Step::Now(seconds) => {
            tree.set_moment(seconds.saturating_mul(1_000_000_000));
            Told::Done
        }
        Step::Rotate => rotated(tree.rotate_memtable()),
        Step::Forget => done(tree.clear_active_memtable()),
        Step::Flush(watermark) => flush(tree, *watermark),
        Step::FlushSized(watermark) => flush_sized(tree, *watermark),
        Step::FlushParts(watermark) => outcome(flush_by_parts(tree, *watermark)),
        Step::BeginFlush => is_job(tree.begin_flush()),
        Step::Compact(work) => outcome(compact(alloc, tree, work)),
    }
}
