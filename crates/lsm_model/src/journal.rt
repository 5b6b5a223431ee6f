// What a journal lists: calls, and what else matters to reads.
//
// A journal is the in-memory history of a tree's calls, of which the promises speak. It is no
// write-ahead log: nothing of it is written to a file, and nothing is recovered from it.
ghost use Rattle.std.specs.Prelude.{◌≡◌};

use crate::{Answer, Question};
use lsm_below::{InternalValue, KeyRange, SeqNo};
use std::marker::Model;

/// Ranges of keys, seen as a list.
///
/// ```text
/// let ranges = KeyRanges::new(vec![in alloc; range]?);
/// ```
#[derive(Drop, Debug)]
pub struct KeyRanges {
    list: Vec<KeyRange>,
}

impl Model for KeyRanges {
    ghost use Rattle.std.specs.Prelude.{List};
    ghost use Rattle.lsm_below.specs.Ranges.{Range};

    ghost Value = { List Range };

    ghost view = { λ r. r.list.items };
}

impl KeyRanges {
    /// These ranges.
    pub fn new(list: Vec<KeyRange>) -> KeyRanges
        ensures { result ≡ list.items }
    {
        KeyRanges { list }
    }

    /// The ranges, as they were passed.
    pub fn into_vec(self) -> Vec<KeyRange>
        ensures { result.items ≡ self }
    {
        self.list
    }

    /// The ranges, as a slice.
    pub fn as_slice(&self) -> &[KeyRange]
        ensures { result.now ≡ self.now }
    {
        &self.list
    }
}

/// An entry of a journal: what a tree's callers did, or what else matters to reads, in the order in which it happened.
///
/// A journal is the in-memory history of a tree's calls and not a write-ahead log.
///
/// ```text
/// JournalEntry::Write(Op::Set(value).into_entry(key, 1))
/// ```
#[derive(Drop, Debug)]
pub enum JournalEntry {
    /// A key was written: its entry.
    Write(InternalValue),
    /// Everything was cleared, under this sequence number.
    Clear(SeqNo),
    /// A flush, merge, move or drop was installed under this sequence number.
    Install(SeqNo),
    /// A drop of tables with these key ranges was installed, or may have been.
    Dropped(KeyRanges, SeqNo),
    /// A watermark was set: no snapshot below it needs an answer any more.
    Mark(SeqNo),
    /// A read at a snapshot: what it asked, and what it answered.
    Read(SeqNo, Question, Answer),
}
