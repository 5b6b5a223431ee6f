// Calls on a tree as data, and what each of them replies.
ghost use Rattle.std.specs.Prelude.{◌≡◌};

use crate::Slot;
use lsm_below::{InternalValue, KvPair, MemtableId, SeqNo, UserKey, UserValue};
use lsm_checks::Why;
use lsm_flush::Registered;
use lsm_model::{JournalEntry, KvPairs, Ops};
use lsm_parts::Error;
use lsm_state::{Finished, Options};
use lsm_versions::TreeType;
use std::alloc::AllocError;
use std::marker::Model;
use std::ops::Bound;

/// A counter of a tree.
#[derive(Clone, Copy, Debug, PartialEq, Eq)]
pub enum Counter {
    /// The counter of sequence numbers.
    Seqno,
    /// The visible counter.
    Visible,
}

/// What a tree tells as a number: each is the method of `TreeState` that it is named after.
#[derive(Clone, Copy, Debug, PartialEq, Eq)]
pub enum Count {
    /// How many tables the latest version has.
    TableCount,
    /// How many runs its first level has.
    L0RunCount,
    /// How many tables a level has, by its index.
    LevelTableCount(usize),
    /// How many sealed memtables are not flushed yet.
    SealedMemtableCount,
    /// How many super versions are kept beside the latest one.
    VersionFreeListLen,
    /// How many entries the latest super version reads.
    ApproximateLen,
    /// The bytes of its table files.
    DiskSpace,
    /// How many entries of its tables remove their key.
    TombstoneCount,
    /// How many of these do so weakly.
    WeakTombstoneCount,
    /// How many of those a compaction may take away.
    WeakTombstoneReclaimableCount,
    /// The bytes that the memtables of all super versions count.
    VersionMemtableSizeSum,
    /// The greatest sequence number in its tables.
    HighestPersistedSeqno,
    /// That in its memtables.
    HighestMemtableSeqno,
    /// That in both.
    HighestSeqno,
    /// The tree's id.
    Id,
    /// The id of the next table.
    NextTableId,
    /// The moment at which tables are made.
    Moment,
}

/// A call on a job, which waits in a slot from one call to the next.
#[derive(Clone, Copy, Debug, PartialEq, Eq)]
pub enum JobStep {
    /// Begins a flush of all sealed memtables, into a free slot.
    BeginFlush,
    /// Merges a job that was begun, at a watermark.
    RunFlush(SeqNo),
    /// Writes the tables of a job that was merged.
    FlushToTables,
    /// Installs a job whose tables are written. The slot is free then.
    RegisterTables,
    /// Gives up the job of a flush. The slot is free then.
    AbandonFlush,
    /// Begins a compaction, as the strategy of this index chooses, into a free slot: the job of a merge waits there then.
    BeginCompaction(usize, Options),
    /// Does the merge of a job.
    RunCompaction,
    /// Ends a merge that was done. The slot is free then.
    FinishCompaction,
    /// Gives up the job of a merge. The slot is free then.
    AbandonCompaction,
}

/// A call on a tree, as data: each is the method of `TreeState` that it is named after, `DoCompaction` the function, and
/// `Next`, `Set` and `FetchMax` those of its counters. `AtSlot` is a part of a job that waits in a slot.
#[derive(Drop, Debug)]
pub enum Step {
    /// Sets a key under a sequence number.
    Insert(UserKey, UserValue, SeqNo),
    /// Removes a key under a sequence number.
    Remove(UserKey, SeqNo),
    /// Removes a key, of which at most one value was ever written, under a sequence number.
    RemoveWeak(UserKey, SeqNo),
    /// Writes an entry under its own sequence number.
    AppendEntry(InternalValue),
    /// Writes a batch under the next sequence number.
    Write(Ops),
    /// Reads a key at a snapshot.
    Get(UserKey, SeqNo),
    /// Reads the entry of a key at a snapshot.
    GetInternalEntry(UserKey, SeqNo),
    /// Asks whether a key has a value at a snapshot.
    ContainsKey(UserKey, SeqNo),
    /// Asks how many bytes a key's value has at a snapshot.
    SizeOf(UserKey, SeqNo),
    /// Reads the pairs in bounds at a snapshot.
    Range(Bound<UserKey>, Bound<UserKey>, SeqNo),
    /// Reads all pairs at a snapshot.
    Iter(SeqNo),
    /// Reads the pairs of the keys that begin so, at a snapshot.
    Prefix(UserKey, SeqNo),
    /// Counts the keys at a snapshot.
    Len(SeqNo),
    /// Asks whether no key has a value at a snapshot.
    IsEmpty(SeqNo),
    /// Reads the pair with the least key at a snapshot.
    FirstKeyValue(SeqNo),
    /// Reads the pair with the greatest key at a snapshot.
    LastKeyValue(SeqNo),
    /// Seals the active memtable.
    RotateMemtable,
    /// Draws the counter's next sequence number.
    Next(Counter),
    /// Has the counter go on from a sequence number.
    Set(Counter, SeqNo),
    /// Has the counter go on from a sequence number, unless it stands at a greater one.
    FetchMax(Counter, SeqNo),
    /// A call on the job that waits in a slot.
    AtSlot(Slot, JobStep),
    /// Flushes all sealed memtables in one call, at a watermark.
    Flush(SeqNo),
    /// Seals the active memtable, and flushes all sealed ones, at a watermark.
    FlushActiveMemtable(SeqNo),
    /// Compacts in one call as the strategy of this index chooses, at a watermark and at the tree's moment.
    Compact(usize, SeqNo),
    /// Compacts in one call as the strategy of this index chooses.
    DoCompaction(usize, Options),
    /// Merges all tables into the last level, cut at a target of bytes, at a watermark and at the tree's moment.
    MajorCompact(u64, SeqNo),
    /// Drops the tables whose whole key range lies within bounds.
    DropRange(Bound<UserKey>, Bound<UserKey>),
    /// Clears the tree.
    Clear,
    /// Forgets what isn't flushed. The replay theorem isn't promised of a run that has this step.
    ClearActiveMemtable,
    /// Draws an id for a table.
    GetNextTableId,
    /// Sets the moment at which tables are made.
    SetMoment(u64),
    /// Asks for a count of the tree.
    Count(Count),
    /// Asks whether a commit of unknown outcome came before.
    IsUncertain,
    /// Asks whether an open merge works on a table.
    IsCompacting,
    /// Asks what kind of tree it is.
    TreeType,
}

/// What became of a compaction that was to be begun, or done in one call.
#[derive(Clone, Copy, Debug, PartialEq, Eq)]
pub enum Compacted {
    /// Nothing was to be done.
    DidNothing,
    /// The choice was declined, or its merge at the end: the first reason that holds.
    Declined(Why),
    /// It was installed.
    Installed,
    /// A merge is open, and its job waits in the slot. No compaction in one call answers so.
    Waits,
}

/// What a step replies.
#[derive(Drop, Debug)]
pub enum Reply {
    /// Of an insert, a removal or an appended entry: the bytes that the entry counts, and those of the
    /// active memtable.
    Sizes(u64, u64),
    /// Of a batch: the sequence number that it was written under. Of a counter: the one that was drawn. Of an id for a
    /// table: that id.
    Number(SeqNo),
    /// Of a read of a key: its value, or None.
    Value(Option<UserValue>),
    /// Of a read of an entry: the entry, or None.
    Entry(Option<InternalValue>),
    /// Of a question that is yes or no: whether it is so.
    Truth(bool),
    /// Of the question what kind of tree it is: the kind.
    Kind(TreeType),
    /// Of a read of a value's size: its bytes, or None where the key has no value.
    Size(Option<u32>),
    /// Of a read of many keys: the pairs by rising key.
    Pairs(KvPairs),
    /// Of a count: how many keys have a value.
    Count(usize),
    /// Of a number of the tree: how many or how much, or None where there is nothing of the kind.
    Counted(Option<u64>),
    /// Of a read of the least or the greatest key: its pair, or None where no key has a value.
    Pair(Option<KvPair>),
    /// Of a rotation: the id of the memtable that was sealed, or None where it was empty.
    Sealed(Option<MemtableId>),
    /// Of a clear: the sequence number of its commit.
    Cleared(SeqNo),
    /// Of a counter or a moment that was set, of a job that was merged, written or given up, of unflushed entries that were
    /// to be forgotten: nothing.
    Done,
    /// Of a flush that is to be begun: whether a job waits in the slot now, or nothing is sealed.
    Begun(bool),
    /// Of a job that was registered: what became of it.
    Registered(Registered),
    /// Of a flush: the bytes that the sealed memtables count, and what became of it, or None where nothing is sealed.
    Flushed(Option<(u64, Registered)>),
    /// Of a flush of the active memtable: the id of the memtable that it sealed, or None where it was empty, and the
    /// same.
    FlushedActive(Option<MemtableId>, Option<(u64, Registered)>),
    /// Of a flush of the active memtable that was refused: the id of the memtable that it sealed, which stays sealed,
    /// and why.
    RefusedActive(Option<MemtableId>, Error),
    /// Of a compaction that is to be begun, or done in one call: what became of it.
    Compacted(Compacted),
    /// Of a merge that was to end: how it ended.
    Finished(Finished),
    /// Of a compaction: no strategy has this index. Nothing changed.
    NoStrategy,
    /// Of a call on a job: no job waits in the slot that this may be done with. Nothing changed.
    NoJob,
    /// Of a job that is to be begun: another one waits in the slot. Nothing changed.
    SlotInUse,
    /// The step was refused. It changed nothing, but that a flush, a compaction or a clear may have used numbers and ids, a
    /// compaction noted its watermark, and a job that was to be registered or to end is spent; after `AfterCommit` a compaction is
    /// installed, after `CommitUnknown` the tree is uncertain.
    Refused(Error),
}

/// A step's reply, and what it adds to the journal.
#[derive(Drop, Debug)]
pub struct Outcome {
    pub(crate) reply: Reply,
    pub(crate) entries: Vec<JournalEntry>,
}

impl Model for Outcome {
    ghost use Rattle.lsm_runs.specs.Told.{Told};

    ghost Value = { Told };

    ghost view = { λ o. record { reply = o.reply; entries = o.entries.items } };
}

impl Outcome {
    /// What the step answered.
    pub fn reply(&self) -> &Reply
        ensures { result.now ≡ self.now.reply }
    {
        &self.reply
    }

    /// What the step adds to the journal: an accepted write its entry, an accepted batch its entries in
    /// their order, an answered `Get`, `Range`, `Iter` or `Prefix` the read, a flush that comes to register a job
    /// its watermark, and the install where it is installed; a compaction its watermark when it begins, the ranges of the
    /// tables that it drops, and the install where it is installed; an answered clear the clear; nothing else adds any.
    pub fn entries(&self) -> &[JournalEntry]
        ensures { result.now ≡ self.now.entries }
    {
        &self.entries
    }

    /// What the step answered, alone.
    pub fn into_reply(self) -> Reply
        ensures { result ≡ self.reply }
    {
        self.reply
    }
}

/// The steps that were taken.
#[derive(Drop, Debug)]
pub struct Taken {
    /// Each one's outcome.
    pub outcomes: Vec<Outcome>,
    /// Whether these are all: else no memory was left for the next one's outcome.
    pub ended: Result<(), AllocError>,
}
