// Calls on a logged tree as data.
use lsm_below::{SeqNo, UserKey};
use lsm_model::Ops;
use lsm_runs::{Count, JobStep, Reply, Slot};
use std::alloc::AllocError;
use std::ops::Bound;

/// A call on a logged tree, as data: each is the method of `Logged` that it is named after, or one of the tree that it reads, and
/// `Step` has one of the same name. None sets or draws a counter, since a batch draws its number itself; `GetNextTableId` draws an id.
#[derive(Drop, Debug)]
pub enum LogStep {
    /// Writes a batch under the next sequence number, after its record.
    Write(Ops),
    /// Reads a key at a snapshot.
    Get(UserKey, SeqNo),
    /// Reads the entry of a key at a snapshot.
    GetInternalEntry(UserKey, SeqNo),
    /// Asks whether a key has a value at a snapshot.
    ContainsKey(UserKey, SeqNo),
    /// Asks how many bytes a key's value has at a snapshot.
    SizeOf(UserKey, SeqNo),
    /// Reads the pairs in bounds at a snapshot.
    Range(Bound<UserKey>, Bound<UserKey>, SeqNo),
    /// Reads all pairs at a snapshot.
    Iter(SeqNo),
    /// Reads the pairs of the keys that begin so, at a snapshot.
    Prefix(UserKey, SeqNo),
    /// Counts the keys at a snapshot.
    Len(SeqNo),
    /// Asks whether no key has a value at a snapshot.
    IsEmpty(SeqNo),
    /// Reads the pair with the least key at a snapshot.
    FirstKeyValue(SeqNo),
    /// Reads the pair with the greatest key at a snapshot.
    LastKeyValue(SeqNo),
    /// Seals the active memtable.
    RotateMemtable,
    /// A call on the job that waits in a slot.
    AtSlot(Slot, JobStep),
    /// Flushes all sealed memtables in one call, at a watermark.
    Flush(SeqNo),
    /// Seals the active memtable, and flushes all sealed ones, at a watermark: `rotate_memtable` and `flush` in turn.
    FlushActiveMemtable(SeqNo),
    /// Compacts in one call as the strategy of this index chooses, at a watermark and at the tree's moment.
    Compact(usize, SeqNo),
    /// Merges all tables into the last level, cut at a target of bytes, at a watermark and at the tree's moment.
    MajorCompact(u64, SeqNo),
    /// Drops the tables whose whole key range lies within bounds.
    DropRange(Bound<UserKey>, Bound<UserKey>),
    /// Clears the tree.
    Clear,
    /// Draws an id for a table.
    GetNextTableId,
    /// Sets the moment at which tables are made.
    SetMoment(u64),
    /// Asks for a count of the tree.
    Count(Count),
    /// Asks whether a commit or a record of unknown outcome came before.
    IsUncertain,
    /// Asks whether an open merge works on a table.
    IsCompacting,
    /// Asks what kind of tree it is.
    TreeType,
}

/// The steps that were taken.
#[derive(Drop, Debug)]
pub struct TakenLogged {
    /// Each one's reply.
    pub replies: Vec<Reply>,
    /// Whether these are all: else no memory was left for the next one's reply, or for what it was to write.
    pub ended: Result<(), AllocError>,
}
