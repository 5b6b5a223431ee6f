// The table of workloads.
use Filling::{Empty, Flat, Random, Runs};
use Kind::{Locked, Logged, Owned, Recorded};
use Order::{Puts, Rising, Same};
use Span::{Group, Open, Range, Whole};
use Way::{Back, Iter, Lent};
use Work::{Clear, Flush, Get, Ingest, List, Merge, Miss, Mix, Put, Reopen, ReopenAndGet, Weigh};

/// A kind of tree.
#[derive(Clone, Copy, PartialEq, Eq)]
pub enum Kind {
    /// One owner has it.
    Owned,
    /// It stands behind a lock.
    Locked,
    /// It keeps the journal of its calls.
    Recorded,
    /// It has a log.
    Logged,
}

/// What a workload finds in its tree.
#[derive(Clone, Copy, PartialEq, Eq)]
pub enum Filling {
    /// Nothing.
    Empty,
    /// All keys, put in random order.
    Random,
    /// The same, and then flushed: one run of tables.
    Flat,
    /// The same, but flushed after each quarter: four runs of tables.
    Runs,
}

/// An order of ids.
#[derive(Clone, Copy)]
pub enum Order {
    Rising,
    /// In random order.
    Puts,
    /// In another random order.
    Reads,
    /// The first id again and again.
    Same,
}

/// How entries come out of a tree.
#[derive(Clone, Copy)]
pub enum Way {
    /// Copied, as `iter` returns them.
    Iter,
    /// Lent, as `pairs` does.
    Lent,
    /// The same from the end.
    Back,
}

/// What one call lists.
#[derive(Clone, Copy)]
pub enum Span {
    /// All entries.
    Whole,
    /// The keys from that of an id on and below that of the id 100 above.
    Range,
    /// The first 100 keys from that of an id on, with no upper bound.
    Open,
    /// The keys that begin as that of an id does.
    Group,
}

/// What a workload does.
#[derive(Clone, Copy)]
pub enum Work {
    /// Puts keys in this order, so many a batch.
    Put(Order, usize),
    /// Gets keys that are there, one after the other, in random order.
    Get,
    /// Gets keys that aren't there.
    Miss,
    /// Lists entries; an operation is an entry where all are listed, else a call.
    List(Way, Span),
    /// Tells how many bytes a key the tree added to this process, in the place of a check.
    Weigh,
    /// Flushes the active memtable, and keeps what any snapshot sees. It leaves a flat tree.
    Flush,
    /// Opens a tree again that was closed.
    Reopen,
    /// The same, and then gets every key.
    ReopenAndGet,
    /// Merges all tables into the last level.
    Merge,
    /// Puts keys in four parts, flushes each, and merges all tables.
    Ingest,
    /// Puts keys in 16 parts, flushes each, and compacts after it as `Leveled` chooses.
    Mix,
    /// Clears the tree again and again.
    Clear,
}

/// The name of a workload, what tree it finds, how many operations it does at most, and which.
pub type Row = (&'static str, Kind, Filling, usize, Work);

/// As many operations as there are keys.
const ALL: usize = usize::MAX;

/// The workloads on trees in memory, in the order in which they run.
///
/// Those that read one tree stand after the one that makes it, so that it is done once. The first is the fill that
/// is weighed, before other trees have left memory behind. A copied open range copies what a memtable has above its
/// lower bound, a clear takes as long as memtables are held, to which each clear adds one, and a logged put makes a
/// file: so there are fewer of these.
pub const WORKLOADS: [Row; 40] = [
    ("put_rand", Owned, Empty, ALL, Put(Puts, 1)),
    ("bytes_mem", Owned, Random, ALL, Weigh),
    ("get_mem", Owned, Random, ALL, Get),
    ("miss_mem", Owned, Random, ALL, Miss),
    ("scan_mem", Owned, Random, ALL, List(Iter, Whole)),
    ("range100_mem", Owned, Random, 10_000, List(Iter, Range)),
    ("range100_open_mem", Owned, Random, 1_000, List(Iter, Open)),
    ("prefix_mem", Owned, Random, 10_000, List(Iter, Group)),
    ("pairs_mem", Owned, Random, ALL, List(Lent, Whole)),
    ("pairs_back_mem", Owned, Random, ALL, List(Back, Whole)),
    ("pairs100_mem", Owned, Random, 10_000, List(Lent, Range)),
    ("pairs100_open_mem", Owned, Random, 10_000, List(Lent, Open)),
    ("pairs_prefix_mem", Owned, Random, 10_000, List(Lent, Group)),
    ("flush_mem", Owned, Random, ALL, Flush),
    ("get_flat", Owned, Flat, ALL, Get),
    ("miss_flat", Owned, Flat, ALL, Miss),
    ("scan_flat", Owned, Flat, ALL, List(Iter, Whole)),
    ("range100_flat", Owned, Flat, 10_000, List(Iter, Range)),
    ("prefix_flat", Owned, Flat, 10_000, List(Iter, Group)),
    ("pairs_flat", Owned, Flat, ALL, List(Lent, Whole)),
    ("pairs_back_flat", Owned, Flat, ALL, List(Back, Whole)),
    ("pairs100_flat", Owned, Flat, 10_000, List(Lent, Range)),
    ("pairs_prefix_flat", Owned, Flat, 10_000, List(Lent, Group)),
    ("reopen_mem", Owned, Flat, ALL, Reopen),
    ("reopen_read_mem", Owned, Flat, ALL, ReopenAndGet),
    ("get_runs4", Owned, Runs, ALL, Get),
    ("scan_runs4", Owned, Runs, ALL, List(Iter, Whole)),
    ("pairs_runs4", Owned, Runs, ALL, List(Lent, Whole)),
    ("major4", Owned, Runs, ALL, Merge),
    ("ingest4", Owned, Empty, ALL, Ingest),
    ("mixed", Owned, Empty, ALL, Mix),
    ("clear_mem", Owned, Empty, 100, Clear),
    ("put_seq", Owned, Empty, ALL, Put(Rising, 1)),
    ("put_same", Owned, Empty, ALL, Put(Same, 1)),
    ("locked_put_rand", Locked, Empty, ALL, Put(Puts, 1)),
    ("locked_get_mem", Locked, Random, ALL, Get),
    ("recorded_put_rand", Recorded, Empty, ALL, Put(Puts, 1)),
    ("recorded_get_mem", Recorded, Random, ALL, Get),
    ("logged_put_rand", Logged, Empty, 100_000, Put(Puts, 1)),
    ("logged_reopen_mem", Logged, Random, 10_000, Reopen),
];

/// The same of trees that stand in a folder. They run after those, where a folder was given.
pub const FOLDER_WORKLOADS: [Row; 6] = [
    ("flush_disk", Owned, Random, ALL, Flush),
    ("reopen_disk", Owned, Flat, ALL, Reopen),
    ("reopen_read_disk", Owned, Flat, ALL, ReopenAndGet),
    ("logged_put_disk", Logged, Empty, 10_000, Put(Puts, 1)),
    ("logged_put100_disk", Logged, Empty, 100_000, Put(Puts, 100)),
    ("logged_reopen_disk", Logged, Random, 10_000, Reopen),
];

/// Whether there is a workload of this name.
pub fn is_workload(name: &str) -> bool {
    let is_it = |row: &Row| row.0 == name;
    WORKLOADS.iter().any(is_it) || FOLDER_WORKLOADS.iter().any(is_it)
}
