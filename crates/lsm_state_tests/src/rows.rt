// Rows of a script on a tree: calls with what they answer, and looks at what it shows and counts.
use crate::given::{Turn, gives, is, lends_ends, lent, listed, takes};
use crate::samples::{ALL, Bounds, Edge, OVER_A_B, bounds, filled};
use crate::steps::{Step, Told, take};
use lsm_state::{Error, MemtableId, SeqNo, TreeState, VersionId};
use std::alloc::Global;

/// What is counted of a tree.
pub enum Count {
    Tables,
    NextTable,
    Sealed,
    Runs,
    /// The tables of a level; `ABSENT` where there is no such level.
    Level(usize),
    Entries,
    Bytes,
    Next,
    Visible,
    Active,
    Memory,
    Free,
    /// 1 while a merge is open.
    Compacting,
}

pub const ABSENT: u64 = u64::MAX;

pub const TOO_OLD: &str = "too old";

/// A row of a script.
pub enum Row {
    /// A call, and what it answers.
    Does(Step, Told),
    Has(Count, u64),
    /// A key has this value at a snapshot: none where it is empty. `TOO_OLD` where the snapshot is.
    Shows(&'static str, SeqNo, &'static str),
    /// The size of a key's value at a snapshot.
    Holds(&'static str, SeqNo, Option<u32>),
    /// The number of the entry that decides of a key at a snapshot.
    Decides(&'static str, SeqNo, Option<SeqNo>),
    /// What super version a snapshot reads: its memtables, its version's id and its number.
    Reads(SeqNo, MemtableId, &'static [MemtableId], VersionId, SeqNo),
    /// So many keys are shown at a snapshot.
    Counts(SeqNo, usize),
    /// The first and the last key at a snapshot.
    Ends(SeqNo, &'static str, &'static str),
    /// What an iterator over all at a snapshot gives.
    Takes(SeqNo, &'static [Turn]),
    /// What is listed between two edges at a snapshot.
    Range(Edge, Edge, SeqNo, &'static str),
    /// What is listed of the keys that begin so.
    Prefix(&'static str, SeqNo, &'static str),
    /// What is listed at a snapshot under what an index has below a number.
    Under(SeqNo, SeqNo, &'static str),
}

// ---- numbers

fn counted(tree: &TreeState, count: &Count) -> u64 {
    match count {
        Count::Tables => tree.table_count() as u64,
        Count::NextTable => tree.next_table_id(),
        Count::Sealed => tree.sealed_memtable_count() as u64,
        Count::Runs => tree.l0_run_count() as u64,
        Count::Level(level) => match tree.level_table_count(*level) {
            Some(tables) => tables as u64,
            None => ABSENT,
        },
        Count::Entries => tree.approximate_len() as u64,
        Count::Bytes => tree.disk_space(),
        Count::Next => tree.seqno().get(),
        Count::Visible => tree.visible_seqno().get(),
        Count::Active => tree.active_memtable().id(),
        Count::Memory => tree.version_memtable_size_sum(),
        Count::Free => tree.version_free_list_len() as u64,
        Count::Compacting => u64::from(tree.is_compacting()),
    }
}

// ---- one key

pub fn shows(tree: &TreeState, name: &str, snapshot: SeqNo, text: &str) -> bool {
    match tree.get(name.as_bytes(), snapshot) {
        Ok(Some(found)) => found.as_slice() == text.as_bytes(),
        Ok(None) => text.is_empty(),
        Err(Error::SnapshotTooOld) => text == TOO_OLD,
        Err(_) => false,
    }
}

fn holds(tree: &TreeState, name: &str, snapshot: SeqNo, size: Option<u32>) -> bool {
    match (
        tree.size_of(name.as_bytes(), snapshot),
        tree.contains_key(name.as_bytes(), snapshot),
    ) {
        (Ok(found), Ok(contained)) => found == size && contained == size.is_some(),
        _ => false,
    }
}

fn decides(tree: &TreeState, name: &str, snapshot: SeqNo, seqno: Option<SeqNo>) -> bool {
    match tree.get_internal_entry(name.as_bytes(), snapshot) {
        Ok(Some(entry)) => Some(entry.key.seqno) == seqno,
        Ok(None) => seqno.is_none(),
        Err(_) => false,
    }
}

// ---- super versions

fn reads(
    tree: &TreeState,
    snapshot: SeqNo,
    memtables: (MemtableId, &[MemtableId]),
    numbers: (VersionId, SeqNo),
) -> bool {
    match tree.get_version_for_snapshot(snapshot) {
        Ok(version) => {
            version.active_memtable == memtables.0
                && version.sealed_memtables.as_slice() == memtables.1
                && (version.version.id(), version.seqno) == numbers
        }
        Err(_) => false,
    }
}

// ---- many keys

fn counts(tree: &TreeState, snapshot: SeqNo, len: usize) -> bool {
    match (tree.len(snapshot, None), tree.is_empty(snapshot, None)) {
        (Ok(found), Ok(empty)) => found == len && empty == (len == 0),
        _ => false,
    }
}

fn has_ends(tree: &TreeState, snapshot: SeqNo, first: &str, last: &str) -> bool {
    match (
        tree.first_key_value(snapshot, None),
        tree.last_key_value(snapshot, None),
    ) {
        (Ok(found_first), Ok(found_last)) => {
            gives(found_first, first)
                && gives(found_last, last)
                && lends_ends(tree.pairs(&ALL, snapshot, None), first, last)
        }
        _ => false,
    }
}

/// Whether each call for a range gives these.
fn lists_range(alloc: Global, tree: &TreeState, bounds: &Bounds, at: SeqNo, text: &str) -> bool {
    is(listed(alloc, tree.range(bounds, at, None)), text)
        && is(listed(alloc, tree.create_range(bounds, at, None)), text)
        && is(
            listed(alloc, tree.create_internal_range(bounds, at, None)),
            text,
        )
        && is(lent(alloc, tree.pairs(bounds, at, None)), text)
}

/// Whether each call for a prefix gives these.
fn lists_prefix(alloc: Global, tree: &TreeState, prefix: &str, at: SeqNo, text: &str) -> bool {
    is(
        listed(alloc, tree.prefix(prefix.as_bytes(), at, None)),
        text,
    ) && is(
        listed(alloc, tree.create_prefix(prefix.as_bytes(), at, None)),
        text,
    ) && is(
        lent(alloc, tree.pairs_with_prefix(prefix.as_bytes(), at, None)),
        text,
    )
}

/// Whether both calls for all keys give these, under what an index has below a number.
fn lists_under(alloc: Global, tree: &TreeState, number: SeqNo, at: SeqNo, text: &str) -> bool {
    let Ok(index) = filled(alloc, 0, &OVER_A_B) else {
        return false;
    };
    is(listed(alloc, tree.iter(at, Some((&index, number)))), text)
        && is(
            listed(alloc, tree.create_iter(at, Some((&index, number)))),
            text,
        )
        && is(
            lent(alloc, tree.pairs(&ALL, at, Some((&index, number)))),
            text,
        )
}

// ---- all

fn is_right(alloc: Global, tree: &mut TreeState, row: &Row) -> bool {
    match row {
        Row::Does(step, told) => take(alloc, tree, step) == *told,
        Row::Has(count, number) => counted(tree, count) == *number,
        Row::Shows(name, snapshot, text) => shows(tree, *name, *snapshot, *text),
        Row::Holds(name, snapshot, size) => holds(tree, *name, *snapshot, *size),
        Row::Decides(name, snapshot, seqno) => decides(tree, *name, *snapshot, *seqno),
        Row::Reads(snapshot, active, sealed, id, seqno) => {
            reads(tree, *snapshot, (*active, *sealed), (*id, *seqno))
        }
        Row::Counts(snapshot, len) => counts(tree, *snapshot, *len),
        Row::Ends(snapshot, first, last) => has_ends(tree, *snapshot, *first, *last),
        Row::Takes(snapshot, turns) => takes(tree.iter(*snapshot, None), *turns),
        Row::Range(low, high, snapshot, text) => {
            lists_range(alloc, tree, &bounds(low, high), *snapshot, *text)
        }
        Row::Prefix(prefix, snapshot, text) => lists_prefix(alloc, tree, *prefix, *snapshot, *text),
        Row::Under(number, snapshot, text) => lists_under(alloc, tree, *number, *snapshot, *text),
    }
}

/// Whether each row is as it says, up to the first that isn't.
pub fn plays(alloc: Global, tree: &mut TreeState, rows: &[Row]) -> bool {
    for row in rows {
        if !is_right(alloc, tree, row) {
            return false;
        }
    }
    true
}
