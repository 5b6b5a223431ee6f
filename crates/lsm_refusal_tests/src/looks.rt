// What two trees show and count, beside each other.
use crate::steps::Tree;
use lsm_state::{Error, SeqNo, UserValue};

const KEYS: [&str; 3] = ["a", "b", "c"];

/// Snapshots at and above each number that a row uses.
const SNAPSHOTS: [SeqNo; 12] = [0, 1, 2, 3, 4, 5, 6, 7, 8, 9, 10, u64::MAX];

/// Whether two trees hold as much.
fn count_alike(one: &Tree, other: &Tree) -> bool {
    one.table_count() == other.table_count()
        && one.l0_run_count() == other.l0_run_count()
        && one.level_table_count(6) == other.level_table_count(6)
        && one.sealed_memtable_count() == other.sealed_memtable_count()
        && one.approximate_len() == other.approximate_len()
        && one.tombstone_count() == other.tombstone_count()
        && one.disk_space() == other.disk_space()
}

/// Whether their numbers are the same.
fn number_alike(one: &Tree, other: &Tree) -> bool {
    one.seqno().get() == other.seqno().get()
        && one.visible_seqno().get() == other.visible_seqno().get()
        && one.get_highest_seqno() == other.get_highest_seqno()
        && one.get_highest_memtable_seqno() == other.get_highest_memtable_seqno()
        && one.get_highest_persisted_seqno() == other.get_highest_persisted_seqno()
        && one.is_compacting() == other.is_compacting()
}

/// Where what was to go is gone, both have as many super versions and bytes in memory. Else the first may have more.
fn are_as_long(one: &Tree, other: &Tree, is_clean: bool) -> bool {
    let (free, other_free) = (one.version_free_list_len(), other.version_free_list_len());
    let (bytes, other_bytes) = (
        one.version_memtable_size_sum(),
        other.version_memtable_size_sum(),
    );
    if is_clean {
        free == other_free && bytes == other_bytes
    } else {
        free >= other_free && bytes >= other_bytes
    }
}

/// A read, once more where it was refused for want of memory.
pub fn get(tree: &Tree, name: &str, snapshot: SeqNo) -> Result<Option<UserValue>, Error> {
    match tree.get(name.as_bytes(), snapshot) {
        Err(Error::OutOfMemory) => tree.get(name.as_bytes(), snapshot),
        found => found,
    }
}

/// Whether both are answered alike. A snapshot that the other one has forgotten may still be there where something was
/// to go and is not gone.
fn answer_alike<T: PartialEq + Drop>(
    one: Result<T, Error>,
    other: Result<T, Error>,
    is_clean: bool,
) -> bool {
    match (one, other) {
        (Ok(found), Ok(other)) => found == other,
        (Err(Error::SnapshotTooOld), Err(Error::SnapshotTooOld)) => true,
        (Ok(_), Err(Error::SnapshotTooOld)) => !is_clean,
        _ => false,
    }
}

/// Whether both answer reads of a key alike, also what takes no memory.
fn read_alike(one: &Tree, other: &Tree, name: &str, snapshot: SeqNo, is_clean: bool) -> bool {
    let key = name.as_bytes();
    answer_alike(
        get(one, name, snapshot),
        get(other, name, snapshot),
        is_clean,
    ) && answer_alike(
        one.size_of(key, snapshot),
        other.size_of(key, snapshot),
        is_clean,
    )
}

fn reads_alike(one: &Tree, other: &Tree, name: &str, is_clean: bool) -> bool {
    for snapshot in &SNAPSHOTS {
        if !read_alike(one, other, name, *snapshot, is_clean) {
            return false;
        }
    }
    true
}

/// Whether two trees answer each read alike, and count alike.
pub fn agree(one: &Tree, other: &Tree, is_clean: bool) -> bool {
    for name in &KEYS {
        if !reads_alike(one, other, *name, is_clean) {
            return false;
        }
    }
    count_alike(one, other) && number_alike(one, other) && are_as_long(one, other, is_clean)
}
