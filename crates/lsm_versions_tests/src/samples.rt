// What tests make tables and versions by.
//
// What owns a table borrows it to a helper, and has no `?` after: a deep value that is dropped is long to prove.

use bytes::Bytes;
use lsm_below::{InternalValue, Run, SeqNo, TableId, UserKey, UserValue, ValueType};
use lsm_tables::{Table, is_writable, write_tables};
use lsm_versions::{HiddenSet, Level, Version, ids_are_own, levels_fit};
use std::alloc::{AllocError, Global};
use std::collections::HashSet;
use std::process::Abort;
use std::test::Fail;

/// A table of one entry, by its level, its id, and its key.
pub type Row = (usize, TableId, &'static str);

pub const THREE: [Row; 3] = [(0, 2, "b"), (0, 1, "a"), (6, 0, "a")];

fn entries(
    alloc: Global,
    key: &'static str,
    seqno: SeqNo,
) -> Result<Vec<InternalValue>, AllocError> {
    let key = UserKey::from_static(key.as_bytes());
    let value = UserValue::from_static(b"x");
    let entry = InternalValue::from_components(key, value, seqno, ValueType::Value);
    Ok(vec![in alloc; entry]?)
}

/// A table of one entry, x under a key, with its sequence number and the moment at which it is made. Its file has 37 bytes where
/// the key has one.
pub fn table(
    rt: &impl Abort,
    alloc: Global,
    id: TableId,
    key: &'static str,
    (seqno, made): (SeqNo, u64),
) -> Result<Table, Fail> {
    let entries = entries(alloc, key, seqno)?;
    assert!(rt; is_writable(&entries));
    let images = write_tables(alloc, u64::MAX, made, &entries);
    drop(entries);
    let image = images?.pop().ok_or("no image")?;
    Ok(Table::recover(alloc, id, Bytes::from_vec(image)?)?)
}

/// The level of some rows, each a run of its own.
fn level(rt: &impl Abort, alloc: Global, n: usize, rows: &[Row]) -> Result<Level, Fail> {
    let mut runs = Vec::new(alloc);
    for (at, id, key) in rows {
        if *at == n {
            let run = Run::single(alloc, table(rt, alloc, *id, key, (*id, 0))?)?;
            runs.push(run)?;
        }
    }
    Ok(Level::from_runs(runs))
}

fn levels(rt: &impl Abort, alloc: Global, rows: &[Row]) -> Result<Vec<Level>, Fail> {
    let mut levels = Vec::new(alloc);
    for n in 0..7 {
        levels.push(level(rt, alloc, n, rows)?)?;
    }
    Ok(levels)
}

/// The version of some rows, whose runs stand in their order.
pub fn version(rt: &impl Abort, alloc: Global, id: u64, rows: &[Row]) -> Result<Version, Fail> {
    if rows.is_empty() {
        return Ok(Version::new(alloc, id));
    }
    let levels = levels(rt, alloc, rows)?;
    let own = ids_are_own(alloc, &[], &levels)?;
    assert!(rt; own);
    assert!(rt; levels.len() == 7);
    assert!(rt; levels_fit(&levels));
    Ok(Version::from_levels(id, levels))
}

/// The set of some ids.
pub fn ids(alloc: Global, list: &[TableId]) -> Result<HashSet<TableId>, AllocError> {
    let mut set = HashSet::new(alloc);
    for id in list {
        set.insert(*id)?;
    }
    Ok(set)
}

/// The hidden set of some ids.
pub fn hidden(alloc: Global, list: &[TableId]) -> Result<HiddenSet, AllocError> {
    let mut set = HiddenSet::new(alloc);
    set.hide(&ids(alloc, list)?)?;
    Ok(set)
}
