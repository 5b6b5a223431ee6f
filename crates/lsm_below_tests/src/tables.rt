// Tables.

use crate::samples::{T, V, W, entry, run_of};
use bytes::Bytes;
use lsm_below::{InternalValue, Ranged, SeqNo, UserKey};
use lsm_tables::{Checksum, Table, TableError, is_writable, write_tables};
use std::alloc::{AllocError, Global};
use std::ops::Bound;
use std::process::Abort;
use std::test::Fail;

fn entries(alloc: Global) -> Result<Vec<InternalValue>, AllocError> {
    Ok(vec![in alloc;
        entry(b"a", 9, W),
        entry(b"a", 7, V),
        entry(b"b", 8, W),
        entry(b"b", 5, T),
        entry(b"b", 3, V),
        entry(b"c", 2, W),
    ]?)
}

/// The images of entries in one table, made at 5.
fn images_of(
    rt: &impl Abort,
    alloc: Global,
    entries: &[InternalValue],
) -> Result<Vec<Vec<u8>>, AllocError> {
    assert!(rt; is_writable(entries));
    write_tables(alloc, u64::MAX, 5, entries)
}

/// The image of the entries.
fn image(rt: &impl Abort, alloc: Global) -> Result<Bytes, Fail> {
    let entries = entries(alloc)?;
    let images = images_of(rt, alloc, &entries);
    drop(entries);
    let image = images?.pop().ok_or("no image")?;
    Ok(Bytes::from_vec(image)?)
}

fn table(rt: &impl Abort, alloc: Global) -> Result<Table, Fail> {
    Ok(Table::recover(alloc, 4, image(rt, alloc)?)?)
}

fn tells(table: &Table) -> bool {
    table.id() == 4 && table.created_at() == 5 && table.global_seqno() == 0
}

fn counts(table: &Table) -> bool {
    table.item_count() == 6
        && table.entries().len() == 6
        && table.tombstone_count() == 4
        && table.weak_tombstone_count() == 3
        && table.weak_tombstone_reclaimable() == 1
        && table.get_highest_seqno() == 9
}

fn finds(table: &Table, key: &[u8], snapshot: SeqNo, number: SeqNo) -> bool {
    match table.get(key, snapshot) {
        Some(entry) => entry.key.seqno == number,
        None => false,
    }
}

/// Whether the newest entry below a snapshot is found.
fn finds_the_newest(table: &Table) -> bool {
    finds(table, b"a", 10, 9)
        && finds(table, b"a", 9, 7)
        && table.get(b"a", 7).is_none()
        && table.get(b"d", 10).is_none()
}

/// Whether its parts are as long as they have to be.
fn has_parts(table: &Table) -> bool {
    let in_b = Bound::Included(UserKey::from_static(b"b"));
    let above_b = Bound::Excluded(UserKey::from_static(b"b"));
    table.range(&in_b, &in_b).len() == 3
        && table.range(&Bound::Unbounded, &in_b).len() == 5
        && table.range(&above_b, &Bound::Unbounded).len() == 1
}

fn has_keys(table: &Table) -> bool {
    table.facts();
    let range = table.key_range();
    range.contains_key(b"a") && range.contains_key(b"c") && !range.contains_key(b"d")
}

#[test]
fn what_it_answers(rt: HostRuntime) -> Result<(), Fail> {
    let table = table(&rt, rt.alloc())?;
    assert!(rt; tells(&table));
    assert!(rt; counts(&table));
    assert!(rt; finds_the_newest(&table));
    assert!(rt; has_parts(&table));
    drop(table);
    Ok(())
}

#[test]
fn the_file(rt: HostRuntime) -> Result<(), Fail> {
    let bytes = image(&rt, rt.alloc())?;
    let sum = Checksum::of(bytes.as_slice());
    let table = Table::recover(rt.alloc(), 4, bytes)?;
    assert!(rt; table.file_size() == 118 && table.checksum() == sum);
    drop(table);
    Ok(())
}

#[test]
fn bytes_that_are_no_image(rt: HostRuntime) -> Result<(), Fail> {
    let bytes = Bytes::copy_from_slice(rt.alloc(), b"LSMT")?;
    let found = Table::recover(rt.alloc(), 4, bytes);
    assert!(rt; matches!(found, Err(TableError::BadTable)));
    Ok(())
}

#[test]
fn a_copy_has_its_keys(rt: HostRuntime) -> Result<(), Fail> {
    let table = table(&rt, rt.alloc())?;
    let copied = table.copy();
    drop(table);
    assert!(rt; has_keys(&copied?));
    Ok(())
}

fn one(alloc: Global, table: Table) -> Result<Vec<Table>, AllocError> {
    Ok(vec![in alloc; table]?)
}

#[test]
fn a_run_of_tables(rt: HostRuntime) -> Result<(), Fail> {
    let run = run_of(&rt, one(rt.alloc(), table(&rt, rt.alloc())?)?);
    let copied = run.copy();
    drop(run);
    assert!(rt; copied?.get_for_key(b"b").is_some());
    Ok(())
}
