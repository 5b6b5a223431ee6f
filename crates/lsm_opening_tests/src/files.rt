// Files of tables that are written from their contents, and removed.

use crate::samples::{Changes, has};
use bytes::Bytes;
use lsm_commit::{remove_tables, write_contents};
use lsm_state::{Error, LIMIT, MemStore, TableId};
use std::alloc::Global;
use std::collections::HashSet;
use std::test::Fail;

/// Writes two contents from this id on. Answers the ids, and the next one.
fn write(
    alloc: Global,
    store: &mut MemStore,
    first: TableId,
) -> Result<(Vec<TableId>, TableId), Error> {
    let mut next = first;
    let contents = vec![in alloc; Bytes::from_static(b"a"), Bytes::from_static(b"b")]?;
    let ids = write_contents(alloc, store, &mut next, &contents)?;
    Ok((ids, next))
}

/// Whether a crash leaves these contents.
fn leaves(alloc: Global, store: &MemStore, contents: Changes<'_>) -> Result<bool, Fail> {
    match store.crash(&[])? {
        Some(mut left) => Ok(has(alloc, &mut left, contents)?),
        None => Ok(false),
    }
}

#[test]
fn contents_are_written_and_removed(rt: HostRuntime) -> Result<(), Fail> {
    let mut store = MemStore::new(rt.alloc());
    let (ids, next) = write(rt.alloc(), &mut store, 5)?;
    assert!(rt; ids.as_slice() == [5, 6].as_slice() && next == 7);
    let written: Changes<'_> = &[("tables/5", Some(b"a")), ("tables/6", Some(b"b"))];
    assert!(rt; leaves(rt.alloc(), &store, written)?);
    let mut removed = HashSet::new(rt.alloc());
    removed.insert(5)?;
    remove_tables(&mut store, &removed)?;
    let left: Changes<'_> = &[("tables/5", None), ("tables/6", Some(b"b"))];
    assert!(rt; has(rt.alloc(), &mut store, left)?);
    drop(store);
    Ok(())
}

#[test]
fn numbers_end(rt: HostRuntime) -> Result<(), Fail> {
    let mut store = MemStore::new(rt.alloc());
    let told = write(rt.alloc(), &mut store, LIMIT - 1);
    assert!(rt; matches!(told, Err(Error::OutOfNumbers)));
    let left: Changes<'_> = &[
        ("tables/9223372036854775807", Some(b"a")),
        ("tables/9223372036854775808", None),
    ];
    assert!(rt; leaves(rt.alloc(), &store, left)?);
    drop(store);
    Ok(())
}
