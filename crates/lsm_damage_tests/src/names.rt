// Names beside the files of a tree, and none of its own.
use crate::samples::{FORMATS, Told, put_table, tells};
use lsm_state::{MemStore, Store, StoreError};
use std::alloc::Global;
use std::test::Fail;

/// A store with `current`, `v0`, `v1`, `tables/0` and one more name is refused, and each name stays.
const REFUSED: Told = Told {
    error: 4,
    format: 0,
    names: 5,
    is_same: true,
    next: 0,
};

/// It is opened: `v0` goes, and the name too.
const REMOVED: Told = Told {
    error: 0,
    format: 0,
    names: 3,
    is_same: true,
    next: 1,
};

/// It is opened, and the name stays.
const SKIPPED: Told = Told {
    error: 0,
    format: 0,
    names: 4,
    is_same: true,
    next: 1,
};

const NAMES: [(&str, Told); 10] = [
    ("tables/00", REFUSED),
    ("tables/+0", REFUSED),
    ("tables/0.bak", REFUSED),
    ("tables/05", REFUSED),
    ("tables/-1", REFUSED),
    ("tables/18446744073709551616", REFUSED),
    ("tables/18446744073709551615", REMOVED),
    ("tables/1", REMOVED),
    ("tables/.DS_Store", SKIPPED),
    ("tables/._0", SKIPPED),
];

fn put_and_tell(
    alloc: Global,
    store: &mut MemStore,
    format: u8,
    name: &str,
) -> Result<Told, StoreError> {
    put_table(alloc, store, format)?;
    store.replace(name, b"1")?;
    tells(alloc, store)
}

fn tells_beside(alloc: Global, format: u8, name: &str) -> Result<Told, StoreError> {
    let mut store = MemStore::new(alloc);
    let told = put_and_tell(alloc, &mut store, format, name);
    drop(store);
    told
}

#[test]
fn names_are_refused_or_removed_or_skipped(rt: HostRuntime) -> Result<(), Fail> {
    for format in &FORMATS {
        for (name, wanted) in &NAMES {
            let told = tells_beside(rt.alloc(), *format, *name)?;
            assert!(rt; told == *wanted, "{name} beside format {format}");
        }
    }
    Ok(())
}

fn put_alone(alloc: Global, store: &mut MemStore, name: &str) -> Result<Told, StoreError> {
    store.replace(name, b"1")?;
    tells(alloc, store)
}

fn tells_alone(alloc: Global, name: &str) -> Result<Told, StoreError> {
    let mut store = MemStore::new(alloc);
    let told = put_alone(alloc, &mut store, name);
    drop(store);
    told
}

/// Without `current` a bad name is refused, and nothing is written; another one stays beside the two files of a new tree.
const ALONE: [(&str, Told); 2] = [("tables/05", REFUSED_ALONE), ("tables/5", LEFT_ALONE)];

const REFUSED_ALONE: Told = Told {
    error: 4,
    format: 0,
    names: 1,
    is_same: true,
    next: 0,
};

const LEFT_ALONE: Told = Told {
    error: 0,
    format: 0,
    names: 3,
    is_same: false,
    next: 0,
};

#[test]
fn names_without_a_tree_are_refused_or_left(rt: HostRuntime) -> Result<(), Fail> {
    for (name, wanted) in &ALONE {
        let told = tells_alone(rt.alloc(), *name)?;
        assert!(rt; told == *wanted, "{name}");
    }
    Ok(())
}
