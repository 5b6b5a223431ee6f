// A file `version` of an older kind of tree beside each damage, and a run of no tables.
use crate::samples::{FORMATS, Told, file, put_table, put_version, tells};
use lsm_state::{MemStore, Store, StoreError};
use std::alloc::Global;
use std::test::Fail;

/// What is done to the files of a tree. None of them has 256 bytes.
#[derive(Clone, Copy)]
enum Damage {
    /// A file has no more than its first bytes, so many.
    Cut(&'static str, usize),
    /// A file is removed.
    Absent(&'static str),
    /// A byte of `v1` is another one.
    Byte(usize, u8),
    /// There is a file of a name that is refused.
    Name(&'static str),
}

use Damage::{Absent, Byte, Cut, Name};

const FILES: [&str; 3] = ["current", "v1", "tables/0"];

/// The format, the tree type and the level count are among the bytes that are changed.
const OTHERS: [Damage; 9] = [
    Absent("current"),
    Absent("v1"),
    Absent("tables/0"),
    Byte(23, 2),
    Byte(70, 1),
    Byte(91, 6),
    Name("tables/00"),
    Name("tables/+0"),
    Name("tables/18446744073709551616"),
];

/// Puts these bytes in place of a file's, with the sum made again where it is the version's.
fn put(store: &mut MemStore, name: &str, bytes: &[u8]) -> Result<(), StoreError> {
    if name == "v1" {
        put_version(store, bytes)
    } else {
        store.replace(name, bytes)
    }
}

fn cut(alloc: Global, store: &mut MemStore, name: &str, len: usize) -> Result<(), StoreError> {
    let mut bytes = file(alloc, store, name)?;
    bytes.truncate(len);
    put(store, name, &bytes)
}

fn change(alloc: Global, store: &mut MemStore, place: usize, byte: u8) -> Result<(), StoreError> {
    let mut bytes = file(alloc, store, "v1")?;
    if let Some(found) = bytes.get_mut(place) {
        *found = byte;
    }
    put_version(store, &bytes)
}

fn harm(alloc: Global, store: &mut MemStore, damage: Damage) -> Result<(), StoreError> {
    match damage {
        Damage::Cut(name, len) => cut(alloc, store, name, len),
        Damage::Absent(name) => store.remove(name),
        Damage::Byte(place, byte) => change(alloc, store, place, byte),
        Damage::Name(name) => store.replace(name, b"1"),
    }
}

/// Whether the older kind of tree is told of a store, and each name stays.
fn is_told(alloc: Global, store: &mut MemStore) -> Result<bool, StoreError> {
    let told = tells(alloc, store)?;
    let names = store.list(alloc)?.len();
    Ok(told.error == 5 && told.format == 1 && told.is_same && told.names == names)
}

fn harm_and_tell(
    alloc: Global,
    store: &mut MemStore,
    format: u8,
    damage: Damage,
) -> Result<bool, StoreError> {
    put_table(alloc, store, format)?;
    store.replace("version", b"")?;
    harm(alloc, store, damage)?;
    is_told(alloc, store)
}

fn is_told_beside(alloc: Global, format: u8, damage: Damage) -> Result<bool, StoreError> {
    let mut store = MemStore::new(alloc);
    let told = harm_and_tell(alloc, &mut store, format, damage);
    drop(store);
    told
}

/// Whether an older kind of tree is told of beside each cut of a file, and all of it.
fn is_each_cut_told(alloc: Global, format: u8, name: &'static str) -> Result<bool, StoreError> {
    for len in 0..256 {
        if !is_told_beside(alloc, format, Cut(name, len))? {
            return Ok(false);
        }
    }
    Ok(true)
}

#[test]
fn an_older_tree_is_told_before_a_cut(rt: HostRuntime) -> Result<(), Fail> {
    for format in &FORMATS {
        for name in &FILES {
            let told = is_each_cut_told(rt.alloc(), *format, *name)?;
            assert!(rt; told, "{name} of format {format}");
        }
    }
    Ok(())
}

#[test]
fn an_older_tree_is_told_before_all_else(rt: HostRuntime) -> Result<(), Fail> {
    for format in &FORMATS {
        for (place, damage) in OTHERS.iter().enumerate() {
            let told = is_told_beside(rt.alloc(), *format, *damage)?;
            assert!(rt; told, "damage {place} of format {format}");
        }
    }
    Ok(())
}

// ---- a run of no tables

/// Where the length of the layout, the length of its first run and the entry of its only table stand in `v1`.
const LAYOUT_LEN: usize = 125;

const RUN_LEN: usize = 135;

const TABLE: usize = 139;

const BEHIND_TABLE: usize = 172;

/// `v1` with a run of no tables in place of the one with a table.
fn without_table(alloc: Global, bytes: &[u8]) -> Result<Vec<u8>, StoreError> {
    let mut left = bytes.get(..TABLE).unwrap_or_default().to_vec(alloc)?;
    left.extend_from_slice(bytes.get(BEHIND_TABLE..).unwrap_or_default())?;
    if let Some(found) = left.get_mut(LAYOUT_LEN) {
        *found = 12;
    }
    if let Some(found) = left.get_mut(RUN_LEN) {
        *found = 0;
    }
    Ok(left)
}

fn put_without_table(alloc: Global, store: &mut MemStore, format: u8) -> Result<Told, StoreError> {
    put_table(alloc, store, format)?;
    let bytes = file(alloc, store, "v1")?;
    put_version(store, &without_table(alloc, &bytes)?)?;
    tells(alloc, store)
}

fn tells_empty_run(alloc: Global, format: u8) -> Result<Told, StoreError> {
    let mut store = MemStore::new(alloc);
    let told = put_without_table(alloc, &mut store, format);
    drop(store);
    told
}

const UNRECOVERABLE: Told = Told {
    error: 4,
    format: 0,
    names: 4,
    is_same: true,
    next: 0,
};

#[test]
fn a_run_of_no_tables_is_unrecoverable(rt: HostRuntime) -> Result<(), Fail> {
    for format in &FORMATS {
        let told = tells_empty_run(rt.alloc(), *format)?;
        assert!(rt; told == UNRECOVERABLE, "format {format}");
    }
    Ok(())
}
