// A tree in layers: tables in three runs, a sealed memtable and the active one, and an index to lie over them.
//
// The value of an entry is the least byte of its sequence number, so that a value tells which entry is given.

use crate::samples::{FORMAT_4, Runs, fill};
use lsm_state::{
    Config, Error, InternalValue, MemStore, Memtable, SeqNo, StoreError, TreeState, UserKey,
    UserValue, ValueType,
};
use std::alloc::{AllocError, Global};

/// The key of an entry, its sequence number, and what it does to its key.
pub type Entry = (&'static str, SeqNo, ValueType);

/// The number of the first write of an index.
pub const INDEX: SeqNo = 9_223_372_036_854_775_808;

const VALUE: ValueType = ValueType::Value;

const GONE: ValueType = ValueType::Tombstone;

const WEAK: ValueType = ValueType::WeakTombstone;

/// The first level's newest run.
pub const NEWEST: [Entry; 7] = [
    ("ab", 15, GONE),
    ("c", 25, VALUE),
    ("c", 14, VALUE),
    ("d", 13, VALUE),
    ("f", 20, GONE),
    ("f", 16, VALUE),
    ("h", 17, VALUE),
];

/// The first level's other run.
pub const OLDER: [Entry; 6] = [
    ("a", 8, VALUE),
    ("b", 9, GONE),
    ("d", 10, WEAK),
    ("e", 12, VALUE),
    ("e", 11, GONE),
    ("g", 30, VALUE),
];

/// The first table of the second level's run.
pub const LEFT: [Entry; 4] = [
    ("a", 1, VALUE),
    ("ab", 2, VALUE),
    ("b", 3, VALUE),
    ("b", 1, VALUE),
];

/// The second table of that run. It has so many entries of one key that they are searched.
pub const RIGHT: [Entry; 18] = [
    ("c", 4, VALUE),
    ("d", 5, VALUE),
    ("d", 2, VALUE),
    ("e", 6, VALUE),
    ("f", 7, VALUE),
    ("i", 12, VALUE),
    ("i", 11, VALUE),
    ("i", 10, VALUE),
    ("i", 9, VALUE),
    ("i", 8, VALUE),
    ("i", 7, VALUE),
    ("i", 6, VALUE),
    ("i", 5, VALUE),
    ("i", 4, VALUE),
    ("i", 3, VALUE),
    ("i", 2, VALUE),
    ("i", 1, VALUE),
    ("i", 0, VALUE),
];

/// The sealed memtable.
pub const SEALED: [Entry; 3] = [("b", 18, VALUE), ("e", 19, GONE), ("j", 5, VALUE)];

/// The active memtable.
pub const ACTIVE: [Entry; 4] = [
    ("g", 21, VALUE),
    ("h", 20, VALUE),
    ("j", 22, VALUE),
    ("j", 19, WEAK),
];

/// The index, whose first entry is older than the tree's of that key.
const OVER: [Entry; 7] = [
    ("a", 5, VALUE),
    ("ab", INDEX + 40, VALUE),
    ("b", INDEX + 41, GONE),
    ("c", INDEX + 42, VALUE),
    ("e", INDEX + 50, VALUE),
    ("f", INDEX + 43, WEAK),
    ("k", INDEX + 44, VALUE),
];

/// The least byte of a sequence number.
pub fn least_byte(number: SeqNo) -> u8 {
    let [byte, ..] = number.to_le_bytes();
    byte
}

fn entry_of(alloc: Global, entry: Entry) -> Result<InternalValue, AllocError> {
    let (key, number, kind) = entry;
    let key = UserKey::from_static(key.as_bytes());
    let value = UserValue::copy_from_slice(alloc, &[least_byte(number)])?;
    Ok(InternalValue::from_components(key, value, number, kind))
}

/// The content of a table's file, made at 0.
fn table_of(alloc: Global, entries: &[Entry]) -> Result<Vec<u8>, AllocError> {
    let mut out = b"LSMT\0\0\0\0\0\0\0\0".to_vec(alloc)?;
    out.extend_from_slice(&(entries.len() as u64).to_le_bytes())?;
    for (key, number, kind) in entries {
        let [low, high, ..] = key.len().to_le_bytes();
        let (code, len): (u8, u8) = match kind {
            ValueType::Value => (0, 1),
            ValueType::Tombstone => (1, 0),
            ValueType::WeakTombstone => (2, 0),
        };
        out.extend_from_slice(&[low, high])?;
        out.extend_from_slice(&number.to_le_bytes())?;
        out.extend_from_slice(&[code, len, 0, 0, 0])?;
        out.extend_from_slice(key.as_bytes())?;
        if len > 0 {
            out.push(least_byte(*number))?;
        }
    }
    Ok(out)
}

const THREE_RUNS: Runs = [&[1, 1], &[2]];

/// Version 5 with tables 3 to 6 in three runs.
fn fill_layers(alloc: Global, store: &mut MemStore) -> Result<(), StoreError> {
    let newest = table_of(alloc, &NEWEST)?;
    let older = table_of(alloc, &OLDER)?;
    let left = table_of(alloc, &LEFT)?;
    let right = table_of(alloc, &RIGHT)?;
    let tables: [&[u8]; 4] = [&newest, &older, &left, &right];
    fill(alloc, store, FORMAT_4, THREE_RUNS, &tables)
}

/// Writes the entries of the sealed memtable, and those of the active one.
fn write_layers(alloc: Global, tree: &mut TreeState) -> Result<(), Error> {
    for entry in SEALED {
        tree.append_entry(entry_of(alloc, entry)?)?;
    }
    tree.rotate_memtable()?;
    for entry in ACTIVE {
        tree.append_entry(entry_of(alloc, entry)?)?;
    }
    Ok(())
}

/// The tree of a store, which was filled or refused to be.
pub fn open_filled(
    alloc: Global,
    store: MemStore,
    filled: Result<(), StoreError>,
) -> Result<TreeState, Error> {
    match TreeState::open(alloc, Config::new(0, 0, 0), store) {
        Ok(tree) if filled.is_ok() => Ok(tree),
        Ok(_) => Err(Error::Store),
        Err((error, _)) => Err(error),
    }
}

/// The tree with all its layers.
fn open_layers(alloc: Global) -> Result<TreeState, Error> {
    let mut store = MemStore::new(alloc);
    let filled = fill_layers(alloc, &mut store);
    let mut tree = open_filled(alloc, store, filled)?;
    match write_layers(alloc, &mut tree) {
        Ok(()) => Ok(tree),
        Err(error) => Err(error),
    }
}

/// The tree with all its layers, and the index.
pub type Layers = (TreeState, Memtable);

pub fn make_layers(alloc: Global) -> Result<Layers, Error> {
    let mut index = Memtable::new(alloc, 9);
    for entry in OVER {
        index.insert(entry_of(alloc, entry)?)?;
    }
    Ok((open_layers(alloc)?, index))
}
