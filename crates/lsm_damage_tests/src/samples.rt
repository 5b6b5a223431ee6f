// A store with one table, in both formats, and what an opening makes of it.
use lsm_manifest::write_current;
use lsm_state::{Checksum, Config, Error, MemStore, Op, Store, StoreError, TreeState, UserKey};
use std::alloc::Global;

pub const FORMATS: [u8; 2] = [3, 4];

/// Where the format's byte stands in a version's file, and where format 3 ends: what follows says from where on a log is read.
const FORMAT_PLACE: usize = 23;

const END_OF_3: usize = 178;

pub fn text(spelled: &'static str) -> UserKey {
    UserKey::from_static(spelled.as_bytes())
}

pub fn open(alloc: Global, next: u64, store: MemStore) -> Result<TreeState, (Error, MemStore)> {
    TreeState::open(alloc, Config::new(0, next, next), store)
}

/// Sets a key, in a table of its own.
pub fn set(
    alloc: Global,
    tree: &mut TreeState,
    key: &'static str,
    value: &'static str,
) -> Result<(), Error> {
    tree.write(vec![in alloc; (text(key), Op::Set(text(value)))]?)?;
    match tree.flush_active_memtable(0) {
        Ok(_) => Ok(()),
        Err((error, _)) => Err(error),
    }
}

/// A new tree.
pub fn open_new(alloc: Global) -> Result<TreeState, Error> {
    match open(alloc, 0, MemStore::new(alloc)) {
        Ok(tree) => Ok(tree),
        Err((error, _)) => Err(error),
    }
}

/// `v1` with these bytes, which `current` names with their sum.
pub fn put_version(store: &mut MemStore, bytes: &[u8]) -> Result<(), StoreError> {
    store.replace("v1", bytes)?;
    store.replace(
        "current",
        &write_current(1, Checksum::of(bytes).into_u128()),
    )
}

/// The bytes of a file: none where it isn't there.
pub fn file(alloc: Global, store: &mut MemStore, name: &str) -> Result<Vec<u8>, StoreError> {
    match store.read(alloc, name)? {
        Some(bytes) => Ok(bytes),
        None => Ok(Vec::new(alloc)),
    }
}

/// Puts `v1` in a format in the place of the one in format 4.
fn put_format(alloc: Global, store: &mut MemStore, format: u8) -> Result<(), StoreError> {
    let mut bytes = file(alloc, store, "v1")?;
    if let Some(place) = bytes.get_mut(FORMAT_PLACE) {
        *place = format;
    }
    if format == 3 {
        bytes.truncate(END_OF_3);
    }
    put_version(store, &bytes)
}

/// Puts `current`, `v1` in a format, and a = x in `tables/0` into a store, in place of all that it held; `v0` is left beside.
pub fn put_table(alloc: Global, store: &mut MemStore, format: u8) -> Result<(), StoreError> {
    let Ok(mut tree) = open_new(alloc) else {
        return Err(StoreError::OutOfMemory);
    };
    let is_set = set(alloc, &mut tree, "a", "x").is_ok();
    *store = tree.into_store();
    if is_set {
        put_format(alloc, store, format)
    } else {
        Err(StoreError::OutOfMemory)
    }
}

/// What an opening answers: the number of its error, and the format that it found; how many names are left, and whether these
/// have the contents that they had; and the next table's id, 0 where it is refused.
#[derive(Clone, Copy, PartialEq, Eq)]
pub struct Told {
    pub error: u8,
    pub format: u8,
    pub names: usize,
    pub is_same: bool,
    pub next: u64,
}

/// Whether each name has the content that it had in another store.
fn are_same(
    alloc: Global,
    store: &mut MemStore,
    before: &mut MemStore,
) -> Result<bool, StoreError> {
    let names = store.list(alloc)?;
    for name in &names {
        if store.read(alloc, name)? != before.read(alloc, name)? {
            return Ok(false);
        }
    }
    Ok(true)
}

/// The number of an error, and the format that it tells.
fn numbers(error: Error) -> (u8, u8) {
    let format = match error {
        Error::InvalidVersion(format) => format,
        _ => 0,
    };
    (error.number(), format)
}

/// The store that an opening leaves; the number of its error, the format that it found, and the next table's id.
fn opened(alloc: Global, store: MemStore) -> (MemStore, (u8, u8), u64) {
    match open(alloc, 10, store) {
        Ok(tree) => {
            let next = tree.next_table_id();
            (tree.into_store(), (0, 0), next)
        }
        Err((error, store)) => (store, numbers(error), 0),
    }
}

/// How many names are left, and whether they have the contents that they had.
fn look(
    alloc: Global,
    left: &mut MemStore,
    before: &mut MemStore,
) -> Result<(usize, bool), StoreError> {
    let names = left.list(alloc)?.len();
    Ok((names, are_same(alloc, left, before)?))
}

/// A store like this one.
fn copy(store: &MemStore) -> Result<MemStore, StoreError> {
    match store.crash(&[])? {
        Some(copy) => Ok(copy),
        None => Err(StoreError::Fault),
    }
}

/// What an opening of a store like this one answers.
pub fn tells(alloc: Global, before: &mut MemStore) -> Result<Told, StoreError> {
    let (mut left, (error, format), next) = opened(alloc, copy(before)?);
    let looked = look(alloc, &mut left, before);
    drop(left);
    let (names, is_same) = looked?;
    Ok(Told {
        error,
        format,
        names,
        is_same,
        next,
    })
}
