// Logged trees over a store in memory, what is done to them, and what they show.
use lsm_logged::Logged;
use lsm_state::{Config, Error, MemStore, Op, Pick, Store, UserKey, UserValue};
use std::alloc::Global;

pub fn opened(alloc: Global, store: MemStore) -> Result<Logged, Error> {
    match Logged::open(alloc, Config::new(0, 0, 0), store) {
        Ok(tree) => Ok(tree),
        Err((error, _)) => Err(error),
    }
}

/// A new tree.
pub fn fresh(alloc: Global) -> Result<Logged, Error> {
    opened(alloc, MemStore::new(alloc))
}

/// The store that a crash leaves.
pub fn left(tree: &Logged, picks: &[(&str, Pick<'_>)]) -> Result<MemStore, Error> {
    match tree.store().crash(picks)? {
        Some(store) => Ok(store),
        None => Err(Error::Store),
    }
}

/// The tree that is opened after a crash.
pub fn crashed(alloc: Global, tree: &Logged, picks: &[(&str, Pick<'_>)]) -> Result<Logged, Error> {
    opened(alloc, left(tree, picks)?)
}

/// Puts a record's file back, as by hand: no crash does, since what is removed is settled at once. It must be there then.
pub fn put_back(
    alloc: Global,
    store: &mut MemStore,
    name: &str,
    record: &[u8],
) -> Result<(), Error> {
    let put = store.replace(name, record).is_ok();
    match store.read(alloc, name) {
        Ok(Some(read)) if put && read.as_slice() == record => Ok(()),
        _ => Err(Error::Store),
    }
}

/// The store that a crash leaves, to which records are put back.
pub fn left_with(
    alloc: Global,
    tree: &Logged,
    records: &[(&str, &[u8])],
) -> Result<MemStore, Error> {
    let mut store = left(tree, &[])?;
    for (name, record) in records {
        put_back(alloc, &mut store, name, record)?;
    }
    Ok(store)
}

/// The operation that sets a key to a value, or removes it.
pub fn op(key: &'static str, value: Option<&'static str>) -> (UserKey, Op) {
    let op = match value {
        Some(value) => Op::Set(UserValue::from_static(value.as_bytes())),
        None => Op::Del,
    };
    (UserKey::from_static(key.as_bytes()), op)
}

/// Writes a batch of one operation.
pub fn write(
    alloc: Global,
    tree: &mut Logged,
    key: &'static str,
    value: Option<&'static str>,
) -> Result<u64, Error> {
    tree.write(vec![in alloc; op(key, value)]?)
}

/// Seals and flushes all of it, and tells whether it was installed, and all was cleaned up.
pub fn flush(tree: &mut Logged) -> Result<bool, Error> {
    match tree.flush_active_memtable(0) {
        Ok((_, Some((_, told)))) => Ok(told.installed && told.cleaned),
        Ok((_, None)) => Ok(false),
        Err((error, _)) => Err(error),
    }
}

/// Whether a key has this value at a snapshot, or none.
pub fn shows(tree: &Logged, snapshot: u64, key: &str, value: Option<&str>) -> Result<bool, Error> {
    match tree.get(key.as_bytes(), snapshot)? {
        Some(found) => Ok(value.is_some_and(|value| found.as_slice() == value.as_bytes())),
        None => Ok(value.is_none()),
    }
}

/// The names of the store.
fn list(alloc: Global, tree: &Logged) -> Result<Vec<String>, Error> {
    let mut store = left(tree, &[])?;
    let listed = store.list(alloc);
    drop(store);
    match listed {
        Ok(names) => Ok(names),
        Err(_) => Err(Error::Store),
    }
}

/// Whether the names of the store that begin so are these, in whatever order.
pub fn has_names(
    alloc: Global,
    tree: &Logged,
    prefix: &str,
    wanted: &[&str],
) -> Result<bool, Error> {
    let names = list(alloc, tree)?;
    let count = names.iter().filter(|name| name.starts_with(prefix)).count();
    let is_there = |wanted: &&str| names.iter().any(|name| name.as_str() == *wanted);
    Ok(count == wanted.len() && wanted.iter().all(is_there))
}

/// How many records the store has.
pub fn count_records(alloc: Global, tree: &Logged) -> Result<usize, Error> {
    let names = list(alloc, tree)?;
    Ok(names.iter().filter(|name| name.starts_with("log/")).count())
}

/// The bytes of a file, none where it isn't there.
pub fn file(alloc: Global, tree: &Logged, name: &str) -> Result<Vec<u8>, Error> {
    let mut store = left(tree, &[])?;
    let read = store.read(alloc, name);
    drop(store);
    match read {
        Ok(Some(bytes)) => Ok(bytes),
        Ok(None) => Ok(Vec::new(alloc)),
        Err(_) => Err(Error::Store),
    }
}
