// The file that a refusal over a real folder is explained by, and that nothing in the folder has changed.

use crate::opening::{ONE, are_same, fill_with};
use crate::samples::{Changes, FORMAT_4, TABLE, change};
use crate::unlogged::{Kind, open};
use lsm_state::{Config, Error, MemStore, Op, Store, StoreError, TreeState, UserKey};
use lsm_store::FolderStore;
use std::alloc::{AllocError, Global};
use std::fs::{self, File, Files};
use std::test::Fail;

const FOLDER: &str = "lsm_explained_test";

/// The record of a = x, numbered 0.
const RECORD: [u8; 25] = [
    0x4c, 0x53, 0x4d, 0x4c, 0, 0, 0, 0, 0, 0, 0, 0, 1, 0, 0, 0, 1, 0, 0, 1, 0, 0, 0, 0x61, 0x78,
];

const ALL: [Kind; 3] = [Kind::Plain, Kind::Recorded, Kind::Logged];

const UNLOGGED: [Kind; 2] = [Kind::Plain, Kind::Recorded];

const UNUSABLE: &str = "the files can't be used, or an earlier outcome is unknown";

const FOREIGN_RECORD: &str = "log/0: open: a record of a write log, which only a logged tree reads";

/// The trees that are opened over version 5 with a table, what is changed of its files, and what is printed: the place and the error.
type Row = (
    &'static [Kind],
    Changes<'static>,
    &'static str,
    &'static str,
);

const ROWS: [Row; 15] = [
    (
        &ALL,
        &[("tables/3", Some(b"1"))],
        "tables/3: open",
        "a checksum differs",
    ),
    (
        &ALL,
        &[("tables/3", None)],
        "tables/3: open: is missing",
        UNUSABLE,
    ),
    (
        &ALL,
        &[("current", Some(b"1"))],
        "current: open",
        "current isn't of its form",
    ),
    (
        &ALL,
        &[("v5", Some(b"1"))],
        "v5: open",
        "a checksum differs",
    ),
    (&ALL, &[("v5", None)], "v5: open: is missing", UNUSABLE),
    (
        &ALL,
        &[("version", Some(b""))],
        "version: open",
        "format byte 1",
    ),
    (
        &ALL,
        &[("log/x", Some(b"1"))],
        "log/x: open: isn't a file of a tree",
        UNUSABLE,
    ),
    (
        &ALL,
        &[("tables/x", Some(b"1"))],
        "tables/x: open: isn't a file of a tree",
        UNUSABLE,
    ),
    (
        &ALL,
        &[("v5", Some(b"1")), ("tables/x", Some(b"1"))],
        "v5: open",
        "a checksum differs",
    ),
    (
        &ALL,
        &[("version", Some(b"")), ("tables/x", Some(b"1"))],
        "version: open",
        "format byte 1",
    ),
    (
        &ALL,
        &[
            ("log/.DS_Store", Some(b"1")),
            ("log/._x", Some(b"1")),
            ("log/x", Some(b"1")),
        ],
        "log/x: open: isn't a file of a tree",
        UNUSABLE,
    ),
    (
        &UNLOGGED,
        &[
            ("log/.DS_Store", Some(b"1")),
            ("log/._x", Some(b"1")),
            ("log/0", Some(&RECORD)),
        ],
        FOREIGN_RECORD,
        UNUSABLE,
    ),
    // A record that counts, and one that is none.
    (
        &UNLOGGED,
        &[("log/0", Some(&RECORD))],
        FOREIGN_RECORD,
        UNUSABLE,
    ),
    (
        &UNLOGGED,
        &[("log/0", Some(b"1"))],
        FOREIGN_RECORD,
        UNUSABLE,
    ),
    (
        &[Kind::Logged],
        &[("log/0", Some(b"1"))],
        "log/0: open",
        UNUSABLE,
    ),
];

fn fill(alloc: Global, store: &mut impl Store, changes: Changes<'_>) -> Result<(), StoreError> {
    let table: Changes<'_> = &[("tables/3", Some(&TABLE))];
    fill_with(alloc, store, (5, FORMAT_4, ONE), table)?;
    change(store, changes)
}

/// Whether an error is explained by this place, in these words.
fn is_explained<R>(
    alloc: Global,
    store: &FolderStore<R>,
    error: Error,
    wanted: (&str, &str),
) -> Result<bool, AllocError>
where
    R: Files<File = File> + Alloc + Clone + Drop,
{
    let (place, words) = wanted;
    let printed = format!(in alloc; "{}", store.explain(error))?;
    Ok(printed.as_str() == format!(in alloc; "{place}: {words}")?.as_str())
}

/// Whether the store has just the files that it was filled with.
fn is_left(
    alloc: Global,
    store: &mut impl Store,
    changes: Changes<'_>,
) -> Result<bool, StoreError> {
    let mut kept = MemStore::new(alloc);
    let filled = fill(alloc, &mut kept, changes);
    let same = are_same(alloc, store, &mut kept);
    drop(kept);
    filled?;
    same
}

/// Whether an opening is refused as the row says, and nothing has changed.
fn is_refused<R>(rt: &R, alloc: Global, kind: Kind, row: Row) -> Result<bool, Fail>
where
    R: Files<File = File> + Alloc + Clone + Drop,
{
    let (_, changes, place, words) = row;
    let _ = fs::remove_dir_all(rt, FOLDER);
    let mut store = FolderStore::new(rt, alloc, FOLDER)?;
    let filled = fill(alloc, &mut store, changes);
    let (mut store, opened) = open(alloc, kind, 0, store);
    let told = match opened {
        Ok(_) => Ok(false),
        Err(error) => is_explained(alloc, &store, error, (place, words)),
    };
    let left = is_left(alloc, &mut store, changes);
    drop(store);
    filled?;
    Ok(told? && left?)
}

#[test]
fn a_refused_opening_names_its_file(rt: HostRuntime) -> Result<(), Fail> {
    for row in ROWS {
        for kind in row.0 {
            let well = is_refused(&rt, rt.alloc(), *kind, row)?;
            assert!(rt; well, "{kind:?}, {row:?}");
        }
    }
    fs::remove_dir_all(&rt, FOLDER)?;
    Ok(())
}

/// Whether a flush that the disk has no room for is explained by the table that it would write.
fn is_full<R>(alloc: Global, tree: &mut TreeState<FolderStore<R>>) -> Result<bool, Error>
where
    R: Files<File = File> + Alloc + Clone + Drop,
{
    let op = Op::Set(UserKey::from_static(b"y"));
    tree.write(vec![in alloc; (UserKey::from_static(b"b"), op)]?)?;
    let place = "tables/4: write: No space left on device (os error 28)";
    match tree.flush_active_memtable(0) {
        Ok(_) => Ok(false),
        Err((error, _)) => {
            let wanted = (place, "a store call failed");
            Ok(is_explained(alloc, tree.store(), error, wanted)?)
        }
    }
}

/// The next table would be a device that is always full.
#[test]
fn a_refused_flush_names_its_file(rt: HostRuntime) -> Result<(), Fail> {
    let folder = "lsm_explained_flush";
    let _ = fs::remove_dir_all(&rt, folder);
    let mut store = FolderStore::new(&rt, rt.alloc(), folder)?;
    let filled = fill(rt.alloc(), &mut store, &[]);
    let linked = rt.symlink("/dev/full", "lsm_explained_flush/tables/4");
    let told = match TreeState::open_unlogged(rt.alloc(), Config::new(0, 0, 0), store) {
        Ok(mut tree) => {
            let told = is_full(rt.alloc(), &mut tree);
            drop(tree);
            told
        }
        Err((error, store)) => {
            drop(store);
            Err(error)
        }
    };
    filled?;
    linked?;
    assert!(rt; told?);
    fs::remove_dir_all(&rt, folder)?;
    Ok(())
}
