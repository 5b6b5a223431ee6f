// A store that the program wrote when versions' files had format 3: it answers as it did then, and its next version is
// written in format 4.
//
// It is what these lines left in a folder: `put a x`, `put a y`, `put b z`, `flush 0`, `put c w`, `flush 9`, `del a`,
// `put b v`, `flush 9`.

use crate::samples::{Changes, change, has_just};
use lsm_manifest::{FormatVersion, Manifest, recover};
use lsm_state::{Config, Error, Finished, MemStore, Op, SeqNo, Store, TreeState, UserKey};
use std::alloc::Global;
use std::test::Fail;

/// It names version 3.
const CURRENT: [u8; 25] = [
    3, 0, 0, 0, 0, 0, 0, 0, 0x5e, 0x53, 0x3c, 0xa6, 0x9b, 0x7c, 0x40, 0x8e, 0xf1, 6, 0xfe, 0x67,
    0x25, 0x82, 0xaf, 0x16, 0,
];

/// Its first level has the run of tables 2 and 1, and an older one of table 0.
const VERSION: [u8; 248] = [
    0x0e, 0x66, 0x6f, 0x72, 0x6d, 0x61, 0x74, 0x5f, 0x76, 0x65, 0x72, 0x73, 0x69, 0x6f, 0x6e, 1, 0,
    0, 0, 0, 0, 0, 0, 3, 0x0d, 0x63, 0x72, 0x61, 0x74, 0x65, 0x5f, 0x76, 0x65, 0x72, 0x73, 0x69,
    0x6f, 0x6e, 6, 0, 0, 0, 0, 0, 0, 0, 0x33, 0x2e, 0x31, 0x2e, 0x31, 0x30, 9, 0x74, 0x72, 0x65,
    0x65, 0x5f, 0x74, 0x79, 0x70, 0x65, 1, 0, 0, 0, 0, 0, 0, 0, 0, 0x0b, 0x6c, 0x65, 0x76, 0x65,
    0x6c, 0x5f, 0x63, 0x6f, 0x75, 0x6e, 0x74, 1, 0, 0, 0, 0, 0, 0, 0, 7, 0x10, 0x66, 0x69, 0x6c,
    0x74, 0x65, 0x72, 0x5f, 0x68, 0x61, 0x73, 0x68, 0x5f, 0x74, 0x79, 0x70, 0x65, 1, 0, 0, 0, 0, 0,
    0, 0, 0, 6, 0x74, 0x61, 0x62, 0x6c, 0x65, 0x73, 0x73, 0, 0, 0, 0, 0, 0, 0, 7, 2, 2, 0, 0, 0, 2,
    0, 0, 0, 0, 0, 0, 0, 0, 0xbb, 0x99, 0x35, 0xd5, 0x4b, 0x60, 0x31, 0xc0, 0xf6, 0x64, 0x1e, 0xe8,
    0x4a, 0x9d, 0x3b, 0x39, 0, 0, 0, 0, 0, 0, 0, 0, 1, 0, 0, 0, 0, 0, 0, 0, 0, 0x80, 0x4f, 0xdd,
    0x44, 0xec, 6, 0x0c, 0x3e, 0x81, 0xac, 0xda, 0xa4, 0x52, 0xdc, 0x22, 0xbe, 0, 0, 0, 0, 0, 0, 0,
    0, 1, 0, 0, 0, 0, 0, 0, 0, 0, 0, 0, 0, 0, 0xf2, 0x62, 0x5b, 0x26, 6, 0x4a, 0x3c, 0x6c, 0x82,
    0x17, 0xdf, 0xc4, 0x26, 0x14, 0xd5, 0x6e, 0, 0, 0, 0, 0, 0, 0, 0, 0, 0, 0, 0, 0, 0,
];

/// a y at 1, a x at 0, b z at 2.
const TABLE_0: [u8; 71] = [
    0x4c, 0x53, 0x4d, 0x54, 0, 0, 0, 0, 0, 0, 0, 0, 3, 0, 0, 0, 0, 0, 0, 0, 1, 0, 1, 0, 0, 0, 0, 0,
    0, 0, 0, 1, 0, 0, 0, 0x61, 0x79, 1, 0, 0, 0, 0, 0, 0, 0, 0, 0, 0, 1, 0, 0, 0, 0x61, 0x78, 1, 0,
    2, 0, 0, 0, 0, 0, 0, 0, 0, 1, 0, 0, 0, 0x62, 0x7a,
];

/// c w at 4.
const TABLE_1: [u8; 37] = [
    0x4c, 0x53, 0x4d, 0x54, 0, 0, 0, 0, 0, 0, 0, 0, 1, 0, 0, 0, 0, 0, 0, 0, 1, 0, 4, 0, 0, 0, 0, 0,
    0, 0, 0, 1, 0, 0, 0, 0x63, 0x77,
];

/// A tombstone of a at 6, b v at 7.
const TABLE_2: [u8; 53] = [
    0x4c, 0x53, 0x4d, 0x54, 0, 0, 0, 0, 0, 0, 0, 0, 2, 0, 0, 0, 0, 0, 0, 0, 1, 0, 6, 0, 0, 0, 0, 0,
    0, 0, 1, 0, 0, 0, 0, 0x61, 1, 0, 7, 0, 0, 0, 0, 0, 0, 0, 0, 1, 0, 0, 0, 0x62, 0x76,
];

const FILES: [(&str, Option<&[u8]>); 5] = [
    ("current", Some(&CURRENT)),
    ("v3", Some(&VERSION)),
    ("tables/0", Some(&TABLE_0)),
    ("tables/1", Some(&TABLE_1)),
    ("tables/2", Some(&TABLE_2)),
];

/// A key at a snapshot, and its value if it has one.
type Get = (&'static str, SeqNo, Option<&'static str>);

/// What the lines say before and after each write.
const ANSWERS: [Get; 12] = [
    ("a", 1, Some("x")),
    ("a", 2, Some("y")),
    ("a", 6, Some("y")),
    ("a", 7, None),
    ("a", 8, None),
    ("b", 2, None),
    ("b", 3, Some("z")),
    ("b", 7, Some("z")),
    ("b", 8, Some("v")),
    ("c", 4, None),
    ("c", 5, Some("w")),
    ("c", 8, Some("w")),
];

fn answers(tree: &TreeState) -> Result<bool, Error> {
    for (key, snapshot, wanted) in ANSWERS {
        let found = tree.get(key.as_bytes(), snapshot)?;
        let found = found.as_ref().map(|value| value.as_slice());
        if found != wanted.map(|wanted| wanted.as_bytes()) {
            return Ok(false);
        }
    }
    Ok(true)
}

/// What commits the next version.
#[derive(Clone, Copy, Debug, PartialEq, Eq)]
enum Commit {
    /// A write, numbered 8, and its flush.
    Flush,
    /// A merge of all tables, which keeps all old versions of keys.
    Merge,
    /// A clear, which draws number 8.
    Clear,
}

/// A commit, the number from which a log is read then, and the section that says so.
type Row = (Commit, SeqNo, &'static [u8]);

/// A log is read after what a flush has put into tables, and from the number of a clear on; else as it was, which is
/// after all that the store of format 3 holds.
const ROWS: [Row; 3] = [
    (
        Commit::Flush,
        9,
        b"\x08log_from\x08\0\0\0\0\0\0\0\x09\0\0\0\0\0\0\0",
    ),
    (
        Commit::Merge,
        8,
        b"\x08log_from\x08\0\0\0\0\0\0\0\x08\0\0\0\0\0\0\0",
    ),
    (
        Commit::Clear,
        8,
        b"\x08log_from\x08\0\0\0\0\0\0\0\x08\0\0\0\0\0\0\0",
    ),
];

fn make_commit(alloc: Global, tree: &mut TreeState, call: Commit) -> Result<bool, Error> {
    match call {
        Commit::Flush => {
            let op = Op::Set(UserKey::from_static(b"u"));
            let number = tree.write(vec![in alloc; (UserKey::from_static(b"e"), op)]?)?;
            tree.rotate_memtable()?;
            Ok(number == 8 && tree.flush(0)?.is_some())
        }
        Commit::Merge => Ok(tree.major_compact(1_000, 0)? == Some(Finished::Installed)),
        Commit::Clear => Ok(tree.clear()? == 8),
    }
}

/// Whether the tree has this version, whose log is read from this number on.
fn is_at(tree: &TreeState, id: u64, from: SeqNo) -> bool {
    let version = tree.current_version();
    version.id() == id && version.log_from() == from
}

/// Whether the tree was as it has to be, and made its next version.
fn goes_on(alloc: Global, tree: &mut TreeState, row: Row) -> Result<bool, Error> {
    let (call, from, _) = row;
    let is_opened = is_at(tree, 3, 8) && answers(tree)?;
    Ok(is_opened && make_commit(alloc, tree, call)? && is_at(tree, 4, from))
}

/// Whether the tree that is opened over the next version answers as before it. A clear leaves no table.
fn is_kept(tree: &TreeState, row: Row) -> Result<bool, Error> {
    let (call, from, _) = row;
    let is_well = match call {
        Commit::Clear => tree.table_count() == 0,
        Commit::Flush | Commit::Merge => answers(tree)?,
    };
    Ok(is_at(tree, 4, from) && is_well)
}

/// The store of a tree that was opened over it, and whether the tree was as it has to be.
fn take_turn(
    alloc: Global,
    store: MemStore,
    row: Row,
    commits: bool,
) -> (MemStore, Result<bool, Error>) {
    match TreeState::open_raised(alloc, Config::new(0, 0, 0), store) {
        Ok(mut tree) => {
            let well = if commits {
                goes_on(alloc, &mut tree, row)
            } else {
                is_kept(&tree, row)
            };
            (tree.into_store(), well)
        }
        Err((error, store)) => (store, Err(error)),
    }
}

/// Whether the file of the next version has format 4, and this section.
fn is_written(alloc: Global, store: &mut MemStore, row: Row) -> Result<bool, Fail> {
    let (_, from, section) = row;
    let bytes = store.read(alloc, "v4")?.ok_or("it is there")?;
    let manifest = Manifest::decode_from(&bytes)?;
    let recovery = recover(alloc, store)?;
    Ok(
        manifest.version == FormatVersion::V4
            && bytes.ends_with(section)
            && recovery.curr_version_id == 4
            && recovery.log_from == Some(from),
    )
}

#[test]
fn a_store_of_format_3_goes_on(rt: HostRuntime) -> Result<(), Fail> {
    for row in ROWS {
        let mut store = MemStore::new(rt.alloc());
        let filled = change(&mut store, &FILES);
        let (mut store, first) = take_turn(rt.alloc(), store, row, true);
        let written = is_written(rt.alloc(), &mut store, row);
        let (store, second) = take_turn(rt.alloc(), store, row, false);
        drop(store);
        let written = written?;
        filled?;
        assert!(rt; first? && written && second?, "{row:?}");
    }
    Ok(())
}

/// The store of a tree that was opened over it and closed.
fn opened(alloc: Global, store: MemStore) -> MemStore {
    match TreeState::open_raised(alloc, Config::new(0, 0, 0), store) {
        Ok(tree) => tree.into_store(),
        Err((_, store)) => store,
    }
}

/// What is opened and not written to keeps its files as they are.
#[test]
fn opening_writes_nothing(rt: HostRuntime) -> Result<(), Fail> {
    let mut store = MemStore::new(rt.alloc());
    let filled = change(&mut store, &FILES);
    let mut store = opened(rt.alloc(), store);
    let same = has_just(rt.alloc(), &mut store, &FILES);
    drop(store);
    filled?;
    assert!(rt; same?);
    Ok(())
}
