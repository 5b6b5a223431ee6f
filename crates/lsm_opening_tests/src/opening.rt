// What is opened, what is removed, and each refusal.

use crate::samples::{
    Changes, FORMAT_3, FORMAT_4, FROM_0, FROM_1, File, Format, MISMATCH, NO_FORMATS, NO_TABLE,
    ONE_TABLE, TABLE, Told, UNRECOVERABLE, bytes_of, change, has, has_just, is_told, put_version,
};
use lsm_manifest::{
    get_current_version, open_files, persist_version, recover, table_name, version_name,
};
use lsm_state::{Config, Error, Fault, MemStore, Store, StoreError, TreeState};
use std::alloc::Global;
use std::test::Fail;

/// Id 0, and the sum of the file without tables, in the newest format.
const FIRST: [u8; 25] = [
    0, 0, 0, 0, 0, 0, 0, 0, 0xb5, 0x7a, 0xba, 0xfb, 0xef, 0xc8, 0x38, 0x10, 0x29, 0x09, 0xb8, 0x22,
    0x50, 0x05, 0xae, 0x02, 0,
];

/// The version's file with one table, and the one with none.
pub const ONE: File<'static> = (&ONE_TABLE, &[], &[]);

const NONE: File<'static> = (&NO_TABLE, &[], &[]);

/// A version with its file in a format, and what is changed then.
pub fn fill_with(
    alloc: Global,
    store: &mut impl Store,
    version: (u64, Format, File<'_>),
    changes: Changes<'_>,
) -> Result<(), StoreError> {
    let (id, format, file) = version;
    put_version(store, id, &bytes_of(alloc, format, file)?)?;
    change(store, changes)
}

/// The store as opening leaves it with counters that begin so, and what is refused.
pub fn open(alloc: Global, start: u64, store: MemStore) -> (MemStore, Option<Error>) {
    match TreeState::open(alloc, Config::new(0, start, start), store) {
        Ok(tree) => (tree.into_store(), None),
        Err((error, store)) => (store, Some(error)),
    }
}

/// Whether the store is opened as this version, with one table or none.
fn is_opened(
    alloc: Global,
    store: &mut MemStore,
    id: u64,
    next: u64,
    tables: usize,
) -> Result<bool, Error> {
    let opened = open_files(alloc, store)?;
    Ok(
        opened.version.id() == id
            && opened.next_table_id == next
            && opened.version.l0().run_count() == tables,
    )
}

/// Whether the store is refused so.
fn is_refused(alloc: Global, store: &mut MemStore, wanted: Told) -> bool {
    match open_files(alloc, store) {
        Ok(_) => false,
        Err(error) => is_told(&error, wanted),
    }
}

/// Whether the stores have the same names with the same contents.
pub fn are_same(
    alloc: Global,
    left: &mut impl Store,
    right: &mut impl Store,
) -> Result<bool, StoreError> {
    let names = left.list(alloc)?;
    for name in &names {
        let found = left.read(alloc, name)?;
        if found.is_none() || found != right.read(alloc, name)? {
            return Ok(false);
        }
    }
    Ok(names.len() == right.list(alloc)?.len())
}

/// Whether what was refused is what is wanted: then each name keeps its content, and else orphans are gone.
fn is_as(
    alloc: Global,
    store: &mut MemStore,
    before: &mut MemStore,
    found: Option<&Error>,
    wanted: Option<Told>,
) -> Result<bool, StoreError> {
    match (found, wanted) {
        (Some(error), Some(told)) => Ok(
            is_told(error, told)
                && is_refused(alloc, store, told)
                && are_same(alloc, store, before)?,
        ),
        (None, None) => Ok(store.list(alloc)?.len() == 4),
        _ => Ok(false),
    }
}

/// Whether a store like this one is refused so, or opened where nothing is wanted.
pub fn answers(alloc: Global, before: &mut MemStore, wanted: Option<Told>) -> Result<bool, Fail> {
    let Some(store) = before.crash(&[])? else {
        return Ok(false);
    };
    let (mut store, found) = open(alloc, 10, store);
    let well = is_as(alloc, &mut store, before, found.as_ref(), wanted);
    drop(found);
    drop(store);
    Ok(well?)
}

/// Whether the store has just the files of a new tree.
fn is_new(alloc: Global, store: &mut MemStore) -> Result<bool, Fail> {
    let bytes = bytes_of(alloc, FORMAT_4, NONE)?;
    let files: Changes<'_> = &[("v0", Some(&bytes)), ("current", Some(&FIRST))];
    Ok(
        has_just(alloc, store, files)?
            && get_current_version(alloc, store)? == 0
            && is_opened(alloc, store, 0, 1, 0)?,
    )
}

/// Whether a store with these contents becomes a new tree's, by its files or as a tree.
fn begins(alloc: Global, store: &mut MemStore, changes: Changes<'_>) -> Result<bool, Fail> {
    change(store, changes)?;
    let Some(other) = store.crash(&[])? else {
        return Ok(false);
    };
    let (mut other, found) = open(alloc, 10, other);
    let is_well = is_new(alloc, &mut other);
    let refused = found.is_some();
    drop(found);
    drop(other);
    Ok(is_well? && !refused && is_opened(alloc, store, 0, 0, 0)? && is_new(alloc, store)?)
}

/// A first opening that was cut off left the beginning of a version's file, and no `current`.
const PARTIAL: [(&str, Option<&[u8]>); 1] = [("v0", Some(b"partial"))];

#[test]
fn a_new_tree_has_version_0(rt: HostRuntime) -> Result<(), Fail> {
    let rows: [Changes<'_>; 2] = [&[], &PARTIAL];
    for changes in rows {
        let mut store = MemStore::new(rt.alloc());
        let well = begins(rt.alloc(), &mut store, changes);
        drop(store);
        assert!(rt; well?);
    }
    Ok(())
}

/// What is there beside the version, and what is left of it.
const BESIDE: [(&str, Option<&[u8]>); 8] = [
    ("tables/3", Some(&TABLE)),
    ("v4", Some(b"1")),
    ("v6", Some(b"1")),
    ("vx", Some(b"1")),
    ("tables/9", Some(b"1")),
    ("tables/.DS_Store", Some(b"1")),
    ("tables/._9", Some(b"1")),
    ("other", Some(b"1")),
];

const LEFT: [(&str, Option<&[u8]>); 8] = [
    ("tables/3", Some(&TABLE)),
    ("v4", None),
    ("v6", None),
    ("vx", None),
    ("tables/9", None),
    ("tables/.DS_Store", Some(b"1")),
    ("tables/._9", Some(b"1")),
    ("other", Some(b"1")),
];

/// Whether orphans go, and are gone.
fn orphans_go(alloc: Global, store: &mut MemStore, format: Format) -> Result<bool, Fail> {
    fill_with(alloc, store, (5, format, ONE), &BESIDE)?;
    Ok(
        is_opened(alloc, store, 5, 4, 1)?
            && has(alloc, store, &LEFT)?
            && is_opened(alloc, store, 5, 4, 1)?,
    )
}

/// A number from which a log is read, and the section that says so.
type Section = (u64, &'static [u8]);

/// Whether the version that is opened becomes the current one once more, with this section in its file.
fn persists(
    alloc: Global,
    store: &mut MemStore,
    format: Format,
    from: Section,
) -> Result<bool, Fail> {
    let went = orphans_go(alloc, store, format)?;
    let opened = open_files(alloc, store)?;
    let persisted = persist_version(alloc, store, &opened.version);
    drop(opened);
    persisted?;
    let bytes = bytes_of(alloc, (4, from.1), ONE)?;
    let recovery = recover(alloc, store)?;
    Ok(
        went && has(alloc, store, &[("v5", Some(&bytes))])?
            && bytes.len() == 203
            && recovery.curr_version_id == 5
            && recovery.log_from == Some(from.0),
    )
}

/// What is read in format 3 has a log from 1 on, after the one entry; format 4 says it.
const PERSISTED: [(Format, Section); 3] = [
    (FORMAT_3, (1, &FROM_1)),
    ((4, &FROM_1), (1, &FROM_1)),
    (FORMAT_4, (0, &FROM_0)),
];

#[test]
fn orphans_are_removed_and_a_version_persisted(rt: HostRuntime) -> Result<(), Fail> {
    for (format, from) in PERSISTED {
        let mut store = MemStore::new(rt.alloc());
        let well = persists(rt.alloc(), &mut store, format, from);
        drop(store);
        assert!(rt; well?, "{format:?}");
    }
    assert!(rt; version_name(5).as_str() == "v5" && table_name(9).as_str() == "tables/9");
    Ok(())
}

/// One table twice, in two levels.
const TWICE: [u8; 82] = [
    7, 1, 1, 0, 0, 0, 3, 0, 0, 0, 0, 0, 0, 0, 0, 0xb7, 0x2e, 0x25, 0xe2, 0xac, 0x01, 0x46, 0x38,
    0x51, 0xbb, 0x09, 0x02, 0x2a, 0xf9, 0x67, 0x5b, 0, 0, 0, 0, 0, 0, 0, 0, 1, 1, 0, 0, 0, 3, 0, 0,
    0, 0, 0, 0, 0, 0, 0xb7, 0x2e, 0x25, 0xe2, 0xac, 0x01, 0x46, 0x38, 0x51, 0xbb, 0x09, 0x02, 0x2a,
    0xf9, 0x67, 0x5b, 0, 0, 0, 0, 0, 0, 0, 0, 0, 0, 0, 0, 0,
];

/// Whether the version and table 3, changed so, are refused so, with an orphan beside them that stays.
fn refuses(
    alloc: Global,
    store: &mut MemStore,
    version: (u64, Format, File<'_>),
    told: Told,
    changes: Changes<'_>,
) -> Result<bool, Fail> {
    let beside: Changes<'_> = &[("tables/3", Some(&TABLE)), ("v4", Some(b"1"))];
    fill_with(alloc, store, version, beside)?;
    change(store, changes)?;
    answers(alloc, store, Some(told))
}

/// `ONE_TABLE`, `FIRST` and `TABLE`, each without its last byte.
const CUT_LAYOUT: [u8; 44] = [
    7, 1, 1, 0, 0, 0, 3, 0, 0, 0, 0, 0, 0, 0, 0, 0xb7, 0x2e, 0x25, 0xe2, 0xac, 0x01, 0x46, 0x38,
    0x51, 0xbb, 0x09, 0x02, 0x2a, 0xf9, 0x67, 0x5b, 0, 0, 0, 0, 0, 0, 0, 0, 0, 0, 0, 0, 0,
];

const CUT_FIRST: [u8; 24] = [
    0, 0, 0, 0, 0, 0, 0, 0, 0xb5, 0x7a, 0xba, 0xfb, 0xef, 0xc8, 0x38, 0x10, 0x29, 0x09, 0xb8, 0x22,
    0x50, 0x05, 0xae, 0x02,
];

const CUT_TABLE: [u8; 36] = [
    0x4c, 0x53, 0x4d, 0x54, 0, 0, 0, 0, 0, 0, 0, 0, 1, 0, 0, 0, 0, 0, 0, 0, 1, 0, 0, 0, 0, 0, 0, 0,
    0, 0, 0, 1, 0, 0, 0, 0x61,
];

/// A version with its file, what is changed then, and how that is refused.
type Refusal = (u64, File<'static>, Changes<'static>, Told);

const REFUSALS: [Refusal; 20] = [
    // Files of versions.
    (5, (&ONE_TABLE, &[], &[0]), &[], UNRECOVERABLE),
    (5, (&TWICE, &[], &[]), &[], UNRECOVERABLE),
    (
        5,
        (&ONE_TABLE, &[(147, 1)], &[]),
        &[],
        (6, "ChecksumType", 1),
    ),
    (5, (&CUT_LAYOUT, &[], &[]), &[], UNRECOVERABLE),
    (5, (&ONE_TABLE, &[(23, 2)], &[]), &[], (5, "", 2)),
    (5, (&ONE_TABLE, &[(70, 1)], &[]), &[], (7, "TreeType", 0)),
    (0, (&NO_TABLE, &[], &[0]), &[], UNRECOVERABLE),
    (0, (&TWICE, &[], &[]), &[], UNRECOVERABLE),
    (0, (&NO_TABLE, &[(23, 2)], &[]), &[], (5, "", 2)),
    // Other files.
    (5, ONE, &[("version", Some(b""))], (5, "", 1)),
    (5, ONE, &[("current", Some(&CUT_FIRST))], (7, "current", 0)),
    (5, ONE, &[("current", Some(&FIRST))], UNRECOVERABLE),
    (5, ONE, &[("v5", Some(b"1"))], MISMATCH),
    (5, ONE, &[("v5", None)], UNRECOVERABLE),
    (5, ONE, &[("tables/05", Some(&TABLE))], UNRECOVERABLE),
    (5, ONE, &[("tables/3", None)], UNRECOVERABLE),
    (5, ONE, &[("tables/3", Some(&CUT_TABLE))], MISMATCH),
    (
        5,
        ONE,
        &[("tables/3", Some(b"1")), ("tables/x", Some(b"1"))],
        UNRECOVERABLE,
    ),
    (0, NONE, &[("tables/05", Some(&TABLE))], UNRECOVERABLE),
    (0, NONE, &[("current", Some(&CUT_FIRST))], (7, "current", 0)),
];

#[test]
fn damaged_stores_are_refused(rt: HostRuntime) -> Result<(), Fail> {
    for format in [FORMAT_3, FORMAT_4] {
        for (id, file, changes, told) in REFUSALS {
            let mut store = MemStore::new(rt.alloc());
            let well = refuses(rt.alloc(), &mut store, (id, format, file), told, changes);
            drop(store);
            assert!(rt; well?, "{format:?}, {told:?}, {changes:?}");
        }
    }
    Ok(())
}

#[test]
fn other_formats_are_refused(rt: HostRuntime) -> Result<(), Fail> {
    for (format, told) in NO_FORMATS {
        let mut store = MemStore::new(rt.alloc());
        let well = refuses(rt.alloc(), &mut store, (5, format, ONE), told, &[]);
        drop(store);
        assert!(rt; well?, "{format:?}");
    }
    Ok(())
}

/// How many bytes of a new tree's version are refused, each changed alone, up to the first that isn't.
fn count_refused(alloc: Global, store: &mut MemStore, format: Format) -> Result<usize, Fail> {
    let mut other = bytes_of(alloc, format, NONE)?;
    for place in 0..other.len() {
        other[place] ^= 1;
        let changes: Changes<'_> = &[("v0", Some(&other))];
        if !refuses(alloc, store, (0, format, NONE), MISMATCH, changes)? {
            return Ok(place);
        }
        other[place] ^= 1;
    }
    Ok(other.len())
}

#[test]
fn a_changed_byte_is_refused(rt: HostRuntime) -> Result<(), Fail> {
    for (format, len) in [(FORMAT_3, 141), (FORMAT_4, 166)] {
        let mut store = MemStore::new(rt.alloc());
        let refused = count_refused(rt.alloc(), &mut store, format);
        drop(store);
        assert_eq!(rt; refused?, len);
    }
    Ok(())
}

#[test]
fn faults_of_a_commit_are_told(rt: HostRuntime) -> Result<(), Fail> {
    // The names are listed and settled; `v0` is written and synced, and `current` replaced.
    let rows = [
        (1, Fault::Once, 2),
        (2, Fault::Once, 2),
        (3, Fault::Once, 2),
        (4, Fault::Once, 2),
        (5, Fault::Once, 3),
        (5, Fault::OnceNothing, 2),
    ];
    for (call, fault, number) in rows {
        let mut store = MemStore::new(rt.alloc());
        store.fail(call, fault);
        let well = is_refused(rt.alloc(), &mut store, (number, "", 0));
        drop(store);
        assert!(rt; well, "{fault:?} at {call}");
    }
    Ok(())
}
