// A store that is opened without a log: its counters start above all that it holds, and a record that counts keeps it closed.

use crate::opening::are_same;
use crate::samples::{Changes, FORMAT_3, FORMAT_4, FROM_1, Format, LATER, TABLE, change, fill};
use lsm_logged::Logged;
use lsm_recorded::Recorded;
use lsm_state::{Config, Error, MemStore, SeqNo, Store, StoreError, TreeState};
use std::alloc::Global;
use std::test::Fail;

/// Which tree is opened over a store.
#[derive(Clone, Copy, Debug, PartialEq, Eq)]
pub enum Kind {
    Plain,
    Recorded,
    Logged,
}

/// Where the counters of an opened tree stand, or why it is refused.
type Opened = Result<[SeqNo; 2], Error>;

fn open_plain<S: Store>(alloc: Global, config: Config, store: S) -> (S, Opened) {
    match TreeState::open_unlogged(alloc, config, store) {
        Ok(tree) => {
            let counters = [tree.seqno().get(), tree.visible_seqno().get()];
            (tree.into_store(), Ok(counters))
        }
        Err((error, store)) => (store, Err(error)),
    }
}

fn open_recorded<S: Store>(alloc: Global, config: Config, store: S) -> (S, Opened) {
    match Recorded::open_unlogged(alloc, config, store) {
        Ok(tree) => {
            let counters = [tree.seqno().get(), tree.visible_seqno().get()];
            (tree.into_store(), Ok(counters))
        }
        Err((error, store)) => (store, Err(error)),
    }
}

fn open_logged<S: Store>(alloc: Global, config: Config, store: S) -> (S, Opened) {
    match Logged::open(alloc, config, store) {
        Ok(tree) => {
            let counters = [tree.seqno().get(), tree.visible_seqno().get()];
            (tree.into_store(), Ok(counters))
        }
        Err((error, store)) => (store, Err(error)),
    }
}

/// The store of a tree that was opened over it and closed, with counters that begin so.
pub fn open<S: Store>(alloc: Global, kind: Kind, start: SeqNo, store: S) -> (S, Opened) {
    let config = Config::new(0, start, start);
    match kind {
        Kind::Plain => open_plain(alloc, config, store),
        Kind::Recorded => open_recorded(alloc, config, store),
        Kind::Logged => open_logged(alloc, config, store),
    }
}

/// The format of a version with this table, if there is one, and what stands beside.
type Files = (Option<(Format, &'static [u8])>, Changes<'static>);

/// What a store holds, where its counters begin, and where they stand once it is opened. None where it isn't.
type Row = (Files, SeqNo, Option<SeqNo>);

/// A record is named by the number of its batch.
const RECORD_0: (&str, Option<&[u8]>) = ("log/0", Some(b"never read"));

const RECORD_1: (&str, Option<&[u8]>) = ("log/1", Some(b"never read"));

const FROM: Format = (4, &FROM_1);

const ROWS: [Row; 14] = [
    // New trees.
    ((None, &[]), 0, Some(0)),
    ((None, &[]), 9, Some(9)),
    ((None, &[("log/.DS_Store", Some(b"1"))]), 0, Some(0)),
    // With a table.
    ((Some((FORMAT_4, &TABLE)), &[]), 0, Some(1)),
    ((Some((FORMAT_3, &TABLE)), &[]), 0, Some(1)),
    ((Some((FORMAT_4, &LATER)), &[]), 0, Some(6)),
    ((Some((FORMAT_4, &LATER)), &[]), 9, Some(9)),
    // Records that the version has passed.
    ((Some((FROM, &TABLE)), &[RECORD_0]), 0, Some(1)),
    ((Some((FORMAT_3, &TABLE)), &[RECORD_0]), 0, Some(1)),
    // Records that count, and a name that is none of a record.
    ((None, &[RECORD_0]), 0, None),
    ((Some((FORMAT_4, &TABLE)), &[RECORD_0]), 0, None),
    ((Some((FORMAT_4, &TABLE)), &[RECORD_0]), 9, None),
    ((Some((FROM, &TABLE)), &[RECORD_0, RECORD_1]), 0, None),
    (
        (Some((FROM, &TABLE)), &[("log/x", Some(b"never read"))]),
        0,
        None,
    ),
];

fn fill_row(alloc: Global, store: &mut MemStore, files: Files) -> Result<(), StoreError> {
    let (version, beside) = files;
    if let Some((format, table)) = version {
        fill(alloc, store, format, [&[1], &[]], &[table])?;
    }
    change(store, beside)
}

/// Whether the counters are where they are wanted, or it is refused as unrecoverable.
fn is_wanted(opened: &Opened, wanted: Option<SeqNo>) -> bool {
    match (opened, wanted) {
        (Ok(counters), Some(number)) => *counters == [number, number],
        (Err(error), None) => *error == Error::Unrecoverable,
        _ => false,
    }
}

/// Whether the store has what the row says, and `current` and a version of a new tree.
fn is_kept(
    alloc: Global,
    store: &mut MemStore,
    kept: &mut MemStore,
    row: Row,
) -> Result<bool, StoreError> {
    let ((version, beside), _, wanted) = row;
    fill_row(alloc, kept, (version, beside))?;
    if version.is_none() && wanted.is_some() {
        return Ok(store.list(alloc)?.len() == beside.len().saturating_add(2));
    }
    are_same(alloc, store, kept)
}

/// Whether a store is opened or refused as the row says, and keeps its files.
fn is_as(alloc: Global, kind: Kind, row: Row) -> Result<bool, Fail> {
    let (files, start, wanted) = row;
    let mut store = MemStore::new(alloc);
    let filled = fill_row(alloc, &mut store, files);
    let (mut store, opened) = open(alloc, kind, start, store);
    let mut kept = MemStore::new(alloc);
    let well = is_kept(alloc, &mut store, &mut kept, row);
    drop(kept);
    drop(store);
    filled?;
    Ok(well? && is_wanted(&opened, wanted))
}

#[test]
fn counters_start_above_what_is_found(rt: HostRuntime) -> Result<(), Fail> {
    for row in ROWS {
        for kind in [Kind::Plain, Kind::Recorded] {
            assert!(rt; is_as(rt.alloc(), kind, row)?, "{kind:?}, {row:?}");
        }
    }
    Ok(())
}
