// A tree that is opened reads what its tables hold.

use crate::manifests::{CURRENT, CURRENT_3};
use crate::opening::{ONE, fill_with};
use crate::samples::{Changes, FORMAT_3, FROM_1, Format, TABLE, bytes_of, has};
use lsm_state::{Config, Error, IterGuard, MemStore, Op, Store, StoreError, TreeState, UserKey};
use std::alloc::Global;
use std::ops::Bound;
use std::test::Fail;

/// The table of version 5, which holds a = x at 0, and two names that no version has.
const MORE: [(&str, Option<&[u8]>); 3] = [
    ("tables/3", Some(&TABLE)),
    ("v4", Some(b"1")),
    ("tables/7", Some(b"1")),
];

/// A key at a snapshot, and its value if it has one.
type Get = (&'static str, u64, Option<&'static str>);

const BEFORE: [Get; 2] = [("a", 10, Some("x")), ("b", 10, None)];

const AFTER: [Get; 2] = [("a", 11, Some("x")), ("a", 12, None)];

/// All keys at a snapshot, after the writes.
const LISTS: [(u64, &[&str]); 3] = [(10, &["a"]), (11, &["a", "b"]), (12, &["b"])];

fn reads(tree: &TreeState, gets: &[Get]) -> Result<bool, Error> {
    for (key, snapshot, wanted) in gets {
        let found = tree.get(key.as_bytes(), *snapshot)?;
        let found = found.as_ref().map(|value| value.as_slice());
        if found != wanted.map(|wanted| wanted.as_bytes()) {
            return Ok(false);
        }
    }
    Ok(true)
}

/// Whether all pairs at a snapshot are just these keys.
fn lists(tree: &TreeState, snapshot: u64, wanted: &[&str]) -> Result<bool, Error> {
    let mut pairs = tree.range(&(Bound::Unbounded, Bound::Unbounded), snapshot, None)?;
    for key in wanted {
        let Some(guard) = pairs.next() else {
            return Ok(false);
        };
        if guard.key()?.as_slice() != key.as_bytes() {
            return Ok(false);
        }
    }
    Ok(pairs.next().is_none())
}

/// Whether what is written lies over the tables.
fn writes(alloc: Global, tree: &mut TreeState) -> Result<bool, Error> {
    let op = Op::Set(UserKey::from_static(b"y"));
    let number = tree.write(vec![in alloc; (UserKey::from_static(b"b"), op)]?)?;
    let gone = tree.write(vec![in alloc; (UserKey::from_static(b"a"), Op::Del)]?)?;
    let mut are_listed = true;
    for (snapshot, keys) in LISTS {
        are_listed = are_listed && lists(tree, snapshot, keys)?;
    }
    Ok(number == 10 && gone == 11 && are_listed && reads(tree, &AFTER)?)
}

/// Whether the tree tells the version that it was opened with, and is read and written to.
fn is_well(alloc: Global, tree: &mut TreeState) -> Result<bool, Error> {
    let is_told = tree.table_count() == 1
        && tree.current_version().id() == 5
        && tree.current_version().log_from() == 1
        && tree.next_table_id() == 4;
    Ok(is_told && reads(tree, &BEFORE)? && writes(alloc, tree)?)
}

/// The store of a tree that was opened over it and written to, and whether the tree was as it has to be.
fn take_turn(alloc: Global, store: MemStore) -> (MemStore, Result<bool, Error>) {
    match TreeState::open(alloc, Config::new(0, 10, 10), store) {
        Ok(mut tree) => {
            let well = is_well(alloc, &mut tree);
            (tree.into_store(), well)
        }
        Err((error, store)) => (store, Err(error)),
    }
}

/// A format, and `current` for the version in it.
type Row = (Format, &'static [u8]);

/// Whether the store has just the files of the version.
fn is_cleared(alloc: Global, store: &mut MemStore, row: Row) -> Result<bool, StoreError> {
    let (format, current) = row;
    let bytes = bytes_of(alloc, format, ONE)?;
    let made: Changes<'_> = &[("v5", Some(&bytes))];
    let given: Changes<'_> = &[("current", Some(current)), ("tables/3", Some(&TABLE))];
    Ok(store.list(alloc)?.len() == 3 && has(alloc, store, made)? && has(alloc, store, given)?)
}

const ROWS: [Row; 2] = [(FORMAT_3, &CURRENT_3), ((4, &FROM_1), &CURRENT)];

#[test]
fn an_opened_tree_reads_its_tables(rt: HostRuntime) -> Result<(), Fail> {
    for row in ROWS {
        let mut store = MemStore::new(rt.alloc());
        let filled = fill_with(rt.alloc(), &mut store, (5, row.0, ONE), &MORE);
        let (store, first) = take_turn(rt.alloc(), store);
        let (mut store, second) = take_turn(rt.alloc(), store);
        let cleared = is_cleared(rt.alloc(), &mut store, row);
        drop(store);
        filled?;
        assert!(rt; first? && second? && cleared?);
    }
    Ok(())
}
