// A recorded tree is opened where its tables are in order, and its writes and snapshots come after them.

use crate::opening::{ONE, fill_with, open};
use crate::samples::{Changes, FORMAT_3, FORMAT_4, LATER, Runs, TABLE, fill};
use lsm_recorded::{Pass, Recorded};
use lsm_state::{Config, Error, IterGuard, MemStore, Op, Store, TreeIter, UserKey};
use std::alloc::Global;
use std::ops::Bound;
use std::test::Fail;

const A: &[u8] = b"a";

/// Whether a read of a at this snapshot answers x.
fn reads(tree: &mut Recorded, pass: &mut Pass, snapshot: u64) -> Result<bool, Error> {
    let found = tree.get(pass, A, snapshot)?;
    Ok(found.is_some_and(|value| value.as_slice() == b"x".as_slice()))
}

/// Whether a call was refused as out of order.
fn is_late<T: Drop>(told: Result<T, Error>) -> bool {
    match told {
        Ok(_) => false,
        Err(error) => error.number() == 18,
    }
}

/// Whether just a is given, from its end.
fn gives_a(made: Result<TreeIter, Error>) -> Result<bool, Error> {
    let mut iter = made?;
    match iter.next_back() {
        Some(guard) => Ok(guard.key()?.as_slice() == A && iter.next().is_none()),
        None => Ok(false),
    }
}

/// Whether iterators over bounds and over a prefix give what the table holds, and early ones are refused.
fn lends(tree: &Recorded) -> Result<bool, Error> {
    let all = (Bound::Unbounded, Bound::Unbounded);
    let a = UserKey::from_static(A);
    Ok(
        is_late(tree.create_range(&all, 0))
            && is_late(tree.create_prefix(&a, 0))
            && gives_a(tree.create_range(&all, 1))?
            && gives_a(tree.create_prefix(&a, 1))?,
    )
}

fn starts(tree: &Recorded) -> bool {
    tree.table_count() == 1
        && tree.current_version().id() == 5
        && tree.next_table_id() == 4
        && tree.seqno().get() == 1
        && tree.visible_seqno().get() == 1
        && tree.journal().is_empty()
}

/// Whether a tree whose table holds a = x at 0 counts it as an earlier write.
fn counts(alloc: Global, tree: &mut Recorded, pass: &mut Pass) -> Result<bool, Error> {
    let first = reads(tree, pass, 1)?;
    let early = is_late(tree.get(pass, A, 0));
    let again = is_late(tree.remove(pass, UserKey::from_static(A), 0));
    let number = tree.write(pass, vec![in alloc; (UserKey::from_static(A), Op::Del)]?)?;
    Ok(
        first
            && early
            && again
            && number == 1
            && !reads(tree, pass, 2)?
            && reads(tree, pass, 1)?
            && tree.journal().len() == 4,
    )
}

fn is_well(alloc: Global, tree: &mut Recorded) -> Result<bool, Error> {
    let mut pass = Pass::new(alloc);
    Ok(starts(tree) && lends(tree)? && tree.journal().is_empty() && counts(alloc, tree, &mut pass)?)
}

/// The store of a recorded tree that was opened over it, and whether the tree was as it has to be.
fn take_turn(alloc: Global, store: MemStore) -> (MemStore, Result<bool, Error>) {
    match Recorded::open(alloc, Config::new(0, 0, 0), store) {
        Ok(mut tree) => {
            let well = is_well(alloc, &mut tree);
            (tree.into_store(), well)
        }
        Err((error, store)) => (store, Err(error)),
    }
}

#[test]
fn an_opened_journal_starts_from_its_tables(rt: HostRuntime) -> Result<(), Fail> {
    for format in [FORMAT_3, FORMAT_4] {
        let mut store = MemStore::new(rt.alloc());
        let table: Changes<'_> = &[("tables/3", Some(&TABLE))];
        let filled = fill_with(rt.alloc(), &mut store, (5, format, ONE), table);
        let (store, well) = take_turn(rt.alloc(), store);
        drop(store);
        filled?;
        assert!(rt; well?, "{format:?}");
    }
    Ok(())
}

/// The store, and the number of the error that the recorded tree is refused with, or 0.
fn open_recorded(alloc: Global, store: MemStore) -> (MemStore, u8) {
    match Recorded::open(alloc, Config::new(0, 0, 0), store) {
        Ok(tree) => (tree.into_store(), 0),
        Err((error, store)) => (store, error.number()),
    }
}

const TWO_RUNS: Runs = [&[1, 1], &[]];

/// Whether version 5 with these two runs in its first level, and a table that it doesn't name, is refused as
/// unrecoverable with all files left, and is opened without a journal; or, where they are in order, is opened.
fn is_told(alloc: Global, tables: &[&[u8]], wanted: u8) -> Result<bool, Fail> {
    let mut store = MemStore::new(alloc);
    let filled = fill(alloc, &mut store, FORMAT_4, TWO_RUNS, tables);
    let added = store.replace("tables/7", b"1");
    let (mut store, told) = open_recorded(alloc, store);
    let left = store.list(alloc);
    let (store, refused) = open(alloc, 0, store);
    let opened = refused.is_none();
    drop(refused);
    drop(store);
    filled?;
    added?;
    let count = if wanted == 0 { 4 } else { 5 };
    Ok(told == wanted && left?.len() == count && opened)
}

#[test]
fn tables_out_of_order_are_unrecoverable(rt: HostRuntime) -> Result<(), Fail> {
    let rows: [([&[u8]; 2], u8); 3] = [
        ([&TABLE, &LATER], 4),
        ([&LATER, &TABLE], 0),
        ([&TABLE, &TABLE], 4),
    ];
    for (tables, wanted) in rows {
        assert!(rt; is_told(rt.alloc(), &tables, wanted)?);
    }
    Ok(())
}
