// A tree from its opening to a crash, and on from there.
use crate::calls::{At, Call, Key};
use crate::rows::{FLUSHED_0, Note, Row, first_wrong, steps_of};
use lsm_runs::live;
use lsm_state::{CompactionStrategy, Config, Error, MemStore, Store, TreeState};
use std::alloc::Global;
use std::test::Fail;

/// What a crash leaves of the store of a tree.
fn left(tree: TreeState) -> Result<MemStore, Error> {
    match tree.into_store().crash(&[])? {
        Some(left) => Ok(left),
        None => Err(Error::Unrecoverable),
    }
}

/// The first row that a life doesn't answer so, or how many rows there are, and what a crash leaves of it.
fn after_life(
    alloc: Global,
    number: u64,
    store: MemStore,
    rows: &[Row],
) -> Result<(usize, MemStore), Error> {
    let steps = steps_of(alloc, rows)?;
    let strategies: Vec<Box<dyn CompactionStrategy>> = Vec::new(alloc);
    let config = Config::new(0, number, number);
    match live(alloc, config, store, &strategies, &steps) {
        Ok((tree, taken)) => {
            let right = first_wrong(alloc, &taken.outcomes, rows);
            drop(taken);
            drop(steps);
            match left(tree) {
                Ok(store) => Ok((right, store)),
                Err(error) => Err(error),
            }
        }
        Err((error, _)) => Err(error),
    }
}

/// a is flushed, and b isn't.
const WRITES: [Row; 3] = [
    (Call::Set(&[("a", "x")]), "Number(0)", &[Note::Write(0)]),
    (
        Call::At(At::FlushActive, 0),
        FLUSHED_0,
        &[Note::Mark(0), Note::Install(1)],
    ),
    (Call::Set(&[("b", "y")]), "Number(2)", &[Note::Write(2)]),
];

/// The value of a, and none of b.
const READS: [Row; 2] = [
    (
        Call::Key(Key::Get, "a", 10),
        "Value(Some(b\"x\"))",
        &[Note::Read(10)],
    ),
    (
        Call::Key(Key::Get, "b", 10),
        "Value(None)",
        &[Note::Read(10)],
    ),
];

/// Its number stands above that of what was found.
const RAISED: [Row; 1] = [(Call::Set(&[("c", "z")]), "Number(1)", &[Note::Write(1)])];

#[test]
fn a_crash_begins_the_next_life(rt: HostRuntime) -> Result<(), Fail> {
    let alloc = rt.alloc();
    let (right, store) = after_life(alloc, 0, MemStore::new(alloc), &WRITES)?;
    assert_eq!(rt; right, 3);
    let (right, store) = after_life(alloc, 10, store, &READS)?;
    assert_eq!(rt; right, 2);
    let (right, store) = after_life(alloc, 0, store, &RAISED)?;
    drop(store);
    assert_eq!(rt; right, 1);
    Ok(())
}
