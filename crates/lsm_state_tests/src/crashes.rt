// Crashes at each store call of a script, and at each call of the opening after it: the tree that is opened shows a beginning
// of the writes, with all that a flush covered.
use crate::rows::shows;
use crate::scripts::open;
use crate::steps::Step::{Compact, Del, Flush, Set};
use crate::steps::{Step, Told, take};
use crate::works::Work;
use lsm_state::{Config, Error, Fault, MemStore, Pick, Store, TreeState};
use std::alloc::Global;
use std::process::Abort;

/// Steps, and what a and b have after each number of writes: none where it is empty.
type Script = (&'static [Step], &'static [(&'static str, &'static str)]);

const AROUND_A_FLUSH: Script = (
    &[Set("a", "x"), Flush(0), Set("b", "y"), Flush(0)],
    &[("", ""), ("x", ""), ("x", "y")],
);

/// The last merge evicts the tombstone.
const EVICTING: Script = (
    &[
        Set("a", "x"),
        Flush(0),
        Compact(Work::Major(0)),
        Del("a"),
        Flush(0),
        Compact(Work::Major(5)),
    ],
    &[("", ""), ("x", ""), ("", "")],
);

/// More calls than a script or an opening makes.
const CALLS: u64 = 48;

const NAMES: [&str; 10] = [
    "current", "v0", "v1", "v2", "v3", "v4", "tables/0", "tables/1", "tables/2", "tables/3",
];

/// Takes all steps, whatever each answers, and returns how many writes an installed flush covers.
fn take_all(alloc: Global, tree: &mut TreeState, steps: &[Step]) -> usize {
    let mut writes: usize = 0;
    let mut covered: usize = 0;
    for step in steps {
        match (take(alloc, tree, step), step) {
            (Told::Number(_), _) => writes = writes.saturating_add(1),
            (Told::Done, Step::Flush(_)) => covered = writes,
            _ => {}
        }
    }
    covered
}

/// The store that an opening and these steps leave where this call of it has this fault, and how many writes are covered.
fn faulted(
    alloc: Global,
    mut store: MemStore,
    next: u64,
    (call, fault): (u64, Fault),
    steps: &[Step],
) -> (MemStore, usize) {
    store.fail(call, fault);
    match TreeState::open(alloc, Config::new(0, next, next), store) {
        Ok(mut tree) => {
            let covered = take_all(alloc, &mut tree, steps);
            (tree.into_store(), covered)
        }
        Err((_, store)) => (store, 0),
    }
}

/// The same where it fails from this call on.
fn stopped(
    alloc: Global,
    store: MemStore,
    next: u64,
    call: u64,
    steps: &[Step],
) -> (MemStore, usize) {
    faulted(alloc, store, next, (call, Fault::FromHere), steps)
}

// ---- crashes

/// In how many ways a crash is picked: nothing is, or one name that isn't synced is left as the byte 0, or one that was
/// removed or replaced as it was before.
const WAYS: usize = 21;

/// Whether two stores have the same under a name.
fn have_same(alloc: Global, one: &mut MemStore, other: &mut MemStore, name: &str) -> bool {
    match (one.read(alloc, name), other.read(alloc, name)) {
        (Ok(one), Ok(other)) => one == other,
        _ => false,
    }
}

/// What a crash leaves of a store with a pick; None where it isn't possible, or is what is left without a pick.
fn picked(
    alloc: Global,
    store: &MemStore,
    name: &str,
    pick: Pick<'_>,
) -> Result<Option<MemStore>, Error> {
    let (Some(mut left), Some(mut usual)) = (store.crash(&[(name, pick)])?, store.crash(&[])?)
    else {
        return Ok(None);
    };
    let is_usual = have_same(alloc, &mut left, &mut usual, name);
    Ok(if is_usual { None } else { Some(left) })
}

/// What a crash leaves of a store in one of these ways, if anything else than in the other ones.
fn crashed(alloc: Global, store: &MemStore, way: usize) -> Result<Option<MemStore>, Error> {
    match NAMES.get(way / 2) {
        Some(name) if way % 2 == 0 => picked(alloc, store, *name, Pick::Bytes(b"\0")),
        Some(name) => picked(alloc, store, *name, Pick::Before),
        None => Ok(store.crash(&[])?),
    }
}

// ---- openings

/// Whether this store opens, and the tree shows one of these beginnings.
fn opens(alloc: Global, store: MemStore, beginnings: &[(&str, &str)]) -> Result<bool, Error> {
    let tree = open(alloc, 10, store)?;
    let mut right = false;
    for (a, b) in beginnings {
        right = right || (shows(&tree, "a", 10, a) && shows(&tree, "b", 10, b));
    }
    drop(tree);
    Ok(right)
}

/// Whether it does so however it is crashed.
fn reopens(alloc: Global, store: &MemStore, beginnings: &[(&str, &str)]) -> Result<bool, Error> {
    for way in 0..WAYS {
        if let Some(left) = crashed(alloc, store, way)? {
            if !opens(alloc, left, beginnings)? {
                return Ok(false);
            }
        }
    }
    Ok(true)
}

/// The store after an opening that stops at this call, if it makes so many. A crash leaves of the store that is opened just that.
fn stopped_opening(alloc: Global, left: &MemStore, call: u64) -> Result<MemStore, Error> {
    match left.crash(&[])? {
        Some(store) => Ok(stopped(alloc, store, 10, call, &[]).0),
        None => Err(Error::Unrecoverable),
    }
}

/// Whether it is so of what a crash left, at each stop of its opening and after the whole of it.
fn survives(alloc: Global, left: &MemStore, beginnings: &[(&str, &str)]) -> Result<bool, Error> {
    for call in 1..CALLS {
        let store = stopped_opening(alloc, left, call)?;
        if !reopens(alloc, &store, beginnings)? {
            return Ok(false);
        }
        if store.failures() == 0 {
            return Ok(true);
        }
    }
    Ok(false)
}

/// Whether it is so however a store is crashed.
fn survives_all(
    alloc: Global,
    store: &MemStore,
    beginnings: &[(&str, &str)],
) -> Result<bool, Error> {
    for way in 0..WAYS {
        if let Some(left) = crashed(alloc, store, way)? {
            if !survives(alloc, &left, beginnings)? {
                return Ok(false);
            }
        }
    }
    Ok(true)
}

/// Whether the tree shows a beginning, with all that is covered, where a store fails from this call on.
fn withstands(alloc: Global, script: &Script, call: u64) -> Result<bool, Error> {
    let (store, covered) = stopped(alloc, MemStore::new(alloc), 0, call, script.0);
    match script.1.get(covered..) {
        Some(beginnings) => survives_all(alloc, &store, beginnings),
        None => Ok(false),
    }
}

/// Both writes are covered where the store never fails, and it may fail from each call on.
fn stays_safe(rt: &impl Abort, alloc: Global, script: &Script) {
    let (store, covered) = stopped(alloc, MemStore::new(alloc), 0, CALLS, script.0);
    drop(store);
    assert!(rt; covered == 2);
    for call in 1..CALLS {
        assert!(rt;
            matches!(withstands(alloc, script, call), Ok(true)),
            "from call {call} on"
        );
    }
}

// ---- openings without a crash before them

/// Whether the tree shows a beginning, with all that is covered, where one call of a script fails so, the store is opened again as
/// it is, and it fails from this call on; and whether the opening makes fewer calls.
fn reopens_at(
    alloc: Global,
    script: &Script,
    failing: (u64, Fault),
    call: u64,
) -> Result<(bool, bool), Error> {
    let (store, covered) = faulted(alloc, MemStore::new(alloc), 0, failing, script.0);
    let failures = store.failures();
    let (store, _) = stopped(alloc, store, 10, call, &[]);
    let is_whole = store.failures() == failures;
    let right = match script.1.get(covered..) {
        Some(beginnings) => reopens(alloc, &store, beginnings),
        None => Ok(false),
    };
    drop(store);
    Ok((right?, is_whole))
}

/// Whether it is so at each stop of that opening, and after the whole of it.
fn reopens_each(alloc: Global, script: &Script, failing: (u64, Fault)) -> Result<bool, Error> {
    for call in 1..CALLS {
        let (right, is_whole) = reopens_at(alloc, script, failing, call)?;
        if !right || is_whole {
            return Ok(right);
        }
    }
    Ok(false)
}

/// A commit whose outcome isn't known reads as the old version or as the new one; an opening of the same store removes what the
/// other one names, and a crash after it doesn't bring that one back.
#[test]
fn an_opening_settles_what_it_read(rt: HostRuntime) {
    for call in 1..32 {
        for fault in [Fault::Once, Fault::OnceDone] {
            assert!(rt;
                matches!(
                    reopens_each(rt.alloc(), &AROUND_A_FLUSH, (call, fault)),
                    Ok(true)
                ),
                "{fault:?} of call {call}"
            );
        }
    }
}

#[test]
fn a_crash_around_a_flush_leaves_a_beginning(rt: HostRuntime) {
    stays_safe(&rt, rt.alloc(), &AROUND_A_FLUSH);
}

#[test]
fn a_crash_around_an_evicting_merge_leaves_a_beginning(rt: HostRuntime) {
    stays_safe(&rt, rt.alloc(), &EVICTING);
}
