// Looks at what single crashes leave, and at what calls answer.

use super::{A, B, SCRIPT, is_content, leaves, refuses};
use crate::samples::{Call, make, make_each};
use lsm_store::{Fault, MemStore, Pick, Store, StoreError};
use std::alloc::Global;
use std::process::Abort;
use std::test::Fail;

/// A store after these calls, the last of which has this fault, if one is given.
pub fn behind(alloc: Global, calls: &[Call], fault: Option<Fault>) -> Result<MemStore, StoreError> {
    let mut store = MemStore::new(alloc);
    if let Some(fault) = fault {
        store.fail(calls.len() as u64, fault);
    }
    match make_each(&mut store, calls) {
        Ok(_) => Ok(store),
        Err(error) => Err(error),
    }
}

/// What a look at a store has to find.
#[derive(Clone, Copy)]
pub enum Look {
    /// A crash with this pick of the name a leaves this of it.
    Leaves(Pick<'static>, Option<&'static [u8]>),
    /// The pick isn't possible.
    Refuses(Pick<'static>),
    /// A crash without picks leaves this.
    Alone(Option<&'static [u8]>),
    /// So many calls have failed.
    Failures(u64),
}

pub fn finds(alloc: Global, store: &MemStore, look: Look) -> Result<bool, StoreError> {
    match look {
        Look::Leaves(pick, wanted) => leaves(alloc, store, A, &[(A, pick)], wanted),
        Look::Refuses(pick) => refuses(alloc, store, A, pick),
        Look::Alone(wanted) => leaves(alloc, store, A, &[], wanted),
        Look::Failures(count) => Ok(store.failures() == count),
    }
}

/// Whether a look finds what it has to after these calls, the last of which has this fault, if one is given.
fn shows(
    alloc: Global,
    calls: &[Call],
    fault: Option<Fault>,
    look: Look,
) -> Result<bool, StoreError> {
    let store = behind(alloc, calls, fault)?;
    let found = finds(alloc, &store, look);
    drop(store);
    found
}

/// Calls on the name a, the fault of the last one, if it has one, and what looks then find.
struct Case {
    name: &'static str,
    calls: &'static [Call],
    fault: Option<Fault>,
    looks: &'static [Look],
}

const WRITE: Call = Call::Write(A, b"1");

const SYNC: Call = Call::Sync(A);

const OVER_A_SYNCED_ONE: &[Look] = &[
    Look::Leaves(Pick::Before, Some(b"1")),
    Look::Leaves(Pick::Bytes(b"torn"), Some(b"torn")),
    Look::Alone(None),
];

const AFTER_A_FAILED_SYNC: &[Look] = &[
    Look::Leaves(Pick::Bytes(b"torn"), Some(b"torn")),
    Look::Leaves(Pick::Before, Some(b"1")),
    Look::Alone(None),
    Look::Failures(1),
];

const AFTER_A_REMOVAL: &[Look] = &[
    Look::Leaves(Pick::Before, Some(b"1")),
    Look::Leaves(Pick::Absent, None),
    Look::Refuses(Pick::Bytes(b"torn")),
    Look::Alone(None),
];

const REMOVED: &[Call] = &[WRITE, SYNC, Call::Remove(A)];

const REPLACED: &[Call] = &[WRITE, SYNC, Call::Replace(A, b"3")];

const CASES: [Case; 12] = [
    Case {
        name: "written and not synced",
        calls: &[WRITE, SYNC, Call::Write(A, b"6")],
        fault: None,
        looks: OVER_A_SYNCED_ONE,
    },
    Case {
        name: "synced",
        calls: &[WRITE, SYNC],
        fault: None,
        looks: &[
            Look::Refuses(Pick::Before),
            Look::Refuses(Pick::Absent),
            Look::Alone(Some(b"1")),
        ],
    },
    Case {
        name: "shared and not synced",
        calls: &[WRITE, SYNC, Call::Share(A, b"6")],
        fault: None,
        looks: OVER_A_SYNCED_ONE,
    },
    Case {
        name: "shared and synced",
        calls: &[Call::Share(A, b"6"), SYNC],
        fault: None,
        looks: &[Look::Refuses(Pick::Before), Look::Alone(Some(b"6"))],
    },
    Case {
        name: "a failed sync",
        calls: &[WRITE, SYNC],
        fault: Some(Fault::Once),
        looks: AFTER_A_FAILED_SYNC,
    },
    Case {
        name: "a sync that is done and fails",
        calls: &[WRITE, SYNC],
        fault: Some(Fault::OnceDone),
        looks: AFTER_A_FAILED_SYNC,
    },
    Case {
        name: "removed",
        calls: REMOVED,
        fault: None,
        looks: AFTER_A_REMOVAL,
    },
    Case {
        name: "a failed removal",
        calls: REMOVED,
        fault: Some(Fault::Once),
        looks: AFTER_A_REMOVAL,
    },
    Case {
        name: "a removal that is done and fails",
        calls: REMOVED,
        fault: Some(Fault::OnceDone),
        looks: AFTER_A_REMOVAL,
    },
    Case {
        name: "replaced",
        calls: REPLACED,
        fault: None,
        looks: &[
            Look::Refuses(Pick::Before),
            Look::Refuses(Pick::Bytes(b"1")),
            Look::Alone(Some(b"3")),
        ],
    },
    Case {
        name: "a failed replacement",
        calls: REPLACED,
        fault: Some(Fault::Once),
        looks: &[
            Look::Leaves(Pick::Before, Some(b"1")),
            Look::Leaves(Pick::Bytes(b"3"), Some(b"3")),
            Look::Refuses(Pick::Absent),
            Look::Alone(Some(b"1")),
        ],
    },
    Case {
        name: "a replacement that is done and fails",
        calls: REPLACED,
        fault: Some(Fault::OnceDone),
        looks: &[
            Look::Leaves(Pick::Before, Some(b"1")),
            Look::Leaves(Pick::Bytes(b"3"), Some(b"3")),
            Look::Refuses(Pick::Absent),
            Look::Alone(Some(b"3")),
        ],
    },
];

/// Takes each look of a case.
fn check(rt: &impl Abort, alloc: Global, case: &Case) -> Result<(), StoreError> {
    for (number, look) in case.looks.iter().enumerate() {
        assert!(rt;
            shows(alloc, case.calls, case.fault, *look)?,
            "{}, look {number}",
            case.name
        );
    }
    Ok(())
}

#[test]
fn what_a_crash_leaves(rt: HostRuntime) -> Result<(), Fail> {
    for case in &CASES {
        check(&rt, rt.alloc(), case)?;
    }
    Ok(())
}

/// Whether a store that holds nothing answers as it must of a name that was never used.
fn knows_no_name(alloc: Global, store: &mut MemStore) -> Result<bool, StoreError> {
    Ok(
        refuses(alloc, store, A, Pick::Bytes(b"1"))?
            && leaves(alloc, store, A, &[(A, Pick::Before)], None)?
            && make(store, Call::Remove(A))?
            && !make(store, Call::Sync(A))?
            && store.failures() == 1,
    )
}

#[test]
fn names_that_were_never_used(rt: HostRuntime) -> Result<(), Fail> {
    let mut store = MemStore::new(rt.alloc());
    let well = knows_no_name(rt.alloc(), &mut store);
    drop(store);
    assert!(rt; well?);
    Ok(())
}

#[test]
fn the_first_pick_counts(rt: HostRuntime) -> Result<(), Fail> {
    let store = behind(rt.alloc(), &SCRIPT[..1], None)?;
    let picks = [(A, Pick::Bytes(b"x")), (A, Pick::Absent)];
    let well = leaves(rt.alloc(), &store, A, &picks, Some(b"x"));
    drop(store);
    assert!(rt; well?);
    Ok(())
}

/// Whether the name b alone is listed, once a is removed.
fn lists_b(alloc: Global, store: &mut MemStore) -> Result<bool, StoreError> {
    if !make(store, Call::Remove(A))? {
        return Ok(false);
    }
    let names = store.list(alloc)?;
    Ok(names.len() == 1 && names[0].as_str() == B)
}

#[test]
fn lists_what_is_there(rt: HostRuntime) -> Result<(), Fail> {
    let mut store = behind(rt.alloc(), &SCRIPT[..4], None)?;
    let well = lists_b(rt.alloc(), &mut store);
    drop(store);
    assert!(rt; well?);
    Ok(())
}

fn reads(
    alloc: Global,
    store: &mut MemStore,
    name: &str,
    wanted: Option<&[u8]>,
) -> Result<bool, StoreError> {
    Ok(is_content(&store.read(alloc, name)?, wanted))
}

/// Whether looks fail from the second on, and no more once nothing is planned.
fn fails_as_planned(alloc: Global, store: &mut MemStore) -> Result<bool, StoreError> {
    store.fail(2, Fault::FromHere);
    let well = reads(alloc, store, A, Some(b"1"))?
        && matches!(store.read(alloc, A), Err(StoreError::Fault))
        && matches!(store.list(alloc), Err(StoreError::Fault))
        && store.failures() == 2;
    store.fail(0, Fault::Once);
    Ok(well && reads(alloc, store, A, Some(b"1"))?)
}

#[test]
fn looks_fail_as_planned(rt: HostRuntime) -> Result<(), Fail> {
    let mut store = behind(rt.alloc(), &SCRIPT[..2], None)?;
    let well = fails_as_planned(rt.alloc(), &mut store);
    drop(store);
    assert!(rt; well?);
    Ok(())
}

fn removes_both(store: &mut MemStore) -> Result<bool, StoreError> {
    Ok(make(store, Call::Remove(A))? && make(store, Call::Remove(B))?)
}

/// With the N-th growth refused, whichever it is, a removal is answered.
#[test]
fn a_removal_needs_no_memory(rt: HostRuntime) -> Result<(), Fail> {
    match behind(rt.alloc(), &SCRIPT, None) {
        Ok(mut store) => {
            let well = removes_both(&mut store);
            drop(store);
            assert!(rt; well?);
        }
        Err(error) => assert!(rt; matches!(error, StoreError::OutOfMemory)),
    }
    Ok(())
}
