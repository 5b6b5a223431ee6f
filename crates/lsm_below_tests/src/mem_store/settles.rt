// What a crash leaves once names are settled, and calls that do nothing.

use super::looks::{Look, behind, finds};
use super::{A, SCRIPT};
use crate::samples::{Call, answer};
use lsm_store::{Fault, MemStore, Pick, Store, StoreError};
use std::alloc::Global;
use std::process::Abort;
use std::test::Fail;

/// Calls on the name a, the fault of the last one, the fault of the settling after them, and what looks then find.
struct Case {
    name: &'static str,
    calls: &'static [Call],
    fault: Option<Fault>,
    settling: Option<Fault>,
    looks: &'static [Look],
}

const WRITE: Call = Call::Write(A, b"1");

const REPLACED: &[Call] = &[WRITE, Call::Sync(A), Call::Replace(A, b"3")];

const REMOVED: &[Call] = &[WRITE, Call::Sync(A), Call::Remove(A)];

/// Just the old content may be left.
const HAS_OLD: &[Look] = &[
    Look::Refuses(Pick::Bytes(b"3")),
    Look::Refuses(Pick::Absent),
    Look::Alone(Some(b"1")),
];

/// Just the new content may be left.
const HAS_NEW: &[Look] = &[
    Look::Refuses(Pick::Bytes(b"1")),
    Look::Refuses(Pick::Absent),
    Look::Alone(Some(b"3")),
];

const HAS_NONE: &[Look] = &[
    Look::Refuses(Pick::Bytes(b"1")),
    Look::Leaves(Pick::Absent, None),
    Look::Alone(None),
];

const CASES: [Case; 8] = [
    Case {
        name: "a failed replacement is settled",
        calls: REPLACED,
        fault: Some(Fault::Once),
        settling: None,
        looks: HAS_OLD,
    },
    Case {
        name: "a replacement that is done and fails is settled",
        calls: REPLACED,
        fault: Some(Fault::OnceDone),
        settling: None,
        looks: HAS_NEW,
    },
    Case {
        name: "a removal is settled",
        calls: REMOVED,
        fault: None,
        settling: None,
        looks: HAS_NONE,
    },
    Case {
        name: "a failed removal is settled",
        calls: REMOVED,
        fault: Some(Fault::Once),
        settling: None,
        looks: HAS_OLD,
    },
    Case {
        name: "what is written and not synced stays so",
        calls: &[WRITE],
        fault: None,
        settling: None,
        looks: &[
            Look::Leaves(Pick::Bytes(b"torn"), Some(b"torn")),
            Look::Leaves(Pick::Absent, None),
            Look::Failures(0),
        ],
    },
    Case {
        name: "settling that fails",
        calls: REMOVED,
        fault: None,
        settling: Some(Fault::Once),
        looks: &[
            Look::Leaves(Pick::Before, Some(b"1")),
            Look::Leaves(Pick::Absent, None),
            Look::Failures(1),
        ],
    },
    Case {
        name: "settling that is done and fails",
        calls: REMOVED,
        fault: None,
        settling: Some(Fault::OnceDone),
        looks: HAS_NONE,
    },
    Case {
        name: "settling that does nothing",
        calls: REMOVED,
        fault: None,
        settling: Some(Fault::OnceNothing),
        looks: &[
            Look::Leaves(Pick::Before, Some(b"1")),
            Look::Leaves(Pick::Absent, None),
            Look::Failures(1),
        ],
    },
];

/// Settles with this fault, if one is given. Whether that is told, and the look then finds what it has to.
fn settles(
    alloc: Global,
    store: &mut MemStore,
    fault: Option<Fault>,
    look: Look,
) -> Result<bool, StoreError> {
    if let Some(fault) = fault {
        store.fail(1, fault);
    }
    let is_told = match fault {
        None => matches!(store.settle(), Ok(())),
        Some(Fault::OnceNothing) => matches!(store.settle(), Err(StoreError::NothingDone)),
        Some(_) => matches!(store.settle(), Err(StoreError::Fault)),
    };
    Ok(is_told && finds(alloc, store, look)?)
}

fn shows(alloc: Global, case: &Case, look: Look) -> Result<bool, StoreError> {
    let mut store = behind(alloc, case.calls, case.fault)?;
    let found = settles(alloc, &mut store, case.settling, look);
    drop(store);
    found
}

fn check(rt: &impl Abort, alloc: Global, case: &Case) -> Result<(), StoreError> {
    for (number, look) in case.looks.iter().enumerate() {
        assert!(rt; shows(alloc, case, *look)?, "{}, look {number}", case.name);
    }
    Ok(())
}

#[test]
fn what_settling_leaves(rt: HostRuntime) -> Result<(), Fail> {
    for case in &CASES {
        check(&rt, rt.alloc(), case)?;
    }
    Ok(())
}

/// Whether each call that is planned to do nothing says so; what the calls find is as if they hadn't been made.
fn does_nothing(alloc: Global, store: &mut MemStore) -> Result<bool, StoreError> {
    for call in SCRIPT {
        store.fail(1, Fault::OnceNothing);
        if !matches!(answer(store, call), Err(StoreError::NothingDone)) {
            return Ok(false);
        }
    }
    store.fail(1, Fault::OnceNothing);
    let is_told = matches!(store.list(alloc), Err(StoreError::NothingDone));
    store.fail(1, Fault::OnceNothing);
    let is_read = matches!(store.read(alloc, A), Err(StoreError::NothingDone));
    let is_empty = store.list(alloc)?.is_empty();
    Ok(is_told && is_read && is_empty && store.failures() == 14)
}

#[test]
fn each_call_may_do_nothing(rt: HostRuntime) -> Result<(), Fail> {
    let mut store = MemStore::new(rt.alloc());
    let well = does_nothing(rt.alloc(), &mut store);
    drop(store);
    assert!(rt; well?);
    Ok(())
}
