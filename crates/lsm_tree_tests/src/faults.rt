// Flushes of shared trees over a store of which a call fails.
use crate::samples::{Caller, set, text};
use lsm_tree::{
    Config, Error, Fault, Handle, MemStore, Recorded, RecordedTree, Registered, Tree, TreeState,
};
use std::alloc::Global;
use std::sync::Wait;

/// More calls of the store than an opening and a flush make.
const CALLS: u64 = 24;

/// A store of which this call fails, and is known to have done nothing.
fn failing(alloc: Global, call: u64) -> MemStore {
    let mut store = MemStore::new(alloc);
    store.fail(call, Fault::OnceNothing);
    store
}

/// Whether it is the flush of a = x.
fn is_flushed(told: &Option<(u64, Registered)>) -> bool {
    matches!(told, Some((50, registered)) if registered.installed && registered.cleaned)
}

// ---- a shared tree

fn open(alloc: Global, call: u64) -> Result<Tree, Error> {
    match TreeState::open(alloc, Config::new(0, 0, 0), failing(alloc, call)) {
        Ok(core) => Ok(Handle::new(alloc, core)?),
        Err((error, _)) => Err(error),
    }
}

/// Whether a flush of a = x blames the store, and the next one installs what it left.
fn goes_on(rt: &impl Wait, alloc: Global, tree: &Tree) -> Result<bool, Error> {
    set(rt, alloc, tree, "a", "x")?;
    let told = tree.flush_active_memtable(rt, 0);
    let is_blamed = matches!(told, Err((Error::Store, Some(0))));
    let next = tree.flush(rt, 0)?;
    let found = tree.get(rt, b"a", 1)?;
    Ok(is_blamed && is_flushed(&next) && found == Some(text("x")))
}

fn goes_on_after(rt: &impl Wait, alloc: Global, call: u64) -> bool {
    let Ok(tree) = open(alloc, call) else {
        return false;
    };
    let done = goes_on(rt, alloc, &tree);
    drop(tree);
    matches!(done, Ok(true))
}

/// Each of its five calls: the table and `v1` are written and synced, and `current` replaced.
#[test]
fn a_shared_tree_goes_on_after_a_failed_flush(rt: HostRuntime) {
    let mut count = 0u64;
    for call in 1..CALLS {
        if goes_on_after(&rt, rt.alloc(), call) {
            count = count.saturating_add(1);
        }
    }
    assert_eq!(rt; count, 5);
}

// ---- with a journal

fn open_recorded(alloc: Global, call: u64) -> Result<RecordedTree, Error> {
    match Recorded::open(alloc, Config::new(0, 0, 0), failing(alloc, call)) {
        Ok(core) => Ok(Handle::new(alloc, core)?),
        Err((error, _)) => Err(error),
    }
}

/// The same of a tree with its journal.
fn records_on(caller: &mut Caller<'_, impl Wait>) -> Result<bool, Error> {
    caller.set("x")?;
    let (rt, tree, pass) = caller.parts();
    let told = tree.flush_active_memtable(rt, pass, 0);
    let is_blamed = matches!(told, Err((Error::Store, Some(0))));
    let next = tree.flush(rt, pass, 0)?;
    let found = tree.get(rt, pass, &text("a"), 1)?;
    Ok(is_blamed && is_flushed(&next) && found == Some(text("x")))
}

fn records_on_after(rt: &impl Wait, alloc: Global, call: u64) -> bool {
    let Ok(tree) = open_recorded(alloc, call) else {
        return false;
    };
    let mut caller = Caller::new(rt, alloc, &tree);
    let done = records_on(&mut caller);
    drop(caller);
    drop(tree);
    matches!(done, Ok(true))
}

#[test]
fn a_recorded_tree_goes_on_after_a_failed_flush(rt: HostRuntime) {
    let mut count = 0u64;
    for call in 1..CALLS {
        if records_on_after(&rt, rt.alloc(), call) {
            count = count.saturating_add(1);
        }
    }
    assert_eq!(rt; count, 5);
}
