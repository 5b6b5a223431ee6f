//! A tree in the folder `runs`: each run adds a key, and lists those of all runs so far.
//!
//! The README shows this program whole.
#![tactic(auto)]

use anyhow::Result;
use lsm_tree::{Config, FolderStore, IterGuard, Logged, Op, UserKey};
use std::alloc::Global;

type Runs = Logged<FolderStore<HostRuntime>>;

/// The tree that the folder holds, with all that was acknowledged before, or a new one.
fn open(rt: &HostRuntime) -> Result<Runs> {
    let alloc = rt.alloc();
    let store = FolderStore::new(rt, alloc, "runs")?;
    let opened = Logged::open(alloc, Config::new(0, 0, 0), store);
    Ok(opened.map_err(|(error, store)| store.explain(error))?)
}

/// Writes one key more than there are. Once it is answered, no crash takes it.
fn add_run(alloc: Global, tree: &mut Runs) -> Result<()> {
    let runs = tree.len(tree.visible_seqno().get(), None)?;
    let key = format!(in alloc; "run {}", runs.saturating_add(1))?;
    let key = UserKey::copy_from_slice(alloc, key.as_bytes())?;
    let written = tree.write(vec![in alloc; (key, Op::Set(UserKey::from_static(b"done")))]?);
    written.map_err(|error| tree.store().explain(error))?;
    Ok(())
}

/// Writes all that is only in the log to a table, so that the log doesn't grow on.
fn flush_all(tree: &mut Runs) -> Result<()> {
    let watermark = tree.visible_seqno().get();
    let flushed = tree.flush_active_memtable(watermark);
    flushed.map_err(|(error, _)| tree.store().explain(error))?;
    Ok(())
}

fn list_runs(rt: &impl Print, tree: &Runs) -> Result<()> {
    for pair in tree.iter(tree.visible_seqno().get(), None)? {
        let (key, value) = pair.into_inner()?;
        println!(rt; "{key:?} is {value:?}")?;
    }
    Ok(())
}

fn main(rt: HostRuntime) -> Result<()> {
    let mut tree = open(&rt)?;
    let added = add_run(rt.alloc(), &mut tree);
    drop(tree);
    added?;

    let mut tree = open(&rt)?;
    let listed = list_runs(&rt, &tree);
    if tree.log_len() >= 1_000 {
        flush_all(&mut tree)?;
    }
    drop(tree);
    listed
}
