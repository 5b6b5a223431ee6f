//! The tree as a library, shown call by call, over stores in memory.
//!
//! | Module | Shows |
//! |-|-|
//! | `snapshots` | a batch, and reads at two snapshots |
//! | `ranges` | iterators within bounds, from both ends, by prefix, and under an overlay |
//! | `strategy` | a strategy of one's own |
//! | `threads` | a tree that several threads share, and a compaction beside them |
#![tactic(auto)]

mod ranges;
mod snapshots;
mod strategy;
mod threads;

use anyhow::Result;
use lsm_tree::{Config, Handle, MemStore, TreeState, UserKey};
use std::alloc::Global;
use std::sync::{Arc, Mutex};
use std::thread;
use threads::{finish, keep_compacting, write_all};

/// A key or a value of these letters.
fn text(letters: &'static str) -> UserKey {
    UserKey::from_static(letters.as_bytes())
}

/// A new tree with one owner. It keeps no call history: `Recorded` does, for those who ask for one.
fn open(alloc: Global) -> Result<TreeState> {
    let opened = TreeState::open_unlogged(alloc, Config::new(0, 0, 0), MemStore::new(alloc));
    Ok(opened.map_err(|refused| refused.0)?)
}

fn main(rt: HostRuntime) -> Result<()> {
    snapshots::run(&rt, rt.alloc())?;
    ranges::run(&rt, rt.alloc())?;
    strategy::run(&rt, rt.alloc())?;

    let alloc = rt.alloc();
    let tree = Handle::new(alloc, open(alloc)?)?;
    let stop = Arc::new(alloc, Mutex::new(false))?;

    let (other, told) = (tree.clone()?, Arc::try_clone(&stop)?);
    let worker = thread::spawn(&rt, move || keep_compacting(&rt, alloc, &other, &told))?;
    let wrote = write_all(&rt, alloc, &tree);
    *stop.lock(&rt) = true;
    worker.join(&rt)?;

    println!(rt; "each writer read what it wrote: {}", wrote?)?;
    finish(&rt, &tree)
}
