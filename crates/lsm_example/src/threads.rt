//! What the threads do that share a tree: four of them write and read, and one compacts beside them. `main` starts that one, since
//! the runtime can be sent to a thread only there.

use anyhow::Result;
use lsm_tree::{Error, Leveled, Op, RunJob, Tree, UserKey};
use std::alloc::{AllocError, Global};
use std::sync::{Mutex, Wait};
use std::thread::{self, Threads};

const WRITERS: usize = 4;

/// How many keys each of them writes. It flushes after each tenth one.
const KEYS: usize = 100;

/// Snapshots from the watermark on are kept for their readers. While any snapshot may be read, it is 0.
const KEEP_ALL: u64 = 0;

/// A key that no other writer writes.
fn name_key(alloc: Global, writer: usize, key: usize) -> Result<UserKey, AllocError> {
    let name = format!(in alloc; "{writer}-{key:02}")?;
    UserKey::copy_from_slice(alloc, name.as_bytes())
}

/// Writes a key with its own bytes as its value: whether that is read back at the snapshot after the write.
fn write_and_read(rt: &impl Wait, alloc: Global, tree: &Tree, key: UserKey) -> Result<bool, Error> {
    let op = Op::Set(key.clone()?);
    let number = tree.write(rt, vec![in alloc; (key.clone()?, op)]?)?;
    let found = tree.get(rt, &key, number.saturating_add(1))?;
    Ok(found == Some(key))
}

/// What one writer does: whether it read all that it wrote.
fn write_keys(rt: &impl Wait, alloc: Global, tree: &Tree, writer: usize) -> Result<bool, Error> {
    for key in 0..KEYS {
        if !write_and_read(rt, alloc, tree, name_key(alloc, writer, key)?)? {
            return Ok(false);
        }
        if key % 10 == 9 {
            tree.flush_active_memtable(rt, KEEP_ALL)
                .map_err(|refused| refused.0)?;
        }
    }
    Ok(true)
}

/// Compacts until it is told to stop. A merge holds no lock, so the writers go on meanwhile.
pub(crate) fn keep_compacting(
    rt: &impl Wait,
    alloc: Global,
    tree: &Tree,
    stop: &Mutex<bool>,
) -> Result<(), Error> {
    let strategy = Leveled::new(alloc)?;
    for _ in rt.forever() {
        tree.compact_gated(rt, &strategy, KEEP_ALL, &RunJob)?;
        if *stop.lock(rt) {
            return Ok(());
        }
        thread::yield_now();
    }
    Ok(())
}

/// Starts the writers, and waits for them: whether all read what they wrote.
pub(crate) fn write_all<R: Threads + Wait + Sync>(
    rt: &R,
    alloc: Global,
    tree: &Tree,
) -> Result<bool, Error> {
    let told = thread::map_indices(
        rt,
        alloc,
        WRITERS,
        &|writer| { write_keys(rt, alloc, tree, writer) },
    )?;
    for all_read in told {
        if !all_read? {
            return Ok(false);
        }
    }
    Ok(true)
}

/// Merges what is left into one table, when nobody reads an older snapshot any more.
pub(crate) fn finish<R: Print + Wait>(rt: &R, tree: &Tree) -> Result<()> {
    let now = tree.visible_number(rt);
    tree.major_compact(rt, u64::MAX, now)?;
    println!(rt;
        "{} keys in {} table",
        tree.len(rt, now, None)?,
        tree.table_count(rt)
    )?;
    Ok(())
}
