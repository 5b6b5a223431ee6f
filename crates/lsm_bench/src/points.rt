// Workloads that write or read one key at a time, on any tree.
ghost use Rattle.std.specs.Prelude.{◌<◌};

use crate::keys::{absent_key_of, key_of, user_key, user_value};
use crate::trees::AnyTree;
use crate::workloads::Filling;
use lsm_tree::{Error, Op, Store};
use std::alloc::Global;
use std::sync::Wait;

/// Fills an empty tree with the keys of these ids.
pub fn fill<S: Store + Send>(
    rt: &impl Wait,
    alloc: Global,
    tree: &mut AnyTree<S>,
    filling: Filling,
    ids: &[u64],
) -> Result<u64, Error> {
    match filling {
        Filling::Empty => Ok(0),
        Filling::Random => put(rt, alloc, tree, ids, 1),
        Filling::Flat => put_parts(rt, alloc, tree, ids, 1),
        Filling::Runs => put_parts(rt, alloc, tree, ids, 4),
    }
}

/// Puts the key of each id with its value, so many a batch. The check is the last sequence number, which counts the writes
/// before it.
pub fn put<S: Store + Send>(
    rt: &impl Wait,
    alloc: Global,
    tree: &mut AnyTree<S>,
    ids: &[u64],
    batch: usize,
) -> Result<u64, Error> {
    let mut check = 0;
    for part in ids.chunks(batch.max(1)) {
        let mut ops = Vec::with_capacity(alloc, part.len())?;
        for id in part {
            ops.push((user_key(alloc, *id)?, Op::Set(user_value(alloc, *id)?)))?;
        }
        check = tree.write(rt, ops)?;
    }
    Ok(check)
}

/// Puts the keys in so many parts at most, each of which is flushed.
pub fn put_parts<S: Store + Send>(
    rt: &impl Wait,
    alloc: Global,
    tree: &mut AnyTree<S>,
    ids: &[u64],
    parts: usize,
) -> Result<u64, Error>
    requires { 0 < parts }
{
    let mut check = 0;
    for part in ids.chunks(ids.len().div_ceil(parts).max(1)) {
        check = put(rt, alloc, tree, part, 1)?;
        flush_seen(rt, tree)?;
    }
    Ok(check)
}

/// Flushes the active memtable, and keeps what snapshots from now on see, so that memtables which were flushed before go.
pub fn flush_seen<S: Store + Send>(rt: &impl Wait, tree: &mut AnyTree<S>) -> Result<u64, Error> {
    let watermark = tree.snapshot(rt);
    tree.flush(rt, watermark)
}

/// Gets a key for each id, one after the other: its own, or one that isn't there. The check is the sum of the lengths of
/// their values.
pub fn get<S: Store + Send>(
    rt: &impl Wait,
    tree: &mut AnyTree<S>,
    ids: &[u64],
    is_absent: bool,
) -> Result<u64, Error> {
    let snapshot = tree.snapshot(rt);
    let mut check = 0u64;
    for id in ids {
        let key = if is_absent {
            absent_key_of(*id)
        } else {
            key_of(*id)
        };
        if let Some(value) = tree.get(rt, &key, snapshot)? {
            check = check.wrapping_add(value.len() as u64);
        }
    }
    Ok(check)
}
