// Workloads that merge tables, on a tree with one owner.
use crate::keys::PAIR_LEN;
use crate::points::{flush_seen, put, put_parts};
use crate::trees::AnyTree;
use anyhow::{Result, bail};
use lsm_tree::{CompactionStrategy, Leveled, Store, TableId, TreeState};
use std::alloc::Global;
use std::sync::Wait;

/// A table of a merge ends as soon as its entries have so many bytes: 64 MiB.
const TARGET: u64 = 67_108_864;

/// Into how many parts keys are put where `Leveled` merges in between.
const PARTS: usize = 16;

const NOT_OWNED: &str = "it has more than one owner";

/// Merges all tables into the last level. The check is how many entries are left.
pub fn merge_all<S: Store>(tree: &mut AnyTree<S>) -> Result<u64> {
    let AnyTree::Owned(tree) = tree else {
        bail!(NOT_OWNED)
    };
    let watermark = tree.visible_seqno().get();
    tree.major_compact(TARGET, watermark)?;
    Ok(tree.approximate_len() as u64)
}

/// Clears a tree so many times, each of which commits a version without tables. The check is the id of the last version.
pub fn clear_all<S: Store>(tree: &mut AnyTree<S>, times: usize) -> Result<u64> {
    let AnyTree::Owned(tree) = tree else {
        bail!(NOT_OWNED)
    };
    for _ in 0..times {
        tree.clear()?;
    }
    Ok(tree.current_version().id())
}

/// Puts keys in four parts, flushes each, and merges all tables.
pub fn ingest<S: Store + Send>(
    rt: &impl Wait,
    alloc: Global,
    tree: &mut AnyTree<S>,
    ids: &[u64],
) -> Result<u64> {
    put_parts(rt, alloc, tree, ids, 4)?;
    merge_all(tree)
}

/// Puts keys in 16 parts; flushes each, and compacts after it as `Leveled` chooses. The check is the write amplification in
/// per cent: how many bytes of tables were written for 100 bytes of keys and values.
pub fn mix<S: Store + Send>(
    rt: &impl Wait,
    alloc: Global,
    tree: &mut AnyTree<S>,
    ids: &[u64],
) -> Result<u64> {
    let leveled = Leveled::new(alloc)?;
    let mut written = 0u64;
    for part in ids.chunks(ids.len().div_ceil(PARTS).max(1)) {
        put(rt, alloc, tree, part, 1)?;
        written = written.saturating_add(flush_counted(rt, tree)?);
        written = written.saturating_add(compact_counted(tree, &leveled)?);
    }
    let put = PAIR_LEN.saturating_mul(ids.len() as u64);
    Ok(written.saturating_mul(100).checked_div(put).unwrap_or(0))
}

/// Flushes what was put, and returns the bytes of the tables that were written.
fn flush_counted<S: Store + Send>(rt: &impl Wait, tree: &mut AnyTree<S>) -> Result<u64> {
    let first = tree.state()?.next_table_id();
    flush_seen(rt, tree)?;
    Ok(bytes_from(tree.state()?, first))
}

/// Compacts, and returns the bytes of the tables that were written.
fn compact_counted<S: Store>(
    tree: &mut AnyTree<S>,
    strategy: &dyn CompactionStrategy,
) -> Result<u64> {
    let AnyTree::Owned(tree) = tree else {
        bail!(NOT_OWNED)
    };
    let first = tree.next_table_id();
    let watermark = tree.visible_seqno().get();
    tree.compact(strategy, watermark)?;
    Ok(bytes_from(tree, first))
}

/// The bytes of the tables from this id on.
fn bytes_from<S: Store>(tree: &TreeState<S>, first: TableId) -> u64 {
    let mut bytes = 0u64;
    for table in tree.current_version().iter_tables() {
        if table.id() >= first {
            bytes = bytes.saturating_add(table.file_size());
        }
    }
    bytes
}
