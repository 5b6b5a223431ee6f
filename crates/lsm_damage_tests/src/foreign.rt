// Jobs that end on another tree: there they do nothing, and here they stay open until the tree is opened again.
use crate::careless::{all_ids, into_level, open_with_two};
use crate::samples::{open, text};
use lsm_state::{
    Begun, Choice, CompactionJob, Error, Finished, MergedCompaction, Op, Options, TreeState, Why,
    WrittenFlush,
};
use std::alloc::Global;
use std::test::Fail;

/// Does a merge; refused, it is given up.
fn merge(tree: &mut TreeState, job: CompactionJob) -> Result<MergedCompaction, Error> {
    match job.run() {
        Ok(merged) => Ok(merged),
        Err((error, job)) => {
            tree.abandon_compaction(job);
            Err(error)
        }
    }
}

/// A merge of both tables into the last level that is begun and run.
fn begin_merge(alloc: Global, tree: &mut TreeState) -> Result<MergedCompaction, Error> {
    let ids = all_ids(alloc, tree.current_version())?;
    let options = Options::from_tree(tree);
    match tree.begin_choice(Choice::Merge(into_level(ids, 6)), options)? {
        Begun::Job(job) => merge(tree, job),
        Begun::DidNothing | Begun::Declined(_) | Begun::Installed => Err(Error::Store),
    }
}

/// Whether a merge of another tree is unknown here, and changes nothing.
fn is_unknown(tree: &mut TreeState, merged: MergedCompaction) -> bool {
    let told = tree.finish_compaction(merged);
    matches!(told, Ok(Finished::Declined(Why::UnknownJob)))
        && tree.table_count() == 2
        && !tree.is_compacting()
}

fn is_hidden(tree: &TreeState) -> bool {
    let hidden = tree.compaction_state().hidden_set();
    tree.is_compacting() && hidden.is_hidden(0) && hidden.is_hidden(1)
}

/// Whether a merge of both tables is begun and run, and given up.
fn begins_merge(alloc: Global, tree: &mut TreeState) -> bool {
    match begin_merge(alloc, tree) {
        Ok(merged) => {
            tree.abandon_compaction(merged.into_job());
            true
        }
        Err(_) => false,
    }
}

/// Whether all is free in a tree that is opened again.
fn is_free_again(alloc: Global, tree: TreeState) -> bool {
    match open(alloc, 10, tree.into_store()) {
        Ok(mut again) => {
            let is_free = begins_merge(alloc, &mut again);
            drop(again);
            is_free
        }
        Err(_) => false,
    }
}

/// Whether a merge of another tree is unknown in a new one.
fn is_unknown_elsewhere(alloc: Global, merged: MergedCompaction) -> bool {
    match open_with_two(alloc) {
        Ok(mut other) => {
            let unknown = is_unknown(&mut other, merged);
            drop(other);
            unknown
        }
        Err(_) => {
            drop(merged.keep());
            false
        }
    }
}

/// Whether a merge that is begun in this tree and finished in another is as it should be in both.
fn merges_elsewhere(alloc: Global, tree: &mut TreeState) -> bool {
    match begin_merge(alloc, tree) {
        Ok(merged) => is_unknown_elsewhere(alloc, merged) && is_hidden(tree),
        Err(_) => false,
    }
}

#[test]
fn a_merge_ends_on_its_own_tree_alone(rt: HostRuntime) -> Result<(), Fail> {
    let mut tree = open_with_two(rt.alloc())?;
    let right = merges_elsewhere(rt.alloc(), &mut tree);
    let is_free = is_free_again(rt.alloc(), tree);
    assert!(rt; right && is_free);
    Ok(())
}

// ---- flushes

/// Seals b = y.
fn seal(alloc: Global, tree: &mut TreeState) -> Result<(), Error> {
    tree.write(vec![in alloc; (text("b"), Op::Set(text("y")))]?)?;
    tree.rotate_memtable()?;
    Ok(())
}

/// A flush of b = y whose tables are written.
fn write_tables(alloc: Global, tree: &mut TreeState) -> Result<WrittenFlush, Error> {
    seal(alloc, tree)?;
    let Some(job) = tree.begin_flush()? else {
        return Err(Error::Store);
    };
    let (error, job) = match job.run(0) {
        Ok(merged) => match tree.flush_to_tables(merged) {
            Ok(written) => return Ok(written),
            Err((error, merged)) => (error, merged.into_job()),
        },
        Err(refused) => refused,
    };
    tree.abandon_flush(job);
    Err(error)
}

/// Whether a flush of another tree isn't installed here, and changes nothing.
fn is_stale(tree: &mut TreeState, written: WrittenFlush) -> bool {
    let told = tree.register_tables(written);
    matches!(told, Ok(registered) if !registered.installed)
        && tree.table_count() == 2
        && tree.sealed_memtable_count() == 1
}

/// Whether a flush begins, which is given up.
fn begins_flush(tree: &mut TreeState) -> Result<bool, Error> {
    match tree.begin_flush()? {
        Some(job) => {
            tree.abandon_flush(job);
            Ok(true)
        }
        None => Ok(false),
    }
}

fn is_flush_open(tree: &mut TreeState) -> bool {
    matches!(begins_flush(tree), Err(Error::FlushOpen))
}

/// Whether a tree that is opened again flushes.
fn flushes_again(alloc: Global, tree: TreeState) -> Result<bool, Error> {
    match open(alloc, 10, tree.into_store()) {
        Ok(mut again) => {
            let sealed = seal(alloc, &mut again);
            let is_free = begins_flush(&mut again);
            drop(again);
            sealed?;
            is_free
        }
        Err((error, _)) => Err(error),
    }
}

/// Whether a flush of another tree is stale in a new one that has sealed the same.
fn is_stale_elsewhere(alloc: Global, written: WrittenFlush) -> bool {
    match open_with_two(alloc) {
        Ok(mut other) => {
            let is_sealed = seal(alloc, &mut other).is_ok();
            let stale = is_stale(&mut other, written);
            drop(other);
            is_sealed && stale
        }
        Err(_) => {
            drop(written.keep());
            false
        }
    }
}

/// Whether a flush that is begun in this tree and registered in another is as it should be in both.
fn flushes_elsewhere(alloc: Global, tree: &mut TreeState) -> bool {
    match write_tables(alloc, tree) {
        Ok(written) => is_stale_elsewhere(alloc, written) && is_flush_open(tree),
        Err(_) => false,
    }
}

#[test]
fn a_flush_ends_on_its_own_tree_alone(rt: HostRuntime) -> Result<(), Fail> {
    let mut tree = open_with_two(rt.alloc())?;
    let right = flushes_elsewhere(rt.alloc(), &mut tree);
    let flushes = flushes_again(rt.alloc(), tree)?;
    assert!(rt; right && flushes);
    Ok(())
}
