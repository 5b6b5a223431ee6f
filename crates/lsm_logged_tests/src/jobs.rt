// Jobs that are to end after an unknown outcome.
use crate::logs::doubt;
use crate::trees::{flush, fresh, opened, write};
use lsm_logged::Logged;
use lsm_state::{Begun, CompactionJob, Error, Fault, Major, MergedCompaction};
use std::alloc::Global;
use std::test::Fail;

fn fill(alloc: Global, tree: &mut Logged) -> Result<bool, Error> {
    write(alloc, tree, "a", Some("x"))?;
    flush(tree)
}

/// A tree with a table, the putting of whose next record fails, with its effect.
fn doubtful(alloc: Global) -> Result<Logged, Error> {
    let mut tree = fresh(alloc)?;
    let filled = fill(alloc, &mut tree);
    let mut store = tree.into_store();
    // The calls of the opening come before.
    store.fail(8, Fault::OnceDone);
    match filled {
        Ok(_) => opened(alloc, store),
        Err(error) => {
            drop(store);
            Err(error)
        }
    }
}

/// Does a merge; refused, it is given up.
fn merge(tree: &mut Logged, job: CompactionJob) -> Result<MergedCompaction, Error> {
    match job.run() {
        Ok(merged) => Ok(merged),
        Err((error, job)) => {
            tree.abandon_compaction(job);
            Err(error)
        }
    }
}

/// A merge of all tables that is begun and done.
fn begin_merge(tree: &mut Logged) -> Result<MergedCompaction, Error> {
    let options = tree.tree().options_at(0);
    match tree.begin_with(&Major::new(u64::MAX), options)? {
        Begun::Job(job) => merge(tree, job),
        Begun::DidNothing | Begun::Declined(_) | Begun::Installed => Err(Error::Store),
    }
}

/// Whether the end of a merge is refused after an unknown outcome, and its table is in use up to there alone.
fn end_in_doubt(alloc: Global, tree: &mut Logged) -> Result<bool, Error> {
    let merged = begin_merge(tree)?;
    let is_shut = doubt(alloc, tree);
    let was_open = tree.tree().is_compacting();
    let ended = tree.finish_compaction(merged);
    let is_refused = matches!(ended, Err(Error::Unrecoverable));
    Ok(is_shut && was_open && is_refused && !tree.tree().is_compacting())
}

fn ended_in_doubt(alloc: Global) -> Result<bool, Error> {
    let mut tree = doubtful(alloc)?;
    let told = end_in_doubt(alloc, &mut tree);
    drop(tree);
    told
}

/// A merge that is to end after an unknown outcome is given up.
#[test]
fn merges_are_given_up_in_doubt(rt: HostRuntime) -> Result<(), Fail> {
    let given_up = ended_in_doubt(rt.alloc())?;
    assert!(rt; given_up);
    Ok(())
}
