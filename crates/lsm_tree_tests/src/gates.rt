// Compactions whose merge a gate does: no lock is held meanwhile, and a job that comes back is given up.
use crate::samples::{
    Caller, Noted, did_nothing, is_installed, open_shared, set_in_table, share_recorded, shows,
    tells,
};
use lsm_tree::{
    CompactionJob, Error, Finished, Gate, Leveled, Major, MergedCompaction, RunJob, Tree,
};
use std::alloc::{AllocError, Global};
use std::sync::{Arc, Mutex, Wait};
use std::test::Fail;
use std::thread::{self, Threads};

/// Gives each job back.
#[derive(Drop)]
struct Closed;

impl Gate for Closed {
    fn pass(&self, job: CompactionJob) -> Result<MergedCompaction, (Error, CompactionJob)> {
        Err((Error::OutOfMemory, job))
    }
}

fn is_given_back(done: &Result<Option<Finished>, Error>) -> bool {
    matches!(done, Err(Error::OutOfMemory))
}

// ---- a shared tree

/// The strategy of levels finds nothing to do, and so nothing comes to the gate; a table is merged, by the second gate.
fn compacts(rt: &impl Wait, alloc: Global, tree: &Tree) -> Result<bool, Error> {
    let major = Major::new(u64::MAX);
    let leveled = Leveled::new(alloc)?;
    let waits = did_nothing(&tree.compact_gated(rt, &leveled, 0, &Closed));
    set_in_table(rt, alloc, tree, "a", "x")?;
    let is_refused = is_given_back(&tree.compact_gated(rt, &major, 0, &Closed));
    let is_free = !tree.is_compacting(rt) && tree.level_table_count(rt, 0) == Some(1);
    let merges = is_installed(&tree.compact_gated(rt, &major, 0, &RunJob));
    Ok(waits && is_refused && is_free && merges)
}

#[test]
fn a_gate_does_the_merge(rt: HostRuntime) -> Result<(), Fail> {
    let tree = open_shared(rt.alloc())?;
    let done = compacts(&rt, rt.alloc(), &tree);
    assert!(rt; matches!(done, Ok(true)));
    assert!(rt; !tree.is_compacting(&rt) && tree.level_table_count(&rt, 6) == Some(1));
    assert!(rt; shows(&rt, &tree, 3, "x"));
    drop(tree);
    Ok(())
}

// ---- with a journal

/// A table is merged, by the second gate.
fn record_merge(caller: &mut Caller<'_, impl Wait>) -> Result<bool, Error> {
    caller.set_in_table("x")?;
    let major = Major::new(u64::MAX);
    let (rt, tree, pass) = caller.parts();
    let is_refused = is_given_back(&tree.compact_gated(rt, pass, &major, 0, &Closed));
    let is_free = !tree.is_compacting(rt) && tree.level_table_count(rt, 0) == Some(1);
    let merges = is_installed(&tree.compact_gated(rt, pass, &major, 2, &RunJob));
    Ok(is_refused && is_free && merges && tree.level_table_count(rt, 6) == Some(1))
}

/// A write with its flush, the mark of the merge that is given up, and that of the other with its install.
const NOTED: [Noted; 6] = [
    Noted::Write,
    Noted::Mark(0),
    Noted::Install(1),
    Noted::Mark(0),
    Noted::Mark(2),
    Noted::Install(2),
];

#[test]
fn what_goes_through_a_gate_is_noted(rt: HostRuntime) -> Result<(), Fail> {
    let tree = share_recorded(rt.alloc())?;
    let mut caller = Caller::new(&rt, rt.alloc(), &tree);
    let done = record_merge(&mut caller);
    assert!(rt; matches!(done, Ok(true)));
    assert!(rt; tells(&caller.pass, &NOTED));
    drop(caller);
    drop(tree);
    Ok(())
}

// ---- no lock is held

/// How often a flag is looked at.
const TURNS: u32 = 10_000_000;

/// How far two callers are.
#[derive(Drop)]
struct Flags {
    /// The gate has the job.
    begun: Mutex<bool>,
    /// The other caller's get is answered.
    answered: Mutex<bool>,
}

fn lower_flags(alloc: Global) -> Result<Arc<Flags>, AllocError> {
    let flags = Flags {
        begun: Mutex::new(false),
        answered: Mutex::new(false),
    };
    Ok(Arc::new(alloc, flags)?)
}

fn raise(rt: &impl Wait, flag: &Mutex<bool>) {
    *flag.lock(rt) = true;
}

/// Whether a flag is raised before the last turn.
fn is_raised(rt: &impl Wait, flag: &Mutex<bool>) -> bool {
    for _ in 0..TURNS {
        if *flag.lock(rt) {
            return true;
        }
    }
    false
}

/// Runs a job after the get of another caller, and gives it back where that doesn't come.
#[derive(Drop)]
struct BehindGet<'a, R: Wait> {
    rt: &'a R,
    flags: &'a Flags,
}

impl<R: Wait> Gate for BehindGet<'_, R> {
    fn pass(&self, job: CompactionJob) -> Result<MergedCompaction, (Error, CompactionJob)> {
        raise(self.rt, &self.flags.begun);
        if !is_raised(self.rt, &self.flags.answered) {
            return Err((Error::OutOfMemory, job));
        }
        job.run()
    }
}

fn merges_behind_get<R: Wait>(rt: &R, tree: &Tree, flags: &Flags) -> bool {
    let gate = BehindGet { rt, flags };
    is_installed(&tree.compact_gated(rt, &Major::new(u64::MAX), 0, &gate))
}

/// Whether a = x is read while the gate has the job.
fn reads_meanwhile(rt: &impl Wait, tree: &Tree, flags: &Flags) -> bool {
    let is_begun = is_raised(rt, &flags.begun);
    let is_found = shows(rt, tree, 2, "x");
    raise(rt, &flags.answered);
    is_begun && is_found
}

/// Whether a merge ends whose gate waits until a read is answered.
fn merge_waits_for_read<R: Threads + Wait + Copy + Send + Sync + 'static>(
    rt: R,
    alloc: Global,
    tree: &Tree,
) -> Result<bool, Fail> {
    set_in_table(&rt, alloc, tree, "a", "x")?;
    let flags = lower_flags(alloc)?;
    let (one, ones) = (tree.clone()?, Arc::try_clone(&flags)?);
    let merge = thread::spawn(&rt, move || merges_behind_get(&rt, &one, &ones))?;
    let found = reads_meanwhile(&rt, tree, &flags);
    let merged = merge.join(&rt);
    Ok(merged && found)
}

#[test]
fn no_lock_is_held_while_a_gate_has_the_job(rt: HostRuntime) -> Result<(), Fail> {
    let tree = open_shared(rt.alloc())?;
    let merged = merge_waits_for_read(rt, rt.alloc(), &tree);
    let count = tree.level_table_count(&rt, 6);
    drop(tree);
    assert!(rt; merged?);
    assert_eq!(rt; count, Some(1));
    Ok(())
}
