// Two merges of a tree at once: each waits until the other has begun, so that neither holds the lock meanwhile.
use crate::samples::{set, text};
use lsm_tree::{
    Choice, ChooseError, CompactionJob, CompactionState, CompactionStrategy, Config, Error,
    Finished, Gate, Handle, Input, MemStore, MergedCompaction, Op, TableId, Tree, TreeState,
    UserKey, Version,
};
use std::alloc::{AllocError, Global};
use std::collections::HashSet;
use std::sync::{Mutex, Wait};
use std::test::Fail;
use std::thread::{self, Threads};

/// How often a flag is looked at.
const LOOKS: u32 = 10_000_000;

/// Merges a table into the last level.
#[derive(Drop)]
struct One {
    id: TableId,
}

fn one_id(alloc: Global, id: TableId) -> Result<HashSet<TableId>, AllocError> {
    let mut ids = HashSet::new(alloc);
    ids.insert(id)?;
    Ok(ids)
}

impl CompactionStrategy for One {
    ghost may_choose = { λ s config hidden version choice. Unit {0} };

    ghost may_refuse = { λ s config hidden version e. Unit {0} };

    fn get_name(&self) -> &'static str {
        "One"
    }

    fn choose(
        &self,
        alloc: Global,
        _version: &Version,
        _config: &Config,
        _state: &CompactionState,
    ) -> Result<Choice, ChooseError> {
        match one_id(alloc, self.id) {
            Ok(table_ids) => Ok(Choice::Merge(Input {
                table_ids,
                dest_level: 6,
                canonical_level: 6,
                target_size: u64::MAX,
            })),
            Err(_) => Err(ChooseError::OutOfMemory),
        }
    }
}

/// Which merges have begun.
#[derive(Drop)]
struct Flags {
    first: Mutex<bool>,
    second: Mutex<bool>,
}

/// Whether a flag is raised before the last look.
fn is_raised(rt: &impl Wait, flag: &Mutex<bool>) -> bool {
    for _ in 0..LOOKS {
        if *flag.lock(rt) {
            return true;
        }
    }
    false
}

/// Runs a job once the other merge has begun, and gives it back where that doesn't.
#[derive(Drop)]
struct Meets<'a, R: Wait> {
    rt: &'a R,
    own: &'a Mutex<bool>,
    other: &'a Mutex<bool>,
}

impl<R: Wait> Gate for Meets<'_, R> {
    fn pass(&self, job: CompactionJob) -> Result<MergedCompaction, (Error, CompactionJob)> {
        *self.own.lock(self.rt) = true;
        if !is_raised(self.rt, self.other) {
            return Err((Error::OutOfMemory, job));
        }
        job.run()
    }
}

/// Merges a table: whether the merge is installed.
fn merges<R: Wait>(
    rt: &R,
    tree: &Tree,
    id: TableId,
    own: &Mutex<bool>,
    other: &Mutex<bool>,
) -> bool {
    let gate = Meets { rt, own, other };
    let told = tree.compact_gated(rt, &One { id }, 0, &gate);
    matches!(told, Ok(Some(Finished::Installed)))
}

/// Merges both tables at once: whether both merges are installed.
fn merge_both<R: Threads + Wait + Sync>(rt: &R, alloc: Global, tree: &Tree, flags: &Flags) -> bool {
    let told = thread::map_indices(
        rt,
        alloc,
        2,
        &|place| {
            if place == 0 {
                merges(rt, tree, 0, &flags.first, &flags.second)
            } else {
                merges(rt, tree, 1, &flags.second, &flags.first)
            }
        },
    );
    match told {
        Ok(told) => matches!(told.as_slice(), [true, true]),
        Err(_) => false,
    }
}

/// Writes a batch into a table of its own.
fn write_table(rt: &impl Wait, tree: &Tree, ops: Vec<(UserKey, Op)>) -> Result<(), Error> {
    tree.write(rt, ops)?;
    match tree.flush_active_memtable(rt, 0) {
        Ok(_) => Ok(()),
        Err((error, _)) => Err(error),
    }
}

/// Sets a = 1 (0) and b = 2 (2), which their flushes (1 and 3) put into one run.
fn fill(rt: &impl Wait, alloc: Global, tree: &Tree) -> Result<(), Error> {
    write_table(rt, tree, set(alloc, text("a"), text("1"))?)?;
    write_table(rt, tree, set(alloc, text("b"), text("2"))?)
}

fn open(alloc: Global) -> Result<Tree, Error> {
    match TreeState::open(alloc, Config::new(0, 0, 0), MemStore::new(alloc)) {
        Ok(core) => Ok(Handle::new(alloc, core)?),
        Err((error, _)) => Err(error),
    }
}

fn reads(rt: &impl Wait, tree: &Tree, key: &'static str, value: &'static str) -> bool {
    match tree.get(rt, key.as_bytes(), 6) {
        Ok(found) => found == Some(text(value)),
        Err(_) => false,
    }
}

/// Whether both keys are read at 6, out of two tables in the last level.
fn are_merged(rt: &impl Wait, tree: &Tree) -> bool {
    tree.level_table_count(rt, 6) == Some(2)
        && tree.l0_run_count(rt) == 0
        && tree.visible_number(rt) == 6
        && reads(rt, tree, "a", "1")
        && reads(rt, tree, "b", "2")
}

/// Whether both tables are merged at once, and nothing else is read then.
fn meet<R: Threads + Wait + Sync>(rt: &R, alloc: Global, tree: &Tree) -> bool {
    if fill(rt, alloc, tree).is_err() || tree.l0_run_count(rt) != 1 {
        return false;
    }
    let flags = Flags {
        first: Mutex::new(false),
        second: Mutex::new(false),
    };
    merge_both(rt, alloc, tree, &flags) && are_merged(rt, tree)
}

#[test]
fn two_merges_wait_for_each_other(rt: HostRuntime) -> Result<(), Fail> {
    let tree = open(rt.alloc())?;
    let right = meet(&rt, rt.alloc(), &tree);
    drop(tree);
    assert!(rt; right);
    Ok(())
}
