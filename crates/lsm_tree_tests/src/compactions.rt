// Compactions of shared trees, with a journal and without, and of a recorded tree with one owner.
use crate::samples::{
    Caller, Noted, did_nothing, is_installed, open_recorded, open_shared, set, set_in_table,
    share_recorded, shows, tells, text,
};
use lsm_tree::{
    Begun, Choice, CompactionJob, Config, Error, Finished, Leveled, Major, Op, Options,
    OwnedBounds, Pass, Recorded, Tree, Why,
};
use std::alloc::Global;
use std::collections::HashSet;
use std::ops::Bound;
use std::sync::Wait;
use std::test::Fail;

/// At a watermark, at moment 0.
fn at(watermark: u64) -> Options {
    Options {
        mvcc_gc_watermark: watermark,
        moment: 0,
    }
}

/// All keys.
fn everything() -> OwnedBounds {
    OwnedBounds {
        start: Bound::Unbounded,
        end: Bound::Unbounded,
    }
}

fn job_of(begun: Begun) -> Result<CompactionJob, Error> {
    match begun {
        Begun::Job(job) => Ok(job),
        Begun::DidNothing | Begun::Declined(_) | Begun::Installed => Err(Error::Unrecoverable),
    }
}

// ---- a shared tree

/// Does a merge and ends it; refused, it is given up.
fn end_merge(rt: &impl Wait, tree: &Tree, job: CompactionJob) -> Result<Finished, Error> {
    match job.run() {
        Ok(merged) => tree.finish_compaction(rt, merged),
        Err((error, job)) => {
            tree.abandon_compaction(rt, job);
            Err(error)
        }
    }
}

/// Two tables are merged with no lock held, while a = z is written.
fn merge_in_parts(rt: &impl Wait, alloc: Global, tree: &Tree) -> Result<Finished, Error> {
    set_in_table(rt, alloc, tree, "a", "x")?;
    set_in_table(rt, alloc, tree, "a", "y")?;
    let begun = tree.begin_compaction(rt, &Major::new(u64::MAX), at(0))?;
    let job = job_of(begun)?;
    let is_open = tree.is_compacting(rt);
    let written = set(rt, alloc, tree, "a", "z");
    let finished = end_merge(rt, tree, job)?;
    written?;
    if is_open {
        Ok(finished)
    } else {
        Err(Error::Unrecoverable)
    }
}

#[test]
fn a_shared_tree_is_merged_in_parts(rt: HostRuntime) -> Result<(), Fail> {
    let tree = open_shared(rt.alloc())?;
    let done = merge_in_parts(&rt, rt.alloc(), &tree);
    assert!(rt; matches!(done, Ok(Finished::Installed)));
    assert!(rt; !tree.is_compacting(&rt));
    assert!(rt; tree.level_table_count(&rt, 6) == Some(1));
    assert!(rt; shows(&rt, &tree, 1, "x"));
    assert!(rt; shows(&rt, &tree, 3, "y"));
    assert!(rt; shows(&rt, &tree, 6, "z"));
    drop(tree);
    Ok(())
}

/// A merge is begun and given up: its tables aren't in use any more.
fn gives_up(rt: &impl Wait, tree: &Tree) -> Result<bool, Error> {
    let begun = tree.begin_compaction(rt, &Major::new(u64::MAX), at(0))?;
    tree.abandon_compaction(rt, job_of(begun)?);
    Ok(!tree.is_compacting(rt))
}

/// Each compaction in one call: the strategy of levels finds nothing to do, two tables are merged, and all are dropped.
fn compacts(rt: &impl Wait, alloc: Global, tree: &Tree) -> Result<bool, Error> {
    set_in_table(rt, alloc, tree, "a", "x")?;
    set_in_table(rt, alloc, tree, "a", "y")?;
    let given_up = gives_up(rt, tree)?;
    let leveled = Leveled::new(alloc)?;
    let waits = did_nothing(&tree.compact(rt, &leveled, 0));
    let merges = is_installed(&tree.do_compaction(rt, &Major::new(u64::MAX), at(0)));
    set_in_table(rt, alloc, tree, "b", "z")?;
    let merges_all = is_installed(&tree.major_compact(rt, u64::MAX, 0));
    let drops = is_installed(&tree.drop_range(rt, everything()));
    Ok(given_up && waits && merges && merges_all && drops && tree.table_count(rt) == 0)
}

#[test]
fn a_shared_tree_compacts_in_one_call(rt: HostRuntime) -> Result<(), Fail> {
    let tree = open_shared(rt.alloc())?;
    let done = compacts(&rt, rt.alloc(), &tree);
    assert!(rt; matches!(done, Ok(true)));
    drop(tree);
    Ok(())
}

/// The tables 0 and 1 are to be dropped.
fn drop_both(alloc: Global) -> Result<Choice, Error> {
    let mut ids = HashSet::new(alloc);
    ids.insert(0)?;
    ids.insert(1)?;
    Ok(Choice::Drop(ids))
}

/// How a choice to drop them ended. A job would be given up.
fn end_drop(rt: &impl Wait, alloc: Global, tree: &Tree) -> Result<Option<Finished>, Error> {
    match tree.begin_choice(rt, drop_both(alloc)?, at(0))? {
        Begun::DidNothing => Ok(None),
        Begun::Declined(why) => Ok(Some(Finished::Declined(why))),
        Begun::Installed => Ok(Some(Finished::Installed)),
        Begun::Job(job) => {
            tree.abandon_compaction(rt, job);
            Ok(None)
        }
    }
}

/// A choice of the caller's own: declined while a table of it isn't there, and then done.
fn does_choices(rt: &impl Wait, alloc: Global, tree: &Tree) -> Result<bool, Error> {
    set_in_table(rt, alloc, tree, "a", "x")?;
    let missing = end_drop(rt, alloc, tree)?;
    let is_declined = missing == Some(Finished::Declined(Why::Missing));
    set_in_table(rt, alloc, tree, "b", "y")?;
    let drops = is_installed(&end_drop(rt, alloc, tree));
    Ok(is_declined && drops && tree.table_count(rt) == 0)
}

#[test]
fn a_shared_tree_does_a_choice(rt: HostRuntime) -> Result<(), Fail> {
    let tree = open_shared(rt.alloc())?;
    let done = does_choices(&rt, rt.alloc(), &tree);
    assert!(rt; matches!(done, Ok(true)));
    drop(tree);
    Ok(())
}

// ---- with a journal

/// Does a merge and ends it; refused, it is given up.
fn record_end(caller: &mut Caller<'_, impl Wait>, job: CompactionJob) -> Result<Finished, Error> {
    let (rt, tree, pass) = caller.parts();
    match job.run() {
        Ok(merged) => tree.finish_compaction(rt, pass, merged),
        Err((error, job)) => {
            tree.abandon_compaction(rt, pass, job);
            Err(error)
        }
    }
}

/// Two tables are merged in parts, with a write in between.
fn record_merge(caller: &mut Caller<'_, impl Wait>) -> Result<bool, Error> {
    caller.set_in_table("x")?;
    caller.set_in_table("y")?;
    let major = Major::new(u64::MAX);
    let (rt, tree, pass) = caller.parts();
    let job = job_of(tree.begin_compaction(rt, pass, &major, at(0))?)?;
    let written = caller.set("z");
    let finished = record_end(caller, job)?;
    written?;
    let (rt, tree, _) = caller.parts();
    Ok(finished == Finished::Installed && !tree.is_compacting(rt))
}

/// The strategy of levels finds nothing to do, and then all tables are dropped.
fn record_drop(alloc: Global, caller: &mut Caller<'_, impl Wait>) -> Result<bool, Error> {
    let (rt, tree, pass) = caller.parts();
    let leveled = Leveled::new(alloc)?;
    let waits = did_nothing(&tree.compact(rt, pass, &leveled, 0));
    let drops = is_installed(&tree.drop_range(rt, pass, everything()));
    Ok(waits && drops && tree.table_count(rt) == 0)
}

/// What is noted of both.
const NOTED: [Noted; 13] = [
    // Two writes, each with its flush.
    Noted::Write,
    Noted::Mark(0),
    Noted::Install(1),
    Noted::Write,
    Noted::Mark(0),
    Noted::Install(3),
    // The merge, with a write in between.
    Noted::Mark(0),
    Noted::Write,
    Noted::Install(5),
    // Where nothing is to be done, the mark alone.
    Noted::Mark(0),
    // The drop.
    Noted::Mark(0),
    Noted::Dropped(6),
    Noted::Install(6),
];

/// Whether the pass lists the journal, which has so many entries.
fn closes(caller: Caller<'_, impl Wait>, count: usize) -> bool {
    match caller.close() {
        Some(closed) => closed.journal.len() == count,
        None => false,
    }
}

#[test]
fn compactions_are_noted(rt: HostRuntime) -> Result<(), Fail> {
    let tree = share_recorded(rt.alloc())?;
    let mut caller = Caller::new(&rt, rt.alloc(), &tree);
    let merged = record_merge(&mut caller);
    assert!(rt; matches!(merged, Ok(true)));
    let dropped = record_drop(rt.alloc(), &mut caller);
    assert!(rt; matches!(dropped, Ok(true)));
    assert!(rt; tells(&caller.pass, &NOTED));
    assert!(rt; closes(caller, 13));
    drop(tree);
    Ok(())
}

/// A merge is given up, and one is done in one call with all that is left to do.
fn record_in_one_call(caller: &mut Caller<'_, impl Wait>) -> Result<bool, Error> {
    caller.set_in_table("x")?;
    let major = Major::new(u64::MAX);
    let (rt, tree, pass) = caller.parts();
    let job = job_of(tree.begin_compaction(rt, pass, &major, at(0))?)?;
    tree.abandon_compaction(rt, pass, job);
    let is_free = !tree.is_compacting(rt);
    let merges = is_installed(&tree.do_compaction(rt, pass, &major, at(0)));
    caller.set_in_table("y")?;
    let (rt, tree, pass) = caller.parts();
    let merges_all = is_installed(&tree.major_compact(rt, pass, u64::MAX, 0));
    Ok(is_free && merges && merges_all)
}

#[test]
fn a_recorded_tree_compacts_in_one_call(rt: HostRuntime) -> Result<(), Fail> {
    let tree = share_recorded(rt.alloc())?;
    let mut caller = Caller::new(&rt, rt.alloc(), &tree);
    let done = record_in_one_call(&mut caller);
    assert!(rt; matches!(done, Ok(true)));
    // Two writes and two flushes, the mark of what was given up, and two marks with their installs.
    assert!(rt; closes(caller, 11));
    drop(tree);
    Ok(())
}

// ---- with one owner

fn record_alone(
    alloc: Global,
    tree: &mut Recorded,
    pass: &mut Pass,
    value: &'static str,
) -> Result<(), Error> {
    tree.write(pass, vec![in alloc; (text("a"), Op::Set(text(value)))]?)?;
    match tree.flush_active_memtable(pass, 0) {
        Ok(_) => Ok(()),
        Err((error, _)) => Err(error),
    }
}

/// Does a merge and ends it; refused, it is given up.
fn end_alone(tree: &mut Recorded, pass: &mut Pass, job: CompactionJob) -> Result<Finished, Error> {
    match job.run() {
        Ok(merged) => tree.finish_compaction(pass, merged),
        Err((error, job)) => {
            tree.abandon_compaction(pass, job);
            Err(error)
        }
    }
}

/// Each call once: a merge that is given up, one in parts, and those in one call.
fn compacts_alone(alloc: Global, tree: &mut Recorded, pass: &mut Pass) -> Result<bool, Error> {
    record_alone(alloc, tree, pass, "x")?;
    let begun = tree.begin_compaction(pass, &Major::new(u64::MAX), at(0))?;
    let is_open = tree.is_compacting();
    tree.abandon_compaction(pass, job_of(begun)?);
    let begun = tree.begin_compaction(pass, &Major::new(u64::MAX), at(0))?;
    let finished = end_alone(tree, pass, job_of(begun)?)?;
    record_alone(alloc, tree, pass, "y")?;
    let merges = is_installed(&tree.compact_with(pass, &Major::new(u64::MAX), at(0)));
    record_alone(alloc, tree, pass, "z")?;
    let merges_all = is_installed(&tree.major_compact(pass, u64::MAX, 0));
    Ok(is_open && finished == Finished::Installed && merges && merges_all)
}

/// What is left to do: nothing for the strategy of levels, and everything for a drop.
fn drops_alone(alloc: Global, tree: &mut Recorded, pass: &mut Pass) -> Result<bool, Error> {
    let leveled = Leveled::new(alloc)?;
    let waits = did_nothing(&tree.compact(pass, &leveled, 0));
    let still_waits = did_nothing(&tree.do_compaction(pass, &leveled, at(0)));
    let drops = is_installed(&tree.drop_range(pass, everything()));
    Ok(waits && still_waits && drops && tree.table_count() == 0 && !tree.is_compacting())
}

#[test]
fn a_recorded_tree_with_one_owner_compacts(rt: HostRuntime) -> Result<(), Fail> {
    let alloc = rt.alloc();
    let mut tree = open_recorded(alloc, Config::new(0, 0, 0))?;
    let mut pass = Pass::new(alloc);
    let done = compacts_alone(alloc, &mut tree, &mut pass);
    assert!(rt; matches!(done, Ok(true)));
    let dropped = drops_alone(alloc, &mut tree, &mut pass);
    assert!(rt; matches!(dropped, Ok(true)));
    assert_eq!(rt; pass.entries().len(), tree.journal().len());
    drop(pass);
    drop(tree);
    Ok(())
}
