// Flushes of shared trees, with a journal and without, and of a tree under a list of calls.
use crate::samples::{
    Caller, Noted, open_shared, open_state, set, share_recorded, shows, tells, text,
};
use lsm_tree::{
    Count, Error, FlushJob, JobStep, JournalEntry, Op, Ops, Outcome, Registered, Reply, Step, Tree,
    TreeType, WrittenFlush, run,
};
use std::alloc::{AllocError, Global};
use std::sync::Wait;
use std::test::Fail;

fn is_installed(registered: &Registered) -> bool {
    registered.installed && registered.cleaned
}

// ---- a shared tree

/// Seals what is written, and begins a flush of it.
fn begin(rt: &impl Wait, tree: &Tree) -> Result<FlushJob, Error> {
    tree.rotate_memtable(rt)?;
    match tree.begin_flush(rt)? {
        Some(job) => Ok(job),
        None => Err(Error::Unrecoverable),
    }
}

/// Merges a job, with no lock held, and writes its tables; refused, it is given up.
fn write_tables(rt: &impl Wait, tree: &Tree, job: FlushJob) -> Result<WrittenFlush, Error> {
    let (error, job) = match job.run(0) {
        Ok(merged) => match tree.flush_to_tables(rt, merged) {
            Ok(written) => return Ok(written),
            Err((error, merged)) => (error, merged.into_job()),
        },
        Err(refused) => refused,
    };
    tree.abandon_flush(rt, job);
    Err(error)
}

/// a = x is flushed in parts, while a = y is written.
fn flush_in_parts(rt: &impl Wait, alloc: Global, tree: &Tree) -> Result<Registered, Error> {
    set(rt, alloc, tree, "a", "x")?;
    let job = begin(rt, tree)?;
    let written = write_tables(rt, tree, job)?;
    let second = set(rt, alloc, tree, "a", "y");
    let registered = tree.register_tables(rt, written)?;
    second?;
    Ok(registered)
}

#[test]
fn a_shared_tree_is_flushed_in_parts(rt: HostRuntime) -> Result<(), Fail> {
    let tree = open_shared(rt.alloc())?;
    let done = flush_in_parts(&rt, rt.alloc(), &tree);
    assert!(rt; matches!(done, Ok(registered) if is_installed(&registered)));
    assert!(rt; shows(&rt, &tree, 1, "x"));
    assert!(rt; shows(&rt, &tree, 2, "y"));
    assert!(rt; shows(&rt, &tree, 3, "y"));
    assert!(rt; counts(&rt, &tree, (1, 0, 2)));
    drop(tree);
    Ok(())
}

/// Whether a tree has so many tables, sealed memtables and entries.
fn counts(rt: &impl Wait, tree: &Tree, told: (usize, usize, usize)) -> bool {
    tree.table_count(rt) == told.0
        && tree.sealed_memtable_count(rt) == told.1
        && tree.approximate_len(rt) == told.2
}

/// A job that is given up, and a flush in one call after it.
fn give_up_and_flush(
    rt: &impl Wait,
    alloc: Global,
    tree: &Tree,
) -> Result<Option<(u64, Registered)>, Error> {
    set(rt, alloc, tree, "a", "x")?;
    let job = begin(rt, tree)?;
    tree.abandon_flush(rt, job);
    tree.flush(rt, 0)
}

#[test]
fn a_job_that_was_given_up_is_begun_again(rt: HostRuntime) -> Result<(), Fail> {
    let tree = open_shared(rt.alloc())?;
    let done = give_up_and_flush(&rt, rt.alloc(), &tree);
    assert!(rt; matches!(done, Ok(Some((50, registered))) if is_installed(&registered)));
    assert!(rt; matches!(tree.flush(&rt, 0), Ok(None)));
    assert!(rt; counts(&rt, &tree, (1, 0, 1)));
    drop(tree);
    Ok(())
}

/// Whether a tree with a = x in one table, numbered 0, tells so in each of its counts.
fn tells_of_its_table(rt: &impl Wait, tree: &Tree) -> bool {
    tree.l0_run_count(rt) == 1
        && tree.level_table_count(rt, 0) == Some(1)
        && tree.level_table_count(rt, 6) == Some(0)
        && tree.level_table_count(rt, 7).is_none()
        && tree.disk_space(rt) == 37
        && tree.tombstone_count(rt) == 0
        && tree.weak_tombstone_count(rt) == 0
        && tree.weak_tombstone_reclaimable_count(rt) == 0
}

/// Whether its greatest numbers and its history are those of the same tree, of which snapshot 0 keeps the first version.
fn tells_of_its_history(rt: &impl Wait, tree: &Tree) -> bool {
    tree.get_highest_seqno(rt) == Some(0)
        && tree.get_highest_persisted_seqno(rt) == Some(0)
        && tree.get_highest_memtable_seqno(rt).is_none()
        && tree.version_free_list_len(rt) == 1
        && tree.version_memtable_size_sum(rt) == 50
        && !tree.is_uncertain(rt)
}

fn flush_active(rt: &impl Wait, alloc: Global, tree: &Tree) -> bool {
    tree.set_moment(rt, 1);
    let is_set = matches!(set(rt, alloc, tree, "a", "x"), Ok(0));
    let done = tree.flush_active_memtable(rt, 0);
    is_set && matches!(done, Ok((Some(0), Some((50, registered)))) if is_installed(&registered))
}

#[test]
fn a_shared_tree_tells_what_it_counts(rt: HostRuntime) -> Result<(), Fail> {
    let tree = open_shared(rt.alloc())?;
    assert!(rt; flush_active(&rt, rt.alloc(), &tree));
    assert!(rt; tells_of_its_table(&rt, &tree));
    assert!(rt; tells_of_its_history(&rt, &tree));
    drop(tree);
    Ok(())
}

// ---- with a journal

/// Flushes a job at watermark 0 in parts; refused, it is given up.
fn record_job(caller: &mut Caller<'_, impl Wait>, job: FlushJob) -> Result<Registered, Error> {
    let (rt, tree, pass) = caller.parts();
    let (error, job) = match job.run(0) {
        Ok(merged) => match tree.flush_to_tables(rt, pass, merged) {
            Ok(written) => return tree.register_tables(rt, pass, written),
            Err((error, merged)) => (error, merged.into_job()),
        },
        Err(refused) => refused,
    };
    tree.abandon_flush(rt, pass, job);
    Err(error)
}

/// a = x is flushed at watermark 0 in parts, a = y in one call at watermark 2.
fn record_flushes(caller: &mut Caller<'_, impl Wait>) -> Result<bool, Error> {
    caller.set("x")?;
    let (rt, tree, pass) = caller.parts();
    tree.rotate_memtable(rt, pass)?;
    let Some(job) = tree.begin_flush(rt, pass)? else {
        return Ok(false);
    };
    let first = record_job(caller, job)?;
    caller.set("y")?;
    let (rt, tree, pass) = caller.parts();
    match tree.flush_active_memtable(rt, pass, 2) {
        Ok((Some(1), Some((50, second)))) => Ok(is_installed(&first) && is_installed(&second)),
        _ => Ok(false),
    }
}

/// Two writes, each with the mark and the install of its flush after it.
const NOTED: [Noted; 6] = [
    Noted::Write,
    Noted::Mark(0),
    Noted::Install(1),
    Noted::Write,
    Noted::Mark(2),
    Noted::Install(3),
];

#[test]
fn flushes_are_noted(rt: HostRuntime) -> Result<(), Fail> {
    let tree = share_recorded(rt.alloc())?;
    let mut caller = Caller::new(&rt, rt.alloc(), &tree);
    let flushed = record_flushes(&mut caller);
    assert!(rt; matches!(flushed, Ok(true)));
    assert!(rt; tells(&caller.pass, &NOTED));
    assert!(rt; gives_up(&mut caller));
    drop(caller);
    drop(tree);
    Ok(())
}

/// Whether a job that is begun is given up, and a flush in one call takes its memtable along.
fn gives_up(caller: &mut Caller<'_, impl Wait>) -> bool {
    let is_set = matches!(caller.set("z"), Ok(4));
    let (rt, tree, pass) = caller.parts();
    let is_sealed = matches!(tree.rotate_memtable(rt, pass), Ok(Some(2)));
    let Ok(begun) = tree.begin_flush(rt, pass) else {
        return false;
    };
    let Some(job) = begun else { return false };
    tree.abandon_flush(rt, pass, job);
    let done = tree.flush(rt, pass, 0);
    is_set && is_sealed && matches!(done, Ok(Some((50, registered))) if is_installed(&registered))
}

// ---- a list of calls

fn batch(alloc: Global, value: &'static str) -> Result<Step, AllocError> {
    let ops = vec![in alloc; (text("a"), Op::Set(text(value)))]?;
    Ok(Step::Write(Ops::new(ops)))
}

/// Each outcome's reply and its count of entries, of steps on a new tree. None where there was no memory.
fn replies(alloc: Global, steps: Result<Vec<Step>, AllocError>) -> Option<Vec<Outcome>> {
    let Ok(steps) = steps else { return None };
    let Ok(mut state) = open_state(alloc) else {
        return None;
    };
    let taken = run(alloc, &mut state, &[], &steps);
    drop(state);
    taken.ended.ok()?;
    Some(taken.outcomes)
}

/// a = x is flushed in parts from slot 7, while a = y is written, and calls come that find no job, or the slot in use.
fn steps_of_a_job(alloc: Global) -> Result<Vec<Step>, AllocError> {
    let mut steps = Vec::new(alloc);
    steps.push(Step::AtSlot(7, JobStep::BeginFlush))?;
    steps.push(batch(alloc, "x")?)?;
    steps.push(Step::RotateMemtable)?;
    steps.push(Step::AtSlot(7, JobStep::BeginFlush))?;
    steps.push(Step::AtSlot(7, JobStep::BeginFlush))?;
    steps.push(Step::AtSlot(8, JobStep::BeginFlush))?;
    steps.push(Step::AtSlot(8, JobStep::RunFlush(0)))?;
    steps.push(Step::AtSlot(7, JobStep::RegisterTables))?;
    steps.push(Step::AtSlot(7, JobStep::RunFlush(0)))?;
    steps.push(Step::AtSlot(7, JobStep::FlushToTables))?;
    steps.push(batch(alloc, "y")?)?;
    steps.push(Step::AtSlot(7, JobStep::RegisterTables))?;
    steps.push(Step::AtSlot(7, JobStep::AbandonFlush))?;
    steps.push(Step::Get(text("a"), 1))?;
    steps.push(Step::Get(text("a"), 2))?;
    Ok(steps)
}

fn is_reply(outcome: &Outcome, at: usize) -> bool {
    match (at, outcome.reply()) {
        (0, Reply::Begun(false)) | (1, Reply::Number(0)) | (2, Reply::Sealed(Some(0))) => true,
        (3, Reply::Begun(true)) | (4, Reply::SlotInUse) => true,
        (5, Reply::Refused(Error::FlushOpen)) | (6 | 7 | 12, Reply::NoJob) => true,
        (8 | 9, Reply::Done) | (10, Reply::Number(1)) => true,
        (11, Reply::Registered(registered)) => is_installed(registered),
        (13, Reply::Value(Some(value))) => *value == text("x"),
        (14, Reply::Value(Some(value))) => *value == text("y"),
        _ => false,
    }
}

fn are_replies(outcomes: &[Outcome]) -> bool {
    outcomes
        .iter()
        .enumerate()
        .all(|(at, outcome)| is_reply(outcome, at))
}

/// Whether an outcome notes a mark, and an install after it.
fn notes_install(outcome: &Outcome, watermark: u64, number: u64) -> bool {
    match outcome.entries() {
        [JournalEntry::Mark(mark), JournalEntry::Install(install)] => {
            *mark == watermark && *install == number
        }
        _ => false,
    }
}

#[test]
fn a_job_waits_in_its_slot(rt: HostRuntime) {
    let outcomes = replies(rt.alloc(), steps_of_a_job(rt.alloc()));
    let told = outcomes.unwrap_or(Vec::new(rt.alloc()));
    assert_eq!(rt; told.len(), 15);
    assert!(rt; are_replies(&told));
    assert!(rt; notes_install(&told[11], 0, 2));
    drop(told);
}

/// Flushes in one call: of the sealed memtable, of the active one, and of nothing; and what is counted after them.
fn steps_of_flushes(alloc: Global) -> Result<Vec<Step>, AllocError> {
    let mut steps = Vec::new(alloc);
    steps.push(Step::SetMoment(5))?;
    steps.push(batch(alloc, "x")?)?;
    steps.push(Step::RotateMemtable)?;
    steps.push(Step::Flush(0))?;
    steps.push(batch(alloc, "y")?)?;
    steps.push(Step::FlushActiveMemtable(3))?;
    steps.push(Step::Flush(0))?;
    steps.push(Step::Count(Count::TableCount))?;
    steps.push(Step::Count(Count::LevelTableCount(7)))?;
    steps.push(Step::IsUncertain)?;
    steps.push(Step::TreeType)?;
    Ok(steps)
}

fn is_flushed(reply: &Reply) -> bool {
    match reply {
        Reply::Flushed(Some((50, registered)))
        | Reply::FlushedActive(Some(1), Some((50, registered))) => is_installed(registered),
        _ => false,
    }
}

#[test]
fn flushes_are_steps(rt: HostRuntime) {
    let outcomes = replies(rt.alloc(), steps_of_flushes(rt.alloc()));
    let told = outcomes.unwrap_or(Vec::new(rt.alloc()));
    assert_eq!(rt; told.len(), 11);
    assert!(rt; matches!(told[0].reply(), Reply::Done));
    assert!(rt; is_flushed(told[3].reply()));
    assert!(rt; notes_install(&told[3], 0, 1));
    assert!(rt; is_flushed(told[5].reply()));
    assert!(rt; notes_install(&told[5], 3, 3));
    assert!(rt; matches!(told[6].reply(), Reply::Flushed(None)));
    assert!(rt; matches!(told[7].reply(), Reply::Counted(Some(2))));
    assert!(rt; matches!(told[8].reply(), Reply::Counted(None)));
    assert!(rt; matches!(told[9].reply(), Reply::Truth(false)));
    assert!(rt; matches!(told[10].reply(), Reply::Kind(TreeType::Standard)));
    drop(told);
}
