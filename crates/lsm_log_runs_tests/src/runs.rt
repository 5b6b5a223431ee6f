// A run, a life and their refusals, with what is expected spelled by hand.
use crate::strategies::{MAJOR, NONE, add_strategies};
use lsm_log_runs::{LogStep, TakenLogged, live_logged, run_logged};
use lsm_logged::Logged;
use lsm_runs::{Count, JobStep, Reply, Slot};
use lsm_state::{
    CompactionStrategy, Config, Error, Fault, MemStore, Op, Ops, Options, Pick, Store, UserKey,
    UserValue,
};
use std::alloc::{AllocError, Global};
use std::ops::Bound;
use std::test::Fail;

fn write(alloc: Global, key: &'static str, value: &'static str) -> Result<LogStep, AllocError> {
    let op = Op::Set(UserValue::from_static(value.as_bytes()));
    let ops = vec![in alloc; (UserKey::from_static(key.as_bytes()), op)]?;
    Ok(LogStep::Write(Ops::new(ops)))
}

fn key(name: &'static str) -> UserKey {
    UserKey::from_static(name.as_bytes())
}

fn get(name: &'static str) -> LogStep {
    LogStep::Get(key(name), 9)
}

/// Two batches, a flush between them, a read, a clear and a read more.
fn all_kinds(alloc: Global) -> Result<Vec<LogStep>, AllocError> {
    let first = write(alloc, "a", "x")?;
    let second = write(alloc, "b", "y")?;
    let flush = LogStep::FlushActiveMemtable(0);
    Ok(vec![in alloc; first, flush, second, get("a"), LogStep::Clear, get("a")]?)
}

const ANSWERS: [&str; 6] = [
    "Number(0)",
    "FlushedActive(Some(0), Some((50, Registered { installed: true, cleaned: true })))",
    "Number(2)",
    "Value(Some(b\"x\"))",
    "Cleared(3)",
    "Value(None)",
];

fn at_slot(slot: Slot, step: JobStep) -> LogStep {
    LogStep::AtSlot(slot, step)
}

/// A flush as a job in slot 7, while a batch comes, and one that is given up.
fn flush_jobs(alloc: Global) -> Result<Vec<LogStep>, AllocError> {
    let mut steps = Vec::new(alloc);
    steps.push(write(alloc, "a", "x")?)?;
    steps.push(at_slot(7, JobStep::BeginFlush))?;
    steps.push(LogStep::RotateMemtable)?;
    steps.push(at_slot(7, JobStep::BeginFlush))?;
    steps.push(at_slot(7, JobStep::BeginFlush))?;
    steps.push(write(alloc, "b", "y")?)?;
    steps.push(at_slot(7, JobStep::FlushToTables))?;
    steps.push(at_slot(7, JobStep::RunFlush(0)))?;
    steps.push(at_slot(7, JobStep::FlushToTables))?;
    steps.push(at_slot(6, JobStep::RegisterTables))?;
    steps.push(at_slot(7, JobStep::RegisterTables))?;
    steps.push(LogStep::RotateMemtable)?;
    steps.push(at_slot(7, JobStep::BeginFlush))?;
    steps.push(at_slot(7, JobStep::AbandonFlush))?;
    steps.push(get("a"))?;
    steps.push(get("b"))?;
    Ok(steps)
}

const FLUSHES: [&str; 16] = [
    "Number(0)",
    "Begun(false)",
    "Sealed(Some(0))",
    "Begun(true)",
    "SlotInUse",
    "Number(1)",
    "NoJob",
    "Done",
    "Done",
    "NoJob",
    "Registered(Registered { installed: true, cleaned: true })",
    "Sealed(Some(1))",
    "Begun(true)",
    "Done",
    "Value(Some(b\"x\"))",
    "Value(Some(b\"y\"))",
];

/// A merge as a job in slot 3, one that is given up, and compactions in one call.
fn merge_jobs(alloc: Global) -> Result<Vec<LogStep>, AllocError> {
    let options = Options {
        mvcc_gc_watermark: 0,
        moment: 0,
    };
    let begin = JobStep::BeginCompaction(MAJOR, options);
    let mut steps = Vec::new(alloc);
    steps.push(write(alloc, "a", "x")?)?;
    steps.push(LogStep::FlushActiveMemtable(0))?;
    steps.push(at_slot(3, begin))?;
    steps.push(LogStep::IsCompacting)?;
    steps.push(at_slot(3, begin))?;
    steps.push(at_slot(3, JobStep::FinishCompaction))?;
    steps.push(at_slot(3, JobStep::RunCompaction))?;
    steps.push(at_slot(3, JobStep::FinishCompaction))?;
    steps.push(at_slot(3, begin))?;
    steps.push(at_slot(3, JobStep::AbandonCompaction))?;
    steps.push(at_slot(3, JobStep::BeginCompaction(NONE, options)))?;
    steps.push(LogStep::Compact(NONE, 0))?;
    steps.push(LogStep::Compact(MAJOR, 0))?;
    steps.push(get("a"))?;
    Ok(steps)
}

const MERGES: [&str; 14] = [
    "Number(0)",
    "FlushedActive(Some(0), Some((50, Registered { installed: true, cleaned: true })))",
    "Compacted(Waits)",
    "Truth(true)",
    "SlotInUse",
    "NoJob",
    "Done",
    "Finished(Installed)",
    "Compacted(Waits)",
    "Done",
    "NoStrategy",
    "NoStrategy",
    "Compacted(Installed)",
    "Value(Some(b\"x\"))",
];

/// Two batches, a flush of the first, and each step that reads or counts, or draws an id for a table.
fn all_reads(alloc: Global) -> Result<Vec<LogStep>, AllocError> {
    let mut steps = Vec::new(alloc);
    steps.push(LogStep::GetNextTableId)?;
    steps.push(write(alloc, "a", "x")?)?;
    steps.push(LogStep::FlushActiveMemtable(0))?;
    steps.push(write(alloc, "b", "yy")?)?;
    steps.push(get("b"))?;
    steps.push(LogStep::GetInternalEntry(key("b"), 9))?;
    steps.push(LogStep::GetInternalEntry(key("b"), 2))?;
    steps.push(LogStep::ContainsKey(key("a"), 9))?;
    steps.push(LogStep::ContainsKey(key("a"), 0))?;
    steps.push(LogStep::SizeOf(key("b"), 9))?;
    steps.push(LogStep::SizeOf(key("c"), 9))?;
    steps.push(LogStep::Range(Bound::Excluded(key("a")), Bound::Unbounded, 9))?;
    steps.push(LogStep::Iter(9))?;
    steps.push(LogStep::Iter(1))?;
    steps.push(LogStep::Prefix(key("a"), 9))?;
    steps.push(LogStep::Len(9))?;
    steps.push(LogStep::Len(1))?;
    steps.push(LogStep::IsEmpty(9))?;
    steps.push(LogStep::IsEmpty(0))?;
    steps.push(LogStep::FirstKeyValue(9))?;
    steps.push(LogStep::LastKeyValue(9))?;
    steps.push(LogStep::LastKeyValue(0))?;
    steps.push(LogStep::Count(Count::TableCount))?;
    steps.push(LogStep::Count(Count::LevelTableCount(7)))?;
    steps.push(LogStep::Count(Count::HighestSeqno))?;
    steps.push(LogStep::Count(Count::NextTableId))?;
    steps.push(LogStep::GetNextTableId)?;
    steps.push(LogStep::IsUncertain)?;
    steps.push(LogStep::IsCompacting)?;
    steps.push(LogStep::TreeType)?;
    Ok(steps)
}

const READS: [&str; 30] = [
    "Number(0)",
    "Number(0)",
    "FlushedActive(Some(0), Some((50, Registered { installed: true, cleaned: true })))",
    "Number(2)",
    "Value(Some(b\"yy\"))",
    "Entry(Some(InternalValue { key: InternalKey { user_key: b\"b\", seqno: 2, value_type: Value }, value: b\"yy\" }))",
    "Entry(None)",
    "Truth(true)",
    "Truth(false)",
    "Size(Some(2))",
    "Size(None)",
    "Pairs(KvPairs { list: [(b\"b\", b\"yy\")] })",
    "Pairs(KvPairs { list: [(b\"a\", b\"x\"), (b\"b\", b\"yy\")] })",
    "Pairs(KvPairs { list: [(b\"a\", b\"x\")] })",
    "Pairs(KvPairs { list: [(b\"a\", b\"x\")] })",
    "Count(2)",
    "Count(1)",
    "Truth(false)",
    "Truth(true)",
    "Pair(Some((b\"a\", b\"x\")))",
    "Pair(Some((b\"b\", b\"yy\")))",
    "Pair(None)",
    "Counted(Some(1))",
    "Counted(None)",
    "Counted(Some(2))",
    "Counted(Some(2))",
    "Number(2)",
    "Truth(false)",
    "Truth(false)",
    "Kind(Standard)",
];

/// Two batches, reads of what they set, and whether an outcome is unknown.
fn two_batches(alloc: Global) -> Result<Vec<LogStep>, AllocError> {
    let first = write(alloc, "a", "x")?;
    let second = write(alloc, "b", "y")?;
    Ok(vec![in alloc; first, second, get("a"), get("b"), LogStep::IsUncertain]?)
}

const BOTH: [&str; 5] = [
    "Number(0)",
    "Number(1)",
    "Value(Some(b\"x\"))",
    "Value(Some(b\"y\"))",
    "Truth(false)",
];

/// Where putting the first record has unknown outcome.
const REFUSED: [&str; 5] = [
    "Refused(CommitUnknown)",
    "Refused(Unrecoverable)",
    "Value(None)",
    "Value(None)",
    "Truth(true)",
];

/// Both are there once the tree is opened again.
const STAND: [&str; 2] = ["Value(Some(b\"x\"))", "Value(Some(b\"y\"))"];

/// The first of them is there once the tree is opened again.
const FOUND: [&str; 2] = ["Value(Some(b\"x\"))", "Value(None)"];

/// Or it isn't.
const GONE: [&str; 2] = ["Value(None)", "Value(None)"];

fn is_spelled(alloc: Global, reply: &Reply, spelled: &str) -> bool {
    match format!(in alloc; "{reply:?}") {
        Ok(told) => told.as_str() == spelled,
        Err(_) => false,
    }
}

/// How many replies are spelled so, up to the first that isn't, and how many there are.
fn count_right(alloc: Global, taken: &TakenLogged, answers: &[&str]) -> (usize, usize) {
    let mut right: usize = 0;
    for (reply, answer) in taken.replies.iter().zip(answers) {
        if !is_spelled(alloc, reply, *answer) {
            break;
        }
        right = right.saturating_add(1);
    }
    (right, taken.replies.len())
}

/// The same of a run on what a store holds, with the strategies of the scripts.
fn run(
    alloc: Global,
    store: MemStore,
    steps: &[LogStep],
    answers: &[&str],
) -> Result<(usize, usize), Error> {
    let mut strategies: Vec<Box<dyn CompactionStrategy>> = Vec::new(alloc);
    add_strategies(alloc, &mut strategies)?;
    match Logged::open(alloc, Config::new(0, 0, 0), store) {
        Ok(mut tree) => {
            let taken = run_logged(alloc, &mut tree, &strategies, steps);
            drop(tree);
            drop(strategies);
            Ok(count_right(alloc, &taken, answers))
        }
        Err((error, _)) => Err(error),
    }
}

#[test]
fn runs_take_each_step(rt: HostRuntime) -> Result<(), Fail> {
    let steps = all_kinds(rt.alloc())?;
    let right = run(rt.alloc(), MemStore::new(rt.alloc()), &steps, &ANSWERS)?;
    assert_eq!(rt; right, (6, 6));
    Ok(())
}

#[test]
fn runs_take_each_read(rt: HostRuntime) -> Result<(), Fail> {
    let steps = all_reads(rt.alloc())?;
    let right = run(rt.alloc(), MemStore::new(rt.alloc()), &steps, &READS)?;
    assert_eq!(rt; right, (30, 30));
    Ok(())
}

#[test]
fn runs_take_flushes_as_jobs(rt: HostRuntime) -> Result<(), Fail> {
    let steps = flush_jobs(rt.alloc())?;
    let right = run(rt.alloc(), MemStore::new(rt.alloc()), &steps, &FLUSHES)?;
    assert_eq!(rt; right, (16, 16));
    Ok(())
}

#[test]
fn runs_take_merges_as_jobs(rt: HostRuntime) -> Result<(), Fail> {
    let steps = merge_jobs(rt.alloc())?;
    let right = run(rt.alloc(), MemStore::new(rt.alloc()), &steps, &MERGES)?;
    assert_eq!(rt; right, (14, 14));
    Ok(())
}

/// The store of a new tree, the putting of whose first record fails, with its effect: the calls of the next opening come before.
fn failing(alloc: Global) -> Result<MemStore, Error> {
    match Logged::open(alloc, Config::new(0, 0, 0), MemStore::new(alloc)) {
        Ok(tree) => {
            let mut store = tree.into_store();
            store.fail(6, Fault::OnceDone);
            Ok(store)
        }
        Err((error, _)) => Err(error),
    }
}

#[test]
fn runs_are_refused_behind_an_unknown_outcome(rt: HostRuntime) -> Result<(), Fail> {
    let steps = two_batches(rt.alloc())?;
    let right = run(rt.alloc(), failing(rt.alloc())?, &steps, &REFUSED)?;
    assert_eq!(rt; right, (5, 5));
    Ok(())
}

/// The same of a life, and the store that it leaves.
fn lived(
    alloc: Global,
    store: MemStore,
    steps: &[LogStep],
    answers: &[&str],
) -> Result<((usize, usize), MemStore), (Error, MemStore)> {
    let strategies: Vec<Box<dyn CompactionStrategy>> = Vec::new(alloc);
    let (tree, taken) = live_logged(alloc, Config::new(0, 0, 0), store, &strategies, steps)?;
    drop(strategies);
    let right = count_right(alloc, &taken, answers);
    drop(taken);
    Ok((right, tree.into_store()))
}

/// The same of a life after a crash.
fn lived_behind(
    alloc: Global,
    store: &MemStore,
    picks: &[(&str, Pick<'_>)],
    answers: &[&str],
) -> Result<(usize, usize), Error> {
    let steps = vec![in alloc; get("a"), get("b")]?;
    match store.crash(picks)? {
        Some(left) => match lived(alloc, left, &steps, answers) {
            Ok((right, _)) => Ok(right),
            Err((error, _)) => Err(error),
        },
        None => Err(Error::Store),
    }
}

/// The same of a life, of one after a crash without picks, and of one after a crash with these.
fn live_twice(
    alloc: Global,
    store: MemStore,
    picks: &[(&str, Pick<'_>)],
    answers: [&[&str]; 3],
) -> Result<[(usize, usize); 3], Error> {
    let [first, stands, picked] = answers;
    let steps = two_batches(alloc)?;
    match lived(alloc, store, &steps, first) {
        Ok((right, store)) => {
            let stands = lived_behind(alloc, &store, &[], stands);
            let picked = lived_behind(alloc, &store, picks, picked);
            drop(store);
            Ok([right, stands?, picked?])
        }
        Err((error, _)) => Err(error),
    }
}

#[test]
fn lives_are_refused_behind_an_unknown_outcome(rt: HostRuntime) -> Result<(), Fail> {
    let alloc = rt.alloc();
    let answers = [REFUSED.as_slice(), FOUND.as_slice(), GONE.as_slice()];
    let right = live_twice(alloc, failing(alloc)?, &[("log/0", Pick::Before)], answers)?;
    assert_eq!(rt; right, [(5, 5), (2, 2), (2, 2)]);
    Ok(())
}

#[test]
fn lives_go_on(rt: HostRuntime) -> Result<(), Fail> {
    let alloc = rt.alloc();
    let answers = [BOTH.as_slice(), STAND.as_slice(), STAND.as_slice()];
    let right = live_twice(alloc, MemStore::new(alloc), &[], answers)?;
    assert_eq!(rt; right, [(5, 5), (2, 2), (2, 2)]);
    Ok(())
}

/// Whether a life is refused by a store that fails at once, which comes back.
fn is_refused(alloc: Global) -> bool {
    let mut store = MemStore::new(alloc);
    store.fail(1, Fault::Once);
    match lived(alloc, store, &[], &[]) {
        Err((Error::Store, store)) => store.failures() == 1,
        _ => false,
    }
}

#[test]
fn lives_are_refused_by_a_fault(rt: HostRuntime) -> Result<(), Fail> {
    let refused = is_refused(rt.alloc());
    assert!(rt; refused);
    Ok(())
}
