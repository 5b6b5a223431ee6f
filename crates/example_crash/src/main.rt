//! Lives of a tree, one after the other: calls, a crash or the end of the process, and calls on what it left.
//!
//! The contracts in `lives`, `single` and `by_hand` are derived from those of public calls: they say what a user wants to
//! know of a crash. `nothing_is_dropped` says it again for strategies that never drop, so of every key.
#![tactic(auto)]

mod by_hand;
mod laws;
mod lives;
mod single;

ghost use Rattle.std.specs.Prelude.{None};
ghost use Rattle.std.specs.List.{AllByRecursion};
ghost use Rattle.lsm_runs.specs.Memory.{world_of};
ghost use Rattle.lsm_runs.specs.World.{Begins};
ghost use Rattle.lsm_runs.specs.Compacting.{strategies_of};
ghost use Rattle.lsm_runs.specs.Dropping.{NoneDrops, no_drops};
ghost use Rattle.example_crash.specs.Survival.{IsUsual, Goes};

use anyhow::Result;
use by_hand::crash_by_hand;
use laws::{lives_follow, single_steps_join};
use lives::{Course, crash_between, end_between};
use lsm_pick::leveled_never_drops;
use lsm_runs::{Compacted, Reply, Step, Taken};
use lsm_state::{
    CompactionStrategy, Fault, Leveled, MemStore, Op, Ops, Pick, TreeState, UserKey, UserValue,
};
use single::{crash_between_single_steps, open, take_one};
use std::alloc::{AllocError, Global};

/// A snapshot that sees all.
const LATEST: u64 = u64::MAX;

fn write(alloc: Global, key: &'static [u8], value: &'static [u8]) -> Result<Step, AllocError> {
    let op = (
        UserKey::from_static(key),
        Op::Set(UserValue::from_static(value)),
    );
    Ok(Step::Write(Ops::new(vec![in alloc; op]?)))
}

fn look(key: &'static [u8], snapshot: u64) -> Step {
    Step::Get(UserKey::from_static(key), snapshot)
}

/// An apple is written twice, each time into a table of its own, which the first strategy merges; a plum is written alone.
fn calls(alloc: Global) -> Result<Vec<Step>, AllocError> {
    let unripe = write(alloc, b"apple", b"green")?;
    let ripe = write(alloc, b"apple", b"red")?;
    let plum = write(alloc, b"plum", b"blue")?;
    Ok(vec![in alloc;
        unripe,
        Step::FlushActiveMemtable(0),
        ripe,
        Step::FlushActiveMemtable(0),
        Step::Compact(0, 4),
        plum,
    ]?)
}

fn looks(alloc: Global) -> Result<Vec<Step>, AllocError> {
    Ok(vec![in alloc; look(b"apple", 6), look(b"plum", 6), look(b"apple", LATEST)]?)
}

/// What was written under which number, and what was read.
fn print_taken(rt: &impl Print, taken: &Taken) -> Result<()> {
    for outcome in &taken.outcomes {
        match outcome.reply() {
            Reply::Number(number) => println!(rt; "  written under {number}")?,
            Reply::Sizes(_, _) => println!(rt; "  written under a number of its own")?,
            Reply::Value(value) => println!(rt; "  read {value:?}")?,
            Reply::FlushedActive(_, Some(_)) => println!(rt; "  flushed")?,
            Reply::Compacted(Compacted::Installed) => println!(rt; "  compacted")?,
            _ => (),
        }
    }
    Ok(())
}

fn print_course(rt: &impl Print, course: &Course) -> Result<()> {
    match course {
        Course::NotOpened(error, _) => println!(rt; "  refused: {error}")?,
        Course::NotSo(life) => {
            print_taken(rt, &life.taken)?;
            println!(rt; "  no crash leaves that")?;
        }
        Course::NotReopened(life, error, _) => {
            print_taken(rt, &life.taken)?;
            println!(rt; "  a crash")?;
            println!(rt; "  refused: {error}")?;
        }
        Course::Lived(life, next) => {
            print_taken(rt, &life.taken)?;
            println!(rt; "  a crash")?;
            print_taken(rt, &next.taken)?;
        }
    }
    Ok(())
}

// ---- two lives

/// Costs nothing: its caller has to show that none of these strategies ever drops, and that these lives went so where
/// nothing may be dropped.
fn nothing_is_dropped(
    strategies: &[Box<dyn CompactionStrategy>],
    first: &[Step],
    picks: &[(&str, Pick<'_>)],
    second: &[Step],
    course: &Course,
)
    requires strategies { NoneDrops (strategies_of (λ b. may_choose b) (λ b. may_refuse b) strategies.now) }
    requires lives { AllByRecursion IsUsual first.now → AllByRecursion IsUsual second.now → Goes no_drops 0 first.now picks.now 0 second.now course.now }
{}

/// Two lives, compacted by `Leveled`, which merges as soon as there are two runs; between them a crash is to leave what is picked.
fn live_twice(
    alloc: Global,
    store: MemStore,
    first: &[Step],
    picks: &[(&str, Pick<'_>)],
    second: &[Step],
) -> Result<Course, AllocError>
    requires new { Begins (λ _. None) (world_of store) }
{
    leveled_never_drops();
    let mut strategies: Vec<Box<dyn CompactionStrategy>> = Vec::new(alloc);
    strategies.push(Box::new(alloc, Leveled::new(alloc)?.with_l0_threshold(2))?)?;
    let course = crash_between(alloc, store, &strategies, first, picks, second)?;
    nothing_is_dropped(&strategies, first, picks, second, &course);
    Ok(course)
}

/// A new store whose first call fails.
fn faulty(alloc: Global) -> MemStore
    ensures { Begins (λ _. None) (world_of result) }
{
    let mut store = MemStore::new(alloc);
    store.fail(1, Fault::Once);
    store
}

/// Two lives, which no strategy compacts, and the end of the process between them.
fn show_end(rt: &impl Print, alloc: Global, first: &[Step], second: &[Step]) -> Result<()> {
    match end_between(alloc, MemStore::new(alloc), &[], first, second) {
        Ok((before, after)) => {
            print_taken(rt, &before)?;
            println!(rt; "  the end")?;
            print_taken(rt, &after.taken)?;
        }
        Err((error, _store)) => println!(rt; "  refused: {error}")?,
    }
    Ok(())
}

// ---- steps one by one

/// Writes a pear where none is found, and looks again.
fn add_pear(
    rt: &impl Print,
    alloc: Global,
    tree: &mut TreeState<MemStore>,
    strategies: &[Box<dyn CompactionStrategy>],
) -> Result<()> {
    let found = take_one(alloc, tree, strategies, look(b"pear", LATEST))?;
    println!(rt; "  {:?}", found.reply())?;
    if let Reply::Value(None) = found.reply() {
        let pear = write(alloc, b"pear", b"green")?;
        let written = take_one(alloc, tree, strategies, pear)?;
        println!(rt; "  {:?}", written.reply())?;
    }
    let found = take_one(alloc, tree, strategies, look(b"pear", LATEST))?;
    println!(rt; "  {:?}", found.reply())?;
    Ok(())
}

fn show_single_steps(
    rt: &impl Print,
    alloc: Global,
    first: &[Step],
    second: &[Step],
) -> Result<()> {
    let strategies: Vec<Box<dyn CompactionStrategy>> = Vec::new(alloc);
    let store = MemStore::new(alloc);
    single_steps_join(&store, &strategies);
    lives_follow(&store);
    let course = crash_between_single_steps(alloc, store, &strategies, first, &[], second)?;
    print_course(rt, &course)?;
    println!(rt; "each after a look at the reply before it")?;
    match open(alloc, MemStore::new(alloc), &strategies, 0) {
        Ok(mut tree) => add_pear(rt, alloc, &mut tree, &strategies),
        Err((error, _store)) => {
            println!(rt; "  refused: {error}")?;
            Ok(())
        }
    }
}

// ---- numbers by hand

/// An apple is written under 3, a plum under 5, which is removed weakly under 7, and all is flushed: below a counter of 10.
fn numbered_calls(alloc: Global) -> Result<Vec<Step>, AllocError> {
    let (apple, red) = (
        UserKey::from_static(b"apple"),
        UserValue::from_static(b"red"),
    );
    let (plum, blue) = (
        UserKey::from_static(b"plum"),
        UserValue::from_static(b"blue"),
    );
    let gone = UserKey::from_static(b"plum");
    Ok(vec![in alloc;
        Step::Insert(apple, red, 3),
        Step::Insert(plum, blue, 5),
        Step::RemoveWeak(gone, 7),
        Step::FlushActiveMemtable(0),
    ]?)
}

/// Looks below what was opened and above it, and a fig is written under 15: below a counter of 20.
fn numbered_looks(alloc: Global) -> Result<Vec<Step>, AllocError> {
    let (fig, green) = (
        UserKey::from_static(b"fig"),
        UserValue::from_static(b"green"),
    );
    Ok(vec![in alloc;
        look(b"apple", 2),
        look(b"apple", 20),
        look(b"plum", 20),
        Step::Insert(fig, green, 15),
        look(b"fig", 20),
    ]?)
}

fn show_numbers(rt: &impl Print, alloc: Global) -> Result<()> {
    let (first, second) = (numbered_calls(alloc)?, numbered_looks(alloc)?);
    let store = MemStore::new(alloc);
    let course = crash_by_hand(alloc, store, &[], 10, &first, &[], 20, &second)?;
    print_course(rt, &course)
}

fn main(rt: HostRuntime) -> Result<()> {
    let alloc = rt.alloc();
    let (first, second) = (calls(alloc)?, looks(alloc)?);
    println!(rt; "two lives, compacted by Leveled")?;
    let course = live_twice(alloc, MemStore::new(alloc), &first, &[], &second)?;
    print_course(&rt, &course)?;
    println!(rt; "where `current` is to be gone")?;
    let gone = [("current", Pick::Absent)];
    let course = live_twice(alloc, MemStore::new(alloc), &first, &gone, &second)?;
    print_course(&rt, &course)?;
    println!(rt; "with a fault in the first store call")?;
    let course = live_twice(alloc, faulty(alloc), &first, &[], &second)?;
    print_course(&rt, &course)?;
    println!(rt; "where the process ends between them")?;
    show_end(&rt, alloc, &first, &second)?;
    println!(rt; "step by step")?;
    show_single_steps(&rt, alloc, &first, &second)?;
    println!(rt; "under the caller's own numbers")?;
    show_numbers(&rt, alloc)
}
