// Random scripts, each with a store call that fails and a crash that leaves of each name what it may: what was acknowledged is
// there once the tree is opened again, whole, and of what is of unknown outcome all or nothing.
use crate::crashes::{count_picks, crash_by, draw_picks};
use crate::drawing::{Drawn, SNAPSHOT, Script, draw_script};
use crate::known::{Known, Told};
use crate::random::Random;
use crate::shown::{KEYS, Table};
use crate::strategies::add_strategies;
use crate::tallies::Tally;
use lsm_log_runs::{LogStep, TakenLogged, run_logged};
use lsm_logged::Logged;
use lsm_state::{CompactionStrategy, Config, Fault, MemStore, Store, UserKey};
use std::alloc::{AllocError, Global};
use std::ops::Bound;
use std::test::Fail;

const SCRIPTS: u64 = 150;

/// The seeds of the scripts begin here.
const SEED: u64 = 20_000;

/// Of so many scripts one goes on after its crash, and crashes once more.
const SECOND: u64 = 3;

/// What is known after these steps. None where one of them can't be answered so.
fn behind(
    steps: &[LogStep],
    taken: &TakenLogged,
    known: Known,
    tally: &mut Tally,
) -> Option<Known> {
    let mut known = known;
    for (step, reply) in steps.iter().zip(&taken.replies) {
        tally.add_reply(reply);
        known = known.behind(step, reply)?;
    }
    (taken.ended.is_ok() && taken.replies.len() == steps.len()).then_some(known)
}

/// Takes the steps of a script: all in one run, or one by one, up to the one in which a store call fails.
fn take(
    alloc: Global,
    tree: &mut Logged,
    strategies: &[Box<dyn CompactionStrategy>],
    script: &Script,
    known: Known,
    tally: &mut Tally,
) -> Option<Known> {
    let failed = tree.store().failures();
    let at_once = if script.goes_on { usize::MAX } else { 1 };
    let mut known = known;
    for steps in script.steps.chunks(at_once) {
        let taken = run_logged(alloc, tree, strategies, steps);
        known = behind(steps, &taken, known, tally)?;
        if tree.store().failures() > failed {
            break;
        }
    }
    Some(known)
}

/// Opens a store that may fail, and takes the steps of a script. None beside it where something can't be answered so.
fn play(
    alloc: Global,
    store: MemStore,
    strategies: &[Box<dyn CompactionStrategy>],
    script: &Script,
    known: Known,
    tally: &mut Tally,
) -> (MemStore, Option<Known>) {
    let failed = store.failures();
    match Logged::open(alloc, Config::new(0, 0, 0), store) {
        Ok(mut tree) => {
            let known = take(alloc, &mut tree, strategies, script, known, tally);
            (tree.into_store(), known)
        }
        Err((_, store)) => {
            tally.refused = tally.refused.saturating_add(1);
            let has_failed = store.failures() > failed;
            (store, has_failed.then_some(known))
        }
    }
}

/// A read of all keys in one, and one of each.
fn reads(alloc: Global) -> Result<Vec<LogStep>, AllocError> {
    let mut steps = Vec::new(alloc);
    steps.push(LogStep::Range(Bound::Unbounded, Bound::Unbounded, SNAPSHOT))?;
    for name in KEYS {
        steps.push(LogStep::Get(UserKey::from_static(name.as_bytes()), SNAPSHOT))?;
    }
    Ok(steps)
}

/// How what such reads reply stands to what is known.
fn compare(steps: &[LogStep], taken: &TakenLogged, known: Known) -> Told {
    let Some(reply) = taken.replies.first() else {
        return Told::Misread;
    };
    let told = known.tell(reply);
    match behind(steps, taken, known.once(told), &mut Tally::NOTHING) {
        Some(_) => told,
        None => Told::Wrong,
    }
}

/// Opens what is left, which doesn't fail, and compares it with what is known.
fn reopen(alloc: Global, store: MemStore, reads: &[LogStep], known: Known) -> (MemStore, Told) {
    match Logged::open(alloc, Config::new(0, 0, 0), store) {
        Ok(mut tree) => {
            let taken = run_logged(alloc, &mut tree, &[], reads);
            (tree.into_store(), compare(reads, &taken, known))
        }
        Err((_, store)) => (store, Told::Refused),
    }
}

/// What a crash leaves, as drawn: the same twice.
fn crash_twice(
    alloc: Global,
    store: &MemStore,
    steps: u64,
    random: &mut Random,
    tally: &mut Tally,
) -> Result<Option<(MemStore, MemStore)>, AllocError> {
    let picks = draw_picks(alloc, store, random, steps)?;
    tally.picks = tally.picks.saturating_add(count_picks(&picks));
    match (
        crash_by(alloc, store, &picks)?,
        crash_by(alloc, store, &picks)?,
    ) {
        (Some(one), Some(other)) => Ok(Some((one, other))),
        _ => Ok(None),
    }
}

/// Ends a life, by a crash after so many steps or without one, and opens what is left. The next life begins with what was
/// opened, or with what the crash left.
fn end(
    alloc: Global,
    store: MemStore,
    crash: Option<u64>,
    known: Known,
    random: &mut Random,
    tally: &mut Tally,
) -> Result<(MemStore, Told), AllocError> {
    let reads = reads(alloc)?;
    let mut store = store;
    let Some(steps) = crash else {
        // No fault is planned any more.
        store.fail(0, Fault::Once);
        return Ok(reopen(alloc, store, &reads, known));
    };
    match crash_twice(alloc, &store, steps, random, tally)? {
        Some((left, same)) => {
            let (opened, told) = reopen(alloc, left, &reads, known);
            let next = if random.one_in(2) { opened } else { same };
            Ok((next, told))
        }
        None => Ok((store, Told::Misread)),
    }
}

/// One life of a script: what it leaves, what is known of that, and how it stands to what was acknowledged.
fn live(
    alloc: Global,
    store: MemStore,
    strategies: &[Box<dyn CompactionStrategy>],
    table: Table,
    drawn: &mut Drawn,
    random: &mut Random,
    tally: &mut Tally,
) -> Result<(MemStore, Table, Told), AllocError> {
    let script = draw_script(alloc, random, drawn)?;
    let mut store = store;
    if let Some((call, fault)) = script.fault {
        store.fail(call, fault);
    }
    let (store, played) = play(alloc, store, strategies, &script, Known::of(table), tally);
    let Some(known) = played else {
        return Ok((store, table, Told::Misread));
    };
    tally.add_known(&known);
    let crash = script.crashes.then_some(drawn.steps);
    let (store, told) = end(alloc, store, crash, known, random, tally)?;
    tally.add_told(told);
    Ok((store, known.once(told).surely, told))
}

/// The script of a number, of one life or two.
fn run_script(
    alloc: Global,
    strategies: &[Box<dyn CompactionStrategy>],
    number: u64,
    tally: &mut Tally,
) -> Result<Told, AllocError> {
    let mut random = Random::new(SEED.wrapping_add(number));
    let mut drawn = Drawn::NOTHING;
    let new = MemStore::new(alloc);
    let (store, table, told) = live(
        alloc,
        new,
        strategies,
        Table::EMPTY,
        &mut drawn,
        &mut random,
        tally,
    )?;
    if !told.is_well() || !random.one_in(SECOND) {
        return Ok(told);
    }
    tally.second = tally.second.saturating_add(1);
    let (_, _, told) = live(
        alloc,
        store,
        strategies,
        table,
        &mut drawn,
        &mut random,
        tally,
    )?;
    Ok(told)
}

#[test]
fn scripts_keep_what_is_acknowledged(rt: HostRuntime) -> Result<(), Fail> {
    let mut tally = Tally::NOTHING;
    let mut strategies: Vec<Box<dyn CompactionStrategy>> = Vec::new(rt.alloc());
    add_strategies(rt.alloc(), &mut strategies)?;
    for number in 0..SCRIPTS {
        let told = run_script(rt.alloc(), &strategies, number, &mut tally)?;
        assert!(rt; told.is_well(), "script {number}: {told:?}");
    }
    assert!(rt; tally.is_plenty(), "{tally:?}");
    Ok(())
}
