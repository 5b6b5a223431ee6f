//! Lives of a logged tree, one after the other, compacted by `Leveled` and each ended by a crash: what was acknowledged is read
//! back whole.
//!
//! The contract of `live_again` is derived from those of public calls: it says what a user wants to know of any number of crashes.
//! `nothing_is_dropped` says it again for strategies that never drop, so of every key. `live_around` says it of calls in a loop
//! of one's own, with a flush open over them.
#![tactic(auto)]

mod lives;
mod own_loop;

ghost use Rattle.std.specs.Prelude.{◌≡◌, None, IfOk};
ghost use Rattle.std.specs.FinMap.{empty};
ghost use Rattle.std.specs.List.{AllByRecursion};
ghost use Rattle.lsm_log_runs.specs.Memory.{world_of};
ghost use Rattle.lsm_log_runs.specs.World.{Begins};
ghost use Rattle.lsm_log_runs.specs.Lives.{IsUsualCall};
ghost use Rattle.lsm_runs.specs.Compacting.{strategies_of};
ghost use Rattle.lsm_runs.specs.Dropping.{NoneDrops, no_drops};
ghost use Rattle.example_lives.specs.Remembering.{EachRemembers};

use anyhow::Result;
use lives::{AllLived, Life, Lived, live_again};
use lsm_log_runs::{LogStep, TakenLogged};
use lsm_pick::{CompactionStrategy, Leveled, leveled_never_drops};
use lsm_runs::{Compacted, JobStep, Reply};
use lsm_state::{Fault, MemStore, Op, Ops, Pick, UserKey, UserValue};
use own_loop::live_around;
use std::alloc::{AllocError, Global};

/// A snapshot that sees all.
const LATEST: u64 = u64::MAX;

/// An apple and a plum are written together.
fn write(alloc: Global, apple: &'static [u8], plum: &'static [u8]) -> Result<LogStep, AllocError>
    ensures { IfOk result IsUsualCall }
{
    let ops = vec![in alloc;
        (
            UserKey::from_static(b"apple"),
            Op::Set(UserValue::from_static(apple))
        ),
        (
            UserKey::from_static(b"plum"),
            Op::Set(UserValue::from_static(plum))
        ),
    ]?;
    Ok(LogStep::Write(Ops::new(ops)))
}

fn look(key: &'static [u8], snapshot: u64) -> LogStep
    ensures { IsUsualCall result }
{
    LogStep::Get(UserKey::from_static(key), snapshot)
}

/// Two batches are written, each into a table of its own, which the first strategy merges; a third one is only in the log.
fn first(alloc: Global) -> Result<Vec<LogStep>, AllocError>
    ensures { IfOk result (λ v. AllByRecursion IsUsualCall v.items) }
{
    let unripe = write(alloc, b"green", b"green")?;
    let ripe = write(alloc, b"red", b"blue")?;
    let dried = write(alloc, b"brown", b"black")?;
    Ok(vec![in alloc;
        unripe,
        LogStep::FlushActiveMemtable(0),
        ripe,
        LogStep::FlushActiveMemtable(0),
        LogStep::Compact(0, 4),
        dried,
    ]?)
}

/// The third one is read and flushed, and one more is written, which a snapshot before it doesn't see.
fn second(alloc: Global) -> Result<Vec<LogStep>, AllocError>
    ensures { IfOk result (λ v. AllByRecursion IsUsualCall v.items) }
{
    let painted = write(alloc, b"gold", b"white")?;
    Ok(vec![in alloc;
        look(b"apple", 6),
        LogStep::FlushActiveMemtable(0),
        painted,
        look(b"apple", 7),
        look(b"apple", 8),
    ]?)
}

/// The last one is read.
fn third(alloc: Global) -> Result<Vec<LogStep>, AllocError>
    ensures { IfOk result (λ v. AllByRecursion IsUsualCall v.items) }
{
    Ok(vec![in alloc; look(b"apple", 8), look(b"plum", LATEST)]?)
}

/// A life of these steps, after which a crash leaves what it mostly does.
fn life(alloc: Global, steps: Vec<LogStep>) -> Life
    ensures { result.steps ≡ steps }
{
    Life {
        steps,
        picks: Vec::new(alloc),
    }
}

/// What was written under which number, and what was read.
fn print_reply(rt: &impl Print, reply: &Reply) -> Result<()> {
    match reply {
        Reply::Number(number) => println!(rt; "    written under {number}")?,
        Reply::Value(value) => println!(rt; "    read {value:?}")?,
        Reply::FlushedActive(_, Some(_)) | Reply::Registered(_) => println!(rt; "    flushed")?,
        Reply::FlushedActive(_, None) => println!(rt; "    nothing to flush")?,
        Reply::Compacted(Compacted::Installed) => println!(rt; "    compacted")?,
        _ => (),
    }
    Ok(())
}

fn print_replies(rt: &impl Print, taken: &TakenLogged) -> Result<()> {
    for reply in &taken.replies {
        print_reply(rt, reply)?;
    }
    Ok(())
}

fn print_lives(rt: &impl Print, all: &AllLived) -> Result<()> {
    if !all.crashed {
        println!(rt; "  no crash leaves that")?;
        return Ok(());
    }
    for lived in &all.lived {
        match lived {
            Lived::Took(taken, _) => {
                println!(rt; "  a life")?;
                print_replies(rt, taken)?;
            }
            Lived::Refused(error, _) => println!(rt; "  refused: {error}")?,
        }
    }
    Ok(())
}

/// Costs nothing: its caller has to show that none of these strategies ever drops, and that these lives went so where
/// nothing may be dropped.
fn nothing_is_dropped(strategies: &[Box<dyn CompactionStrategy>], lives: &[Life], all: &AllLived)
    requires strategies { NoneDrops (strategies_of (λ b. may_choose b) (λ b. may_refuse b) strategies.now) }
    requires lives { EachRemembers no_drops (λ m. m ≡ empty) 0 lives.now all.now.lived.items all.now.crashed }
{}

/// Three lives, each ended by a crash.
fn live_thrice(alloc: Global, store: MemStore) -> Result<AllLived, AllocError>
    requires new { Begins (λ _. None) (world_of store) }
{
    leveled_never_drops();
    let mut strategies: Vec<Box<dyn CompactionStrategy>> = Vec::new(alloc);
    strategies.push(Box::new(alloc, Leveled::new(alloc)?.with_l0_threshold(2))?)?;
    let lives = vec![in alloc;
        life(alloc, first(alloc)?),
        life(alloc, second(alloc)?),
        life(alloc, third(alloc)?),
    ]?;
    let all = live_again(alloc, store, &strategies, &lives)?;
    nothing_is_dropped(&strategies, &lives, &all);
    Ok(all)
}

/// One life, which no strategy compacts, after which a crash is to leave nothing of its last batch, which was acknowledged.
fn lose(alloc: Global) -> Result<AllLived, AllocError> {
    let lost = Life {
        steps: first(alloc)?,
        picks: vec![in alloc; ("log/4", Pick::Absent)]?,
    };
    let lives = vec![in alloc; lost]?;
    live_again(alloc, MemStore::new(alloc), &[], &lives)
}

/// An apple is written, sealed, and flushed but for the last call; then comes a ripe one, and the flush is installed.
fn show_own_loop(rt: &impl Print, alloc: Global) -> Result<()> {
    let before = vec![in alloc;
        write(alloc, b"green", b"green")?,
        LogStep::RotateMemtable,
        LogStep::AtSlot(0, JobStep::BeginFlush),
        LogStep::AtSlot(0, JobStep::RunFlush(0)),
        LogStep::AtSlot(0, JobStep::FlushToTables),
    ]?;
    let ripe = vec![in alloc;
        (
            UserKey::from_static(b"apple"),
            Op::Set(UserValue::from_static(b"red"))
        ),
    ]?;
    let after = vec![in alloc;
        LogStep::AtSlot(0, JobStep::RegisterTables),
        look(b"apple", 1),
        look(b"apple", LATEST),
    ]?;
    match live_around(alloc, MemStore::new(alloc), &[], &before, ripe, &after) {
        Ok((around, _)) => {
            print_replies(rt, &around.before)?;
            print_reply(rt, &around.written)?;
            print_replies(rt, &around.after)
        }
        Err((error, _)) => {
            println!(rt; "    refused: {error}")?;
            Ok(())
        }
    }
}

/// A new store whose first call fails.
fn faulty(alloc: Global) -> MemStore
    ensures { Begins (λ _. None) (world_of result) }
{
    let mut store = MemStore::new(alloc);
    store.fail(1, Fault::Once);
    store
}

fn main(rt: HostRuntime) -> Result<()> {
    let alloc = rt.alloc();
    println!(rt; "three lives, compacted by Leveled")?;
    print_lives(&rt, &live_thrice(alloc, MemStore::new(alloc))?)?;
    println!(rt; "with a fault in the first store call")?;
    print_lives(&rt, &live_thrice(alloc, faulty(alloc))?)?;
    println!(rt; "without an acknowledged batch")?;
    print_lives(&rt, &lose(alloc)?)?;
    println!(rt; "in a loop of one's own, a flush open over a write")?;
    show_own_loop(&rt, alloc)
}
