// Two lives of a tree over a store in memory.
ghost use Rattle.std.specs.Prelude.{◌≡◌, None, length, Err, IfOk, IfErr, OnOk, MatchResult};
ghost use Rattle.std.specs.List.{AllByRecursion};
ghost use Rattle.lsm_manifest.specs.Recovery.{CountsStore};
ghost use Rattle.lsm_manifest.specs.Told.{Told, TellsOpen};
ghost use Rattle.lsm_state.specs.Opened.{files_told};
ghost use Rattle.lsm_runs.specs.Journal.{Map};
ghost use Rattle.lsm_runs.specs.Memory.{world_of};
ghost use Rattle.lsm_runs.specs.World.{Begins};
ghost use Rattle.lsm_runs.specs.Finding.{RefusesFound};
ghost use Rattle.lsm_runs.specs.Compacting.{strategies_of};
ghost use Rattle.lsm_runs.specs.Dropping.{Allowance, AllowsDrops, allowed};
ghost use Rattle.example_crash.specs.Single.{MayBeOpened, HasLived};
ghost use Rattle.example_crash.specs.Survival.{IsUsual, IsWant, steps_taken, Survives, Goes, CrashesAsPicked};

use lsm_manifest::{crashes_settle, images_stand_once};
use lsm_run_model::{numbers_are_bounded, order_without_reads, rising_is_in_order};
use lsm_runs::{Reply, Step, Taken, live};
use lsm_state::{CompactionStrategy, Config, Error, MemStore, Pick};
use std::alloc::{AllocError, Global};

/// What the steps of a life answered, and the store that it ended with.
#[derive(Drop)]
pub struct Life {
    pub taken: Taken,
    pub store: MemStore,
}

/// How far two lives came, between which a crash was to come.
#[derive(Drop)]
pub enum Course {
    /// The first opening was refused, and left this store.
    NotOpened(Error, MemStore),
    /// A crash can't leave what is picked of the store after the first life.
    NotSo(Life),
    /// So was the second opening, after the first life.
    NotReopened(Life, Error, MemStore),
    /// Both were lived.
    Lived(Life, Life),
}

/// Opens the tree of a store, takes steps on it, and gives the store back: what stands in memtables alone is gone.
fn live_on(
    alloc: Global,
    store: MemStore,
    strategies: &[Box<dyn CompactionStrategy>],
    steps: &[Step],
) -> Result<Life, (Error, MemStore)>
    ensures whole { IfOk result (λ l. OnOk l.taken.ended (length l.taken.outcomes.items ≡ length steps.now)) }
    ensures lives { (may : Allowance) → AllowsDrops (allowed may) (strategies_of (λ b. may_choose b) (λ b. may_refuse b) strategies.now) → (m : Map) → MayBeOpened store m → IfOk result (λ l. HasLived (allowed may) m store 0 (steps_taken steps.now l.taken) l.taken.outcomes.items l.store) }
    ensures refused { (m : Map) → MayBeOpened store m → IfErr result (λ e. RefusesFound (world_of store).gives e.0) }
    ensures counts { IfErr result (λ e. Told TellsOpen (CountsStore (world_of store) (world_of e.1)) (files_told (Err e))) }
{
    rising_is_in_order(&Reply::Done);
    order_without_reads();
    numbers_are_bounded();
    match live(alloc, Config::new(0, 0, 0), store, strategies, steps) {
        Ok((tree, taken)) => Ok(Life {
            taken,
            store: tree.into_store(),
        }),
        Err(refused) => Err(refused),
    }
}

/// Takes steps on a new tree, crashes its store so that of these names this is left, opens a tree on that, and takes steps on it.
/// Faults may be planned in the store.
///
/// Of usual steps nothing else is asked (`IsUsual`): each read answers what the replay of the calls before it does; and the
/// second life starts from a beginning of the first one's calls, outside of what strategies dropped, which is allowed. That
/// holds each flush that was installed and each clear that was answered. An opening is refused only for want of memory, or where a
/// call of the store failed.
pub fn crash_between(
    alloc: Global,
    store: MemStore,
    strategies: &[Box<dyn CompactionStrategy>],
    first: &[Step],
    picks: &[(&str, Pick<'_>)],
    second: &[Step],
) -> Result<Course, AllocError>
    requires new { Begins (λ _. None) (world_of store) }
    ensures goes { (may : Allowance) → AllowsDrops (allowed may) (strategies_of (λ b. may_choose b) (λ b. may_refuse b) strategies.now) → AllByRecursion IsUsual first.now → AllByRecursion IsUsual second.now → IfOk result (Goes (allowed may) 0 first.now picks.now 0 second.now) }
    // No second life just where a crash can't leave what is picked of the store after the first one.
    ensures crashed { (may : Allowance) → AllowsDrops (allowed may) (strategies_of (λ b. may_choose b) (λ b. may_refuse b) strategies.now) → IfOk result (CrashesAsPicked (allowed may) 0 store first.now picks.now) }
{
    crashes_settle(&store);
    images_stand_once();
    let before = match live_on(alloc, store, strategies, first) {
        Ok(life) => life,
        Err((error, store)) => return Ok(Course::NotOpened(error, store)),
    };
    let Some(left) = before.store.crash(picks)? else {
        return Ok(Course::NotSo(before));
    };
    match live_on(alloc, left, strategies, second) {
        Ok(after) => Ok(Course::Lived(before, after)),
        Err((error, store)) => Ok(Course::NotReopened(before, error, store)),
    }
}

/// The same without a crash: the process ends, and the next one opens the store as it is.
pub fn end_between(
    alloc: Global,
    store: MemStore,
    strategies: &[Box<dyn CompactionStrategy>],
    first: &[Step],
    second: &[Step],
) -> Result<(Taken, Life), (Error, MemStore)>
    requires new { Begins (λ _. None) (world_of store) }
    ensures { (may : Allowance) → AllowsDrops (allowed may) (strategies_of (λ b. may_choose b) (λ b. may_refuse b) strategies.now) → AllByRecursion IsUsual first.now → AllByRecursion IsUsual second.now → MatchResult result (λ l. Survives (allowed may) 0 first.now l.0 l.1.store.failures 0 second.now l.1.taken l.1.store.failures) (λ e. IsWant e.0 e.1.failures) }
{
    crashes_settle(&store);
    images_stand_once();
    let before = match live_on(alloc, store, strategies, first) {
        Ok(life) => life,
        Err(refused) => return Err(refused),
    };
    match live_on(alloc, before.store, strategies, second) {
        Ok(after) => Ok((before.taken, after)),
        Err(refused) => Err(refused),
    }
}
