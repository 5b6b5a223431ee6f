// A tree over a store in memory that takes steps one by one, so that its caller looks at each reply before he takes the next.
ghost use Rattle.std.specs.Prelude.{◌≡◌, ◌≤◌, ◌++◌, ◌∷◌, ℕ, [], List, None, take, length, Err, IfOk, IfErr, OnOk, OnErr};
ghost use Rattle.std.specs.List.{AllByRecursion};
ghost use Rattle.lsm_manifest.specs.Recovery.{CountsStore};
ghost use Rattle.lsm_manifest.specs.Told.{Told as Refusal, TellsOpen};
ghost use Rattle.lsm_state.specs.Opened.{files_told};
ghost use Rattle.lsm_runs.specs.Journal.{Map};
ghost use Rattle.lsm_runs.specs.Finding.{RefusesFound};
ghost use Rattle.lsm_runs.specs.Memory.{MemStore as Memory, world_of};
ghost use Rattle.lsm_runs.specs.World.{Begins};
ghost use Rattle.lsm_runs.specs.declared.steps.Step.{Step};
ghost use Rattle.lsm_runs.specs.Told.{Told};
ghost use Rattle.lsm_runs.specs.Compacting.{strategies_of};
ghost use Rattle.lsm_runs.specs.Dropping.{Allowance, AllowsDrops, allowed};
ghost use Rattle.example_crash.specs.Single.{MayBeOpened, HasLived, HasTaken};
ghost use Rattle.example_crash.specs.Survival.{IsUsual, steps_taken, Goes, CrashesAsPicked};

use crate::by_hand::crash_by_hand;
use crate::lives::{Course, Life};
use lsm_manifest::{opening_finds, openings_leave_what_was_read};
use lsm_model::reads_are_sound;
use lsm_run_model::{moments_join, numbers_are_bounded, order_without_reads, rising_is_in_order};
use lsm_runs::{Outcome, Reply, Step, Taken, TreeFiles, run};
use lsm_state::{CompactionStrategy, Config, Error, MemStore, Pick, SeqNo, TreeState};
use std::alloc::{AllocError, Global};

/// Opens the tree of a store, with its counter at a number, or above what is found, if that is higher.
pub fn open(
    alloc: Global,
    store: MemStore,
    strategies: &[Box<dyn CompactionStrategy>],
    from: SeqNo,
) -> Result<TreeState<MemStore>, (Error, MemStore)>
    ensures opens { (may : Allowance) (m : Map) → MayBeOpened store m → IfOk result (λ t. HasTaken (allowed may) m store from [] [] t) }
    ensures refused { (m : Map) → MayBeOpened store m → IfErr result (λ e. RefusesFound (world_of store).gives e.0) }
    ensures counts { IfErr result (λ e. Refusal TellsOpen (CountsStore (world_of store) (world_of e.1)) (files_told (Err e))) }
{
    opening_finds(&store);
    openings_leave_what_was_read(&store);
    reads_are_sound();
    moments_join(&store, &TreeFiles, &Reply::Done);
    rising_is_in_order(&Reply::Done);
    order_without_reads();
    numbers_are_bounded();
    let mut tree = match TreeState::open_raised(alloc, Config::new(0, from, from), store) {
        Ok(tree) => tree,
        Err(refused) => return Err(refused),
    };
    let taken = run(alloc, &mut tree, strategies, &[]);
    drop(taken);
    Ok(tree)
}

/// Takes the one step of a list.
fn take_it(
    alloc: Global,
    tree: &mut TreeState<MemStore>,
    strategies: &[Box<dyn CompactionStrategy>],
    list: &[Step],
) -> Result<Outcome, AllocError>
    requires { length list.now ≡ 1 }
    ensures ok { (may : Allowance) → AllowsDrops (allowed may) (strategies_of (λ b. may_choose b) (λ b. may_refuse b) strategies.now) → (m : Map) (was : Memory) (from : ℕ) (steps : List Step) (told : List Told) → HasTaken (allowed may) m was from steps told tree.old → IfOk result (λ o. HasTaken (allowed may) m was from (steps ++ list.now) (told ++ o ∷ []) tree.new) }
    ensures err { (may : Allowance) (m : Map) (was : Memory) (from : ℕ) (steps : List Step) (told : List Told) → HasTaken (allowed may) m was from steps told tree.old → OnErr result (HasTaken (allowed may) m was from steps told tree.new) }
{
    reads_are_sound();
    moments_join(tree.store(), &TreeFiles, &Reply::Done);
    rising_is_in_order(&Reply::Done);
    order_without_reads();
    numbers_are_bounded();
    let mut taken = run(alloc, tree, strategies, list);
    match taken.outcomes.pop() {
        Some(outcome) => Ok(outcome),
        None => Err(AllocError),
    }
}

/// Takes a step by a run of its own, whatever it is. What its caller has taken of the tree so far is a life, and with this
/// step it is one (`HasTaken`): so he looks at each reply before he takes the next. Where there is no memory for the
/// outcome, the step isn't taken.
pub fn take_one(
    alloc: Global,
    tree: &mut TreeState<MemStore>,
    strategies: &[Box<dyn CompactionStrategy>],
    step: Step,
) -> Result<Outcome, AllocError>
    ensures ok { (may : Allowance) → AllowsDrops (allowed may) (strategies_of (λ b. may_choose b) (λ b. may_refuse b) strategies.now) → (m : Map) (was : Memory) (from : ℕ) (steps : List Step) (told : List Told) → HasTaken (allowed may) m was from steps told tree.old → IfOk result (λ o. HasTaken (allowed may) m was from (steps ++ step ∷ []) (told ++ o ∷ []) tree.new) }
    ensures err { (may : Allowance) (m : Map) (was : Memory) (from : ℕ) (steps : List Step) (told : List Told) → HasTaken (allowed may) m was from steps told tree.old → OnErr result (HasTaken (allowed may) m was from steps told tree.new) }
{
    take_it(alloc, tree, strategies, &[step])
}

/// Takes the one step of a list, and appends its outcome to the others.
fn add_it(
    alloc: Global,
    tree: &mut TreeState<MemStore>,
    strategies: &[Box<dyn CompactionStrategy>],
    list: &[Step],
    outcomes: &mut Vec<Outcome>,
) -> Result<(), AllocError>
    requires { length list.now ≡ 1 }
    ensures ok { OnOk result ((o : Told) × (outcomes.new.items ≡ outcomes.old.items ++ o ∷ []) × ((may : Allowance) → AllowsDrops (allowed may) (strategies_of (λ b. may_choose b) (λ b. may_refuse b) strategies.now) → (m : Map) (was : Memory) (from : ℕ) (steps : List Step) (told : List Told) → HasTaken (allowed may) m was from steps told tree.old → HasTaken (allowed may) m was from (steps ++ list.now) (told ++ o ∷ []) tree.new)) }
    ensures err { (may : Allowance) (m : Map) (was : Memory) (from : ℕ) (steps : List Step) (told : List Told) → HasTaken (allowed may) m was from steps told tree.old → OnErr result (HasTaken (allowed may) m was from steps told tree.new) }
    ensures outcomes_err { OnErr result (outcomes.new.items ≡ outcomes.old.items) }
{
    outcomes.try_reserve(1)?;
    let outcome = take_it(alloc, tree, strategies, list)?;
    outcomes.push(outcome)?;
    Ok(())
}

/// Takes steps one by one, each by a run of its own, until there is no memory for the outcome of the next one.
pub fn take_each(
    alloc: Global,
    tree: &mut TreeState<MemStore>,
    strategies: &[Box<dyn CompactionStrategy>],
    steps: &[Step],
) -> Taken
    ensures bound { length result.outcomes.items ≤ length steps.now }
    ensures whole { OnOk result.ended (length result.outcomes.items ≡ length steps.now) }
    ensures taken { (may : Allowance) → AllowsDrops (allowed may) (strategies_of (λ b. may_choose b) (λ b. may_refuse b) strategies.now) → (m : Map) (was : Memory) (from : ℕ) (before : List Step) (told : List Told) → HasTaken (allowed may) m was from before told tree.old → HasTaken (allowed may) m was from (before ++ take (length result.outcomes.items) steps.now) (told ++ result.outcomes.items) tree.new }
{
    let mut outcomes = Vec::new(alloc);
    for at in 0..steps.len() {
        let list = &steps[at..at + 1];
        match add_it(alloc, tree, strategies, list, &mut outcomes) {
            Ok(()) => (),
            Err(error) => {
                return Taken {
                    outcomes,
                    ended: Err(error),
                };
            }
        }
    }
    Taken {
        outcomes,
        ended: Ok(()),
    }
}

/// Opens the tree of a store, takes steps on it one by one, and gives the store back: it lived as `live` would have made
/// it, with one run of them all (`HasLived`).
pub fn live_singly(
    alloc: Global,
    store: MemStore,
    strategies: &[Box<dyn CompactionStrategy>],
    from: SeqNo,
    steps: &[Step],
) -> Result<Life, (Error, MemStore)>
    ensures bound { IfOk result (λ l. length l.taken.outcomes.items ≤ length steps.now) }
    ensures whole { IfOk result (λ l. OnOk l.taken.ended (length l.taken.outcomes.items ≡ length steps.now)) }
    ensures lives { (may : Allowance) → AllowsDrops (allowed may) (strategies_of (λ b. may_choose b) (λ b. may_refuse b) strategies.now) → (m : Map) → MayBeOpened store m → IfOk result (λ l. HasLived (allowed may) m store from (steps_taken steps.now l.taken) l.taken.outcomes.items l.store) }
    ensures refused { (m : Map) → MayBeOpened store m → IfErr result (λ e. RefusesFound (world_of store).gives e.0) }
    ensures counts { IfErr result (λ e. Refusal TellsOpen (CountsStore (world_of store) (world_of e.1)) (files_told (Err e))) }
{
    let mut tree = match open(alloc, store, strategies, from) {
        Ok(tree) => tree,
        Err(refused) => return Err(refused),
    };
    let taken = take_each(alloc, &mut tree, strategies, steps);
    Ok(Life {
        taken,
        store: tree.into_store(),
    })
}

/// As `crash_between`, where each step is taken by a run of its own.
pub fn crash_between_single_steps(
    alloc: Global,
    store: MemStore,
    strategies: &[Box<dyn CompactionStrategy>],
    first: &[Step],
    picks: &[(&str, Pick<'_>)],
    second: &[Step],
) -> Result<Course, AllocError>
    requires new { Begins (λ _. None) (world_of store) }
    ensures goes { (may : Allowance) → AllowsDrops (allowed may) (strategies_of (λ b. may_choose b) (λ b. may_refuse b) strategies.now) → AllByRecursion IsUsual first.now → AllByRecursion IsUsual second.now → IfOk result (Goes (allowed may) 0 first.now picks.now 0 second.now) }
    ensures crashed { (may : Allowance) → AllowsDrops (allowed may) (strategies_of (λ b. may_choose b) (λ b. may_refuse b) strategies.now) → IfOk result (CrashesAsPicked (allowed may) 0 store first.now picks.now) }
{
    crash_by_hand(alloc, store, strategies, 0, first, picks, 0, second)
}
