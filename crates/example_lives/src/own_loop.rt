// A life in a loop of one's own: a call of the tree itself between lists of calls, with a flush open over it.
ghost use Rattle.std.specs.Prelude.{◌<◌, ◌^◌, None, MatchResult};
ghost use Rattle.std.specs.List.{AllByRecursion};
ghost use Rattle.lsm_commit.specs.Causes.{HasCause};
ghost use Rattle.lsm_store.specs.Memory.{world_of};
ghost use Rattle.lsm_store.specs.World.{Begins};
ghost use Rattle.lsm_runs.specs.Causes.{ReplyBlames};
ghost use Rattle.lsm_runs.specs.Compacting.{strategies_of};
ghost use Rattle.lsm_runs.specs.Dropping.{Allowance, AllowsDrops, allowed};
ghost use Rattle.lsm_runs.specs.Files.{StaysStored};
ghost use Rattle.lsm_log_runs.specs.Doing.{ActsBatch};
ghost use Rattle.lsm_log_runs.specs.Lives.{IsUsualCall};
ghost use Rattle.lsm_log_runs.specs.Runs.{TakesBatch};
ghost use Rattle.lsm_log_runs.specs.declared.steps.LogStep.TheVariants.{Write as Wrote};
ghost use Rattle.example_lives.specs.OwnLoop.{LivesAround};
ghost use Rattle.example_lives.specs.Remembering.{IsWant};

use lsm_log_runs::{
    LogStep, TakenLogged, any_number_of_logged_lives, give_up_all, new_logs_open,
    opened_runs_are_lives, run_from, standing_logs_are_taken, steps_lead,
};
use lsm_logged::Logged;
use lsm_pick::CompactionStrategy;
use lsm_runs::{Reply, Slots};
use lsm_state::{Config, Error, MemStore, Op, UserKey};
use std::alloc::Global;

/// What was answered before a batch, to it, and after it.
#[derive(Drop)]
pub struct Around {
    pub before: TakenLogged,
    pub written: Reply,
    pub after: TakenLogged,
}

/// Writes a batch by the tree's own call.
fn write_one(tree: &mut Logged<MemStore>, ops: Vec<(UserKey, Op)>) -> Reply
    ensures takes { TakesBatch ops.items result tree.old tree.new }
    ensures acts { ActsBatch ops.items result (world_of tree.old.store) (world_of tree.new.store) tree.old tree.new }
    ensures stored { StaysStored (world_of tree.old.store) (world_of tree.new.store) tree.old.core tree.new.core }
    ensures cause { HasCause (ReplyBlames result) (world_of tree.old.store) (world_of tree.new.store) }
{
    match tree.write(ops) {
        Ok(number) => Reply::Number(number),
        Err(error) => Reply::Refused(error),
    }
}

/// The counter is below 2^64.
fn counter_fits(tree: &Logged<MemStore>)
    ensures { tree.now.core.seqno < 2 ^ 64 }
{
    let _ = tree.tree().seqno().get();
}

/// Opens the logged tree of a new store, takes steps, writes a batch by the tree's own call, and takes more steps: a job that
/// the first ones begin waits in its slot meanwhile, and the last ones may install it.
///
/// Nothing else is asked of the calls but that no batch removes a key weakly: all of them are one run, whose reads answer the
/// replay, and whatever a crash leaves after it holds all that was acknowledged.
pub fn live_around(
    alloc: Global,
    store: MemStore,
    strategies: &[Box<dyn CompactionStrategy>],
    before: &[LogStep],
    ops: Vec<(UserKey, Op)>,
    after: &[LogStep],
) -> Result<(Around, MemStore), (Error, MemStore)>
    requires new { Begins (λ _. None) (world_of store) }
    ensures { (may : Allowance) → AllowsDrops (allowed may) (strategies_of (λ b. may_choose b) (λ b. may_refuse b) strategies.now) → AllByRecursion IsUsualCall before.now → IsUsualCall (Wrote ops.items) → AllByRecursion IsUsualCall after.now
        → MatchResult result (λ r. LivesAround (allowed may) before.now ops.items after.now r.0 r.1) (λ e. IsWant e.0 e.1.failures) }
{
    new_logs_open(&store);
    any_number_of_logged_lives(&store);
    steps_lead(&store, strategies);
    opened_runs_are_lives(&store, strategies);
    standing_logs_are_taken(&store);
    let mut tree = match Logged::open(alloc, Config::new(0, 0, 0), store) {
        Ok(tree) => tree,
        Err(refused) => return Err(refused),
    };
    counter_fits(&tree);
    let mut slots = Slots::new(alloc);
    let before = run_from(alloc, &mut tree, &mut slots, strategies, before);
    let written = write_one(&mut tree, ops);
    let after = run_from(alloc, &mut tree, &mut slots, strategies, after);
    give_up_all(&mut tree, slots);
    Ok((
        Around {
            before,
            written,
            after,
        },
        tree.into_store(),
    ))
}
