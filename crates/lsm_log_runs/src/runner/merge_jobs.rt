// The calls of a merge whose job waits in a slot.
ghost use Rattle.std.specs.Prelude.{[]};
ghost use Rattle.lsm_commit.specs.Causes.{HasCause, Blames};
ghost use Rattle.lsm_runs.specs.Causes.{ReplyBlames};
ghost use Rattle.lsm_runs.specs.Compacting.{strategies_of, TakesRunCompaction};
ghost use Rattle.lsm_runs.specs.Files.{StaysStored};
ghost use Rattle.lsm_state.specs.Compactions.{BeginsCompaction};
ghost use Rattle.lsm_state.specs.Dropping.{MayDropIds};
ghost use Rattle.lsm_logged.specs.Acting.{CompactsAct};
ghost use Rattle.lsm_logged.specs.Asking.{Asks};
ghost use Rattle.lsm_log_runs.specs.Doing.{ActsNothing, ActsCompact, ActsMerge};
ghost use Rattle.lsm_log_runs.specs.JobSteps.{TakesBeginCompaction, TakesFinish, TakesAbandonCompaction};

use lsm_below::Error;
use lsm_logged::Logged;
use lsm_pick::CompactionStrategy;
use lsm_runs::{Job, Reply, of_begun, of_finished};
use lsm_state::{Begun, Options};
use lsm_store::Store;

/// Begins what a strategy in a box chooses.
fn begin_boxed<S: Store>(
    tree: &mut Logged<S>,
    strategy: &Box<dyn CompactionStrategy>,
    options: Options,
) -> Result<Begun, Error>
    ensures asks { Asks result tree.old tree.new (BeginsCompaction (may_choose strategy.now) (may_refuse strategy.now) options result tree.old.core tree.new.core) }
    ensures acts { S.tells → CompactsAct (MayDropIds (may_choose strategy.now) tree.old.core) options.mvcc_gc_watermark result (S.world tree.old.store) (S.world tree.new.store) tree.old tree.new }
    ensures stored { S.tells → StaysStored (S.world tree.old.store) (S.world tree.new.store) tree.old.core tree.new.core }
    ensures causes { HasCause (Blames result) (S.world tree.old.store) (S.world tree.new.store) }
{
    tree.begin_compaction(&**strategy, options)
}

pub(super) fn begin_compaction<S: Store>(
    tree: &mut Logged<S>,
    place: &mut Option<Job>,
    strategies: &[Box<dyn CompactionStrategy>],
    at: usize,
    options: Options,
) -> Reply
    ensures takes { TakesBeginCompaction (strategies_of (λ b. may_choose b) (λ b. may_refuse b) strategies.now) at options result place.old place.new tree.old tree.new }
    ensures acts { S.tells → ActsCompact ((strategies_of (λ b. may_choose b) (λ b. may_refuse b) strategies.now).may_choose at) options.mvcc_gc_watermark result (S.world tree.old.store) (S.world tree.new.store) tree.old tree.new }
    ensures stored { S.tells → StaysStored (S.world tree.old.store) (S.world tree.new.store) tree.old.core tree.new.core }
    ensures causes { HasCause (ReplyBlames result) (S.world tree.old.store) (S.world tree.new.store) }
{
    if place.is_some() {
        return Reply::SlotInUse;
    }
    let Some(strategy) = strategies.get(at) else {
        return Reply::NoStrategy;
    };
    let (reply, job) = of_begun(begin_boxed(tree, strategy, options));
    *place = job;
    reply
}

pub(super) fn run_compaction<S: Store>(tree: &Logged<S>, place: &mut Option<Job>) -> Reply
    ensures { TakesRunCompaction result [] place.old place.new tree.now.core tree.now.core }
{
    let job = match place.take() {
        Some(Job::Compaction(job)) => job.into_job(),
        other => {
            *place = other;
            return Reply::NoJob;
        }
    };
    match job.run() {
        Ok(merged) => {
            *place = Some(Job::Compacted(merged.keep()));
            Reply::Done
        }
        Err((error, job)) => {
            *place = Some(Job::Compaction(job.keep()));
            Reply::Refused(error)
        }
    }
}

pub(super) fn finish_compaction<S: Store>(tree: &mut Logged<S>, place: &mut Option<Job>) -> Reply
    ensures takes { TakesFinish result place.old place.new tree.old tree.new }
    ensures acts { S.tells → ActsMerge result place.old (S.world tree.old.store) (S.world tree.new.store) tree.old tree.new }
    ensures stored { S.tells → StaysStored (S.world tree.old.store) (S.world tree.new.store) tree.old.core tree.new.core }
    ensures causes { HasCause (ReplyBlames result) (S.world tree.old.store) (S.world tree.new.store) }
{
    let merged = match place.take() {
        Some(Job::Compacted(merged)) => merged.into_job(),
        other => {
            *place = other;
            return Reply::NoJob;
        }
    };
    of_finished(tree.finish_compaction(merged))
}

pub(super) fn abandon_compaction<S: Store>(tree: &mut Logged<S>, place: &mut Option<Job>) -> Reply
    ensures takes { TakesAbandonCompaction result place.old place.new tree.old tree.new }
    ensures acts { S.tells → ActsNothing (S.world tree.old.store) (S.world tree.new.store) tree.old tree.new }
    ensures stored { S.tells → StaysStored (S.world tree.old.store) (S.world tree.new.store) tree.old.core tree.new.core }
{
    let job = match place.take() {
        Some(Job::Compaction(job)) => job.into_job(),
        Some(Job::Compacted(merged)) => merged.into_job().into_job(),
        other => {
            *place = other;
            return Reply::NoJob;
        }
    };
    tree.abandon_compaction(job);
    Reply::Done
}
