// Calls on the jobs that wait in slots, and the end of a run.
ghost use Rattle.std.specs.Prelude.{◌≡◌, IfOk, OnErr};
ghost use Rattle.lsm_commit.specs.Causes.{HasCause};
ghost use Rattle.lsm_runs.specs.Causes.{ReplyBlames};
ghost use Rattle.lsm_runs.specs.Compacting.{strategies_of};
ghost use Rattle.lsm_runs.specs.Files.{StaysStored};
ghost use Rattle.lsm_runs.specs.Slots.{job_in, SameJobs, GivesUp};
ghost use Rattle.lsm_log_runs.specs.Doing.{ActsJob};
ghost use Rattle.lsm_log_runs.specs.JobSteps.{TakesJob, TakesInSlot};
ghost use Rattle.lsm_log_model.specs.Records.{LogImage};
ghost use Rattle.lsm_log_runs.specs.LoggedRuns.{called};
ghost use Rattle.lsm_log_runs.specs.Pasts.{LogPast};
ghost use Rattle.lsm_log_runs.specs.Slots.{at_first, beside, StaysBeside, EndsLogged};
ghost use Rattle.lsm_log_runs.specs.Standing.{StandsWithJobs};

use super::{flush_jobs, merge_jobs};
use lsm_logged::Logged;
use lsm_pick::CompactionStrategy;
use lsm_runs::{Job, JobStep, Reply, Slot, Slots, make_room};
use lsm_store::Store;
use std::alloc::AllocError;

/// Does a call on a job.
fn take_job<S: Store>(
    tree: &mut Logged<S>,
    place: &mut Option<Job>,
    strategies: &[Box<dyn CompactionStrategy>],
    step: JobStep,
) -> Reply
    ensures takes { TakesJob (strategies_of (λ b. may_choose b) (λ b. may_refuse b) strategies.now) step result place.old place.new tree.old tree.new }
    ensures acts { S.tells → ActsJob (strategies_of (λ b. may_choose b) (λ b. may_refuse b) strategies.now) step result place.old (S.world tree.old.store) (S.world tree.new.store) tree.old tree.new }
    ensures stored { S.tells → StaysStored (S.world tree.old.store) (S.world tree.new.store) tree.old.core tree.new.core }
    ensures causes { HasCause (ReplyBlames result) (S.world tree.old.store) (S.world tree.new.store) }
{
    match step {
        JobStep::BeginFlush => flush_jobs::begin_flush(tree, place),
        JobStep::RunFlush(watermark) => flush_jobs::run_flush(tree, place, watermark),
        JobStep::FlushToTables => flush_jobs::flush_to_tables(tree, place),
        JobStep::RegisterTables => flush_jobs::register_tables(tree, place),
        JobStep::AbandonFlush => flush_jobs::abandon_flush(tree, place),
        JobStep::BeginCompaction(at, options) => {
            merge_jobs::begin_compaction(tree, place, strategies, at, options)
        }
        JobStep::RunCompaction => merge_jobs::run_compaction(tree, place),
        JobStep::FinishCompaction => merge_jobs::finish_compaction(tree, place),
        JobStep::AbandonCompaction => merge_jobs::abandon_compaction(tree, place),
    }
}

/// Does a call on the job that waits in a slot.
pub(super) fn at_slot<S: Store>(
    tree: &mut Logged<S>,
    slots: &mut Slots,
    strategies: &[Box<dyn CompactionStrategy>],
    slot: Slot,
    step: JobStep,
) -> Result<Reply, AllocError>
    ensures ok { IfOk result (λ reply. TakesInSlot (strategies_of (λ b. may_choose b) (λ b. may_refuse b) strategies.now) slot step reply (beside tree.old slots.old) (beside tree.new slots.new)) }
    ensures err { OnErr result (tree.new ≡ tree.old) }
    ensures slots_err { OnErr result (SameJobs slots.old slots.new) }
    ensures acts { S.tells → IfOk result (λ reply. ActsJob (strategies_of (λ b. may_choose b) (λ b. may_refuse b) strategies.now) step reply (job_in slots.old slot) (S.world tree.old.store) (S.world tree.new.store) tree.old tree.new) }
    ensures stored { S.tells → StaysStored (S.world tree.old.store) (S.world tree.new.store) tree.old.core tree.new.core }
    ensures causes { IfOk result (λ reply. HasCause (ReplyBlames reply) (S.world tree.old.store) (S.world tree.new.store)) }
{
    make_room(slots, slot)?;
    let Some(place) = slots.get_mut(&slot) else {
        unreachable!()
    };
    Ok(take_job(tree, place, strategies, step))
}

// ---- the end of a run

/// Gives up a job, if one waits.
fn give_up<S: Store>(tree: &mut Logged<S>, place: Option<Job>)
    ensures core { GivesUp place tree.old.core tree.new.core }
    ensures rest { StaysBeside tree.old tree.new }
{
    match place {
        Some(Job::Begun(job)) => tree.abandon_flush(job.into_job()),
        Some(Job::Merged(merged)) => tree.abandon_flush(merged.into_job().into_job()),
        Some(Job::Written(written)) => tree.abandon_flush(written.into_job().into_job()),
        Some(Job::Compaction(job)) => tree.abandon_compaction(job.into_job()),
        Some(Job::Compacted(merged)) => tree.abandon_compaction(merged.into_job().into_job()),
        None => {}
    }
}

/// Gives up all jobs that wait. It calls no store: what stood stands beside free slots.
///
/// # Examples
///
/// ```text
/// give_up_all(&mut tree, slots);
/// ```
pub fn give_up_all<S: Store>(tree: &mut Logged<S>, slots: Slots)
    ensures ends { EndsLogged (beside tree.old slots) tree.new }
    ensures stands { (image : LogImage) (past : LogPast) → StandsWithJobs S.world image (called (beside tree.old slots) past) → StandsWithJobs S.world image (called (at_first tree.new) past) }
{
    for (_, place) in slots {
        give_up(tree, place);
    }
}
