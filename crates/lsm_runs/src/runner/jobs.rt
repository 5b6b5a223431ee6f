// Calls on the jobs that wait in slots, and the end of a run.
ghost use Rattle.std.specs.Prelude.{◌≡◌, Option, IsSome, IfOk, OnOk, OnErr};
ghost use Rattle.lsm_flush.specs.Jobs.{SeenOpen};
ghost use Rattle.lsm_compaction.specs.OpenMerges.{SeenMerges};
ghost use Rattle.lsm_runs.specs.Compacting.{strategies_of};
ghost use Rattle.lsm_runs.specs.JobSteps.{TakesJob, TakesInSlot};
ghost use Rattle.lsm_runs.specs.Files.{JobLeavesFiles, JobHasCause};
ghost use Rattle.lsm_runs.specs.Slots.{beside, SameJobs, KeepsOpen, KeepsMerges, GivesUp, GivesUpAll};

use super::{compaction, flush};
use crate::slots::{Job, Slots, make_room};
use crate::{JobStep, Outcome, Slot};
use lsm_pick::CompactionStrategy;
use lsm_state::TreeState;
use lsm_store::Store;
use std::alloc::{AllocError, Global};

/// Does a call on a job.
fn take_job<S: Store>(
    alloc: Global,
    state: &mut TreeState<S>,
    place: &mut Option<Job>,
    strategies: &[Box<dyn CompactionStrategy>],
    step: JobStep,
) -> Result<Outcome, AllocError>
    ensures ok { IfOk result (λ told. TakesJob (strategies_of (λ b. may_choose b) (λ b. may_refuse b) strategies.now) step told.reply told.entries place.old place.new state.old.core state.new.core) }
    ensures err { OnErr result ((state.new ≡ state.old) × (place.new ≡ place.old)) }
    ensures files { S.tells → OnOk result (JobLeavesFiles S.world step state.old.store state.new.store state.old.core state.new.core) }
    ensures causes { IfOk result (λ told. JobHasCause S.world step told.reply state.old.store state.new.store) }
    ensures no_call { IsSome state.old.core.lost → state.new.store ≡ state.old.store }
{
    match step {
        JobStep::BeginFlush => Ok(flush::begin_flush(alloc, state, place)),
        JobStep::RunFlush(watermark) => Ok(flush::run_flush(alloc, state, place, watermark)),
        JobStep::FlushToTables => Ok(flush::flush_to_tables(alloc, state, place)),
        JobStep::RegisterTables => flush::register_tables(alloc, state, place),
        JobStep::AbandonFlush => Ok(flush::abandon_flush(alloc, state, place)),
        JobStep::BeginCompaction(at, options) => {
            compaction::begin_compaction(alloc, state, place, strategies, at, options)
        }
        JobStep::RunCompaction => Ok(compaction::run_compaction(alloc, state, place)),
        JobStep::FinishCompaction => compaction::finish_compaction(alloc, state, place),
        JobStep::AbandonCompaction => Ok(compaction::abandon_compaction(alloc, state, place)),
    }
}

/// Does a call on the job that waits in a slot.
pub(super) fn at_slot<S: Store>(
    alloc: Global,
    state: &mut TreeState<S>,
    slots: &mut Slots,
    strategies: &[Box<dyn CompactionStrategy>],
    slot: Slot,
    step: JobStep,
) -> Result<Outcome, AllocError>
    ensures ok { IfOk result (λ told. TakesInSlot (strategies_of (λ b. may_choose b) (λ b. may_refuse b) strategies.now) slot step told.reply told.entries (beside state.old.core slots.old) (beside state.new.core slots.new)) }
    ensures err { OnErr result (state.new ≡ state.old) }
    ensures slots_err { OnErr result (SameJobs slots.old slots.new) }
    ensures files { S.tells → OnOk result (JobLeavesFiles S.world step state.old.store state.new.store state.old.core state.new.core) }
    ensures causes { IfOk result (λ told. JobHasCause S.world step told.reply state.old.store state.new.store) }
    ensures no_call { IsSome state.old.core.lost → state.new.store ≡ state.old.store }
{
    make_room(slots, slot)?;
    let Some(place) = slots.get_mut(&slot) else {
        unreachable!()
    };
    take_job(alloc, state, place, strategies, step)
}

// ---- the end of a run

/// Gives up a job, if one waits.
fn give_up<S: Store>(state: &mut TreeState<S>, place: Option<Job>)
    ensures core { GivesUp place state.old.core state.new.core }
    ensures store { state.new.store ≡ state.old.store }
{
    match place {
        Some(Job::Begun(job)) => state.abandon_flush(job.into_job()),
        Some(Job::Merged(merged)) => state.abandon_flush(merged.into_job().into_job()),
        Some(Job::Written(written)) => state.abandon_flush(written.into_job().into_job()),
        Some(Job::Compaction(job)) => state.abandon_compaction(job.into_job()),
        Some(Job::Compacted(merged)) => state.abandon_compaction(merged.into_job().into_job()),
        None => {}
    }
}

/// Gives up all jobs that wait.
pub(super) fn give_up_all<S: Store>(state: &mut TreeState<S>, slots: Slots)
    ensures core { GivesUpAll slots.entries state.old.core state.new.core }
    // What was open before a run whose jobs wait here is so again.
    ensures flush { (start : Option SeenOpen) → KeepsOpen start (beside state.old.core slots) → state.new.core.flush ≡ start }
    ensures merges { (start : SeenMerges) → KeepsMerges start (beside state.old.core slots) → state.new.core.merges.underway ≡ start.underway }
    ensures store { state.new.store ≡ state.old.store }
{
    for (_, place) in slots {
        give_up(state, place);
    }
}
