// The calls of a flush whose job waits in a slot.
ghost use Rattle.std.specs.Prelude.{[]};
ghost use Rattle.lsm_commit.specs.Causes.{HasCause};
ghost use Rattle.lsm_runs.specs.Causes.{ReplyBlames};
ghost use Rattle.lsm_runs.specs.Files.{StaysStored};
ghost use Rattle.lsm_runs.specs.Flushing.{TakesRun};
ghost use Rattle.lsm_log_runs.specs.Doing.{ActsNothing, ActsRegister};
ghost use Rattle.lsm_log_runs.specs.JobSteps.{TakesBegin, TakesTables, TakesRegister, TakesAbandon};

use lsm_below::SeqNo;
use lsm_logged::Logged;
use lsm_runs::{Job, Reply};
use lsm_store::Store;

pub(super) fn begin_flush<S: Store>(tree: &mut Logged<S>, place: &mut Option<Job>) -> Reply
    ensures takes { TakesBegin result place.old place.new tree.old tree.new }
    ensures acts { S.tells → ActsNothing (S.world tree.old.store) (S.world tree.new.store) tree.old tree.new }
    ensures stored { S.tells → StaysStored (S.world tree.old.store) (S.world tree.new.store) tree.old.core tree.new.core }
{
    if place.is_some() {
        return Reply::SlotInUse;
    }
    match tree.begin_flush() {
        Ok(Some(job)) => {
            *place = Some(Job::Begun(job.keep()));
            Reply::Begun(true)
        }
        Ok(None) => Reply::Begun(false),
        Err(error) => Reply::Refused(error),
    }
}

pub(super) fn run_flush<S: Store>(
    tree: &Logged<S>,
    place: &mut Option<Job>,
    watermark: SeqNo,
) -> Reply
    ensures { TakesRun watermark result [] place.old place.new tree.now.core tree.now.core }
{
    let job = match place.take() {
        Some(Job::Begun(job)) => job.into_job(),
        other => {
            *place = other;
            return Reply::NoJob;
        }
    };
    match job.run(watermark) {
        Ok(merged) => {
            *place = Some(Job::Merged(merged.keep()));
            Reply::Done
        }
        Err((error, job)) => {
            *place = Some(Job::Begun(job.keep()));
            Reply::Refused(error)
        }
    }
}

pub(super) fn flush_to_tables<S: Store>(tree: &mut Logged<S>, place: &mut Option<Job>) -> Reply
    ensures takes { TakesTables result place.old place.new tree.old tree.new }
    ensures acts { S.tells → ActsNothing (S.world tree.old.store) (S.world tree.new.store) tree.old tree.new }
    ensures stored { S.tells → StaysStored (S.world tree.old.store) (S.world tree.new.store) tree.old.core tree.new.core }
    ensures causes { HasCause (ReplyBlames result) (S.world tree.old.store) (S.world tree.new.store) }
{
    let job = match place.take() {
        Some(Job::Merged(job)) => job.into_job(),
        other => {
            *place = other;
            return Reply::NoJob;
        }
    };
    match tree.flush_to_tables(job) {
        Ok(written) => {
            *place = Some(Job::Written(written.keep()));
            Reply::Done
        }
        Err((error, job)) => {
            *place = Some(Job::Merged(job.keep()));
            Reply::Refused(error)
        }
    }
}

pub(super) fn register_tables<S: Store>(tree: &mut Logged<S>, place: &mut Option<Job>) -> Reply
    ensures takes { TakesRegister result place.old place.new tree.old tree.new }
    ensures acts { S.tells → ActsRegister result place.old (S.world tree.old.store) (S.world tree.new.store) tree.old tree.new }
    ensures stored { S.tells → StaysStored (S.world tree.old.store) (S.world tree.new.store) tree.old.core tree.new.core }
    ensures causes { HasCause (ReplyBlames result) (S.world tree.old.store) (S.world tree.new.store) }
{
    let job = match place.take() {
        Some(Job::Written(job)) => job.into_job(),
        other => {
            *place = other;
            return Reply::NoJob;
        }
    };
    match tree.register_tables(job) {
        Ok(registered) => Reply::Registered(registered),
        Err(error) => Reply::Refused(error),
    }
}

pub(super) fn abandon_flush<S: Store>(tree: &mut Logged<S>, place: &mut Option<Job>) -> Reply
    ensures takes { TakesAbandon result place.old place.new tree.old tree.new }
    ensures acts { S.tells → ActsNothing (S.world tree.old.store) (S.world tree.new.store) tree.old tree.new }
    ensures stored { S.tells → StaysStored (S.world tree.old.store) (S.world tree.new.store) tree.old.core tree.new.core }
{
    let job = match place.take() {
        Some(Job::Begun(job)) => job.into_job(),
        Some(Job::Merged(merged)) => merged.into_job().into_job(),
        Some(Job::Written(written)) => written.into_job().into_job(),
        other => {
            *place = other;
            return Reply::NoJob;
        }
    };
    tree.abandon_flush(job);
    Reply::Done
}
