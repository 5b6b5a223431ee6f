// The calls of a flush, as steps.
ghost use Rattle.std.specs.Prelude.{◌≡◌, IfOk, OnErr, IsSome};
ghost use Rattle.lsm_runs.specs.Flushing.{TakesBegin, TakesRun, TakesTables, TakesRegister, TakesAbandon, TakesFlush, TakesFlushActive, TakesMoment, told_registered, told_flush, told_active};
ghost use Rattle.lsm_commit.specs.Causes.{HasCause};
ghost use Rattle.lsm_state.specs.Commits.{Upholds};
ghost use Rattle.lsm_runs.specs.Causes.{ReplyBlames};
ghost use Rattle.lsm_runs.specs.Files.{TouchesFiles};

use super::{refused, silent};
use crate::slots::Job;
use crate::{Outcome, Reply};
use lsm_below::{MemtableId, SeqNo};
use lsm_flush::Registered;
use lsm_journal::{flush_active_noting, flush_entries, flush_noting, register_noting};
use lsm_model::JournalEntry;
use lsm_parts::Error;
use lsm_state::TreeState;
use lsm_store::Store;
use std::alloc::{AllocError, Global};

// ---- calls on a job

pub(super) fn begin_flush<S: Store>(
    alloc: Global,
    state: &mut TreeState<S>,
    place: &mut Option<Job>,
) -> Outcome
    ensures takes { TakesBegin result.reply result.entries place.old place.new state.old.core state.new.core }
    ensures store { state.new.store ≡ state.old.store }
{
    if place.is_some() {
        return silent(alloc, Reply::SlotInUse);
    }
    match state.begin_flush() {
        Ok(Some(job)) => {
            *place = Some(Job::Begun(job.keep()));
            silent(alloc, Reply::Begun(true))
        }
        Ok(None) => silent(alloc, Reply::Begun(false)),
        Err(error) => refused(alloc, error),
    }
}

pub(super) fn run_flush<S: Store>(
    alloc: Global,
    state: &TreeState<S>,
    place: &mut Option<Job>,
    watermark: SeqNo,
) -> Outcome
    ensures { TakesRun watermark result.reply result.entries place.old place.new state.now.core state.now.core }
{
    let job = match place.take() {
        Some(Job::Begun(job)) => job.into_job(),
        other => {
            *place = other;
            return silent(alloc, Reply::NoJob);
        }
    };
    match job.run(watermark) {
        Ok(merged) => {
            *place = Some(Job::Merged(merged.keep()));
            silent(alloc, Reply::Done)
        }
        Err((error, job)) => {
            *place = Some(Job::Begun(job.keep()));
            refused(alloc, error)
        }
    }
}

pub(super) fn flush_to_tables<S: Store>(
    alloc: Global,
    state: &mut TreeState<S>,
    place: &mut Option<Job>,
) -> Outcome
    ensures takes { TakesTables result.reply result.entries place.old place.new state.old.core state.new.core }
    ensures upholds { S.tells → Upholds (S.world state.old.store) (S.world state.new.store) state.old.core state.new.core }
    ensures causes { HasCause (ReplyBlames result.reply) (S.world state.old.store) (S.world state.new.store) }
    ensures no_call { IsSome state.old.core.lost → state.new.store ≡ state.old.store }
{
    state.is_upheld();
    let job = match place.take() {
        Some(Job::Merged(job)) => job.into_job(),
        other => {
            *place = other;
            return silent(alloc, Reply::NoJob);
        }
    };
    match state.flush_to_tables(job) {
        Ok(written) => {
            *place = Some(Job::Written(written.keep()));
            silent(alloc, Reply::Done)
        }
        Err((error, job)) => {
            *place = Some(Job::Merged(job.keep()));
            refused(alloc, error)
        }
    }
}

/// The outcome of a job that was registered.
fn of_registered(entries: Vec<JournalEntry>, registered: Result<Registered, Error>) -> Outcome
    ensures { result ≡ told_registered entries.items registered }
{
    let reply = match registered {
        Ok(answer) => Reply::Registered(answer),
        Err(error) => Reply::Refused(error),
    };
    Outcome { reply, entries }
}

pub(super) fn register_tables<S: Store>(
    alloc: Global,
    state: &mut TreeState<S>,
    place: &mut Option<Job>,
) -> Result<Outcome, AllocError>
    ensures ok { IfOk result (λ told. TakesRegister told.reply told.entries place.old place.new state.old.core state.new.core) }
    ensures err { OnErr result ((state.new ≡ state.old) × (place.new ≡ place.old)) }
    ensures files { TouchesFiles result S.tells S.world state.old state.new }
{
    state.is_upheld();
    let job = match place.take() {
        Some(Job::Written(job)) => job.into_job(),
        other => {
            *place = other;
            return Ok(silent(alloc, Reply::NoJob));
        }
    };
    match flush_entries(alloc, job.watermark(), state.seqno().get()) {
        Ok(entries) => {
            let (registered, entries) = register_noting(state, job, entries);
            Ok(of_registered(entries, registered))
        }
        Err(error) => {
            *place = Some(Job::Written(job.keep()));
            Err(error)
        }
    }
}

pub(super) fn abandon_flush<S: Store>(
    alloc: Global,
    state: &mut TreeState<S>,
    place: &mut Option<Job>,
) -> Outcome
    ensures takes { TakesAbandon result.reply result.entries place.old place.new state.old.core state.new.core }
    ensures store { state.new.store ≡ state.old.store }
{
    let job = match place.take() {
        Some(Job::Begun(job)) => job.into_job(),
        Some(Job::Merged(merged)) => merged.into_job().into_job(),
        Some(Job::Written(written)) => written.into_job().into_job(),
        other => {
            *place = other;
            return silent(alloc, Reply::NoJob);
        }
    };
    state.abandon_flush(job);
    silent(alloc, Reply::Done)
}

// ---- flushes in one call

/// The outcome of a flush.
fn of_flush(
    entries: Vec<JournalEntry>,
    flushed: Result<Option<(u64, Registered)>, Error>,
) -> Outcome
    ensures { result ≡ told_flush entries.items flushed }
{
    let reply = match flushed {
        Ok(answer) => Reply::Flushed(answer),
        Err(error) => Reply::Refused(error),
    };
    Outcome { reply, entries }
}

pub(super) fn flush<S: Store>(
    alloc: Global,
    state: &mut TreeState<S>,
    watermark: SeqNo,
) -> Result<Outcome, AllocError>
    ensures ok { IfOk result (λ told. TakesFlush watermark told.reply told.entries state.old.core state.new.core) }
    ensures err { OnErr result (state.new ≡ state.old) }
    ensures files { TouchesFiles result S.tells S.world state.old state.new }
{
    state.is_upheld();
    let entries = flush_entries(alloc, watermark, state.seqno().get())?;
    let (flushed, entries) = flush_noting(state, watermark, entries);
    Ok(of_flush(entries, flushed))
}

/// The outcome of a flush of the active memtable.
fn of_active(
    entries: Vec<JournalEntry>,
    flushed: Result<(Option<MemtableId>, Option<(u64, Registered)>), (Error, Option<MemtableId>)>,
) -> Outcome
    ensures { result ≡ told_active entries.items flushed }
{
    let reply = match flushed {
        Ok((sealed, answer)) => Reply::FlushedActive(sealed, answer),
        Err((error, sealed)) => Reply::RefusedActive(sealed, error),
    };
    Outcome { reply, entries }
}

pub(super) fn flush_active<S: Store>(
    alloc: Global,
    state: &mut TreeState<S>,
    watermark: SeqNo,
) -> Result<Outcome, AllocError>
    ensures ok { IfOk result (λ told. TakesFlushActive watermark told.reply told.entries state.old.core state.new.core) }
    ensures err { OnErr result (state.new ≡ state.old) }
    ensures files { TouchesFiles result S.tells S.world state.old state.new }
{
    state.is_upheld();
    let entries = flush_entries(alloc, watermark, state.seqno().get())?;
    let (flushed, entries) = flush_active_noting(state, watermark, entries);
    Ok(of_active(entries, flushed))
}

pub(super) fn set_moment<S: Store>(alloc: Global, state: &mut TreeState<S>, moment: u64) -> Outcome
    ensures takes { TakesMoment moment result.reply result.entries state.old.core state.new.core }
    ensures store { state.new.store ≡ state.old.store }
{
    state.set_moment(moment);
    silent(alloc, Reply::Done)
}
