// The calls of a compaction, as steps.
ghost use Rattle.std.specs.Prelude.{◌≡◌, IfOk, OnErr, IsSome};
ghost use Rattle.lsm_versions.specs.Levels.{all_of, HasOwnIds};
ghost use Rattle.lsm_state.specs.Compactions.{levels_of};
ghost use Rattle.lsm_state.specs.WholeCompactions.{options_at};
ghost use Rattle.lsm_journal.specs.Noted.{IsAnswerOf, noted_of};
ghost use Rattle.lsm_runs.specs.Compacting.{strategies_of, TakesBeginCompaction, TakesRunCompaction, TakesFinish, TakesAbandonCompaction, DoesAnswer, CompactsFrom, TakesCompact, TakesMajor, TakesDropRange, TakesTableId};
ghost use Rattle.lsm_commit.specs.Causes.{HasCause, Blames};
ghost use Rattle.lsm_state.specs.Commits.{Upholds};
ghost use Rattle.lsm_runs.specs.Causes.{ReplyBlames};
ghost use Rattle.lsm_runs.specs.Files.{TouchesFiles};

use super::{refused, silent};
use crate::replies::{of_begun, of_done, of_finished};
use crate::slots::Job;
use crate::{Compacted, Outcome, Reply};
use lsm_below::{SeqNo, UserKey};
use lsm_journal::{
    Chosen, ask, ask_with, begin_chosen, compact_chosen, copy_bound, drops_nothing, finish_entries,
    finish_noting,
};
use lsm_pick::{CompactionStrategy, DropRange, Major, OwnedBounds};
use lsm_state::{Options, TreeState};
use lsm_store::Store;
use std::alloc::{AllocError, Global};
use std::ops::Bound;

// ---- strategies

/// Asks a strategy in a box.
fn ask_boxed<S: Store>(
    alloc: Global,
    state: &TreeState<S>,
    strategy: &Box<dyn CompactionStrategy>,
    watermark: SeqNo,
) -> Result<Chosen, AllocError>
    ensures answer { IfOk result (λ c. IsAnswerOf (may_choose strategy.now) (may_refuse strategy.now) state.now.core c.answer) }
    ensures blameless { IfOk result (λ c. Blames c.answer → ⊥) }
    ensures noted { IfOk result (λ c. c.entries.items ≡ noted_of c.answer watermark state.now.core) }
{
    ask(alloc, state, &**strategy, watermark)
}

// ---- calls on a job

pub(super) fn begin_compaction<S: Store>(
    alloc: Global,
    state: &mut TreeState<S>,
    place: &mut Option<Job>,
    strategies: &[Box<dyn CompactionStrategy>],
    at: usize,
    options: Options,
) -> Result<Outcome, AllocError>
    ensures ok { IfOk result (λ told. TakesBeginCompaction (strategies_of (λ b. may_choose b) (λ b. may_refuse b) strategies.now) at options told.reply told.entries place.old place.new state.old.core state.new.core) }
    ensures err { OnErr result ((state.new ≡ state.old) × (place.new ≡ place.old)) }
    ensures files { TouchesFiles result S.tells S.world state.old state.new }
{
    state.is_upheld();
    if place.is_some() {
        return Ok(silent(alloc, Reply::SlotInUse));
    }
    let Some(strategy) = strategies.get(at) else {
        return Ok(silent(alloc, Reply::NoStrategy));
    };
    let chosen = ask_boxed(alloc, state, strategy, options.mvcc_gc_watermark)?;
    let (begun, entries) = begin_chosen(state, chosen, options);
    let (reply, job) = of_begun(begun);
    *place = job;
    Ok(Outcome { reply, entries })
}

pub(super) fn run_compaction<S: Store>(
    alloc: Global,
    state: &TreeState<S>,
    place: &mut Option<Job>,
) -> Outcome
    ensures { TakesRunCompaction result.reply result.entries place.old place.new state.now.core state.now.core }
{
    let job = match place.take() {
        Some(Job::Compaction(job)) => job.into_job(),
        other => {
            *place = other;
            return silent(alloc, Reply::NoJob);
        }
    };
    match job.run() {
        Ok(merged) => {
            *place = Some(Job::Compacted(merged.keep()));
            silent(alloc, Reply::Done)
        }
        Err((error, job)) => {
            *place = Some(Job::Compaction(job.keep()));
            refused(alloc, error)
        }
    }
}

pub(super) fn finish_compaction<S: Store>(
    alloc: Global,
    state: &mut TreeState<S>,
    place: &mut Option<Job>,
) -> Result<Outcome, AllocError>
    ensures ok { IfOk result (λ told. TakesFinish told.reply told.entries place.old place.new state.old.core state.new.core) }
    ensures err { OnErr result ((state.new ≡ state.old) × (place.new ≡ place.old)) }
    ensures files { TouchesFiles result S.tells S.world state.old state.new }
{
    state.is_upheld();
    let entries = finish_entries(alloc, state.seqno().get())?;
    let merged = match place.take() {
        Some(Job::Compacted(merged)) => merged.into_job(),
        other => {
            *place = other;
            return Ok(silent(alloc, Reply::NoJob));
        }
    };
    let (finished, entries) = finish_noting(state, merged, entries);
    let reply = of_finished(finished);
    Ok(Outcome { reply, entries })
}

pub(super) fn abandon_compaction<S: Store>(
    alloc: Global,
    state: &mut TreeState<S>,
    place: &mut Option<Job>,
) -> Outcome
    ensures takes { TakesAbandonCompaction result.reply result.entries place.old place.new state.old.core state.new.core }
    ensures store { state.new.store ≡ state.old.store }
{
    let job = match place.take() {
        Some(Job::Compaction(job)) => job.into_job(),
        Some(Job::Compacted(merged)) => merged.into_job().into_job(),
        other => {
            *place = other;
            return silent(alloc, Reply::NoJob);
        }
    };
    state.abandon_compaction(job);
    silent(alloc, Reply::Done)
}

// ---- compactions in one call

/// Does what was chosen in one call.
fn compact_noting<S: Store>(state: &mut TreeState<S>, chosen: Chosen, options: Options) -> Outcome
    requires { chosen.entries.items ≡ noted_of chosen.answer options.mvcc_gc_watermark state.old.core }
    ensures does { DoesAnswer chosen.answer options result.reply result.entries state.old.core state.new.core }
    ensures upholds { S.tells → Upholds (S.world state.old.store) (S.world state.new.store) state.old.core state.new.core }
    ensures causes { (Blames chosen.answer → ⊥) → HasCause (ReplyBlames result.reply) (S.world state.old.store) (S.world state.new.store) }
    ensures no_call { IsSome state.old.core.lost → state.new.store ≡ state.old.store }
{
    let (done, entries) = compact_chosen(state, chosen, options);
    let reply = of_done(done);
    Outcome { reply, entries }
}

pub(super) fn do_compaction<S: Store>(
    alloc: Global,
    state: &mut TreeState<S>,
    strategies: &[Box<dyn CompactionStrategy>],
    at: usize,
    options: Options,
) -> Result<Outcome, AllocError>
    ensures ok { IfOk result (λ told. TakesCompact (strategies_of (λ b. may_choose b) (λ b. may_refuse b) strategies.now) at options told.reply told.entries state.old.core state.new.core) }
    ensures err { OnErr result (state.new ≡ state.old) }
    ensures files { TouchesFiles result S.tells S.world state.old state.new }
{
    state.is_upheld();
    let Some(strategy) = strategies.get(at) else {
        return Ok(silent(alloc, Reply::NoStrategy));
    };
    let chosen = ask_boxed(alloc, state, strategy, options.mvcc_gc_watermark)?;
    Ok(compact_noting(state, chosen, options))
}

pub(super) fn compact<S: Store>(
    alloc: Global,
    state: &mut TreeState<S>,
    strategies: &[Box<dyn CompactionStrategy>],
    at: usize,
    watermark: SeqNo,
) -> Result<Outcome, AllocError>
    ensures ok { IfOk result (λ told. TakesCompact (strategies_of (λ b. may_choose b) (λ b. may_refuse b) strategies.now) at (options_at watermark state.old.core) told.reply told.entries state.old.core state.new.core) }
    ensures err { OnErr result (state.new ≡ state.old) }
    ensures files { TouchesFiles result S.tells S.world state.old state.new }
{
    let options = state.options_at(watermark);
    do_compaction(alloc, state, strategies, at, options)
}

/// Does what a strategy of a known type answers, in one call.
fn compact_with<S: Store, C: CompactionStrategy>(
    alloc: Global,
    state: &mut TreeState<S>,
    strategy: &C,
    watermark: SeqNo,
) -> Result<Outcome, AllocError>
    ensures ok { IfOk result (λ told. CompactsFrom (C.may_choose strategy.now) (C.may_refuse strategy.now) (options_at watermark state.old.core) told.reply told.entries state.old.core state.new.core) }
    ensures err { OnErr result (state.new ≡ state.old) }
    ensures files { TouchesFiles result S.tells S.world state.old state.new }
{
    state.is_upheld();
    let options = state.options_at(watermark);
    let chosen = ask_with(alloc, state, strategy, watermark)?;
    Ok(compact_noting(state, chosen, options))
}

pub(super) fn major_compact<S: Store>(
    alloc: Global,
    state: &mut TreeState<S>,
    target: u64,
    watermark: SeqNo,
) -> Result<Outcome, AllocError>
    ensures ok { IfOk result (λ told. TakesMajor target watermark told.reply told.entries state.old.core state.new.core) }
    ensures err { OnErr result (state.new ≡ state.old) }
    ensures files { TouchesFiles result S.tells S.world state.old state.new }
{
    compact_with(alloc, state, &Major::new(target), watermark)
}

/// In the latest version of a tree no id stands twice.
fn tables_have_own_ids<S: Store>(state: &TreeState<S>)
    ensures { HasOwnIds (all_of (levels_of state.now.core)) }
{
    state.facts();
}

pub(super) fn drop_range<S: Store>(
    alloc: Global,
    state: &mut TreeState<S>,
    low: &Bound<UserKey>,
    high: &Bound<UserKey>,
) -> Result<Outcome, AllocError>
    ensures ok { IfOk result (λ told. TakesDropRange (record { start = low.now; end = high.now }) told.reply told.entries state.old.core state.new.core) }
    ensures err { OnErr result (state.new ≡ state.old) }
    ensures files { TouchesFiles result S.tells S.world state.old state.new }
{
    state.is_upheld();
    let bounds = OwnedBounds {
        start: copy_bound(low)?,
        end: copy_bound(high)?,
    };
    tables_have_own_ids(state);
    if drops_nothing(state, &bounds) {
        return Ok(silent(alloc, Reply::Compacted(Compacted::DidNothing)));
    }
    compact_with(alloc, state, &DropRange::new(bounds), 0)
}

// ---- tables

pub(super) fn get_next_table_id<S: Store>(alloc: Global, state: &mut TreeState<S>) -> Outcome
    ensures takes { TakesTableId result.reply result.entries state.old.core state.new.core }
    ensures store { state.new.store ≡ state.old.store }
{
    match state.get_next_table_id() {
        Ok(id) => silent(alloc, Reply::Number(id)),
        Err(error) => refused(alloc, error),
    }
}
