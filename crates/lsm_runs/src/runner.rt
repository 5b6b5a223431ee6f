// A list of calls on a tree, with the replay theorem.
ghost use Rattle.std.specs.Prelude.{◌≡◌, ◌≤◌, ◌++◌, ◌∷◌, [], List, take, length, IsSome, IfOk, OnOk, OnErr};
ghost use Rattle.lsm_below.specs.Entries.{Entry, plain};
ghost use Rattle.lsm_model.specs.Journal.{Map};
ghost use Rattle.lsm_model.specs.Ops.{op_entry};
ghost use Rattle.lsm_model.specs.declared.op.Op.TheVariants.{Set as SetTo, Del, Weak};
ghost use Rattle.lsm_runs.specs.Told.{Told};
ghost use Rattle.lsm_runs.specs.Counting.{RunIsInOrder};
ghost use Rattle.lsm_state.specs.Commits.{Upholds};
ghost use Rattle.lsm_commit.specs.Causes.{HasCause};
ghost use Rattle.lsm_commit.specs.Foreign.{Passes};
ghost use Rattle.lsm_runs.specs.Causes.{ReplyBlames, EachHasCause};
ghost use Rattle.lsm_runs.specs.Files.{StaysStored, LeavesFiles, StepHasCause};
ghost use Rattle.lsm_runs.specs.Chains.{point, RanTo};
ghost use Rattle.lsm_runs.specs.Compacting.{strategies_of};
ghost use Rattle.lsm_runs.specs.Dropping.{may_drop};
ghost use Rattle.lsm_runs.specs.OpenFlushes.{none_begun};
ghost use Rattle.lsm_runs.specs.Unknown.{RanUnknown, RunStops};
ghost use Rattle.lsm_runs.specs.Slots.{at_first, beside, SameJobs};
ghost use Rattle.lsm_runs.specs.Moments.{RunHasMoments};
ghost use Rattle.lsm_runs.specs.Runs.{Takes, TakesEntry, TakesBatch, TakesRotate, Ran, RanToEnd, RunEqualsReplay};
ghost use Rattle.lsm_runs.specs.Adds.{EachAdds};
ghost use Rattle.lsm_runs.specs.Drawing.{RunUses, RunRises};
ghost use Rattle.lsm_runs.specs.After.{RunIsRight};

use crate::finding::TreeFiles;
use crate::slots::Slots;
use crate::writes::{of_batch, of_entry, refused, silent};
use crate::{Outcome, Reply, Step, Taken, reads};
use lsm_below::{InternalValue, SeqNo, UserKey, UserValue, ValueType, share};
use lsm_commit::stored_files_are_ready;
use lsm_journal::{
    append_noting, batch_entries, noted_compactions_keep_reads, share_ops, write_entry,
    write_noting,
};
use lsm_manifest::{found_tables_show, images_stand_once};
use lsm_model::{Op, counted_is_in_order, reads_are_sound};
use lsm_parts::Error;
use lsm_pick::CompactionStrategy;
use lsm_run_model::{
    no_low_reads, notes_tell_sealed, numbers_are_bounded, rising_is_in_order, runs_compose,
};
use lsm_state::{
    TreeState, clears_keep_reads, flushes_are_deeds, flushes_keep_reads, lists_are_steps,
};
use lsm_store::Store;
use std::alloc::{AllocError, Global};

// ---- writes of one entry

/// Writes an entry, which is noted if it was accepted.
fn append<S: Store>(
    alloc: Global,
    state: &mut TreeState<S>,
    entry: InternalValue,
) -> Result<Outcome, AllocError>
    ensures ok { IfOk result (λ told. TakesEntry (plain entry) told.reply told.entries state.old.core state.new.core) }
    ensures err { OnErr result (state.new ≡ state.old) }
    ensures store { state.new.store ≡ state.old.store }
{
    let note = write_entry(&entry)?;
    let mut entries = Vec::with_capacity(alloc, 1)?;
    let written = append_noting(state, entry, note, &mut entries);
    Ok(of_entry(entries, written))
}

fn insert<S: Store>(
    alloc: Global,
    state: &mut TreeState<S>,
    key: &UserKey,
    value: &UserValue,
    seqno: SeqNo,
) -> Result<Outcome, AllocError>
    ensures ok { IfOk result (λ told. TakesEntry (op_entry key.now seqno (SetTo value.now)) told.reply told.entries state.old.core state.new.core) }
    ensures err { OnErr result (state.new ≡ state.old) }
    ensures store { state.new.store ≡ state.old.store }
{
    let entry = InternalValue::from_components(share(key)?, share(value)?, seqno, ValueType::Value);
    append(alloc, state, entry)
}

fn remove<S: Store>(
    alloc: Global,
    state: &mut TreeState<S>,
    key: &UserKey,
    seqno: SeqNo,
) -> Result<Outcome, AllocError>
    ensures ok { IfOk result (λ told. TakesEntry (op_entry key.now seqno Del) told.reply told.entries state.old.core state.new.core) }
    ensures err { OnErr result (state.new ≡ state.old) }
    ensures store { state.new.store ≡ state.old.store }
{
    let entry = InternalValue::new_tombstone(share(key)?, seqno);
    append(alloc, state, entry)
}

fn remove_weak<S: Store>(
    alloc: Global,
    state: &mut TreeState<S>,
    key: &UserKey,
    seqno: SeqNo,
) -> Result<Outcome, AllocError>
    ensures ok { IfOk result (λ told. TakesEntry (op_entry key.now seqno Weak) told.reply told.entries state.old.core state.new.core) }
    ensures err { OnErr result (state.new ≡ state.old) }
    ensures store { state.new.store ≡ state.old.store }
{
    let entry = InternalValue::new_weak_tombstone(share(key)?, seqno);
    append(alloc, state, entry)
}

fn append_entry<S: Store>(
    alloc: Global,
    state: &mut TreeState<S>,
    entry: &InternalValue,
) -> Result<Outcome, AllocError>
    ensures ok { IfOk result (λ told. TakesEntry (plain entry.now) told.reply told.entries state.old.core state.new.core) }
    ensures err { OnErr result (state.new ≡ state.old) }
    ensures store { state.new.store ≡ state.old.store }
{
    let entry = entry.copy()?;
    append(alloc, state, entry)
}

// ---- batches

fn write<S: Store>(
    alloc: Global,
    state: &mut TreeState<S>,
    ops: &[(UserKey, Op)],
) -> Result<Outcome, AllocError>
    ensures ok { IfOk result (λ told. TakesBatch ops.now told.reply told.entries state.old.core state.new.core) }
    ensures err { OnErr result (state.new ≡ state.old) }
    ensures store { state.new.store ≡ state.old.store }
{
    let entries = batch_entries(alloc, state.seqno().get(), ops)?;
    let ops = share_ops(alloc, ops)?;
    let (written, entries) = write_noting(state, ops, entries);
    Ok(of_batch(entries, written))
}

// ---- rotation

fn rotate_memtable<S: Store>(alloc: Global, state: &mut TreeState<S>) -> Outcome
    ensures takes { TakesRotate result.reply result.entries state.old.core state.new.core }
    ensures store { state.new.store ≡ state.old.store }
{
    match state.rotate_memtable() {
        Ok(sealed) => silent(alloc, Reply::Sealed(sealed)),
        Err(error) => refused(alloc, error),
    }
}

// ---- runs

/// Takes a step. Where there is no room for its outcome it is an error, and the tree is as it was.
fn take_step<S: Store>(
    alloc: Global,
    state: &mut TreeState<S>,
    slots: &mut Slots,
    strategies: &[Box<dyn CompactionStrategy>],
    step: &Step,
) -> Result<Outcome, AllocError>
    ensures ok { IfOk result (λ told. Takes (strategies_of (λ b. may_choose b) (λ b. may_refuse b) strategies.now) step.now told.reply told.entries (beside state.old.core slots.old) (beside state.new.core slots.new)) }
    ensures err { OnErr result (state.new ≡ state.old) }
    ensures slots_err { OnErr result (SameJobs slots.old slots.new) }
    ensures files { S.tells → OnOk result (LeavesFiles S.world step.now state.old.store state.new.store state.old.core state.new.core) }
    ensures causes { IfOk result (λ told. StepHasCause S.world step.now told.reply state.old.store state.new.store) }
    ensures no_call { IsSome state.old.core.lost → state.new.store ≡ state.old.store }
{
    match step {
        Step::Insert(key, value, seqno) => insert(alloc, state, key, value, *seqno),
        Step::Remove(key, seqno) => remove(alloc, state, key, *seqno),
        Step::RemoveWeak(key, seqno) => remove_weak(alloc, state, key, *seqno),
        Step::AppendEntry(entry) => append_entry(alloc, state, entry),
        Step::Write(ops) => write(alloc, state, ops.as_slice()),
        Step::Get(key, snapshot) => reads::get(alloc, state, key, *snapshot),
        Step::GetInternalEntry(key, snapshot) => {
            Ok(reads::get_internal_entry(alloc, state, key, *snapshot))
        }
        Step::ContainsKey(key, snapshot) => Ok(reads::contains_key(alloc, state, key, *snapshot)),
        Step::SizeOf(key, snapshot) => Ok(reads::size_of(alloc, state, key, *snapshot)),
        Step::Range(low, high, snapshot) => reads::range(alloc, state, low, high, *snapshot),
        Step::Iter(snapshot) => reads::iter(alloc, state, *snapshot),
        Step::Prefix(prefix, snapshot) => reads::prefix(alloc, state, prefix, *snapshot),
        Step::Len(snapshot) => Ok(reads::len(alloc, state, *snapshot)),
        Step::IsEmpty(snapshot) => Ok(reads::is_empty(alloc, state, *snapshot)),
        Step::FirstKeyValue(snapshot) => Ok(reads::first_key_value(alloc, state, *snapshot)),
        Step::LastKeyValue(snapshot) => Ok(reads::last_key_value(alloc, state, *snapshot)),
        Step::RotateMemtable => Ok(rotate_memtable(alloc, state)),
        Step::Next(counter) => Ok(counters::next(alloc, state, *counter)),
        Step::Set(counter, seqno) => Ok(counters::set(alloc, state, *counter, *seqno)),
        Step::FetchMax(counter, seqno) => Ok(counters::fetch_max(alloc, state, *counter, *seqno)),
        Step::AtSlot(slot, call) => jobs::at_slot(alloc, state, slots, strategies, *slot, *call),
        Step::Flush(watermark) => flush::flush(alloc, state, *watermark),
        Step::FlushActiveMemtable(watermark) => flush::flush_active(alloc, state, *watermark),
        Step::Compact(at, watermark) => {
            compaction::compact(alloc, state, strategies, *at, *watermark)
        }
        Step::DoCompaction(at, options) => {
            compaction::do_compaction(alloc, state, strategies, *at, *options)
        }
        Step::MajorCompact(target, watermark) => {
            compaction::major_compact(alloc, state, *target, *watermark)
        }
        Step::DropRange(low, high) => compaction::drop_range(alloc, state, low, high),
        Step::Clear => clear::clear(alloc, state),
        Step::ClearActiveMemtable => Ok(clear::clear_active_memtable(alloc, state)),
        Step::GetNextTableId => Ok(compaction::get_next_table_id(alloc, state)),
        Step::SetMoment(moment) => Ok(flush::set_moment(alloc, state, *moment)),
        Step::Count(what) => Ok(reads::count(alloc, state, *what)),
        Step::IsUncertain => Ok(reads::is_uncertain(alloc, state)),
        Step::IsCompacting => Ok(reads::is_compacting(alloc, state)),
        Step::TreeType => Ok(reads::tree_type(alloc, state)),
    }
}

/// Takes a step, and appends its outcome to the others.
fn add_step<S: Store>(
    alloc: Global,
    state: &mut TreeState<S>,
    slots: &mut Slots,
    strategies: &[Box<dyn CompactionStrategy>],
    step: &Step,
    outcomes: &mut Vec<Outcome>,
) -> Result<(), AllocError>
    ensures ok { OnOk result ((told : Told) × (outcomes.new.items ≡ outcomes.old.items ++ told ∷ []) × Takes (strategies_of (λ b. may_choose b) (λ b. may_refuse b) strategies.now) step.now told.reply told.entries (beside state.old.core slots.old) (beside state.new.core slots.new) × HasCause (ReplyBlames told.reply) (S.world state.old.store) (S.world state.new.store)) }
    ensures err { OnErr result (state.new ≡ state.old) }
    ensures slots_err { OnErr result (SameJobs slots.old slots.new) }
    ensures outcomes_err { OnErr result (outcomes.new.items ≡ outcomes.old.items) }
    ensures files { S.tells → OnOk result (LeavesFiles S.world step.now state.old.store state.new.store state.old.core state.new.core) }
    ensures upholds { S.tells → Upholds (S.world state.old.store) (S.world state.new.store) state.old.core state.new.core }
    ensures no_call { IsSome state.old.core.lost → state.new.store ≡ state.old.store }
{
    state.is_upheld();
    outcomes.try_reserve(1)?;
    let outcome = take_step(alloc, state, slots, strategies, step)?;
    outcomes.push(outcome)?;
    Ok(())
}

fn take_steps<S: Store>(
    alloc: Global,
    state: &mut TreeState<S>,
    slots: &mut Slots,
    strategies: &[Box<dyn CompactionStrategy>],
    steps: &[Step],
) -> Taken
    ensures bound { length result.outcomes.items ≤ length steps.now }
    ensures whole { OnOk result.ended (length result.outcomes.items ≡ length steps.now) }
    ensures ran { Ran (strategies_of (λ b. may_choose b) (λ b. may_refuse b) strategies.now) (take (length result.outcomes.items) steps.now) result.outcomes.items (beside state.old.core slots.old) (beside state.new.core slots.new) }
    ensures stored { S.tells → StaysStored (S.world state.old.store) (S.world state.new.store) state.old.core state.new.core }
    ensures passes { S.tells → Passes (S.world state.old.store) (S.world state.new.store) }
    ensures along { S.tells → RanTo S.world (strategies_of (λ b. may_choose b) (λ b. may_refuse b) strategies.now) (take (length result.outcomes.items) steps.now) result.outcomes.items (point state.old slots.old) (point state.new slots.new) }
    ensures unknown { RanUnknown (strategies_of (λ b. may_choose b) (λ b. may_refuse b) strategies.now) (take (length result.outcomes.items) steps.now) result.outcomes.items (beside state.old.core slots.old) (beside state.new.core slots.new) state.old.store state.new.store }
    ensures causes { EachHasCause S.world result.outcomes.items state.old.store state.new.store }
{
    state.is_upheld();
    let mut outcomes = Vec::new(alloc);
    for step in steps {
        match add_step(alloc, state, slots, strategies, step, &mut outcomes) {
            Ok(()) => state.is_upheld(),
            Err(error) => {
                return Taken {
                    outcomes,
                    ended: Err(error),
                };
            }
        }
    }
    Taken {
        outcomes,
        ended: Ok(()),
    }
}

/// Takes the steps in turn, and returns each one's outcome. A step names a strategy by its index; where there is none it
/// changes nothing.
///
/// A step that is refused has that as its reply, and the run goes on with the next one. The run ends early only before a
/// step for whose outcome, journal entries included, no memory is left, and says so (`whole`): the tree is as it was before
/// that step, and the outcomes are those of the steps that were taken. A job waits in its slot from one step to the next,
/// and one that waits when the run ends is given up: each flush and each merge that a step begins ends within the run
/// (`flush`, `merges`). A step costs what its call costs, and a list of pairs is kept once, for the reply and the journal.
///
/// Where no step forgets what isn't flushed (`ClearActiveMemtable`), the replay theorem holds
/// (`replays`) and no step changes what it is not to change (`right`). That the journal is in order, the other premise of both,
/// follows from the order that callers keep by the counter (`in_order`), and from the steps alone where their sequence numbers
/// rise (`rises`). Over a store that holds the tree's files a crash at any moment of the run leaves a beginning of the calls so
/// far, which holds all that they covered, and calls may go on from any moment (`moments`). From a step that leaves the outcome
/// of a commit unknown on, none calls the store (`unknown`).
///
/// # Examples
///
/// ```text
/// let taken = run(alloc, &mut tree, &strategies, &[Step::Write(Ops::new(ops)), Step::Compact(0, 1)]);
/// for outcome in &taken.outcomes { .. }
/// ```
pub fn run<S: Store>(
    alloc: Global,
    state: &mut TreeState<S>,
    strategies: &[Box<dyn CompactionStrategy>],
    steps: &[Step],
) -> Taken
    // It ends early for want of memory alone.
    ensures bound { length result.outcomes.items ≤ length steps.now }
    ensures whole { OnOk result.ended (length result.outcomes.items ≡ length steps.now) }
    ensures ran { RanToEnd (strategies_of (λ b. may_choose b) (λ b. may_refuse b) strategies.now) (take (length result.outcomes.items) steps.now) result.outcomes.items state.old.core state.new.core }
    ensures replays { (opened : List Entry) (start : Map) → RunEqualsReplay opened start (take (length result.outcomes.items) steps.now) result.outcomes.items state.old.core state.new.core }
    // What each step adds to the journal, by its kind and its reply.
    ensures adds { EachAdds (may_drop (strategies_of (λ b. may_choose b) (λ b. may_refuse b) strategies.now)) none_begun (take (length result.outcomes.items) steps.now) result.outcomes.items }
    // Which sequence numbers and keys it uses, and that the journal is in order where the steps' own numbers rise.
    ensures uses { RunUses (take (length result.outcomes.items) steps.now) result.outcomes.items state.old.core }
    ensures rises { RunRises (take (length result.outcomes.items) steps.now) result.outcomes.items state.old.core }
    // Answers, and what no step changes of them, after whatever was called before, and of the first so many steps, whatever
    // comes later.
    ensures right { RunIsRight (strategies_of (λ b. may_choose b) (λ b. may_refuse b) strategies.now) (take (length result.outcomes.items) steps.now) result.outcomes.items state.old.core state.new.core }
    ensures in_order { RunIsInOrder (strategies_of (λ b. may_choose b) (λ b. may_refuse b) strategies.now) (take (length result.outcomes.items) steps.now) result.outcomes.items state.old.core state.new.core }
    // Each flush and each merge that a step begins ends or is given up, at the latest when the run ends.
    ensures flush { state.new.core.flush ≡ state.old.core.flush }
    ensures merges { state.new.core.merges.underway ≡ state.old.core.merges.underway }
    // What a crash leaves at each moment, along a chain of stores, after whatever was called before: inside a step it is a
    // beginning of the calls up to and with it. Calls may go on from there. What each step notes follows from its kind and
    // its reply, and after each step the store is ready to be opened again.
    ensures moments { S.tells → RunHasMoments S.world (strategies_of (λ b. may_choose b) (λ b. may_refuse b) strategies.now) (take (length result.outcomes.items) steps.now) result.outcomes.items (record { store = state.old.store; stage = at_first state.old.core }) state.new.store state.new.core }
    ensures stored { S.tells → StaysStored (S.world state.old.store) (S.world state.new.store) state.old.core state.new.core }
    // Names that are none of the tree's are as they were, also in what a crash meanwhile leaves.
    ensures passes { S.tells → Passes (S.world state.old.store) (S.world state.new.store) }
    // After a commit of unknown outcome no step calls the store.
    ensures unknown { RunStops (strategies_of (λ b. may_choose b) (λ b. may_refuse b) strategies.now) (take (length result.outcomes.items) steps.now) result.outcomes.items state.old.store state.new.store state.old.core state.new.core }
    // The store is blamed only where a call of it failed.
    ensures causes { EachHasCause S.world result.outcomes.items state.old.store state.new.store }
{
    images_stand_once();
    runs_compose(state.store(), &TreeFiles, &Reply::Done);
    no_low_reads();
    numbers_are_bounded();
    notes_tell_sealed();
    stored_files_are_ready(state.store());
    state.is_upheld();
    found_tables_show();
    flushes_are_deeds();
    reads_are_sound();
    lists_are_steps();
    flushes_keep_reads();
    noted_compactions_keep_reads();
    clears_keep_reads();
    counted_is_in_order();
    rising_is_in_order(&Reply::Done);
    state.facts();
    let mut slots = Slots::new(alloc);
    let taken = take_steps(alloc, state, &mut slots, strategies, steps);
    jobs::give_up_all(state, slots);
    taken
}

mod clear;
mod compaction;
mod counters;
mod flush;
mod jobs;
