// A list of calls on a logged tree, with the log theorem.
ghost use Rattle.std.specs.Prelude.{◌≡◌, ◌≤◌, ◌++◌, ◌∷◌, [], take, length, IfOk, OnOk, OnErr};
ghost use Rattle.lsm_commit.specs.Causes.{HasCause};
ghost use Rattle.lsm_runs.specs.declared.steps.Reply.{Reply as Replied};
ghost use Rattle.lsm_runs.specs.Causes.{ReplyBlames};
ghost use Rattle.lsm_runs.specs.Compacting.{strategies_of};
ghost use Rattle.lsm_runs.specs.Files.{StaysStored};
ghost use Rattle.lsm_runs.specs.Slots.{SameJobs};
ghost use Rattle.lsm_logged.specs.Acting.{ActsNot};
ghost use Rattle.lsm_log_runs.specs.Doing.{Acts, ActsBatch, StepDoes};
ghost use Rattle.lsm_log_runs.specs.LoggedRuns.{RanThrough, RunsBetween, RunsWhole, StepsLead, RunsJoin, CompactionsAreSteps};
ghost use Rattle.lsm_log_runs.specs.Runs.{Takes, TakesBatch, TakesTableId};
ghost use Rattle.lsm_log_runs.specs.Slots.{beside};

use crate::{LogStep, TakenLogged};
use lsm_below::UserKey;
use lsm_commit::stored_files_are_ready;
use lsm_journal::{noted_compactions_keep_reads, share_ops};
use lsm_log_model::{
    acts_join, counter_stays_above, every_crash_keeps_batches, left_is_numbered, log_stays_sound,
    logged_reads_are_right, whole_is_logged,
};
use lsm_logged::{Logged, logs_can_be_settled, records_are_those_read, versions_are_told_once};
use lsm_manifest::{images_stand_once, unread_names_dont_matter};
use lsm_model::{Op, reads_are_sound};
use lsm_pick::CompactionStrategy;
use lsm_runs::{Reply, Slots, reads};
use lsm_state::lists_are_steps;
use lsm_store::Store;
use std::alloc::{AllocError, Global};

// ---- batches

fn write<S: Store>(
    alloc: Global,
    tree: &mut Logged<S>,
    ops: &[(UserKey, Op)],
) -> Result<Reply, AllocError>
    ensures ok { IfOk result (λ reply. TakesBatch ops.now reply tree.old tree.new) }
    ensures err { OnErr result (tree.new ≡ tree.old) }
    ensures acts { S.tells → IfOk result (λ reply. ActsBatch ops.now reply (S.world tree.old.store) (S.world tree.new.store) tree.old tree.new) }
    ensures stored { S.tells → StaysStored (S.world tree.old.store) (S.world tree.new.store) tree.old.core tree.new.core }
    ensures causes { IfOk result (λ reply. HasCause (ReplyBlames reply) (S.world tree.old.store) (S.world tree.new.store)) }
{
    let ops = share_ops(alloc, ops)?;
    match tree.write(ops) {
        Ok(number) => Ok(Reply::Number(number)),
        Err(error) => Ok(Reply::Refused(error)),
    }
}

// ---- ids of tables

fn get_next_table_id<S: Store>(tree: &mut Logged<S>) -> Reply
    ensures takes { TakesTableId result tree.old tree.new }
    ensures acts { S.tells → ActsNot (S.world tree.old.store) (S.world tree.new.store) tree.old tree.new }
{
    match tree.get_next_table_id() {
        Ok(id) => Reply::Number(id),
        Err(error) => Reply::Refused(error),
    }
}

// ---- runs

/// Takes a step. Where there is no room for what it is to write it is an error, and the tree is as it was.
fn take_step<S: Store>(
    alloc: Global,
    tree: &mut Logged<S>,
    slots: &mut Slots,
    strategies: &[Box<dyn CompactionStrategy>],
    step: &LogStep,
) -> Result<Reply, AllocError>
    ensures ok { IfOk result (λ reply. Takes (strategies_of (λ b. may_choose b) (λ b. may_refuse b) strategies.now) step.now reply (beside tree.old slots.old) (beside tree.new slots.new)) }
    ensures err { OnErr result (tree.new ≡ tree.old) }
    ensures slots_err { OnErr result (SameJobs slots.old slots.new) }
    ensures acts { S.tells → IfOk result (λ reply. Acts (strategies_of (λ b. may_choose b) (λ b. may_refuse b) strategies.now) step.now reply (S.world tree.old.store) (S.world tree.new.store) (beside tree.old slots.old) (beside tree.new slots.new)) }
    ensures stored { S.tells → StaysStored (S.world tree.old.store) (S.world tree.new.store) tree.old.core tree.new.core }
    ensures causes { IfOk result (λ reply. HasCause (ReplyBlames reply) (S.world tree.old.store) (S.world tree.new.store)) }
{
    match step {
        LogStep::Write(ops) => write(alloc, tree, ops.as_slice()),
        LogStep::Get(key, snapshot) => {
            Ok(reads::get(alloc, tree.tree(), key, *snapshot)?.into_reply())
        }
        LogStep::GetInternalEntry(key, snapshot) => {
            Ok(reads::get_internal_entry(alloc, tree.tree(), key, *snapshot).into_reply())
        }
        LogStep::ContainsKey(key, snapshot) => {
            Ok(reads::contains_key(alloc, tree.tree(), key, *snapshot).into_reply())
        }
        LogStep::SizeOf(key, snapshot) => {
            Ok(reads::size_of(alloc, tree.tree(), key, *snapshot).into_reply())
        }
        LogStep::Range(low, high, snapshot) => {
            Ok(reads::range(alloc, tree.tree(), low, high, *snapshot)?.into_reply())
        }
        LogStep::Iter(snapshot) => Ok(reads::iter(alloc, tree.tree(), *snapshot)?.into_reply()),
        LogStep::Prefix(prefix, snapshot) => {
            Ok(reads::prefix(alloc, tree.tree(), prefix, *snapshot)?.into_reply())
        }
        LogStep::Len(snapshot) => Ok(reads::len(alloc, tree.tree(), *snapshot).into_reply()),
        LogStep::IsEmpty(snapshot) => {
            Ok(reads::is_empty(alloc, tree.tree(), *snapshot).into_reply())
        }
        LogStep::FirstKeyValue(snapshot) => {
            Ok(reads::first_key_value(alloc, tree.tree(), *snapshot).into_reply())
        }
        LogStep::LastKeyValue(snapshot) => {
            Ok(reads::last_key_value(alloc, tree.tree(), *snapshot).into_reply())
        }
        LogStep::RotateMemtable => Ok(commits::rotate(tree)),
        LogStep::AtSlot(slot, call) => jobs::at_slot(tree, slots, strategies, *slot, *call),
        LogStep::Flush(watermark) => Ok(commits::flush(tree, *watermark)),
        LogStep::FlushActiveMemtable(watermark) => Ok(commits::flush_active(tree, *watermark)),
        LogStep::Compact(at, watermark) => {
            Ok(commits::compact(tree, strategies, *at, *watermark))
        }
        LogStep::MajorCompact(target, watermark) => {
            Ok(commits::major_compact(tree, *target, *watermark))
        }
        LogStep::DropRange(low, high) => commits::drop_range(tree, low, high),
        LogStep::Clear => Ok(commits::clear(tree)),
        LogStep::GetNextTableId => Ok(get_next_table_id(tree)),
        LogStep::SetMoment(moment) => Ok(commits::set_moment(tree, *moment)),
        LogStep::Count(what) => Ok(reads::count(alloc, tree.tree(), *what).into_reply()),
        LogStep::IsUncertain => Ok(Reply::Truth(tree.is_uncertain())),
        LogStep::IsCompacting => Ok(reads::is_compacting(alloc, tree.tree()).into_reply()),
        LogStep::TreeType => Ok(reads::tree_type(alloc, tree.tree()).into_reply()),
    }
}

/// Takes a step, and appends its reply to the others.
fn add_step<S: Store>(
    alloc: Global,
    tree: &mut Logged<S>,
    slots: &mut Slots,
    strategies: &[Box<dyn CompactionStrategy>],
    step: &LogStep,
    replies: &mut Vec<Reply>,
) -> Result<(), AllocError>
    ensures ok { OnOk result ((reply : Replied) × (replies.new.items ≡ replies.old.items ++ reply ∷ []) × StepDoes (strategies_of (λ b. may_choose b) (λ b. may_refuse b) strategies.now) S.tells S.world step.now reply (beside tree.old slots.old) (beside tree.new slots.new) × HasCause (ReplyBlames reply) (S.world tree.old.store) (S.world tree.new.store)) }
    ensures err { OnErr result (tree.new ≡ tree.old) }
    ensures slots_err { OnErr result (SameJobs slots.old slots.new) }
    ensures replies_err { OnErr result (replies.new.items ≡ replies.old.items) }
{
    replies.try_reserve(1)?;
    let reply = take_step(alloc, tree, slots, strategies, step)?;
    replies.push(reply)?;
    Ok(())
}

fn take_steps<S: Store>(
    alloc: Global,
    tree: &mut Logged<S>,
    slots: &mut Slots,
    strategies: &[Box<dyn CompactionStrategy>],
    steps: &[LogStep],
) -> TakenLogged
    ensures bound { length result.replies.items ≤ length steps.now }
    ensures whole { OnOk result.ended (length result.replies.items ≡ length steps.now) }
    ensures ran { RanThrough (StepDoes (strategies_of (λ b. may_choose b) (λ b. may_refuse b) strategies.now) S.tells S.world) S.world (take (length result.replies.items) steps.now) result.replies.items (beside tree.old slots.old) (beside tree.new slots.new) }
{
    let mut replies = Vec::new(alloc);
    for step in steps {
        match add_step(alloc, tree, slots, strategies, step, &mut replies) {
            Ok(()) => (),
            Err(error) => {
                return TakenLogged {
                    replies,
                    ended: Err(error),
                };
            }
        }
    }
    TakenLogged {
        replies,
        ended: Ok(()),
    }
}

/// Steps that somebody took in a loop of his own, each by its public call, are a run like one of `run_from`, through just the
/// stages of that loop: its trees, stores, and jobs. So are two runs in turn, of which the second begins where the first ended.
/// A call is its step as its clauses stand, and a compaction by a strategy of the list is the step that names its index.
///
/// # Examples
///
/// ```text
/// steps_lead(tree.store(), &strategies);
/// ```
pub fn steps_lead<S: Store>(store: &S, strategies: &[Box<dyn CompactionStrategy>])
    ensures lead { StepsLead S.tells (strategies_of (λ b. may_choose b) (λ b. may_refuse b) strategies.now) S.world }
    ensures join { RunsJoin S.tells (strategies_of (λ b. may_choose b) (λ b. may_refuse b) strategies.now) S.world }
    ensures compacts { CompactionsAreSteps S.tells (strategies_of (λ b. may_choose b) (λ b. may_refuse b) strategies.now) S.world }
{
    reads_are_sound();
    lists_are_steps();
    acts_join();
    counter_stays_above();
    log_stays_sound();
    every_crash_keeps_batches();
    whole_is_logged();
    logged_reads_are_right();
    left_is_numbered();
    noted_compactions_keep_reads();
    records_are_those_read();
    versions_are_told_once();
    images_stand_once();
    unread_names_dont_matter();
    stored_files_are_ready(store);
    logs_can_be_settled(store);
}

/// Takes the steps in turn on a logged tree, and returns each one's reply. A step names a strategy by its index; where
/// there is none it changes nothing. A job waits in its slot from one step to the next, and from one run to the next.
///
/// A step that is refused has that as its reply, and the run goes on with the next one. The run ends early only before a step
/// for whose reply, or for whose batch, no memory is left, and says so (`whole`): the tree is as it was before that step, and
/// the replies are those of the steps that were taken.
///
/// After whatever was called before (`StandsWithJobs`, as `Logged::open` and each run leave it), and as long as no batch removes
/// a key weakly that was set more than once, reads equal the replay of the calls before them, outside dropped ranges; all
/// reads of one tree at one snapshot agree on every key; and no step changes what a snapshot sees but a write, a clear or a
/// drop numbered below it. At each moment a crash leaves an image that `Logged::open` takes, and that stands for a
/// beginning of the calls between batches, which holds all that was acknowledged, flushed or cleared before the step of
/// that moment: each batch is in it whole, or not at all. While every outcome is known, an image stands for all that was
/// called. A process that is killed in a step leaves what `Logged::open` takes, too. Nothing that is left is numbered higher
/// than what was opened or written, so `Logged::open` never refuses it for its numbers.
///
/// # Examples
///
/// ```text
/// let mut slots = Slots::new(alloc);
/// let begun = run_from(alloc, &mut tree, &mut slots, &strategies, &[LogStep::AtSlot(0, JobStep::BeginFlush)]);
/// let rest = run_from(alloc, &mut tree, &mut slots, &strategies, &steps);
/// give_up_all(&mut tree, slots);
/// ```
pub fn run_from<S: Store>(
    alloc: Global,
    tree: &mut Logged<S>,
    slots: &mut Slots,
    strategies: &[Box<dyn CompactionStrategy>],
    steps: &[LogStep],
) -> TakenLogged
    // It ends early for want of memory alone.
    ensures bound { length result.replies.items ≤ length steps.now }
    ensures whole { OnOk result.ended (length result.replies.items ≡ length steps.now) }
    // The log theorem, over one list of stages.
    ensures runs { RunsBetween S.tells (strategies_of (λ b. may_choose b) (λ b. may_refuse b) strategies.now) S.world (take (length result.replies.items) steps.now) result.replies.items (beside tree.old slots.old) (beside tree.new slots.new) }
{
    steps_lead(tree.store(), strategies);
    take_steps(alloc, tree, slots, strategies, steps)
}

/// Takes the steps in turn on a logged tree, as `run_from` beside free slots. A job that waits when the run ends is given up.
///
/// # Examples
///
/// ```text
/// let taken = run_logged(alloc, &mut tree, &strategies, &[LogStep::Write(Ops::new(ops)), LogStep::Compact(0, 1)]);
/// for reply in &taken.replies { .. }
/// ```
pub fn run_logged<S: Store>(
    alloc: Global,
    tree: &mut Logged<S>,
    strategies: &[Box<dyn CompactionStrategy>],
    steps: &[LogStep],
) -> TakenLogged
    // It ends early for want of memory alone.
    ensures bound { length result.replies.items ≤ length steps.now }
    ensures whole { OnOk result.ended (length result.replies.items ≡ length steps.now) }
    // The log theorem, over one list of stages.
    ensures runs { RunsWhole S.tells (strategies_of (λ b. may_choose b) (λ b. may_refuse b) strategies.now) S.world (take (length result.replies.items) steps.now) result.replies.items tree.old tree.new }
{
    let mut slots = Slots::new(alloc);
    let taken = run_from(alloc, tree, &mut slots, strategies, steps);
    give_up_all(tree, slots);
    taken
}

mod commits;
mod flush_jobs;
mod jobs;
mod merge_jobs;

pub use jobs::give_up_all;
