// The calls of a compaction, of a tree behind the lock.
ghost use Rattle.std.specs.Prelude.{◌≡◌, Err, IfOk, IfErr};
ghost use Rattle.lsm_state.specs.Compactions.{BeginsChoice, BeginsCompaction, Finishes, Spends};
ghost use Rattle.lsm_state.specs.WholeCompactions.{as_begun, Compacts, DropsRange, options_at, only_memory, major_choice};
ghost use Rattle.lsm_state.specs.Files.{BeginsFiles, CompactsFiles, FinishesFiles};
ghost use Rattle.lsm_handles.specs.Shared.{OnSomeTreeAlone, OnSomeTreeFiles};
ghost use Rattle.lsm_handles.specs.Gates.{EndsGated, CompactsGated};

use crate::gate::{Gate, follow, told_end};
use crate::handle::Handle;
use crate::lock::act;
use lsm_below::SeqNo;
use lsm_compaction::{CompactionJob, MergedCompaction};
use lsm_parts::Error;
use lsm_pick::{Choice, CompactionStrategy, OwnedBounds};
use lsm_state::{Begun, Finished, Options, TreeState, do_compaction};
use lsm_store::Store;
use std::sync::Wait;

/// A compaction in its parts, or in one call, each on the tree as the lock finds it. A job shares its tables and knows nothing
/// of the lock: while `CompactionJob::run` merges them, other callers read, write and flush.
///
/// # Examples
///
/// ```text
/// if let Begun::Job(job) = tree.begin_compaction(rt, &strategy, options)? {
///     match job.run() {
///         Ok(merged) => tree.finish_compaction(rt, merged)?,
///         Err((error, job)) => { tree.abandon_compaction(rt, job); return Err(error); }
///     };
/// }
/// ```
impl<S: Store> Handle<TreeState<S>> {
    /// Asks a strategy for a choice and does it, as `TreeState::begin_compaction`. The strategy is asked under the lock.
    pub fn begin_compaction(
        &self,
        rt: &impl Wait,
        strategy: &dyn CompactionStrategy,
        options: Options,
    ) -> Result<Begun, Error>
        ensures { OnSomeTreeFiles S.tells S.world (BeginsFiles result) (λ old new. BeginsCompaction (may_choose strategy.now) (may_refuse strategy.now) options result old new) }
    {
        act!(self, rt, |tree| tree.begin_compaction(strategy, options))
    }

    /// Does a choice of the caller's own, as `TreeState::begin_choice`.
    pub fn begin_choice(
        &self,
        rt: &impl Wait,
        choice: Choice,
        options: Options,
    ) -> Result<Begun, Error>
        ensures { OnSomeTreeFiles S.tells S.world (BeginsFiles result) (λ old new. BeginsChoice choice options result old new) }
    {
        act!(self, rt, |tree| tree.begin_choice(choice, options))
    }

    /// Ends a merge that was done, as `TreeState::finish_compaction`. The lock is held while its files are written.
    pub fn finish_compaction(
        &self,
        rt: &impl Wait,
        merged: MergedCompaction,
    ) -> Result<Finished, Error>
        ensures { OnSomeTreeFiles S.tells S.world (FinishesFiles result) (λ old new. Finishes merged.job result old new) }
    {
        act!(self, rt, |tree| tree.finish_compaction(merged))
    }

    /// Gives up a merge, as `TreeState::abandon_compaction`.
    pub fn abandon_compaction(&self, rt: &impl Wait, job: CompactionJob)
        ensures { OnSomeTreeAlone S (λ old new. Spends job old new) }
    {
        act!(self, rt, |tree| tree.abandon_compaction(job))
    }

    /// Compacts as a strategy chooses, in one call, as `do_compaction` of a tree. The lock is held throughout.
    pub fn do_compaction(
        &self,
        rt: &impl Wait,
        strategy: &dyn CompactionStrategy,
        options: Options,
    ) -> Result<Option<Finished>, Error>
        ensures { OnSomeTreeFiles S.tells S.world (CompactsFiles (as_begun result)) (λ old new. Compacts (may_choose strategy.now) (may_refuse strategy.now) options (as_begun result) old new) }
    {
        act!(self, rt, |tree| do_compaction(tree, strategy, options))
    }

    /// The same at a watermark and at the tree's moment, as `TreeState::compact`. The lock is held throughout.
    pub fn compact(
        &self,
        rt: &impl Wait,
        strategy: &dyn CompactionStrategy,
        watermark: SeqNo,
    ) -> Result<Option<Finished>, Error>
        ensures { OnSomeTreeFiles S.tells S.world (CompactsFiles (as_begun result)) (λ old new. Compacts (may_choose strategy.now) (may_refuse strategy.now) (options_at watermark old) (as_begun result) old new) }
    {
        act!(self, rt, |tree| tree.compact(strategy, watermark))
    }

    /// `begin_compaction` at a watermark, and at the moment of the tree.
    fn begin_at(
        &self,
        rt: &impl Wait,
        strategy: &dyn CompactionStrategy,
        watermark: SeqNo,
    ) -> Result<Begun, Error>
        ensures { OnSomeTreeFiles S.tells S.world (BeginsFiles result) (λ old new. BeginsCompaction (may_choose strategy.now) (may_refuse strategy.now) (options_at watermark old) result old new) }
    {
        act!(self, rt, |tree| {
            let options = tree.options_at(watermark);
            tree.begin_compaction(strategy, options)
        })
    }

    /// Ends the merge of a job: finishes what a gate did, and gives up what it gave back.
    fn end_gated(
        &self,
        rt: &impl Wait,
        passed: Result<MergedCompaction, (Error, CompactionJob)>,
    ) -> Result<Option<Finished>, Error>
        requires { IfErr passed (λ e. e.0 ≡ Error.OutOfMemory) }
        ensures done { IfOk passed (λ m. EndsGated S.tells S.world m.job (as_begun result)) }
        ensures back { IfErr passed (λ e. EndsGated S.tells S.world e.1 (as_begun result)) }
    {
        match passed {
            Ok(merged) => told_end(self.finish_compaction(rt, merged)),
            Err((error, job)) => {
                self.abandon_compaction(rt, job);
                Err(error)
            }
        }
    }

    /// Compacts as a strategy chooses, at a watermark and at the tree's moment, and has a gate do the merge where there is one.
    /// The strategy is asked under the lock, where a move or a drop is installed; the gate is handed the job while no lock is
    /// held; the end of the merge is checked and installed under the lock again. Other callers may come in between, and what
    /// they did may decline the merge. Answers None where nothing is to be done.
    ///
    /// # Examples
    ///
    /// ```text
    /// let done = tree.compact_gated(rt, &Leveled::new(alloc)?, watermark, &RunJob)?;
    /// ```
    ///
    /// # Errors
    ///
    /// Those of `begin_compaction` and of `finish_compaction`; `OutOfMemory` where the gate gives the job back: it is given up
    /// then, and nothing is installed.
    pub fn compact_gated(
        &self,
        rt: &impl Wait,
        strategy: &dyn CompactionStrategy,
        watermark: SeqNo,
        gate: &impl Gate,
    ) -> Result<Option<Finished>, Error>
        ensures { CompactsGated S.tells S.world (may_choose strategy.now) (may_refuse strategy.now) watermark (as_begun result) }
    {
        let begun = self.begin_at(rt, strategy, watermark);
        follow!(begun, |job| self.end_gated(rt, gate.pass(job)))
    }

    /// Merges all tables into the last level, as `TreeState::major_compact`. The lock is held throughout.
    pub fn major_compact(
        &self,
        rt: &impl Wait,
        target: u64,
        watermark: SeqNo,
    ) -> Result<Option<Finished>, Error>
        ensures { OnSomeTreeFiles S.tells S.world (CompactsFiles (as_begun result)) (λ old new. Compacts (major_choice target) only_memory (options_at watermark old) (as_begun result) old new) }
    {
        act!(self, rt, |tree| tree.major_compact(target, watermark))
    }

    /// Drops the tables that lie within bounds, as `TreeState::drop_range`.
    pub fn drop_range(&self, rt: &impl Wait, bounds: OwnedBounds) -> Result<Option<Finished>, Error>
        ensures { OnSomeTreeFiles S.tells S.world (CompactsFiles (as_begun result)) (λ old new. DropsRange bounds (as_begun result) old new) }
    {
        act!(self, rt, |tree| tree.drop_range(bounds))
    }
}
