// The calls of a compaction, of a tree with its journal behind the lock.
ghost use Rattle.std.specs.Prelude.{◌≡◌, ◌⊎◌, Err, IfOk, IfErr};
ghost use Rattle.lsm_state.specs.Compactions.{Spends};
ghost use Rattle.lsm_state.specs.WholeCompactions.{as_begun, options_at, only_memory, major_choice};
ghost use Rattle.lsm_recorded.specs.Flushing.{SpendsUnnoted};
ghost use Rattle.lsm_recorded.specs.Compacting.{BeginsRecorded, FinishesRecorded, CompactsRecorded, DropsRecorded};
ghost use Rattle.lsm_state.specs.Files.{BeginsFiles, CompactsFiles, FinishesFiles};
ghost use Rattle.lsm_handles.specs.Shared.{OnSomeTreeAlone, OnSomeRecordedFiles};
ghost use Rattle.lsm_handles.specs.Gates.{EndsGatedRecorded, CompactsGatedRecorded};

use crate::gate::{Gate, follow, told_end};
use crate::handle::Handle;
use crate::lock::act;
use lsm_below::SeqNo;
use lsm_compaction::{CompactionJob, MergedCompaction};
use lsm_parts::Error;
use lsm_pick::{CompactionStrategy, OwnedBounds};
use lsm_recorded::{Pass, Recorded};
use lsm_state::{Begun, Finished, Options};
use lsm_store::Store;
use std::sync::Wait;

/// A compaction in its parts, or in one call, as those of the same names of `Recorded`, on the tree as the lock finds it. What
/// is done is appended to the pass: the mark, whatever a strategy answers, the ranges of a drop, and the install.
impl<S: Store> Handle<Recorded<S>> {
    /// Asks a strategy for a choice and does it, as `Recorded::begin_compaction`. The strategy is asked under the lock.
    pub fn begin_compaction(
        &self,
        rt: &impl Wait,
        pass: &mut Pass,
        strategy: &dyn CompactionStrategy,
        options: Options,
    ) -> Result<Begun, Error>
        ensures { OnSomeRecordedFiles S.tells S.world (BeginsFiles result) (λ old new. BeginsRecorded (may_choose strategy.now) (may_refuse strategy.now) options result old new pass.old pass.new) }
    {
        act!(
            self,
            rt,
            |tree| tree.begin_compaction(pass, strategy, options)
        )
    }

    /// Ends a merge that was done, as `Recorded::finish_compaction`. The lock is held while its files are written.
    pub fn finish_compaction(
        &self,
        rt: &impl Wait,
        pass: &mut Pass,
        merged: MergedCompaction,
    ) -> Result<Finished, Error>
        ensures { OnSomeRecordedFiles S.tells S.world (FinishesFiles result) (λ old new. SpendsUnnoted (Spends merged.job) result old new pass.old pass.new ⊎ FinishesRecorded merged.job result old new pass.old pass.new) }
    {
        act!(self, rt, |tree| tree.finish_compaction(pass, merged))
    }

    /// Gives up a merge, as `Recorded::abandon_compaction`.
    pub fn abandon_compaction(&self, rt: &impl Wait, pass: &mut Pass, job: CompactionJob)
        ensures spends { OnSomeTreeAlone S (λ old new. Spends job old new) }
        ensures pass { pass.new ≡ pass.old }
    {
        act!(self, rt, |tree| tree.abandon_compaction(pass, job))
    }

    /// Compacts as a strategy chooses, in one call, as `Recorded::do_compaction`. The lock is held throughout.
    pub fn do_compaction(
        &self,
        rt: &impl Wait,
        pass: &mut Pass,
        strategy: &dyn CompactionStrategy,
        options: Options,
    ) -> Result<Option<Finished>, Error>
        ensures { OnSomeRecordedFiles S.tells S.world (CompactsFiles (as_begun result)) (λ old new. CompactsRecorded (may_choose strategy.now) (may_refuse strategy.now) options (as_begun result) old new pass.old pass.new) }
    {
        act!(self, rt, |tree| tree.do_compaction(pass, strategy, options))
    }

    /// The same at a watermark and at the tree's moment, as `Recorded::compact`. The lock is held throughout.
    pub fn compact(
        &self,
        rt: &impl Wait,
        pass: &mut Pass,
        strategy: &dyn CompactionStrategy,
        watermark: SeqNo,
    ) -> Result<Option<Finished>, Error>
        ensures { OnSomeRecordedFiles S.tells S.world (CompactsFiles (as_begun result)) (λ old new. CompactsRecorded (may_choose strategy.now) (may_refuse strategy.now) (options_at watermark old.tree.core) (as_begun result) old new pass.old pass.new) }
    {
        act!(self, rt, |tree| tree.compact(pass, strategy, watermark))
    }

    /// `begin_compaction` at a watermark, and at the moment of the tree.
    fn begin_at(
        &self,
        rt: &impl Wait,
        pass: &mut Pass,
        strategy: &dyn CompactionStrategy,
        watermark: SeqNo,
    ) -> Result<Begun, Error>
        ensures { OnSomeRecordedFiles S.tells S.world (BeginsFiles result) (λ old new. BeginsRecorded (may_choose strategy.now) (may_refuse strategy.now) (options_at watermark old.tree.core) result old new pass.old pass.new) }
    {
        act!(self, rt, |tree| {
            let options = tree.tree().options_at(watermark);
            tree.begin_compaction(pass, strategy, options)
        })
    }

    /// Ends the merge of a job: finishes what a gate did, and gives up what it gave back.
    fn end_gated(
        &self,
        rt: &impl Wait,
        pass: &mut Pass,
        passed: Result<MergedCompaction, (Error, CompactionJob)>,
    ) -> Result<Option<Finished>, Error>
        requires { IfErr passed (λ e. e.0 ≡ Error.OutOfMemory) }
        ensures done { IfOk passed (λ m. EndsGatedRecorded S.tells S.world m.job (as_begun result) pass.old pass.new) }
        ensures back { IfErr passed (λ e. EndsGatedRecorded S.tells S.world e.1 (as_begun result) pass.old pass.new) }
    {
        match passed {
            Ok(merged) => told_end(self.finish_compaction(rt, pass, merged)),
            Err((error, job)) => {
                self.abandon_compaction(rt, pass, job);
                Err(error)
            }
        }
    }

    /// Compacts as a strategy chooses, and has a gate do the merge where there is one, as `Tree::compact_gated`: the gate is
    /// handed the job while no lock is held. The pass gets the mark as the compaction begins, and what is installed where it
    /// is: after a merge, the entries of other callers may stand in between. Answers None where nothing is to be done.
    ///
    /// # Errors
    ///
    /// Those of `begin_compaction` and of `finish_compaction`; `OutOfMemory` where the gate gives the job back: it is given up
    /// then, and nothing is installed.
    pub fn compact_gated(
        &self,
        rt: &impl Wait,
        pass: &mut Pass,
        strategy: &dyn CompactionStrategy,
        watermark: SeqNo,
        gate: &impl Gate,
    ) -> Result<Option<Finished>, Error>
        ensures { CompactsGatedRecorded S.tells S.world (may_choose strategy.now) (may_refuse strategy.now) watermark (as_begun result) pass.old pass.new }
    {
        let begun = self.begin_at(rt, pass, strategy, watermark);
        follow!(begun, |job| self.end_gated(rt, pass, gate.pass(job)))
    }

    /// Merges all tables into the last level, as `Recorded::major_compact`. The lock is held throughout.
    pub fn major_compact(
        &self,
        rt: &impl Wait,
        pass: &mut Pass,
        target: u64,
        watermark: SeqNo,
    ) -> Result<Option<Finished>, Error>
        ensures { OnSomeRecordedFiles S.tells S.world (CompactsFiles (as_begun result)) (λ old new. CompactsRecorded (major_choice target) only_memory (options_at watermark old.tree.core) (as_begun result) old new pass.old pass.new) }
    {
        act!(self, rt, |tree| tree.major_compact(pass, target, watermark))
    }

    /// Drops the tables that lie within bounds, as `Recorded::drop_range`.
    pub fn drop_range(
        &self,
        rt: &impl Wait,
        pass: &mut Pass,
        bounds: OwnedBounds,
    ) -> Result<Option<Finished>, Error>
        ensures { OnSomeRecordedFiles S.tells S.world (CompactsFiles (as_begun result)) (λ old new. DropsRecorded bounds (as_begun result) old new pass.old pass.new) }
    {
        act!(self, rt, |tree| tree.drop_range(pass, bounds))
    }
}
