// The calls of a compaction, of a logged tree behind the lock.
ghost use Rattle.std.specs.Prelude.{◌≡◌, Err, IfOk, IfErr};
ghost use Rattle.lsm_state.specs.Compactions.{BeginsChoice, BeginsCompaction, Spends};
ghost use Rattle.lsm_state.specs.WholeCompactions.{as_begun, CompactsChoice, Compacts, DropsRange, options_at, only_memory, major_choice};
ghost use Rattle.lsm_logged.specs.Asking.{Asks, FinishesLogged};
ghost use Rattle.lsm_state.specs.Files.{BeginsFiles, CompactsFiles, FinishesFiles};
ghost use Rattle.lsm_handles.specs.Shared.{OnSomeLogged, TouchesTreeAlone, OnSomeLoggedFiles};
ghost use Rattle.lsm_handles.specs.Gates.{EndsGatedLogged, CompactsGatedLogged};

use crate::gate::{Gate, follow, told_end};
use crate::handle::Handle;
use crate::lock::act;
use lsm_below::SeqNo;
use lsm_compaction::{CompactionJob, MergedCompaction};
use lsm_logged::Logged;
use lsm_parts::Error;
use lsm_pick::{Choice, CompactionStrategy, OwnedBounds};
use lsm_state::{Begun, Finished, Options};
use lsm_store::Store;
use std::sync::Wait;

/// A compaction in its parts, or in one call, as those of the same names of `Logged`, on the tree as the lock finds it. Where a
/// record has unknown outcome each of them is `Unrecoverable`. While `CompactionJob::run` merges, other callers read and write.
impl<S: Store> Handle<Logged<S>> {
    /// Asks a strategy for a choice and does it, as `Logged::begin_compaction`. The strategy is asked under the lock.
    pub fn begin_compaction(
        &self,
        rt: &impl Wait,
        strategy: &dyn CompactionStrategy,
        options: Options,
    ) -> Result<Begun, Error>
        ensures { OnSomeLoggedFiles S.tells S.world (BeginsFiles result) (λ old new. Asks result old new (BeginsCompaction (may_choose strategy.now) (may_refuse strategy.now) options result old.core new.core)) }
    {
        act!(self, rt, |tree| tree.begin_compaction(strategy, options))
    }

    /// `begin_compaction` with a strategy whose type is known, as `Logged::begin_with`.
    pub fn begin_with<C: CompactionStrategy>(
        &self,
        rt: &impl Wait,
        strategy: &C,
        options: Options,
    ) -> Result<Begun, Error>
        ensures { OnSomeLoggedFiles S.tells S.world (BeginsFiles result) (λ old new. Asks result old new (BeginsCompaction (C.may_choose strategy.now) (C.may_refuse strategy.now) options result old.core new.core)) }
    {
        act!(self, rt, |tree| tree.begin_with(strategy, options))
    }

    /// Does a choice of the caller's own, as `Logged::begin_choice`.
    pub fn begin_choice(
        &self,
        rt: &impl Wait,
        choice: Choice,
        options: Options,
    ) -> Result<Begun, Error>
        ensures { OnSomeLoggedFiles S.tells S.world (BeginsFiles result) (λ old new. Asks result old new (BeginsChoice choice options result old.core new.core)) }
    {
        act!(self, rt, |tree| tree.begin_choice(choice, options))
    }

    /// Ends a merge that was done, as `Logged::finish_compaction`. The lock is held while its files are written.
    pub fn finish_compaction(
        &self,
        rt: &impl Wait,
        merged: MergedCompaction,
    ) -> Result<Finished, Error>
        ensures { OnSomeLoggedFiles S.tells S.world (FinishesFiles result) (λ old new. FinishesLogged merged.job result old new) }
    {
        act!(self, rt, |tree| tree.finish_compaction(merged))
    }

    /// Gives up a merge, as `Logged::abandon_compaction`.
    pub fn abandon_compaction(&self, rt: &impl Wait, job: CompactionJob)
        ensures { OnSomeLogged S (TouchesTreeAlone (λ old new. Spends job old new)) }
    {
        act!(self, rt, |tree| tree.abandon_compaction(job))
    }

    /// Compacts as a strategy chooses, in one call, at a watermark and at the tree's moment, as `Logged::compact`. The lock is held
    /// throughout.
    pub fn compact(
        &self,
        rt: &impl Wait,
        strategy: &dyn CompactionStrategy,
        watermark: SeqNo,
    ) -> Result<Option<Finished>, Error>
        ensures { OnSomeLoggedFiles S.tells S.world (CompactsFiles (as_begun result)) (λ old new. Asks (as_begun result) old new (Compacts (may_choose strategy.now) (may_refuse strategy.now) (options_at watermark old.core) (as_begun result) old.core new.core)) }
    {
        act!(self, rt, |tree| tree.compact(strategy, watermark))
    }

    /// The same with a strategy whose type is known, and with options, as `Logged::compact_with`. The lock is held throughout.
    pub fn compact_with<C: CompactionStrategy>(
        &self,
        rt: &impl Wait,
        strategy: &C,
        options: Options,
    ) -> Result<Option<Finished>, Error>
        ensures { OnSomeLoggedFiles S.tells S.world (CompactsFiles (as_begun result)) (λ old new. Asks (as_begun result) old new (Compacts (C.may_choose strategy.now) (C.may_refuse strategy.now) options (as_begun result) old.core new.core)) }
    {
        act!(self, rt, |tree| tree.compact_with(strategy, options))
    }

    /// Does a choice of the caller's own, in one call, as `Logged::compact_choice`. The lock is held throughout.
    pub fn compact_choice(
        &self,
        rt: &impl Wait,
        choice: Choice,
        options: Options,
    ) -> Result<Option<Finished>, Error>
        ensures { OnSomeLoggedFiles S.tells S.world (CompactsFiles (as_begun result)) (λ old new. Asks (as_begun result) old new (CompactsChoice choice options (as_begun result) old.core new.core)) }
    {
        act!(self, rt, |tree| tree.compact_choice(choice, options))
    }

    /// `begin_compaction` at a watermark, and at the moment of the tree.
    fn begin_at(
        &self,
        rt: &impl Wait,
        strategy: &dyn CompactionStrategy,
        watermark: SeqNo,
    ) -> Result<Begun, Error>
        ensures { OnSomeLoggedFiles S.tells S.world (BeginsFiles result) (λ old new. Asks result old new (BeginsCompaction (may_choose strategy.now) (may_refuse strategy.now) (options_at watermark old.core) result old.core new.core)) }
    {
        act!(self, rt, |tree| {
            let options = tree.tree().options_at(watermark);
            tree.begin_compaction(strategy, options)
        })
    }

    /// Ends the merge of a job: finishes what a gate did, and gives up what it gave back.
    fn end_gated(
        &self,
        rt: &impl Wait,
        passed: Result<MergedCompaction, (Error, CompactionJob)>,
    ) -> Result<Option<Finished>, Error>
        requires { IfErr passed (λ e. e.0 ≡ Error.OutOfMemory) }
        ensures done { IfOk passed (λ m. EndsGatedLogged S.tells S.world m.job (as_begun result)) }
        ensures back { IfErr passed (λ e. EndsGatedLogged S.tells S.world e.1 (as_begun result)) }
    {
        match passed {
            Ok(merged) => told_end(self.finish_compaction(rt, merged)),
            Err((error, job)) => {
                self.abandon_compaction(rt, job);
                Err(error)
            }
        }
    }

    /// Compacts as a strategy chooses, at a watermark and at the tree's moment, and has a gate do the merge where there is one, as
    /// `Tree::compact_gated`: the gate is handed the job while no lock is held. Answers None where nothing is to be done.
    ///
    /// # Errors
    ///
    /// Those of `begin_compaction` and of `finish_compaction`; `OutOfMemory` where the gate gives the job back: it is given up
    /// then, and nothing is installed.
    pub fn compact_gated(
        &self,
        rt: &impl Wait,
        strategy: &dyn CompactionStrategy,
        watermark: SeqNo,
        gate: &impl Gate,
    ) -> Result<Option<Finished>, Error>
        ensures { CompactsGatedLogged S.tells S.world (may_choose strategy.now) (may_refuse strategy.now) watermark (as_begun result) }
    {
        let begun = self.begin_at(rt, strategy, watermark);
        follow!(begun, |job| self.end_gated(rt, gate.pass(job)))
    }

    /// Merges all tables into the last level, as `Logged::major_compact`. The lock is held throughout.
    pub fn major_compact(
        &self,
        rt: &impl Wait,
        target: u64,
        watermark: SeqNo,
    ) -> Result<Option<Finished>, Error>
        ensures { OnSomeLoggedFiles S.tells S.world (CompactsFiles (as_begun result)) (λ old new. Asks (as_begun result) old new (Compacts (major_choice target) only_memory (options_at watermark old.core) (as_begun result) old.core new.core)) }
    {
        act!(self, rt, |tree| tree.major_compact(target, watermark))
    }

    /// Drops the tables that lie within bounds, as `Logged::drop_range`.
    pub fn drop_range(&self, rt: &impl Wait, bounds: OwnedBounds) -> Result<Option<Finished>, Error>
        ensures { OnSomeLoggedFiles S.tells S.world (CompactsFiles (as_begun result)) (λ old new. Asks (as_begun result) old new (DropsRange bounds (as_begun result) old.core new.core)) }
    {
        act!(self, rt, |tree| tree.drop_range(bounds))
    }
}
