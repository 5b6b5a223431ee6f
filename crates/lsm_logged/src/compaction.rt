// Compactions of a logged tree.
ghost use Rattle.std.specs.Prelude.{◌≡◌, ◌<◌, ◌^◌, true};
ghost use Rattle.lsm_below.specs.Numbers.{PlainNumbersAreRead};
ghost use Rattle.lsm_state.specs.Commits.{Upholds};
ghost use Rattle.lsm_state.specs.CompactionDeeds.{CompactionsAreDeeds};
ghost use Rattle.lsm_state.specs.Compactions.{BeginsChoice, BeginsCompaction, Spends};
ghost use Rattle.lsm_state.specs.Dropping.{IsDropOf, MayDropIds};
ghost use Rattle.lsm_state.specs.FlushLaws.{FlushesAreDeeds};
ghost use Rattle.lsm_state.specs.Kept.{IsKeptTree};
ghost use Rattle.lsm_state.specs.WholeCompactions.{as_begun, CompactsChoice, Compacts, DropsRange, options_at, only_memory, major_choice};
ghost use Rattle.lsm_state.specs.Files.{BeginsFiles, FinishesFiles, CompactsFiles};
ghost use Rattle.lsm_logged.specs.Acting.{ActsNot, IsMerging, DropsWithin, CompactsBy, CompactsAct, MergesAct};
ghost use Rattle.lsm_logged.specs.Asking.{Asks, FinishesLogged};
ghost use Rattle.lsm_logged.specs.Keeping.{is_unsure, tree_of};

use crate::Logged;
use lsm_below::{Error, SeqNo, plain_numbers_are_read};
use lsm_commit::crashes_leave_versions;
use lsm_compaction::{CompactionJob, MergedCompaction};
use lsm_pick::{Choice, CompactionStrategy, OwnedBounds};
use lsm_state::{Begun, Finished, Options, compactions_are_deeds, flushes_are_deeds};
use lsm_store::Store;

/// A call of the tree below, unless a record has unknown outcome.
macro_rules! unless_doubted {
    ($logged:expr, $call:ident($($argument:expr),+)) => {{
        $logged.acts_are_known();
        $logged.tree.is_upheld();
        if $logged.doubted {
            return Err(Error::Unrecoverable);
        }
        $logged.tree.$call($($argument),+)
    }};
}

/// Compactions, each as that of the tree below it. Their clauses say what a call answers and does (`asks`); what it is to the
/// theory of the log (`acts`), most often an installed compaction, or one of unknown outcome, which drops just tables that were chosen to be dropped, else the
/// mark of its watermark;
/// what a crash leaves of the tree's files and of names that are none of its own (`upholds`); what it does to files (`files`);
/// and that after an unknown outcome it makes no call of the store (`no_call`).
impl<S: Store> Logged<S> {
    /// What the acts of compactions are told from: laws, and what every logged tree meets.
    fn acts_are_known(&self)
        ensures numbers { PlainNumbersAreRead }
        ensures flushes { FlushesAreDeeds }
        ensures compactions { CompactionsAreDeeds }
        ensures tree { IsKeptTree self.now.core }
        ensures counter { self.now.core.seqno < 2 ^ 64 }
    {
        plain_numbers_are_read();
        flushes_are_deeds();
        compactions_are_deeds();
        self.tree.facts();
        self.counter_fits();
    }

    /// `TreeState::begin_choice`.
    ///
    /// # Errors
    ///
    /// As that call, and `Unrecoverable` also where a record has unknown outcome.
    pub fn begin_choice(&mut self, choice: Choice, options: Options) -> Result<Begun, Error>
        ensures asks { Asks result self.old self.new (BeginsChoice choice options result self.old.core self.new.core) }
        ensures acts { S.tells → CompactsAct (IsDropOf choice) options.mvcc_gc_watermark result (S.world self.old.store) (S.world self.new.store) self.old self.new }
        ensures upholds { S.tells → Upholds (S.world self.old.store) (S.world self.new.store) self.old.core self.new.core }
        ensures files { BeginsFiles result S.tells S.world (tree_of self.old) (tree_of self.new) }
        ensures no_call { is_unsure self.old ≡ true → self.new.store ≡ self.old.store }
    {
        unless_doubted!(self, begin_choice(choice, options))
    }

    /// `TreeState::begin_compaction`.
    ///
    /// # Errors
    ///
    /// As that call, and `Unrecoverable` also where a record has unknown outcome: then the strategy isn't asked.
    pub fn begin_compaction(
        &mut self,
        strategy: &dyn CompactionStrategy,
        options: Options,
    ) -> Result<Begun, Error>
        ensures asks { Asks result self.old self.new (BeginsCompaction (may_choose strategy.now) (may_refuse strategy.now) options result self.old.core self.new.core) }
        ensures acts { S.tells → CompactsAct (MayDropIds (may_choose strategy.now) self.old.core) options.mvcc_gc_watermark result (S.world self.old.store) (S.world self.new.store) self.old self.new }
        ensures upholds { S.tells → Upholds (S.world self.old.store) (S.world self.new.store) self.old.core self.new.core }
        ensures files { BeginsFiles result S.tells S.world (tree_of self.old) (tree_of self.new) }
        ensures no_call { is_unsure self.old ≡ true → self.new.store ≡ self.old.store }
    {
        unless_doubted!(self, begin_compaction(strategy, options))
    }

    /// `TreeState::begin_with`.
    ///
    /// # Errors
    ///
    /// As that call, and `Unrecoverable` also where a record has unknown outcome: then the strategy isn't asked.
    pub fn begin_with<C: CompactionStrategy>(
        &mut self,
        strategy: &C,
        options: Options,
    ) -> Result<Begun, Error>
        ensures asks { Asks result self.old self.new (BeginsCompaction (C.may_choose strategy.now) (C.may_refuse strategy.now) options result self.old.core self.new.core) }
        ensures acts { S.tells → CompactsAct (MayDropIds (C.may_choose strategy.now) self.old.core) options.mvcc_gc_watermark result (S.world self.old.store) (S.world self.new.store) self.old self.new }
        ensures upholds { S.tells → Upholds (S.world self.old.store) (S.world self.new.store) self.old.core self.new.core }
        ensures files { BeginsFiles result S.tells S.world (tree_of self.old) (tree_of self.new) }
        ensures no_call { is_unsure self.old ≡ true → self.new.store ≡ self.old.store }
    {
        unless_doubted!(self, begin_with(strategy, options))
    }

    /// `TreeState::finish_compaction`.
    ///
    /// # Errors
    ///
    /// As that call, and `Unrecoverable` also where a record has unknown outcome. The job is spent whatever is answered.
    pub fn finish_compaction(&mut self, merged: MergedCompaction) -> Result<Finished, Error>
        ensures finishes { FinishesLogged merged.job result self.old self.new }
        // As the theory sees it: a merge after the mark of its beginning, or one of unknown outcome, else nothing.
        ensures acts { S.tells → MergesAct merged.job result (S.world self.old.store) (S.world self.new.store) self.old self.new }
        ensures upholds { S.tells → Upholds (S.world self.old.store) (S.world self.new.store) self.old.core self.new.core }
        ensures files { FinishesFiles result S.tells S.world (tree_of self.old) (tree_of self.new) }
        ensures no_call { is_unsure self.old ≡ true → self.new.store ≡ self.old.store }
    {
        self.acts_are_known();
        self.tree.is_upheld();
        crashes_leave_versions(self.tree.store());
        if self.doubted {
            self.tree.abandon_compaction(merged.into_job());
            return Err(Error::Unrecoverable);
        }
        self.tree.finish_compaction(merged)
    }

    /// `TreeState::abandon_compaction`.
    pub fn abandon_compaction(&mut self, job: CompactionJob)
        ensures spends { Spends job self.old.core self.new.core }
        ensures store { self.new.store ≡ self.old.store }
        ensures log { (self.new.numbers ≡ self.old.numbers) × (self.new.doubted ≡ self.old.doubted) }
        // As the theory sees it nothing is done.
        ensures acts { S.tells → ActsNot (S.world self.old.store) (S.world self.new.store) self.old self.new }
    {
        crashes_leave_versions(self.tree.store());
        self.tree.abandon_compaction(job);
    }

    /// `TreeState::compact_choice`.
    ///
    /// # Errors
    ///
    /// As that call, and `Unrecoverable` also where a record has unknown outcome.
    pub fn compact_choice(
        &mut self,
        choice: Choice,
        options: Options,
    ) -> Result<Option<Finished>, Error>
        ensures asks { Asks (as_begun result) self.old self.new (CompactsChoice choice options (as_begun result) self.old.core self.new.core) }
        ensures acts { S.tells → CompactsAct (IsDropOf choice) options.mvcc_gc_watermark (as_begun result) (S.world self.old.store) (S.world self.new.store) self.old self.new }
        ensures upholds { S.tells → Upholds (S.world self.old.store) (S.world self.new.store) self.old.core self.new.core }
        ensures files { CompactsFiles (as_begun result) S.tells S.world (tree_of self.old) (tree_of self.new) }
        ensures no_call { is_unsure self.old ≡ true → self.new.store ≡ self.old.store }
    {
        unless_doubted!(self, compact_choice(choice, options))
    }

    /// `TreeState::compact`.
    ///
    /// # Errors
    ///
    /// As that call, and `Unrecoverable` also where a record has unknown outcome: then the strategy isn't asked.
    pub fn compact(
        &mut self,
        strategy: &dyn CompactionStrategy,
        watermark: SeqNo,
    ) -> Result<Option<Finished>, Error>
        ensures asks { Asks (as_begun result) self.old self.new (Compacts (may_choose strategy.now) (may_refuse strategy.now) (options_at watermark self.old.core) (as_begun result) self.old.core self.new.core) }
        ensures acts { S.tells → CompactsAct (MayDropIds (may_choose strategy.now) self.old.core) watermark (as_begun result) (S.world self.old.store) (S.world self.new.store) self.old self.new }
        ensures upholds { S.tells → Upholds (S.world self.old.store) (S.world self.new.store) self.old.core self.new.core }
        ensures files { CompactsFiles (as_begun result) S.tells S.world (tree_of self.old) (tree_of self.new) }
        ensures no_call { is_unsure self.old ≡ true → self.new.store ≡ self.old.store }
    {
        unless_doubted!(self, compact(strategy, watermark))
    }

    /// `TreeState::compact_with`.
    ///
    /// # Errors
    ///
    /// As that call, and `Unrecoverable` also where a record has unknown outcome: then the strategy isn't asked.
    pub fn compact_with<C: CompactionStrategy>(
        &mut self,
        strategy: &C,
        options: Options,
    ) -> Result<Option<Finished>, Error>
        ensures asks { Asks (as_begun result) self.old self.new (Compacts (C.may_choose strategy.now) (C.may_refuse strategy.now) options (as_begun result) self.old.core self.new.core) }
        ensures acts { S.tells → CompactsAct (MayDropIds (C.may_choose strategy.now) self.old.core) options.mvcc_gc_watermark (as_begun result) (S.world self.old.store) (S.world self.new.store) self.old self.new }
        ensures upholds { S.tells → Upholds (S.world self.old.store) (S.world self.new.store) self.old.core self.new.core }
        ensures files { CompactsFiles (as_begun result) S.tells S.world (tree_of self.old) (tree_of self.new) }
        ensures no_call { is_unsure self.old ≡ true → self.new.store ≡ self.old.store }
    {
        unless_doubted!(self, compact_with(strategy, options))
    }

    /// `TreeState::major_compact`.
    ///
    /// # Errors
    ///
    /// As that call, and `Unrecoverable` also where a record has unknown outcome.
    pub fn major_compact(
        &mut self,
        target: u64,
        watermark: SeqNo,
    ) -> Result<Option<Finished>, Error>
        ensures asks { Asks (as_begun result) self.old self.new (Compacts (major_choice target) only_memory (options_at watermark self.old.core) (as_begun result) self.old.core self.new.core) }
        // As the theory sees it: an installed merge, or one of unknown outcome, else the mark of its watermark. Nothing is dropped.
        ensures acts { S.tells → CompactsBy (IsMerging watermark) watermark (as_begun result) (S.world self.old.store) (S.world self.new.store) self.old self.new }
        ensures upholds { S.tells → Upholds (S.world self.old.store) (S.world self.new.store) self.old.core self.new.core }
        ensures files { CompactsFiles (as_begun result) S.tells S.world (tree_of self.old) (tree_of self.new) }
        ensures no_call { is_unsure self.old ≡ true → self.new.store ≡ self.old.store }
    {
        unless_doubted!(self, major_compact(target, watermark))
    }

    /// `TreeState::drop_range`.
    ///
    /// # Errors
    ///
    /// As that call, and `Unrecoverable` also where a record has unknown outcome.
    pub fn drop_range(&mut self, bounds: OwnedBounds) -> Result<Option<Finished>, Error>
        ensures asks { Asks (as_begun result) self.old self.new (DropsRange bounds (as_begun result) self.old.core self.new.core) }
        // As the theory sees it: an installed drop of the tables within the bounds, or one of unknown outcome, else the mark
        // of its watermark.
        ensures acts { S.tells → CompactsBy (DropsWithin bounds self.old.core) 0 (as_begun result) (S.world self.old.store) (S.world self.new.store) self.old self.new }
        ensures upholds { S.tells → Upholds (S.world self.old.store) (S.world self.new.store) self.old.core self.new.core }
        ensures files { CompactsFiles (as_begun result) S.tells S.world (tree_of self.old) (tree_of self.new) }
        ensures no_call { is_unsure self.old ≡ true → self.new.store ≡ self.old.store }
    {
        unless_doubted!(self, drop_range(bounds))
    }
}
