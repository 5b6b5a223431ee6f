// The calls of a compaction, and what they add to a journal.
ghost use Rattle.std.specs.Prelude.{◌≡◌, ◌⊎◌, IsSome, Ok};
ghost use Rattle.lsm_commit.specs.Causes.{Blames};
ghost use Rattle.lsm_state.specs.Commits.{Upholds};
ghost use Rattle.lsm_state.specs.Compactions.{Spends};
ghost use Rattle.lsm_state.specs.WholeCompactions.{as_begun, options_at, only_memory, major_choice};
ghost use Rattle.lsm_state.specs.Files.{BeginsFiles, FinishesFiles, CompactsFiles};
ghost use Rattle.lsm_journal.specs.Noted.{noted_of, BeginsAnswer, CompactsAnswer};
ghost use Rattle.lsm_recorded.specs.Flushing.{SpendsUnnoted, RefusesUnnoted};
ghost use Rattle.lsm_recorded.specs.Compacting.{NotesWhatIsDone, BeginsRecorded, FinishesRecorded, CompactsRecorded, DropsRecorded};

use crate::noting::{beside_copies, make_copies, put, put_entries};
use crate::pass::Pass;
use crate::recorded::Recorded;
use lsm_below::SeqNo;
use lsm_compaction::{CompactionJob, MergedCompaction};
use lsm_journal::{
    Chosen, ask, ask_with, begin_chosen, compact_chosen, drops_nothing, finish_entries,
    finish_noting, noted_compactions_keep_reads,
};
use lsm_model::reads_are_sound;
use lsm_parts::Error;
use lsm_pick::{CompactionStrategy, DropRange, Major, OwnedBounds};
use lsm_state::{Begun, Finished, Options};
use lsm_store::Store;

/// A compaction in its parts, or in one call. None changes what a snapshot sees that is answered before and after, but for a
/// drop, which changes what those above its number see. What is done is noted: a `Mark` of the watermark, whatever a
/// strategy answers, the ranges that a drop takes as a `Dropped`, and an `Install` under the sequence number of the version.
impl<S: Store> Recorded<S> {
    ghost use Rattle.lsm_recorded.specs.Recorded.{Stays, StaysBehind};

    /// Begins what a strategy answered, and notes it.
    fn begin_noted(
        &mut self,
        pass: &mut Pass,
        chosen: Chosen,
        options: Options,
    ) -> Result<Begun, Error>
        requires { chosen.entries.items ≡ noted_of chosen.answer options.mvcc_gc_watermark self.old.tree.core }
        ensures begins { RefusesUnnoted result self.old self.new pass.old pass.new ⊎ NotesWhatIsDone (λ events. BeginsAnswer chosen.answer options result events self.old.tree.core self.new.tree.core) self.old self.new pass.old pass.new }
        ensures upholds { S.tells → Upholds (S.world self.old.tree.store) (S.world self.new.tree.store) self.old.tree.core self.new.tree.core }
        ensures files { (Blames chosen.answer → ⊥) → BeginsFiles result S.tells S.world self.old.tree self.new.tree }
        ensures no_call { IsSome self.old.tree.core.lost → self.new.tree.store ≡ self.old.tree.store }
        ensures views { StaysBehind self.old.journal self.new.journal self.old.tree.core self.new.tree.core }
        ensures opened { self.new.opened ≡ self.old.opened }
    {
        reads_are_sound();
        noted_compactions_keep_reads();
        self.is_upheld();
        let entries = &chosen.entries;
        let made = make_copies(self.alloc, &mut self.journal, &mut pass.entries, entries);
        let Ok(copies) = made else {
            return Err(Error::OutOfMemory);
        };
        let (begun, entries) = begin_chosen(&mut self.core, chosen, options);
        put!(self, pass, entries, copies);
        begun
    }

    /// Asks a strategy for a choice and does it, as `TreeState::begin_compaction`. It notes the mark, whatever is answered,
    /// and of a move or a drop that is installed the rest; of a drop whose outcome is unknown its ranges. The cost is that of
    /// the tree's call, and for a drop two lists of its ranges, which share their keys with the tables.
    ///
    /// # Errors
    ///
    /// As `TreeState::begin_compaction`; and `OutOfMemory`, before anything is done, where there is no room for the notes:
    /// then nothing changes.
    pub fn begin_compaction(
        &mut self,
        pass: &mut Pass,
        strategy: &dyn CompactionStrategy,
        options: Options,
    ) -> Result<Begun, Error>
        ensures begins { BeginsRecorded (may_choose strategy.now) (may_refuse strategy.now) options result self.old self.new pass.old pass.new }
        // What a crash leaves, and what the call does to files.
        ensures upholds { S.tells → Upholds (S.world self.old.tree.store) (S.world self.new.tree.store) self.old.tree.core self.new.tree.core }
        ensures files { BeginsFiles result S.tells S.world self.old.tree self.new.tree }
        ensures views { StaysBehind self.old.journal self.new.journal self.old.tree.core self.new.tree.core }
        ensures opened { self.new.opened ≡ self.old.opened }
    {
        reads_are_sound();
        self.is_upheld();
        match ask(self.alloc, &self.core, strategy, options.mvcc_gc_watermark) {
            Ok(chosen) => self.begin_noted(pass, chosen, options),
            Err(_) => Err(Error::OutOfMemory),
        }
    }

    /// Ends a merge that was done, as `TreeState::finish_compaction`, and notes the install where there is one. The job is spent
    /// whatever is answered. The cost is that of the tree's call.
    ///
    /// # Errors
    ///
    /// As `TreeState::finish_compaction`; and `OutOfMemory`, before all else, where there is no room for the notes: then the
    /// job is given up, and nothing is noted.
    pub fn finish_compaction(
        &mut self,
        pass: &mut Pass,
        merged: MergedCompaction,
    ) -> Result<Finished, Error>
        ensures finishes { SpendsUnnoted (Spends merged.job) result self.old self.new pass.old pass.new ⊎ FinishesRecorded merged.job result self.old self.new pass.old pass.new }
        // What a crash leaves, and what the call does to files.
        ensures upholds { S.tells → Upholds (S.world self.old.tree.store) (S.world self.new.tree.store) self.old.tree.core self.new.tree.core }
        ensures files { FinishesFiles result S.tells S.world self.old.tree self.new.tree }
        ensures views { Stays self.old.tree.core self.new.tree.core }
        ensures opened { self.new.opened ≡ self.old.opened }
    {
        reads_are_sound();
        noted_compactions_keep_reads();
        let made = finish_entries(self.alloc, self.core.seqno().get());
        let both = beside_copies(self.alloc, &mut self.journal, &mut pass.entries, made);
        let Ok((entries, copies)) = both else {
            self.core.abandon_compaction(merged.into_job());
            return Err(Error::OutOfMemory);
        };
        let (finished, entries) = finish_noting(&mut self.core, merged, entries);
        put!(self, pass, entries, copies);
        finished
    }

    /// Gives up a merge, as `TreeState::abandon_compaction`. The journal and the pass stay.
    pub fn abandon_compaction(&mut self, pass: &mut Pass, job: CompactionJob)
        ensures spends { Spends job self.old.tree.core self.new.tree.core }
        ensures store { self.new.tree.store ≡ self.old.tree.store }
        ensures upholds { S.tells → Upholds (S.world self.old.tree.store) (S.world self.new.tree.store) self.old.tree.core self.new.tree.core }
        ensures journal { self.new.journal ≡ self.old.journal }
        ensures pass { pass.new ≡ pass.old }
        ensures views { Stays self.old.tree.core self.new.tree.core }
        ensures opened { self.new.opened ≡ self.old.opened }
    {
        reads_are_sound();
        noted_compactions_keep_reads();
        let _ = pass;
        self.core.abandon_compaction(job);
    }

    /// Does what a strategy answered in one call, and notes it.
    fn compact_noted(
        &mut self,
        pass: &mut Pass,
        chosen: Chosen,
        options: Options,
    ) -> Result<Option<Finished>, Error>
        requires { chosen.entries.items ≡ noted_of chosen.answer options.mvcc_gc_watermark self.old.tree.core }
        ensures compacts { RefusesUnnoted (as_begun result) self.old self.new pass.old pass.new ⊎ NotesWhatIsDone (λ events. CompactsAnswer chosen.answer options (as_begun result) events self.old.tree.core self.new.tree.core) self.old self.new pass.old pass.new }
        ensures upholds { S.tells → Upholds (S.world self.old.tree.store) (S.world self.new.tree.store) self.old.tree.core self.new.tree.core }
        ensures files { (Blames chosen.answer → ⊥) → CompactsFiles (as_begun result) S.tells S.world self.old.tree self.new.tree }
        ensures no_call { IsSome self.old.tree.core.lost → self.new.tree.store ≡ self.old.tree.store }
        ensures views { StaysBehind self.old.journal self.new.journal self.old.tree.core self.new.tree.core }
        ensures opened { self.new.opened ≡ self.old.opened }
    {
        reads_are_sound();
        noted_compactions_keep_reads();
        self.is_upheld();
        let entries = &chosen.entries;
        let made = make_copies(self.alloc, &mut self.journal, &mut pass.entries, entries);
        let Ok(copies) = made else {
            return Err(Error::OutOfMemory);
        };
        let (done, entries) = compact_chosen(&mut self.core, chosen, options);
        put!(self, pass, entries, copies);
        done
    }

    /// Compacts as a strategy chooses, in one call, as `do_compaction` of a tree. It notes what `begin_compaction` does, and
    /// the install of a merge. Answers None where nothing is to be done.
    ///
    /// # Errors
    ///
    /// As `do_compaction`; and `OutOfMemory`, before anything is done, where there is no room for the notes: then nothing
    /// changes.
    pub fn do_compaction(
        &mut self,
        pass: &mut Pass,
        strategy: &dyn CompactionStrategy,
        options: Options,
    ) -> Result<Option<Finished>, Error>
        ensures compacts { CompactsRecorded (may_choose strategy.now) (may_refuse strategy.now) options (as_begun result) self.old self.new pass.old pass.new }
        // What a crash leaves, and what the call does to files.
        ensures upholds { S.tells → Upholds (S.world self.old.tree.store) (S.world self.new.tree.store) self.old.tree.core self.new.tree.core }
        ensures files { CompactsFiles (as_begun result) S.tells S.world self.old.tree self.new.tree }
        ensures views { StaysBehind self.old.journal self.new.journal self.old.tree.core self.new.tree.core }
        ensures opened { self.new.opened ≡ self.old.opened }
    {
        reads_are_sound();
        self.is_upheld();
        match ask(self.alloc, &self.core, strategy, options.mvcc_gc_watermark) {
            Ok(chosen) => self.compact_noted(pass, chosen, options),
            Err(_) => Err(Error::OutOfMemory),
        }
    }

    /// `do_compaction`, with a strategy whose type is known.
    pub fn compact_with<C: CompactionStrategy>(
        &mut self,
        pass: &mut Pass,
        strategy: &C,
        options: Options,
    ) -> Result<Option<Finished>, Error>
        ensures compacts { CompactsRecorded (C.may_choose strategy.now) (C.may_refuse strategy.now) options (as_begun result) self.old self.new pass.old pass.new }
        // What a crash leaves, and what the call does to files.
        ensures upholds { S.tells → Upholds (S.world self.old.tree.store) (S.world self.new.tree.store) self.old.tree.core self.new.tree.core }
        ensures files { CompactsFiles (as_begun result) S.tells S.world self.old.tree self.new.tree }
        ensures views { StaysBehind self.old.journal self.new.journal self.old.tree.core self.new.tree.core }
        ensures opened { self.new.opened ≡ self.old.opened }
    {
        reads_are_sound();
        self.is_upheld();
        match ask_with(self.alloc, &self.core, strategy, options.mvcc_gc_watermark) {
            Ok(chosen) => self.compact_noted(pass, chosen, options),
            Err(_) => Err(Error::OutOfMemory),
        }
    }

    /// Compacts as a strategy chooses, at a watermark and at the tree's moment, as `TreeState::compact`: `do_compaction` with
    /// these options.
    ///
    /// # Errors
    ///
    /// Those of `do_compaction`.
    pub fn compact(
        &mut self,
        pass: &mut Pass,
        strategy: &dyn CompactionStrategy,
        watermark: SeqNo,
    ) -> Result<Option<Finished>, Error>
        ensures compacts { CompactsRecorded (may_choose strategy.now) (may_refuse strategy.now) (options_at watermark self.old.tree.core) (as_begun result) self.old self.new pass.old pass.new }
        // What a crash leaves, and what the call does to files.
        ensures upholds { S.tells → Upholds (S.world self.old.tree.store) (S.world self.new.tree.store) self.old.tree.core self.new.tree.core }
        ensures files { CompactsFiles (as_begun result) S.tells S.world self.old.tree self.new.tree }
        ensures views { StaysBehind self.old.journal self.new.journal self.old.tree.core self.new.tree.core }
        ensures opened { self.new.opened ≡ self.old.opened }
    {
        let options = self.core.options_at(watermark);
        self.do_compaction(pass, strategy, options)
    }

    /// Merges all tables into the last level, as `TreeState::major_compact`.
    ///
    /// # Errors
    ///
    /// Those of `do_compaction`, but for the refusals of other strategies.
    pub fn major_compact(
        &mut self,
        pass: &mut Pass,
        target: u64,
        watermark: SeqNo,
    ) -> Result<Option<Finished>, Error>
        ensures compacts { CompactsRecorded (major_choice target) only_memory (options_at watermark self.old.tree.core) (as_begun result) self.old self.new pass.old pass.new }
        // What a crash leaves, and what the call does to files.
        ensures upholds { S.tells → Upholds (S.world self.old.tree.store) (S.world self.new.tree.store) self.old.tree.core self.new.tree.core }
        ensures files { CompactsFiles (as_begun result) S.tells S.world self.old.tree self.new.tree }
        ensures views { StaysBehind self.old.journal self.new.journal self.old.tree.core self.new.tree.core }
        ensures opened { self.new.opened ≡ self.old.opened }
    {
        let options = self.core.options_at(watermark);
        self.compact_with(pass, &Major::new(target), options)
    }

    /// Drops the tables whose whole key range lies within bounds, as `TreeState::drop_range`, at watermark 0. Where the bounds
    /// are reversed nothing is done and nothing noted.
    ///
    /// # Errors
    ///
    /// Those of `do_compaction`, but for the refusals of other strategies. `Unrecoverable` goes before reversed bounds.
    pub fn drop_range(
        &mut self,
        pass: &mut Pass,
        bounds: OwnedBounds,
    ) -> Result<Option<Finished>, Error>
        ensures drops { DropsRecorded bounds (as_begun result) self.old self.new pass.old pass.new }
        // What a crash leaves, and what the call does to files.
        ensures upholds { S.tells → Upholds (S.world self.old.tree.store) (S.world self.new.tree.store) self.old.tree.core self.new.tree.core }
        ensures files { CompactsFiles (as_begun result) S.tells S.world self.old.tree self.new.tree }
        ensures views { StaysBehind self.old.journal self.new.journal self.old.tree.core self.new.tree.core }
        ensures opened { self.new.opened ≡ self.old.opened }
    {
        reads_are_sound();
        self.is_upheld();
        if drops_nothing(&self.core, &bounds) {
            return Ok(None);
        }
        let options = self.core.options_at(0);
        self.compact_with(pass, &DropRange::new(bounds), options)
    }
}
