// A compaction in one call.
ghost use Rattle.std.specs.Prelude.{◌≡◌, Ok};
ghost use Rattle.lsm_state.specs.declared.compaction.Begun.TheVariants.{Job};
ghost use Rattle.lsm_state.specs.Commits.{Upholds};
ghost use Rattle.lsm_state.specs.OwnInputs.{HasOwnInputs, BeganHere};
ghost use Rattle.lsm_state.specs.WholeCompactions.{as_begun, Completes, Follows, CompactsChoice, Compacts, DropsRange, options_at, only_memory, major_choice};
ghost use Rattle.lsm_state.specs.Files.{CompactsFiles, FollowsFiles};

use crate::{Begun, Finished, Options, TreeState};
use lsm_below::SeqNo;
use lsm_compaction::CompactionJob;
use lsm_parts::Error;
use lsm_pick::{Choice, CompactionStrategy, DropRange, Major, OwnedBounds};
use lsm_store::Store;

impl<S: Store> TreeState<S> {
    /// Does the merge of a job that was begun here just now, and finishes it. Where there was no memory to do it, it is given up.
    fn complete(&mut self, job: CompactionJob) -> Result<Option<Finished>, Error>
        requires { HasOwnInputs job self.old.core }
        ensures completes { Completes job (as_begun result) self.old.core self.new.core }
        ensures upholds { S.tells → Upholds (S.world self.old.store) (S.world self.new.store) self.old.core self.new.core }
        ensures files { CompactsFiles (as_begun result) S.tells S.world self.old self.new }
    {
        let merged = match job.run() {
            Ok(merged) => merged,
            Err((error, job)) => {
                self.abandon_compaction(job);
                return Err(error);
            }
        };
        match self.finish_with(merged, true) {
            Ok(finished) => Ok(Some(finished)),
            Err(error) => Err(error),
        }
    }

    /// What follows of how a compaction began.
    fn follow(&mut self, begun: Result<Begun, Error>) -> Result<Option<Finished>, Error>
        requires { BeganHere begun self.old.core }
        ensures follows { Follows begun (as_begun result) self.old.core self.new.core }
        ensures upholds { S.tells → Upholds (S.world self.old.store) (S.world self.new.store) self.old.core self.new.core }
        ensures files { FollowsFiles begun (as_begun result) S.tells S.world self.old self.new }
    {
        self.is_upheld();
        match begun {
            Ok(Begun::Job(job)) => self.complete(job),
            Ok(Begun::DidNothing) => Ok(None),
            Ok(Begun::Declined(why)) => Ok(Some(Finished::Declined(why))),
            Ok(Begun::Installed) => Ok(Some(Finished::Installed)),
            Err(error) => Err(error),
        }
    }

    /// Does a choice in one call: begins it as `begin_choice` does, and where it is a merge does and finishes it. Nothing comes
    /// in between, so the end compares no entries. Answers None where nothing is to be done. The cost is that of the other parts.
    ///
    /// # Errors
    ///
    /// Those of `begin_choice` and of `finish_compaction`; `OutOfMemory` where there was no memory to merge: the merge is given
    /// up, and nothing is installed.
    pub fn compact_choice(
        &mut self,
        choice: Choice,
        options: Options,
    ) -> Result<Option<Finished>, Error>
        ensures compacts { CompactsChoice choice options (as_begun result) self.old.core self.new.core }
        // What a crash leaves, and what the call does to files.
        ensures upholds { S.tells → Upholds (S.world self.old.store) (S.world self.new.store) self.old.core self.new.core }
        ensures files { CompactsFiles (as_begun result) S.tells S.world self.old self.new }
    {
        self.facts();
        let begun = self.begin_choice(choice, options);
        self.follow(begun)
    }

    /// `do_compaction`, with a strategy whose type is known.
    pub fn compact_with<C: CompactionStrategy>(
        &mut self,
        strategy: &C,
        options: Options,
    ) -> Result<Option<Finished>, Error>
        ensures compacts { Compacts (C.may_choose strategy.now) (C.may_refuse strategy.now) options (as_begun result) self.old.core self.new.core }
        // What a crash leaves, and what the call does to files.
        ensures upholds { S.tells → Upholds (S.world self.old.store) (S.world self.new.store) self.old.core self.new.core }
        ensures files { CompactsFiles (as_begun result) S.tells S.world self.old self.new }
    {
        self.facts();
        let begun = self.begin_with(strategy, options);
        self.follow(begun)
    }

    /// The options of a compaction at a watermark, whose tables are made at the tree's moment.
    pub fn options_at(&self, watermark: SeqNo) -> Options
        ensures { result ≡ options_at watermark self.now.core }
    {
        Options {
            mvcc_gc_watermark: watermark,
            moment: self.moment(),
        }
    }

    /// Compacts as a strategy chooses, at a watermark and at the tree's moment: `do_compaction` with these options.
    ///
    /// # Errors
    ///
    /// Those of `do_compaction`.
    pub fn compact(
        &mut self,
        strategy: &dyn CompactionStrategy,
        watermark: SeqNo,
    ) -> Result<Option<Finished>, Error>
        ensures compacts { Compacts (may_choose strategy.now) (may_refuse strategy.now) (options_at watermark self.old.core) (as_begun result) self.old.core self.new.core }
        // What a crash leaves, and what the call does to files.
        ensures upholds { S.tells → Upholds (S.world self.old.store) (S.world self.new.store) self.old.core self.new.core }
        ensures files { CompactsFiles (as_begun result) S.tells S.world self.old self.new }
    {
        let options = self.options_at(watermark);
        do_compaction(self, strategy, options)
    }

    /// Merges all tables into the last level, cut at a target of bytes, at a watermark and at the tree's moment: with `Major`.
    /// Nothing is done where an open merge works on one of them.
    ///
    /// # Errors
    ///
    /// Those of `do_compaction`, but for the refusals of other strategies.
    pub fn major_compact(
        &mut self,
        target: u64,
        watermark: SeqNo,
    ) -> Result<Option<Finished>, Error>
        ensures compacts { Compacts (major_choice target) only_memory (options_at watermark self.old.core) (as_begun result) self.old.core self.new.core }
        // What a crash leaves, and what the call does to files.
        ensures upholds { S.tells → Upholds (S.world self.old.store) (S.world self.new.store) self.old.core self.new.core }
        ensures files { CompactsFiles (as_begun result) S.tells S.world self.old self.new }
    {
        let options = self.options_at(watermark);
        self.compact_with(&Major::new(target), options)
    }

    /// Drops the tables whose whole key range lies within bounds, with their entries: with `DropRange`, at watermark 0.
    /// Memtables aren't touched, nor tables that reach out of the bounds, so keys within may stay; and where a key's newest
    /// entry goes, an older value in a table that stays is read again. Nothing is done where the bounds are reversed, or an open
    /// merge works on one of the tables.
    ///
    /// # Errors
    ///
    /// Those of `do_compaction`, but for the refusals of other strategies. `Unrecoverable` goes before all else.
    pub fn drop_range(&mut self, bounds: OwnedBounds) -> Result<Option<Finished>, Error>
        ensures drops { DropsRange bounds (as_begun result) self.old.core self.new.core }
        // What a crash leaves, and what the call does to files.
        ensures upholds { S.tells → Upholds (S.world self.old.store) (S.world self.new.store) self.old.core self.new.core }
        ensures files { CompactsFiles (as_begun result) S.tells S.world self.old self.new }
    {
        self.is_upheld();
        if self.is_uncertain() {
            return Err(Error::Unrecoverable);
        }
        if bounds.is_reversed() {
            return Ok(None);
        }
        let options = self.options_at(0);
        self.compact_with(&DropRange::new(bounds), options)
    }
}

/// Compacts as a strategy chooses, in one call: begins, and where the choice is a merge does and finishes it. Nothing comes
/// in between, so the end compares no entries. Answers None where nothing is to be done. The cost is that of the other parts; where
/// other callers wait for the tree, begin, merge outside and finish instead.
///
/// # Errors
///
/// Those of `begin_compaction` and of `finish_compaction`; `OutOfMemory` where there was no memory to merge: the merge is given
/// up, and nothing is installed.
pub fn do_compaction<S: Store>(
    tree: &mut TreeState<S>,
    strategy: &dyn CompactionStrategy,
    options: Options,
) -> Result<Option<Finished>, Error>
    ensures compacts { Compacts (may_choose strategy.now) (may_refuse strategy.now) options (as_begun result) tree.old.core tree.new.core }
    // What a crash leaves, and what the call does to files.
    ensures upholds { S.tells → Upholds (S.world tree.old.store) (S.world tree.new.store) tree.old.core tree.new.core }
    ensures files { CompactsFiles (as_begun result) S.tells S.world tree.old tree.new }
{
    tree.facts();
    let begun = tree.begin_compaction(strategy, options);
    tree.follow(begun)
}
