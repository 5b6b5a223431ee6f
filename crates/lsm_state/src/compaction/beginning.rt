// How a compaction begins.
ghost use Rattle.std.specs.Prelude.{◌≡◌, ◌<◌, [], None, IfOk, IfErr};
ghost use Rattle.lsm_checks.specs.Choices.{first_reason_of, AreThere, IsMovable};
ghost use Rattle.lsm_pick.specs.declared.choice.Choice.TheVariants.{DoNothing, Move, Merge};
ghost use Rattle.lsm_state.specs.Commits.{Upholds};
ghost use Rattle.lsm_state.specs.Settling.{MaySettle, HasItsTables};
ghost use Rattle.lsm_state.specs.Compactions.{hidden_in, levels_of, reason_of, IsPossible, IsMovedTo, IsDroppedFrom, IsNotMoved, IsNotDropped, InstallsChoice, OpensMerge, Does, BeginsChoice, BeginsCompaction, MayAnswer, error_of, InstallsOrRests};
ghost use Rattle.lsm_state.specs.CompactionDeeds.{ChoiceDeeds};
ghost use Rattle.lsm_state.specs.Files.{BeginsFiles};

use crate::{Begun, Options, TreeState, compactions_are_deeds};
use lsm_below::TableId;
use lsm_checks::{Input, Kind, Why, first_reason};
use lsm_compaction::{CompactionJob, MergeSettings, chosen_inputs};
use lsm_parts::{Error, LIMIT, Version};
use lsm_pick::{Choice, ChooseError, CompactionStrategy};
use lsm_store::Store;
use lsm_versions::changes_keep_tables;
use std::collections::HashSet;

/// A strategy's refusal, as the calls of a compaction tell it.
pub fn told_as(error: ChooseError) -> Error
    ensures { result ≡ error_of error }
{
    match error {
        ChooseError::OutOfMemory => Error::OutOfMemory,
        ChooseError::NotDisjoint => Error::NotDisjoint,
        ChooseError::Busy => Error::Busy,
        ChooseError::Refused => Error::Strategy,
    }
}

impl<S: Store> TreeState<S> {
    /// The first reason to decline a choice of tables, by its kind.
    fn first_reason(&self, kind: Kind, ids: &HashSet<TableId>, to: u8) -> Result<Option<Why>, Error>
        ensures value { IfOk result (λ why. why ≡ first_reason_of kind ids.now.keys to (hidden_in self.now.core) (levels_of self.now.core)) }
        ensures movable { IfOk result (λ why. why ≡ None → kind ≡ Kind.Move → (to < 7) × IsMovable to ids.now.keys (levels_of self.now.core)) }
        ensures there { IfOk result (λ why. why ≡ None → AreThere (levels_of self.now.core) ids.now.keys) }
        ensures memory { IfErr result (λ e. e ≡ Error.OutOfMemory) }
    {
        let hidden = self.compaction_state().hidden_set();
        let to = usize::from(to);
        let latest = self.current_version();
        Ok(first_reason(self.alloc, kind, ids, to, hidden, latest)?)
    }

    /// The first reason to decline a choice: none to do nothing.
    fn reason_to_decline(&self, choice: &Choice) -> Result<Option<Why>, Error>
        ensures reason { IfOk result (λ why. why ≡ reason_of choice.now self.now.core) }
        ensures possible { IfOk result (λ why. why ≡ None → IsPossible choice.now self.now.core) }
        ensures nothing { choice.now ≡ DoNothing → result ≡ Ok None }
        ensures memory { IfErr result (λ e. e ≡ Error.OutOfMemory) }
    {
        match choice {
            Choice::DoNothing => Ok(None),
            Choice::Move(input) => {
                self.first_reason(Kind::Move, &input.table_ids, input.dest_level)
            }
            Choice::Merge(input) => {
                self.first_reason(Kind::Merge, &input.table_ids, input.dest_level)
            }
            Choice::Drop(ids) => self.first_reason(Kind::Drop, ids, 0),
        }
    }

    /// The version that a move makes.
    fn version_moved(&self, input: &Input) -> Result<Version, Error>
        requires certain { self.now.core.lost ≡ None }
        requires possible { IsPossible (Move input.now) self.now.core }
        ensures made { IfOk result (IsMovedTo input.now self.now.core.history.latest.version) }
        ensures settles { IfOk result (λ v. MaySettle v [] self.now.core) }
        ensures on_disk { S.tells → IfOk result (HasItsTables (S.world self.now.store) self.now.core) }
        ensures err { IfErr result (IsNotMoved input.now self.now.core.history.latest.version) }
    {
        changes_keep_tables();
        self.facts();
        let latest = self.current_version();
        latest.facts();
        let to = usize::from(input.dest_level);
        let version = latest.with_moved(self.alloc, &input.table_ids, to)?;
        version.facts();
        Ok(version)
    }

    /// The version that a drop makes.
    fn version_dropped(&self, ids: &HashSet<TableId>) -> Result<Version, Error>
        requires certain { self.now.core.lost ≡ None }
        requires there { AreThere (levels_of self.now.core) ids.now.keys }
        ensures made { IfOk result (IsDroppedFrom ids.now.keys self.now.core.history.latest.version) }
        ensures settles { IfOk result (λ v. MaySettle v ids.now.keys self.now.core) }
        ensures on_disk { S.tells → IfOk result (HasItsTables (S.world self.now.store) self.now.core) }
        ensures err { IfErr result (IsNotDropped ids.now.keys self.now.core.history.latest.version) }
    {
        changes_keep_tables();
        self.facts();
        let latest = self.current_version();
        latest.facts();
        let version = latest.with_dropped(self.alloc, ids)?;
        version.facts();
        Ok(version)
    }

    /// Moves tables, as no reason declines.
    fn begin_move(&mut self, input: &Input, options: Options) -> Result<Begun, Error>
        requires certain { self.old.core.lost ≡ None }
        requires possible { IsPossible (Move input.now) self.old.core }
        ensures installs { InstallsChoice (IsMovedTo input.now self.old.core.history.latest.version) (IsNotMoved input.now self.old.core.history.latest.version) options.mvcc_gc_watermark result self.old.core self.new.core }
        ensures upholds { S.tells → Upholds (S.world self.old.store) (S.world self.new.store) self.old.core self.new.core }
        ensures files { BeginsFiles result S.tells S.world self.old self.new }
    {
        self.is_upheld();
        if self.seqno.get() >= LIMIT {
            return Err(Error::OutOfNumbers);
        }
        let version = match self.version_moved(input) {
            Ok(version) => version,
            Err(error) => return Err(error),
        };
        let none = self.no_tables();
        match self.settle(version, options.mvcc_gc_watermark, &none) {
            Ok(()) => Ok(Begun::Installed),
            Err(error) => Err(error),
        }
    }

    /// Drops tables, as no reason declines.
    fn begin_drop(&mut self, ids: &HashSet<TableId>, options: Options) -> Result<Begun, Error>
        requires certain { self.old.core.lost ≡ None }
        requires there { AreThere (levels_of self.old.core) ids.now.keys }
        ensures installs { InstallsChoice (IsDroppedFrom ids.now.keys self.old.core.history.latest.version) (IsNotDropped ids.now.keys self.old.core.history.latest.version) options.mvcc_gc_watermark result self.old.core self.new.core }
        ensures upholds { S.tells → Upholds (S.world self.old.store) (S.world self.new.store) self.old.core self.new.core }
        ensures files { BeginsFiles result S.tells S.world self.old self.new }
    {
        self.is_upheld();
        if self.seqno.get() >= LIMIT {
            return Err(Error::OutOfNumbers);
        }
        let version = match self.version_dropped(ids) {
            Ok(version) => version,
            Err(error) => return Err(error),
        };
        match self.settle(version, options.mvcc_gc_watermark, ids) {
            Ok(()) => Ok(Begun::Installed),
            Err(error) => Err(error),
        }
    }

    /// An empty set of ids, which takes no memory.
    fn no_tables(&self) -> HashSet<TableId>
        ensures { result.keys ≡ [] }
    {
        HashSet::new(self.alloc)
    }

    /// Opens a merge, as no reason declines.
    fn begin_merge(&mut self, input: Input, options: Options) -> Result<Begun, Error>
        requires possible { IsPossible (Merge input) self.old.core }
        ensures opens { OpensMerge input options result self.old.core self.new.core }
        ensures store { self.new.store ≡ self.old.store }
        ensures rests { IfOk result (λ b. InstallsOrRests b self.old.store self.new.store) }
    {
        let settings = MergeSettings {
            dest_level: input.dest_level,
            target_size: input.target_size,
            watermark: options.mvcc_gc_watermark,
            made_at: options.moment,
        };
        let latest = &self.history.latest_version().version;
        latest.facts();
        let inputs = chosen_inputs(self.alloc, &input.table_ids, latest.levels())?;
        let number = match self.merges.open(&input.table_ids, settings) {
            Ok(number) => number,
            Err(error) => return Err(error),
        };
        let job = CompactionJob::new(self.alloc, number, input.table_ids, inputs, settings);
        Ok(Begun::Job(job))
    }

    /// Does a choice that no reason declines.
    fn begin_possible(&mut self, choice: Choice, options: Options) -> Result<Begun, Error>
        requires certain { self.old.core.lost ≡ None }
        requires possible { IsPossible choice self.old.core }
        ensures does { Does choice options result self.old.core self.new.core }
        ensures upholds { S.tells → Upholds (S.world self.old.store) (S.world self.new.store) self.old.core self.new.core }
        ensures files { BeginsFiles result S.tells S.world self.old self.new }
    {
        self.is_upheld();
        match choice {
            Choice::DoNothing => Ok(Begun::DidNothing),
            Choice::Move(input) => self.begin_move(&input, options),
            Choice::Merge(input) => self.begin_merge(input, options),
            Choice::Drop(ids) => self.begin_drop(&ids, options),
        }
    }

    /// Does a choice, unless a reason declines it.
    fn begin_checked(&mut self, choice: Choice, options: Options) -> Result<Begun, Error>
        ensures begins { BeginsChoice choice options result self.old.core self.new.core }
        ensures upholds { S.tells → Upholds (S.world self.old.store) (S.world self.new.store) self.old.core self.new.core }
        ensures files { BeginsFiles result S.tells S.world self.old self.new }
    {
        self.is_upheld();
        if self.is_uncertain() {
            return Err(Error::Unrecoverable);
        }
        match self.reason_to_decline(&choice) {
            Ok(None) => self.begin_possible(choice, options),
            Ok(Some(why)) => Ok(Begun::Declined(why)),
            Err(error) => Err(error),
        }
    }

    /// Does a choice, unless a reason declines it: a move or a drop is installed, and a merge becomes a job, whose tables are
    /// in use from then on. The cost is linear in the tables of the tree; beside that as of `first_reason` of `lsm_checks`.
    ///
    /// # Errors
    ///
    /// `Unrecoverable` after a `CommitUnknown`, with no store call. `OutOfNumbers` where the counter stands at 2^63 or above,
    /// 2^63 merges were opened, or the version's id is 2^64 - 1; `TooManyRuns` where a level would have 256 runs or a run
    /// 2^32 tables; `OutOfMemory`; `Store` where the version's file wasn't written. `CommitUnknown` where replacing `current`
    /// failed: reads stay as they are, and a crash leaves the old version or the new one. `AfterCommit` where the choice is
    /// installed, but the store failed after it: files may stay that nothing needs.
    pub fn begin_choice(&mut self, choice: Choice, options: Options) -> Result<Begun, Error>
        ensures begins { BeginsChoice choice options result self.old.core self.new.core }
        // What a crash leaves, and what the call does to files.
        ensures upholds { S.tells → Upholds (S.world self.old.store) (S.world self.new.store) self.old.core self.new.core }
        ensures files { BeginsFiles result S.tells S.world self.old self.new }
        // As the theories see it: the mark, and after it the move or the drop with its maintenance, or one of unknown outcome.
        ensures deeds { ChoiceDeeds choice options.mvcc_gc_watermark result self.old.core self.new.core }
    {
        compactions_are_deeds();
        self.facts();
        self.begin_checked(choice, options)
    }

    /// What a strategy chooses for the tree as it is now.
    pub fn choose(&self, strategy: &dyn CompactionStrategy) -> Result<Choice, ChooseError>
        ensures chosen { IfOk result (MayAnswer (may_choose strategy.now) self.now.core) }
        ensures refused { IfErr result (MayAnswer (may_refuse strategy.now) self.now.core) }
    {
        let (latest, config) = (self.current_version(), self.tree_config());
        strategy.choose(self.alloc, latest, config, self.compaction_state())
    }

    /// As `choose`, of a strategy whose type is known.
    pub fn choose_with<C: CompactionStrategy>(&self, strategy: &C) -> Result<Choice, ChooseError>
        ensures chosen { IfOk result (MayAnswer (C.may_choose strategy.now) self.now.core) }
        ensures refused { IfErr result (MayAnswer (C.may_refuse strategy.now) self.now.core) }
    {
        let (latest, config) = (self.current_version(), self.tree_config());
        strategy.choose(self.alloc, latest, config, self.compaction_state())
    }

    /// Does what was chosen, and tells a strategy's refusal.
    fn begin_answer(
        &mut self,
        chosen: Result<Choice, ChooseError>,
        options: Options,
    ) -> Result<Begun, Error>
        ensures ok { IfOk chosen (λ choice. BeginsChoice choice options result self.old.core self.new.core) }
        ensures refused { IfErr chosen (λ e. result ≡ Err (error_of e)) }
        ensures same { IfErr chosen (λ e. self.new.core ≡ self.old.core) }
        ensures upholds { S.tells → Upholds (S.world self.old.store) (S.world self.new.store) self.old.core self.new.core }
        ensures files { BeginsFiles result S.tells S.world self.old self.new }
    {
        self.is_upheld();
        match chosen {
            Ok(choice) => self.begin_choice(choice, options),
            Err(error) => Err(told_as(error)),
        }
    }

    /// Asks a strategy for a choice, and does it as `begin_choice` does. The cost is that of both.
    ///
    /// # Errors
    ///
    /// Those of `begin_choice`, and where the strategy has no choice its refusal: `OutOfMemory`, `NotDisjoint`, `Busy`, or
    /// `Strategy` for a reason of its own; then nothing changes. After a `CommitUnknown` it isn't asked. Refused otherwise,
    /// reads stay, and a sequence number may be used.
    pub fn begin_compaction(
        &mut self,
        strategy: &dyn CompactionStrategy,
        options: Options,
    ) -> Result<Begun, Error>
        ensures begins { BeginsCompaction (may_choose strategy.now) (may_refuse strategy.now) options result self.old.core self.new.core }
        // What a crash leaves, and what the call does to files.
        ensures upholds { S.tells → Upholds (S.world self.old.store) (S.world self.new.store) self.old.core self.new.core }
        ensures files { BeginsFiles result S.tells S.world self.old self.new }
    {
        self.is_upheld();
        if self.is_uncertain() {
            return Err(Error::Unrecoverable);
        }
        let chosen = self.choose(strategy);
        self.begin_answer(chosen, options)
    }

    /// As `begin_compaction`, with a strategy whose type is known.
    pub fn begin_with<C: CompactionStrategy>(
        &mut self,
        strategy: &C,
        options: Options,
    ) -> Result<Begun, Error>
        ensures begins { BeginsCompaction (C.may_choose strategy.now) (C.may_refuse strategy.now) options result self.old.core self.new.core }
        // What a crash leaves, and what the call does to files.
        ensures upholds { S.tells → Upholds (S.world self.old.store) (S.world self.new.store) self.old.core self.new.core }
        ensures files { BeginsFiles result S.tells S.world self.old self.new }
    {
        self.is_upheld();
        if self.is_uncertain() {
            return Err(Error::Unrecoverable);
        }
        let chosen = self.choose_with(strategy);
        self.begin_answer(chosen, options)
    }
}
