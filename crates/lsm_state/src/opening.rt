// A tree is opened over a store, and gives it back.
ghost use Rattle.std.specs.Prelude.{◌≡◌, ◌≤◌, ℕ, [], Ok, Err, length, IfOk, IfErr, if◌then◌else◌};
ghost use Rattle.lsm_below.specs.Entries.{above};
ghost use Rattle.lsm_below.specs.Sums.{capped};
ghost use Rattle.lsm_store.specs.World.{Same};
ghost use Rattle.lsm_model.specs.Journal.{next_number};
ghost use Rattle.lsm_versions.specs.Configs.{raised};
ghost use Rattle.lsm_versions.specs.Levels.{Levels as SeenLevels, all_of};
ghost use Rattle.lsm_manifest.specs.Recovery.{Levels, CountsStore};
ghost use Rattle.lsm_manifest.specs.Standing.{HasSmallNumbers, StandsFor};
ghost use Rattle.lsm_manifest.specs.Told.{Told, TellsOpen};
ghost use Rattle.lsm_manifest.specs.Opening.{Opens, OpensAs, LeavesStanding, IsAbove};
ghost use Rattle.lsm_manifest.specs.Looking.{Looks};
ghost use Rattle.lsm_state.specs.Core.{opened_core};
ghost use Rattle.lsm_state.specs.Opened.{files_told, store_left, files_found, store_held, found_entries, StartsFrom, OpensTree};

use crate::TreeState;
pub use found::Found;
use lsm_below::{Error, TableId};
use lsm_commit::openings_pass;
use lsm_manifest::{
    found_tables_show, images_stand_once, look_for_files, opening_finds,
    openings_leave_what_was_read,
};
use lsm_model::opening_starts;
use lsm_parts::{Config, Version};
use lsm_store::Store;
use std::alloc::Global;

impl<S: Store> TreeState<S> {
    /// Loses writes where the counters start below what the store holds, and acknowledged batches where a record of a log counts:
    /// `open_unlogged` is the call for any store.
    ///
    /// The tree that the files of a store hold, or a new one where there is no `current`. Its memtable is empty, its
    /// counters start where the configuration says: below what is there, what is written is hidden by older entries with greater
    /// sequence numbers, and lost at the next merge. Files that no version names are removed after all checks. Each named file
    /// is read once; from then on reads make no store call.
    ///
    /// Refused, it gives the store back beside the error.
    ///
    /// # Errors
    ///
    /// As `open_files` of `lsm_manifest`: `InvalidVersion(1)` where a file `version` is there; `InvalidHeader`,
    /// `InvalidTag`, `InvalidVersion`, `ChecksumMismatch` and `Unrecoverable` where files are damaged or foreign;
    /// `OutOfNumbers` where an entry is numbered 2^63 or more; `OutOfMemory`, `Store`, and for a new tree
    /// `CommitUnknown`.
    pub fn open(alloc: Global, config: Config, store: S) -> Result<TreeState<S>, (Error, S)>
        // What stands is opened, or the first thing that is wrong is told; and what a crash in it may leave.
        ensures opens { S.tells → OpensTree S.world store result }
        // The tree has the version, and else nothing yet. Its reads are then those of the theory, from what its tables show.
        ensures core { IfOk result (λ t. t.core ≡ opened_core config t.core.history.latest.version t.core.next_table) }
        ensures starts { IfOk result (λ t. StartsFrom t.core) }
        // Whatever the store tells: the next id is above those of the tables, and each entry is numbered below 2^63.
        ensures next { IfOk result (λ t. IsAbove t.core.next_table t.core.history.latest.version.levels) }
        ensures small { IfOk result (λ t. HasSmallNumbers t.core.history.latest.version.levels) }
        ensures counts { Told TellsOpen (CountsStore (S.world store) (S.world (store_left result))) (files_told result) }
    {
        TreeState::open_so(alloc, config, store, false)
    }

    /// Loses acknowledged batches at the next flush where a record of a log counts, which `open_unlogged` refuses.
    ///
    /// The tree that the files of a store hold, as `open`, but its counters start above the sequence numbers of all that
    /// was found, or where the configuration says, if that is higher.
    ///
    /// # Errors
    ///
    /// As `open`.
    pub fn open_raised(alloc: Global, config: Config, store: S) -> Result<TreeState<S>, (Error, S)>
        ensures opens { S.tells → OpensTree S.world store result }
        // Both counters stand above what was found: the order of writes begins there.
        ensures core { IfOk result (λ t. t.core ≡ opened_core (raised (capped (above (found_entries t.core))) config) t.core.history.latest.version t.core.next_table) }
        ensures counted { IfOk result (λ t. next_number (found_entries t.core) [] ≤ t.core.seqno) }
        ensures visible { IfOk result (λ t. next_number (found_entries t.core) [] ≤ t.core.visible_seqno) }
        ensures starts { IfOk result (λ t. StartsFrom t.core) }
        ensures next { IfOk result (λ t. IsAbove t.core.next_table t.core.history.latest.version.levels) }
        ensures small { IfOk result (λ t. HasSmallNumbers t.core.history.latest.version.levels) }
        ensures counts { Told TellsOpen (CountsStore (S.world store) (S.world (store_left result))) (files_told result) }
    {
        TreeState::open_so(alloc, config, store, true)
    }

    /// The tree of what is found, whose counters are raised above it or not.
    fn open_so(
        alloc: Global,
        config: Config,
        store: S,
        raises: bool,
    ) -> Result<TreeState<S>, (Error, S)>
        ensures opens { S.tells → OpensTree S.world store result }
        ensures core { IfOk result (λ t. t.core ≡ opened_core (if raises then raised (capped (above (found_entries t.core))) config else config) t.core.history.latest.version t.core.next_table) }
        ensures starts { IfOk result (λ t. StartsFrom t.core) }
        ensures next { IfOk result (λ t. IsAbove t.core.next_table t.core.history.latest.version.levels) }
        ensures small { IfOk result (λ t. HasSmallNumbers t.core.history.latest.version.levels) }
        ensures counts { Told TellsOpen (CountsStore (S.world store) (S.world (store_left result))) (files_told result) }
    {
        opening_finds(&store);
        openings_leave_what_was_read(&store);
        let found = TreeState::look(alloc, store)?;
        let config = found.config_for(config, raises);
        TreeState::open_found(config, found)
    }

    /// The tree of what was found.
    fn open_found(config: Config, found: Found<S>) -> Result<TreeState<S>, (Error, S)>
        ensures opens { S.tells → (first : S) → Looks (S.world first) (S.world found.store) found.files → OpensTree S.world first result }
        ensures core { IfOk result (λ t. t.core ≡ opened_core config found.files.opened.version found.files.opened.next_table_id) }
        ensures starts { IfOk result (λ t. StartsFrom t.core) }
        ensures counts { Told TellsOpen (CountsStore (S.world found.store) (S.world (store_left result))) (files_told result) }
    {
        opening_finds(found.store());
        opening_starts();
        found_tables_show();
        images_stand_once();
        openings_pass(found.store());
        openings_leave_what_was_read(found.store());
        found.version().facts();
        found.open(config)
    }

    /// What a store holds of a tree, read and checked, with the store, of which nothing has changed: the first part of
    /// `open`, with which `Found::open` goes on.
    ///
    /// # Errors
    ///
    /// As `open`, `CommitUnknown` aside.
    pub fn look(alloc: Global, store: S) -> Result<Found<S>, (Error, S)>
        ensures found { S.tells → IfOk result (λ f. Looks (S.world store) (S.world f.store) f.files) }
        // Refused, the store is opened as it is.
        ensures refused { S.tells → IfErr result (λ e. Told TellsOpen (Opens (S.world store) (S.world e.1)) (Err e.0)) }
        // What stands is found.
        ensures stands { S.tells → (id : ℕ) (ls : Levels) (ts : SeenLevels) → StandsFor (S.world store).gives id ls ts → HasSmallNumbers ts → IfOk result (λ f. OpensAs id ls ts (Ok f.files.opened)) }
        ensures leaves { S.tells → LeavesStanding (S.world store) (S.world (store_held result)) }
        ensures same { S.tells → Same (S.world store) (S.world (store_held result)) }
        // Nothing is committed, so no outcome is unknown.
        ensures sure { S.tells → IfErr result (λ e. e.0 ≡ Error.CommitUnknown → ⊥) }
        ensures next { IfOk result (λ f. IsAbove f.files.opened.next_table_id f.files.opened.version.levels) }
        ensures small { IfOk result (λ f. HasSmallNumbers f.files.opened.version.levels) }
        ensures counts { Told TellsOpen (CountsStore (S.world store) (S.world (store_held result))) (files_found result) }
    {
        let mut store = store;
        match look_for_files(alloc, &mut store) {
            Ok(files) => Ok(Found {
                alloc,
                store,
                files,
            }),
            Err(error) => Err((error, store)),
        }
    }

    /// The store, to look at.
    pub fn store(&self) -> &S
        ensures { result.now ≡ self.now.store }
    {
        &self.store
    }

    /// The store, in exchange for the tree. What stands in memtables alone is gone.
    pub fn into_store(self) -> S
        ensures { result ≡ self.store }
    {
        self.store
    }

    /// The latest version.
    pub fn current_version(&self) -> &Version
        ensures { result.now ≡ self.now.core.history.latest.version }
    {
        &self.history.latest_version().version
    }

    /// How many tables the latest version has.
    pub fn table_count(&self) -> usize
        ensures { result ≡ capped (length (all_of self.now.core.history.latest.version.levels)) }
    {
        self.current_version().table_count()
    }

    /// The id that the next table gets.
    pub fn next_table_id(&self) -> TableId
        ensures { result ≡ self.now.core.next_table }
    {
        self.next_table.get()
    }
}

mod found;
mod unlogged;
