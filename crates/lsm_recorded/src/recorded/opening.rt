// A recorded tree is opened over a store, and gives it back.
ghost use Rattle.std.specs.Prelude.{◌≡◌, ◌⊎◌, [], Ok, Err, length, IfOk, IfErr};
ghost use Rattle.lsm_below.specs.Entries.{above};
ghost use Rattle.lsm_below.specs.Sums.{capped};
ghost use Rattle.lsm_model.specs.Views.{held};
ghost use Rattle.lsm_versions.specs.Configs.{raised};
ghost use Rattle.lsm_versions.specs.Levels.{all_of, placed_of};
ghost use Rattle.lsm_manifest.specs.Looking.{Looks};
ghost use Rattle.lsm_manifest.specs.Opening.{IsAbove, LeavesStanding};
ghost use Rattle.lsm_manifest.specs.Recovery.{CountsStore};
ghost use Rattle.lsm_manifest.specs.Standing.{HasSmallNumbers};
ghost use Rattle.lsm_manifest.specs.Told.{Told, TellsOpen};
ghost use Rattle.lsm_commit.specs.Stored.{CountsFaults};
ghost use Rattle.lsm_state.specs.Core.{opened_core};
ghost use Rattle.lsm_state.specs.Opened.{FoundStanding};
ghost use Rattle.lsm_state.specs.Unlogged.{HasOnlyPassed, RefusesUnlogged};

use crate::opened::{OpenedMarks, opened_of};
use crate::recorded::Recorded;
use lsm_below::{Error, TableId};
use lsm_manifest::openings_leave_what_was_read;
use lsm_model::{maps_are_read, reads_are_sound};
use lsm_parts::{Config, Version};
use lsm_state::{Found, TreeState};
use lsm_store::Store;
use std::alloc::Global;

impl<S: Store> Recorded<S> {
    ghost use Rattle.lsm_recorded.specs.MarkedTables.{TablesAreInOrder};
    ghost use Rattle.lsm_recorded.specs.Opened.{files_told, store_left, OpensRecorded};

    /// Loses acknowledged batches at the next flush where a record of a log counts, which `open_unlogged` refuses.
    ///
    /// The tree that the files of a store hold, as `TreeState::open`, with an empty journal. Its counters start where the
    /// configuration says, or above the greatest sequence number that was found. The order of later writes counts
    /// what the tables hold.
    ///
    /// It costs a look-up in the marks of the keys for each entry, which is logarithmic in their number. Refused, it
    /// gives the store back beside the error.
    ///
    /// # Errors
    ///
    /// As `TreeState::open`; and `Unrecoverable`, before anything is removed, exactly where the tables aren't in order: for
    /// some key the sequence numbers don't fall from the newest table to the oldest, or a weak tombstone stands over two
    /// values.
    pub fn open(alloc: Global, config: Config, store: S) -> Result<Recorded<S>, (Error, S)>
        ensures opens { S.tells → OpensRecorded S.world store result }
        // The tree has the version, and else nothing yet; both counters stand above what its tables hold.
        ensures core { IfOk result (λ t. t.tree.core ≡ opened_core (raised (above (held t.opened)) config) t.tree.core.history.latest.version t.tree.core.next_table) }
        ensures journal { IfOk result (λ t. t.journal ≡ []) }
        ensures opened { IfOk result (λ t. t.opened ≡ placed_of t.tree.core.history.latest.version.levels) }
        // Whatever the store tells: its tables are in order, the next id is above those of the tables, and each entry is
        // numbered below 2^63.
        ensures ordered { IfOk result (λ t. TablesAreInOrder t.tree.core.history.latest.version.levels) }
        ensures next { IfOk result (λ t. IsAbove t.tree.core.next_table t.tree.core.history.latest.version.levels) }
        ensures small { IfOk result (λ t. HasSmallNumbers t.tree.core.history.latest.version.levels) }
        ensures counts { Told TellsOpen (CountsStore (S.world store) (S.world (store_left result))) (files_told result) }
    {
        openings_leave_what_was_read(&store);
        let found = TreeState::look(alloc, store)?;
        Recorded::open_found(alloc, config, found)
    }

    /// The tree that the files of a store hold, as `open`, but a store in which a record of a log counts is refused: another tree
    /// than `Logged` over it would not read what the record holds, and its flush would pass it.
    ///
    /// # Errors
    ///
    /// As `open`; and `Unrecoverable`, nothing changed, where a record counts or a name in the folder `log` is none of a record.
    pub fn open_unlogged(alloc: Global, config: Config, store: S) -> Result<Recorded<S>, (Error, S)>
        ensures opens { S.tells → IfOk result (λ t. OpensRecorded S.world store (Ok t)) }
        ensures passed { S.tells → IfOk result (λ t. HasOnlyPassed (S.world store).gives) }
        ensures refused { S.tells → IfErr result (λ e. OpensRecorded S.world store (Err e) ⊎ RefusesUnlogged (S.world store) (S.world e.1) e.0) }
        // The tree has the version, and else nothing yet; both counters stand above what its tables hold.
        ensures core { IfOk result (λ t. t.tree.core ≡ opened_core (raised (above (held t.opened)) config) t.tree.core.history.latest.version t.tree.core.next_table) }
        ensures journal { IfOk result (λ t. t.journal ≡ []) }
        ensures opened { IfOk result (λ t. t.opened ≡ placed_of t.tree.core.history.latest.version.levels) }
        ensures ordered { IfOk result (λ t. TablesAreInOrder t.tree.core.history.latest.version.levels) }
        ensures next { IfOk result (λ t. IsAbove t.tree.core.next_table t.tree.core.history.latest.version.levels) }
        ensures small { IfOk result (λ t. HasSmallNumbers t.tree.core.history.latest.version.levels) }
        ensures counts { CountsFaults (S.world store) (S.world (store_left result)) (files_told result) }
    {
        let found = TreeState::look_unlogged(alloc, store)?;
        Recorded::open_found(alloc, config, found)
    }

    /// The tree of what was found.
    fn open_found(alloc: Global, config: Config, found: Found<S>) -> Result<Recorded<S>, (Error, S)>
        requires next { IsAbove found.files.opened.next_table_id found.files.opened.version.levels }
        requires small { HasSmallNumbers found.files.opened.version.levels }
        ensures opens { S.tells → (first : S) → Looks (S.world first) (S.world found.store) found.files → FoundStanding (S.world first) found.files → LeavesStanding (S.world first) (S.world found.store) → OpensRecorded S.world first result }
        ensures core { IfOk result (λ t. t.tree.core ≡ opened_core (raised (above (held t.opened)) config) t.tree.core.history.latest.version t.tree.core.next_table) }
        ensures journal { IfOk result (λ t. t.journal ≡ []) }
        ensures opened { IfOk result (λ t. t.opened ≡ placed_of t.tree.core.history.latest.version.levels) }
        ensures ordered { IfOk result (λ t. TablesAreInOrder t.tree.core.history.latest.version.levels) }
        ensures next { IfOk result (λ t. IsAbove t.tree.core.next_table t.tree.core.history.latest.version.levels) }
        ensures small { IfOk result (λ t. HasSmallNumbers t.tree.core.history.latest.version.levels) }
        ensures counts { Told TellsOpen (CountsStore (S.world found.store) (S.world (store_left result))) (files_told result) }
    {
        reads_are_sound();
        maps_are_read();
        openings_leave_what_was_read(found.store());
        let (OpenedMarks { marks, least }, opened) = match opened_of(alloc, found.version()) {
            Ok(Some(marks)) => marks,
            Ok(None) => return Err((Error::Unrecoverable, found.into_store())),
            Err(_) => return Err((Error::OutOfMemory, found.into_store())),
        };
        let core = found.open(config.raised(least))?;
        Ok(Recorded {
            alloc,
            core,
            journal: Vec::new(alloc),
            marks,
            floor: 0,
            least,
            opened,
        })
    }

    /// The store, to look at.
    pub fn store(&self) -> &S
        ensures { result.now ≡ self.now.tree.store }
    {
        self.core.store()
    }

    /// The store, in exchange for the tree and its journal. What stands in memtables alone is gone.
    pub fn into_store(self) -> S
        ensures { result ≡ self.tree.store }
    {
        self.core.into_store()
    }

    /// The latest version.
    pub fn current_version(&self) -> &Version
        ensures { result.now ≡ self.now.tree.core.history.latest.version }
    {
        self.core.current_version()
    }

    /// How many tables the latest version has.
    pub fn table_count(&self) -> usize
        ensures { result ≡ capped (length (all_of self.now.tree.core.history.latest.version.levels)) }
    {
        self.core.table_count()
    }

    /// The id that the next table gets.
    pub fn next_table_id(&self) -> TableId
        ensures { result ≡ self.now.tree.core.next_table }
    {
        self.core.next_table_id()
    }
}
