// What a store holds of a tree, before anything is changed.
ghost use Rattle.std.specs.Prelude.{◌≡◌, IfOk, if◌then◌else◌};
ghost use Rattle.lsm_below.specs.Entries.{above};
ghost use Rattle.lsm_below.specs.Sums.{capped};
ghost use Rattle.lsm_model.specs.Views.{held};
ghost use Rattle.lsm_versions.specs.Configs.{raised};
ghost use Rattle.lsm_versions.specs.Levels.{placed_of};
ghost use Rattle.lsm_manifest.specs.Recovery.{CountsStore};
ghost use Rattle.lsm_manifest.specs.Told.{Told, TellsOpen};
ghost use Rattle.lsm_manifest.specs.Opening.{Opens, LeavesStanding};
ghost use Rattle.lsm_manifest.specs.Looking.{Looks};
ghost use Rattle.lsm_manifest.specs.Ready.{IsReady};
ghost use Rattle.lsm_commit.specs.Stored.{IsStored};
ghost use Rattle.lsm_state.specs.Core.{versions_left, written_of, opened_core};
ghost use Rattle.lsm_state.specs.Opened.{files_told, store_left, StartsFrom};

use crate::TreeState;
use lsm_below::Error;
use lsm_commit::opening_stores;
use lsm_compaction::OpenMerges;
use lsm_manifest::{Found as FoundFiles, finish_opening};
use lsm_parts::{Config, Memtables, SequenceNumberCounter, SuperVersions, Version};
use lsm_store::Store;
use std::alloc::Global;

/// What a store holds of a tree, read and checked, with the store, of which nothing has changed.
///
/// ```text
/// let found = TreeState::look(alloc, store)?;
/// let config = found.raised(Config::new(0, 0, 0));
/// let tree = found.open(config)?;
/// ```
#[derive(Drop)]
pub struct Found<S: Store> {
    pub(crate) alloc: Global,
    pub(crate) store: S,
    pub(crate) files: FoundFiles,
}

impl<S: Store> Found<S> {
    /// The version that the tree will have.
    pub fn version(&self) -> &Version
        ensures { result.now ≡ self.now.files.opened.version }
    {
        &self.files.opened.version
    }

    /// The store, to look at.
    pub fn store(&self) -> &S
        ensures { result.now ≡ self.now.store }
    {
        &self.store
    }

    /// The configuration with both counters above the sequence numbers of all that was found: what is written to the tree
    /// that is opened with it is newer than what was there. `TreeState::open_raised` opens so.
    pub fn raised(&self, config: Config) -> Config
        ensures { result ≡ raised (capped (above (held (placed_of self.now.files.opened.version.levels)))) config }
    {
        config.raised(self.version().next_seqno())
    }

    /// The configuration, with its counters above all that was found, or as they are.
    pub(crate) fn config_for(&self, config: Config, raises: bool) -> Config
        ensures { result ≡ (if raises then raised (capped (above (held (placed_of self.now.files.opened.version.levels)))) config else config) }
    {
        if raises { self.raised(config) } else { config }
    }

    /// The store, in exchange.
    pub fn into_store(self) -> S
        ensures { result ≡ self.store }
    {
        self.store
    }

    /// The tree of what was found, whose counters start where the configuration says: orphans are removed, or a new
    /// tree is persisted. Refused, it gives the store back beside the error.
    ///
    /// # Errors
    ///
    /// `OutOfMemory`, `Store`, and for a new tree `CommitUnknown`.
    pub fn open(self, config: Config) -> Result<TreeState<S>, (Error, S)>
        // With the looking before it, from `first` on, it is an opening.
        ensures opens { S.tells → (first : S) → Looks (S.world first) (S.world self.store) self.files → Told TellsOpen (Opens (S.world first) (S.world (store_left result))) (files_told result) }
        ensures leaves { S.tells → (first : S) → Looks (S.world first) (S.world self.store) self.files → LeavesStanding (S.world first) (S.world (store_left result)) }
        // Where the store was ready to be opened, the tree's files are stored.
        ensures stored { S.tells → (first : S) → Looks (S.world first) (S.world self.store) self.files → IsReady (S.world first) → IfOk result (λ t. IsStored (S.world t.store) (versions_left t.core) (written_of t.core)) }
        ensures core { IfOk result (λ t. t.core ≡ opened_core config self.files.opened.version self.files.opened.next_table_id) }
        // Its reads are then those of the theory, from what its tables show.
        ensures starts { IfOk result (λ t. StartsFrom t.core) }
        ensures counts { Told TellsOpen (CountsStore (S.world self.store) (S.world (store_left result))) (files_told result) }
    {
        let Found {
            alloc,
            store,
            files,
        } = self;
        let mut store = store;
        opening_stores(&store);
        match finish_opening(alloc, &mut store, files) {
            Ok(opened) => {
                opened.version.facts();
                Ok(TreeState {
                    alloc,
                    store,
                    config,
                    memtables: Memtables::new(alloc, 0),
                    history: SuperVersions::new(alloc, opened.version),
                    next_memtable: SequenceNumberCounter::new(1),
                    next_table: SequenceNumberCounter::new(opened.next_table_id),
                    next_job: 0,
                    moment: 0,
                    seqno: SequenceNumberCounter::new(config.seqno),
                    visible_seqno: SequenceNumberCounter::new(config.visible_seqno),
                    flush: None,
                    lost: None,
                    merges: OpenMerges::new(alloc),
                })
            }
            Err(error) => Err((error, store)),
        }
    }
}
