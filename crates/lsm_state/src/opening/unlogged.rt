// A tree is opened over a store in which no record of a log counts.
ghost use Rattle.std.specs.Prelude.{◌≡◌, ◌≤◌, ◌⊎◌, ℕ, [], Ok, Err, IfOk, IfErr, nat_le};
ghost use Rattle.std.specs.List.{list_any};
ghost use Rattle.lsm_below.specs.Entries.{above};
ghost use Rattle.lsm_below.specs.Sums.{capped};
ghost use Rattle.lsm_store.specs.World.{Same};
ghost use Rattle.lsm_model.specs.Journal.{next_number};
ghost use Rattle.lsm_versions.specs.Configs.{raised};
ghost use Rattle.lsm_manifest.specs.Standing.{HasSmallNumbers};
ghost use Rattle.lsm_manifest.specs.Opening.{LeavesStanding, IsAbove};
ghost use Rattle.lsm_manifest.specs.Looking.{Looks};
ghost use Rattle.lsm_commit.specs.Stored.{CountsFaults};
ghost use Rattle.lsm_state.specs.Core.{opened_core};
ghost use Rattle.lsm_state.specs.Opened.{files_told, store_left, files_found, store_held, found_entries, FoundStanding, StartsFrom, OpensTree};
ghost use Rattle.lsm_state.specs.Unlogged.{HasOnlyPassed, RefusesUnlogged};

use crate::{Found, TreeState};
use lsm_below::{Error, SeqNo, plain_numbers_are_read};
use lsm_parts::Config;
use lsm_store::Store;
use std::alloc::Global;

/// Whether one of the numbers isn't below this one.
fn reaches(numbers: &[SeqNo], from: SeqNo) -> bool
    ensures { result ≡ list_any (λ k. nat_le from k) numbers.now }
{
    for number in numbers {
        if *number >= from {
            return true;
        }
    }
    false
}

impl<S: Store> TreeState<S> {
    /// What a store holds of a tree without a log, as `look`; nothing changes. No record is read.
    ///
    /// # Errors
    ///
    /// As `look`; `Unrecoverable` where a record of a log counts, that is one numbered from the version's `log_from` on, or any where
    /// there is no `current`, and where a name in the folder `log` is none of a record.
    pub fn look_unlogged(alloc: Global, store: S) -> Result<Found<S>, (Error, S)>
        ensures found { S.tells → IfOk result (λ f. Looks (S.world store) (S.world f.store) f.files) }
        // Each record that is there has been passed by a flush.
        ensures passed { S.tells → IfOk result (λ f. HasOnlyPassed (S.world store).gives) }
        ensures refused { S.tells → IfErr result (λ e. RefusesUnlogged (S.world store) (S.world e.1) e.0) }
        ensures leaves { S.tells → LeavesStanding (S.world store) (S.world (store_held result)) }
        ensures same { S.tells → Same (S.world store) (S.world (store_held result)) }
        // What stands is found.
        ensures stands { S.tells → IfOk result (λ f. FoundStanding (S.world store) f.files) }
        ensures next { IfOk result (λ f. IsAbove f.files.opened.next_table_id f.files.opened.version.levels) }
        ensures small { IfOk result (λ f. HasSmallNumbers f.files.opened.version.levels) }
        ensures counts { CountsFaults (S.world store) (S.world (store_held result)) (files_found result) }
    {
        plain_numbers_are_read();
        let mut found = TreeState::look(alloc, store)?;
        let log = match found.check_log(u64::MAX) {
            Ok(log) => log,
            Err(error) => return Err((error, found.into_store())),
        };
        if reaches(&log.passed, found.version().log_from()) {
            return Err((Error::Unrecoverable, found.into_store()));
        }
        Ok(found)
    }

    /// The tree that the files of a store hold, or a new one, with both counters above the sequence numbers of all that was found,
    /// or where the configuration says, if that is higher: what is written is newer than what is there, and a snapshot at the
    /// visible counter sees all that is there. A store in which a record of a log counts is refused: it is to be opened by
    /// `Logged::open`, since another tree over it would not read what the record holds, and its flush would pass it.
    ///
    /// Refused, it gives the store back beside the error.
    ///
    /// # Examples
    ///
    /// ```text
    /// let opened = TreeState::open_unlogged(alloc, Config::new(0, 0, 0), FolderStore::new(&rt, alloc, "data")?);
    /// let mut tree = opened.map_err(|(error, store)| store.explain(error))?;
    /// ```
    ///
    /// # Errors
    ///
    /// As `open`; and `Unrecoverable`, nothing changed, where a record counts or a name in the folder `log` is none of a record.
    pub fn open_unlogged(
        alloc: Global,
        config: Config,
        store: S,
    ) -> Result<TreeState<S>, (Error, S)>
        // Opened, it is as by `open_raised`, and each record that is there has been passed by a flush.
        ensures opens { S.tells → IfOk result (λ t. OpensTree S.world store (Ok t)) }
        ensures passed { S.tells → IfOk result (λ t. HasOnlyPassed (S.world store).gives) }
        // Refused as `open_raised` is, or for what stands in the log, and then nothing has changed.
        ensures refused { S.tells → IfErr result (λ e. OpensTree S.world store (Err e) ⊎ RefusesUnlogged (S.world store) (S.world e.1) e.0) }
        // Both counters stand above what was found.
        ensures core { IfOk result (λ t. t.core ≡ opened_core (raised (capped (above (found_entries t.core))) config) t.core.history.latest.version t.core.next_table) }
        ensures counted { IfOk result (λ t. next_number (found_entries t.core) [] ≤ t.core.seqno) }
        ensures visible { IfOk result (λ t. next_number (found_entries t.core) [] ≤ t.core.visible_seqno) }
        ensures starts { IfOk result (λ t. StartsFrom t.core) }
        ensures next { IfOk result (λ t. IsAbove t.core.next_table t.core.history.latest.version.levels) }
        ensures small { IfOk result (λ t. HasSmallNumbers t.core.history.latest.version.levels) }
        ensures counts { CountsFaults (S.world store) (S.world (store_left result)) (files_told result) }
    {
        let found = TreeState::look_unlogged(alloc, store)?;
        let config = found.raised(config);
        TreeState::open_found(config, found)
    }
}
