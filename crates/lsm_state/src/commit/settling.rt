// How a version takes the place of the latest one, outside a flush.
ghost use Rattle.std.specs.Prelude.{◌≡◌, ◌<◌, ℕ, None, OnOk, IfErr};
ghost use Rattle.lsm_versions.specs.Levels.{all_of};
ghost use Rattle.lsm_commit.specs.Stored.{AreOnDisk};
ghost use Rattle.lsm_commit.specs.Commits.{AreOthers};
ghost use Rattle.lsm_commit.specs.Causes.{HasCause, Blames};
ghost use Rattle.lsm_manifest.specs.Names.{version_name};
ghost use Rattle.lsm_state.specs.Core.{written_of};
ghost use Rattle.lsm_state.specs.Cleaning.{AreAbsent, AreDrawnBelow, LeavesNoFiles, RemovesDrawn, RemovesTables};
ghost use Rattle.lsm_commit.specs.Foreign.{Passes};
ghost use Rattle.lsm_state.specs.Commits.{UpholdsFiles, Upholds};
ghost use Rattle.lsm_state.specs.Settling.{MaySettle, Settles};

use crate::TreeState;
use lsm_below::{SeqNo, TableId};
use lsm_commit::{crashes_leave_versions, remove_tables, remove_written};
use lsm_manifest::names_are_apart;
use lsm_parts::{Error, LIMIT, SuperVersion, Version};
use lsm_store::Store;
use std::collections::HashSet;

impl<S: Store> TreeState<S> {
    /// While nothing is done to a tree its files stay what they are, and a crash leaves one of its versions.
    pub fn is_upheld(&self)
        ensures { S.tells → Upholds (S.world self.now.store) (S.world self.now.store) self.now.core self.now.core }
    {
        crashes_leave_versions(&self.store);
    }

    /// Removes the files of the tables of these ids, which no version has any more.
    fn remove_gone(&mut self, gone: &HashSet<TableId>) -> Result<(), Error>
        requires certain { self.old.core.lost ≡ None }
        requires spares { AreOthers gone.now.keys (written_of self.old.core) }
        requires others { AreOthers gone.now.keys (all_of self.old.core.history.latest.version.levels) }
        ensures core { self.new.core ≡ self.old.core }
        ensures upholds { S.tells → Upholds (S.world self.old.store) (S.world self.new.store) self.old.core self.new.core }
        ensures causes { HasCause (Blames result) (S.world self.old.store) (S.world self.new.store) }
        ensures gone { S.tells → OnOk result (AreAbsent (S.world self.new.store) gone.now.keys) }
        ensures others { S.tells → (i : ℕ) → (S.world self.new.store).gives (version_name i) ≡ (S.world self.old.store).gives (version_name i) }
        ensures only { IfErr result (λ e. e ≡ Error.AfterCommit) }
    {
        names_are_apart();
        match remove_tables(&mut self.store, gone) {
            Ok(()) => Ok(()),
            Err(_) => Err(Error::AfterCommit),
        }
    }

    /// As `remove_gone`, as far as the store lets it.
    pub(crate) fn give_up(&mut self, ids: &HashSet<TableId>)
        requires certain { self.old.core.lost ≡ None }
        requires spares { AreOthers ids.now.keys (written_of self.old.core) }
        requires others { AreOthers ids.now.keys (all_of self.old.core.history.latest.version.levels) }
        ensures core { self.new.core ≡ self.old.core }
        ensures upholds { S.tells → Upholds (S.world self.old.store) (S.world self.new.store) self.old.core self.new.core }
        ensures causes { HasCause ⊥ (S.world self.old.store) (S.world self.new.store) }
        ensures gone { S.tells → RemovesTables ids.now.keys (S.world self.old.store) (S.world self.new.store) }
    {
        let _ = self.remove_gone(ids);
    }

    /// Removes the files of the tables whose ids were drawn from this one on, which no version has, as far as the store lets it.
    pub(crate) fn remove_drawn(&mut self, first: TableId)
        requires certain { self.old.core.lost ≡ None }
        requires fresh { first < LIMIT → AreDrawnBelow first self.old.core }
        ensures core { self.new.core ≡ self.old.core }
        ensures upholds { S.tells → Upholds (S.world self.old.store) (S.world self.new.store) self.old.core self.new.core }
        ensures causes { HasCause ⊥ (S.world self.old.store) (S.world self.new.store) }
        ensures gone { S.tells → first < LIMIT → RemovesDrawn first self.old.core.next_table (S.world self.old.store) (S.world self.new.store) }
    {
        self.is_upheld();
        if first < LIMIT {
            let next = self.next_table.get();
            let _ = remove_written(&mut self.store, first, next);
        }
    }

    /// Installs a version, whose tables are on the disk, and cleans up after it: maintenance at a watermark, and then the
    /// files of the tables of these ids go, unless maintenance failed.
    ///
    /// # Errors
    ///
    /// Those of `commit`, and `AfterCommit` where the version is installed, but the store failed after the commit.
    pub(crate) fn settle(
        &mut self,
        version: Version,
        watermark: SeqNo,
        gone: &HashSet<TableId>,
    ) -> Result<(), Error>
        requires { MaySettle version gone.now.keys self.old.core }
        ensures settles { Settles version watermark result self.old.core self.new.core }
        ensures upholds { S.tells → AreOnDisk (S.world self.old.store) (all_of version.levels) → UpholdsFiles (S.world self.old.store) (S.world self.new.store) self.old.core self.new.core }
        ensures passes { S.tells → Passes (S.world self.old.store) (S.world self.new.store) }
        ensures causes { HasCause (Blames result) (S.world self.old.store) (S.world self.new.store) }
        ensures gone { S.tells → OnOk result (LeavesNoFiles (S.world self.new.store) self.old.core.history self.new.core.history) }
    {
        crashes_leave_versions(&self.store);
        let latest = self.history.latest_version();
        let next = SuperVersion {
            active_memtable: latest.active_memtable,
            sealed_memtables: latest.sealed_memtables.copy()?,
            version,
            seqno: self.seqno.get(),
        };
        self.commit(next, None)?;
        if !self.clean_up(watermark) {
            return Err(Error::AfterCommit);
        }
        self.remove_gone(gone)
    }
}
