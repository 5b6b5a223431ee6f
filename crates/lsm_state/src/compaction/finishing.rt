// How a merge ends.
ghost use Rattle.std.specs.Prelude.{ℕ, ◌≡◌, ◌≤◌, ◌<◌, ◌⊎◌, ◌↔◌, ◌+◌, true, false, None, length, IsTrue, Ok, IfOk, IfErr, OnOk, IsErrOf};
ghost use Rattle.std.specs.List.{range_with_len, AllByRecursion};
ghost use Rattle.lsm_below.specs.Optimizes.{tables_of};
ghost use Rattle.lsm_checks.specs.Choices.{EndsAs};
ghost use Rattle.lsm_commit.specs.Stored.{AreOnDisk};
ghost use Rattle.lsm_commit.specs.Contents.{AreWritten, FilesAreTables};
ghost use Rattle.lsm_compaction.specs.OpenMerges.{IsOpenIn};
ghost use Rattle.lsm_versions.specs.Refusals.{IsRefusedFor};
ghost use Rattle.lsm_commit.specs.Causes.{HasCause, Blames};
ghost use Rattle.lsm_state.specs.Cleaning.{LeavesNoFiles};
ghost use Rattle.lsm_state.specs.Commits.{Upholds};
ghost use Rattle.lsm_state.specs.Flushes.{with_next_table};
ghost use Rattle.lsm_state.specs.Deeds.{IsNoDeed};
ghost use Rattle.lsm_state.specs.Settling.{MaySettle, HasItsTables};
ghost use Rattle.lsm_state.specs.Compactions.{levels_of, closed, AreMerged, MayMerge, IsMergedInto, DrawsFor, InstallsMerge, Ends, EndsOrRests, Spends, Finishes};
ghost use Rattle.lsm_state.specs.CompactionDeeds.{MergeDeeds};
ghost use Rattle.lsm_state.specs.OwnInputs.{HasOwnInputs};
ghost use Rattle.lsm_state.specs.Files.{FinishesFiles};

use crate::{Finished, TreeState, compactions_are_deeds};
use bytes::Bytes;
use lsm_below::TableId;
use lsm_checks::{Why, last_reason, last_reason_by_ids};
use lsm_commit::{files_are_tables, write_contents};
use lsm_compaction::{CompactionJob, MergedCompaction};
use lsm_parts::{Error, LIMIT, Version};
use lsm_store::Store;
use lsm_tables::Table;
use lsm_versions::changes_keep_tables;

impl<S: Store> TreeState<S> {
    /// Closes the merge of a job, where it is open, and answers whether it was.
    fn spend(&mut self, job: &CompactionJob) -> bool
        ensures open { IsTrue result ↔ IsOpenIn job.now self.old.core.merges.underway }
        ensures closed { result ≡ true → self.new.core ≡ closed job.now.number self.old.core }
        ensures other { result ≡ false → self.new.core ≡ self.old.core }
        ensures store { self.new.store ≡ self.old.store }
    {
        if !self.merges.is_open(job) {
            return false;
        }
        self.merges.close(job.number());
        true
    }

    /// Gives up a merge: its tables aren't in use any more. Nothing was written for it. A job that isn't open changes nothing.
    /// The cost is linear in the open merges, and in the ids of the job.
    pub fn abandon_compaction(&mut self, job: CompactionJob)
        ensures spends { Spends job self.old.core self.new.core }
        ensures store { self.new.store ≡ self.old.store }
        ensures upholds { S.tells → Upholds (S.world self.old.store) (S.world self.new.store) self.old.core self.new.core }
        ensures deeds { IsNoDeed self.old.core self.new.core }
    {
        self.is_upheld();
        self.spend(&job);
        drop(job.keep());
    }

    /// Where contents are written that are the files of tables, the tables are on the disk.
    fn see_files(&self)
        ensures { S.tells → FilesAreTables (S.world self.now.store) }
    {
        files_are_tables(&self.store);
    }

    /// Writes contents of files under the next ids, and answers these.
    fn write_files(&mut self, contents: &[Bytes]) -> Result<Vec<TableId>, Error>
        requires certain { self.old.core.lost ≡ None }
        ensures ids { IfOk result (λ ids. ids.items ≡ range_with_len self.old.core.next_table (length contents.now)) }
        ensures below { IfOk result (λ ids. AllByRecursion (λ i. i < LIMIT) ids.items) }
        ensures next { IfOk result (λ _. self.new.core.next_table ≡ self.old.core.next_table + length contents.now) }
        ensures rises { self.old.core.next_table ≤ self.new.core.next_table }
        ensures draws { self.new.core.next_table ≤ self.old.core.next_table + length contents.now }
        ensures core { self.new.core ≡ with_next_table self.new.core.next_table self.old.core }
        ensures on_disk { S.tells → IfOk result (λ ids. AreWritten (S.world self.new.store) ids.items contents.now) }
        ensures upholds { S.tells → Upholds (S.world self.old.store) (S.world self.new.store) self.old.core self.new.core }
        ensures causes { HasCause (Blames result) (S.world self.old.store) (S.world self.new.store) }
        ensures out_of_numbers { IsErrOf result Error.OutOfNumbers → LIMIT ≤ self.new.core.next_table }
        ensures only { IfErr result (λ e. ((e ≡ Error.OutOfMemory) ⊎ (e ≡ Error.Store)) ⊎ (e ≡ Error.OutOfNumbers)) }
    {
        self.is_upheld();
        if contents.is_empty() {
            return Ok(Vec::new(self.alloc));
        }
        let mut next = self.next_table.get();
        if next >= LIMIT {
            return Err(Error::OutOfNumbers);
        }
        let written = write_contents(self.alloc, &mut self.store, &mut next, contents);
        self.next_table.set(next);
        written
    }

    /// Writes the files of a merge, and answers the tables, which share the bytes.
    fn write_merged(&mut self, merged: &MergedCompaction) -> Result<Vec<Table>, Error>
        requires certain { self.old.core.lost ≡ None }
        ensures merged { IfOk result (λ tables. AreMerged merged.now.job self.new.core tables.items) }
        ensures fresh { IfOk result (λ tables. AllByRecursion (λ t. self.old.core.next_table ≤ t.id) tables.items) }
        ensures rises { self.old.core.next_table ≤ self.new.core.next_table }
        ensures draws { DrawsFor merged.now.job self.old.core.next_table self.new.core.next_table }
        ensures core { self.new.core ≡ with_next_table self.new.core.next_table self.old.core }
        ensures on_disk { S.tells → IfOk result (λ tables. AreOnDisk (S.world self.new.store) tables.items) }
        ensures upholds { S.tells → Upholds (S.world self.old.store) (S.world self.new.store) self.old.core self.new.core }
        ensures causes { HasCause (Blames result) (S.world self.old.store) (S.world self.new.store) }
        ensures out_of_numbers { IsErrOf result Error.OutOfNumbers → LIMIT ≤ self.new.core.next_table }
        ensures only { IfErr result (λ e. ((e ≡ Error.OutOfMemory) ⊎ (e ≡ Error.Store)) ⊎ (e ≡ Error.OutOfNumbers)) }
    {
        self.facts();
        merged.facts();
        let ids = match self.write_files(merged.files()) {
            Ok(ids) => ids,
            Err(error) => return Err(error),
        };
        self.see_files();
        merged.tables(&ids)
    }

    /// The version that a merge makes, of the tables that it made.
    fn version_merged(&self, job: &CompactionJob, tables: &[Table]) -> Result<Version, Error>
        requires may { MayMerge job.now self.now.core }
        requires merged { AreMerged job.now self.now.core tables.now }
        ensures made { IfOk result (λ v. (first : ℕ) → AllByRecursion (λ t. first ≤ t.id) tables.now → IsMergedInto first job.now self.now.core.history.latest.version v) }
        ensures settles { IfOk result (λ v. MaySettle v job.now.ids self.now.core) }
        ensures on_disk { S.tells → AreOnDisk (S.world self.now.store) tables.now → IfOk result (HasItsTables (S.world self.now.store) self.now.core) }
        ensures err { IfErr result (IsRefusedFor job.now.ids tables.now job.now.settings.dest_level self.now.core.history.latest.version) }
    {
        changes_keep_tables();
        self.facts();
        job.facts();
        let latest = self.current_version();
        latest.facts();
        let to = usize::from(job.settings().dest_level);
        let version = latest.with_merge(self.alloc, job.ids(), tables, to)?;
        version.facts();
        Ok(version)
    }

    /// Installs a merge that no reason declines: its files are written, and a version with its tables in place of its inputs.
    fn install_written(&mut self, merged: &MergedCompaction) -> Result<Finished, Error>
        requires { MayMerge merged.now.job self.old.core }
        ensures installs { InstallsMerge merged.now.job result self.old.core self.new.core }
        ensures done { IfOk result (λ f. f ≡ Finished.Installed) }
        ensures upholds { S.tells → Upholds (S.world self.old.store) (S.world self.new.store) self.old.core self.new.core }
        ensures causes { HasCause (Blames result) (S.world self.old.store) (S.world self.new.store) }
        ensures gone { S.tells → OnOk result (LeavesNoFiles (S.world self.new.store) self.old.core.history self.new.core.history) }
        ensures rests { IfOk result (λ f. EndsOrRests f self.old.store self.new.store) }
    {
        self.is_upheld();
        merged.facts();
        if self.seqno.get() >= LIMIT {
            return Err(Error::OutOfNumbers);
        }
        let tables = match self.write_merged(merged) {
            Ok(tables) => tables,
            Err(error) => return Err(error),
        };
        let job = merged.job();
        let version = match self.version_merged(job, &tables) {
            Ok(version) => version,
            Err(error) => return Err(error),
        };
        match self.settle(version, job.settings().watermark, job.ids()) {
            Ok(()) => Ok(Finished::Installed),
            Err(error) => Err(error),
        }
    }

    /// As `install_written`; refused, the files that were written are removed, as far as the store lets it, unless the version
    /// that names them may be the current one.
    fn install_merge(&mut self, merged: &MergedCompaction) -> Result<Finished, Error>
        requires { MayMerge merged.now.job self.old.core }
        ensures installs { InstallsMerge merged.now.job result self.old.core self.new.core }
        ensures done { IfOk result (λ f. f ≡ Finished.Installed) }
        ensures upholds { S.tells → Upholds (S.world self.old.store) (S.world self.new.store) self.old.core self.new.core }
        ensures files { FinishesFiles result S.tells S.world self.old self.new }
    {
        let first = self.next_table.get();
        match self.install_written(merged) {
            Ok(finished) => Ok(finished),
            Err(Error::CommitUnknown) => Err(Error::CommitUnknown),
            Err(Error::AfterCommit) => Err(Error::AfterCommit),
            Err(error) => {
                self.remove_drawn(first);
                Err(error)
            }
        }
    }

    /// The first reason to decline a merge at its end. Where its inputs are known to be tables of this tree, ids are
    /// compared alone.
    fn reason_at_end(&self, job: &CompactionJob, own: bool) -> Result<Option<Why>, Error>
        requires own { own ≡ true → HasOwnInputs job.now self.now.core }
        ensures ends { IfOk result (EndsAs (tables_of job.now.inputs) job.now.ids job.now.settings.dest_level (levels_of self.now.core)) }
        ensures memory { IfErr result (λ e. e ≡ Error.OutOfMemory) }
    {
        let inputs = job.input_tables()?;
        let to = usize::from(job.settings().dest_level);
        let latest = self.current_version();
        if own {
            return Ok(last_reason_by_ids(self.alloc, &inputs, job.ids(), to, latest)?);
        }
        Ok(last_reason(self.alloc, &inputs, job.ids(), to, latest)?)
    }

    /// Ends a merge that is closed.
    fn finish_closed(&mut self, merged: &MergedCompaction, own: bool) -> Result<Finished, Error>
        requires certain { self.old.core.lost ≡ None }
        requires own { own ≡ true → HasOwnInputs merged.now.job self.old.core }
        ensures ends { Ends merged.now.job result self.old.core self.new.core }
        ensures upholds { S.tells → Upholds (S.world self.old.store) (S.world self.new.store) self.old.core self.new.core }
        ensures files { FinishesFiles result S.tells S.world self.old self.new }
    {
        self.is_upheld();
        let job = merged.job();
        job.facts();
        match self.reason_at_end(job, own) {
            Ok(None) => self.install_merge(merged),
            Ok(Some(why)) => Ok(Finished::Declined(why)),
            Err(error) => Err(error),
        }
    }

    /// Closes the merge of a job, and ends it.
    fn finish_spent(&mut self, merged: &MergedCompaction, own: bool) -> Result<Finished, Error>
        requires own { own ≡ true → HasOwnInputs merged.now.job self.old.core }
        ensures finishes { Finishes merged.now.job result self.old.core self.new.core }
        ensures upholds { S.tells → Upholds (S.world self.old.store) (S.world self.new.store) self.old.core self.new.core }
        ensures files { FinishesFiles result S.tells S.world self.old self.new }
    {
        self.is_upheld();
        let open = self.spend(merged.job());
        if self.is_uncertain() {
            return Err(Error::Unrecoverable);
        }
        if !open {
            return Ok(Finished::Declined(Why::UnknownJob));
        }
        self.finish_closed(merged, own)
    }

    /// Ends a merge that was done, and is spent whatever is answered: its tables aren't in use any more. Where it is open, and
    /// no reason declines it on the version that is the latest now, its files are written one after the other under the next
    /// ids, and a version is installed that has its tables in place of its inputs. After it what no snapshot from its
    /// watermark on reads is cleaned up, and the files of the inputs go. The cost is linear in the bytes of the files, in the
    /// entries of the inputs, which are compared, and in the tables of the tree.
    ///
    /// # Errors
    ///
    /// `Unrecoverable` after a `CommitUnknown`, with no store call. `OutOfNumbers` where the counter or the next table's id
    /// stands at 2^63 or above, or the version's id at 2^64 - 1; `TooManyRuns` where a level would have 256 runs or a run
    /// 2^32 tables; `OutOfMemory`; `Store` where a file wasn't written. `CommitUnknown` where replacing `current` failed:
    /// reads stay as they are, and a crash leaves the old version or the new one. `AfterCommit` where the merge is
    /// installed, but the store failed after it: files may stay that nothing needs. Refused otherwise, reads stay and the
    /// files that were written are removed, as far as the store lets it; a sequence number and ids of tables may be used.
    pub fn finish_compaction(&mut self, merged: MergedCompaction) -> Result<Finished, Error>
        ensures finishes { Finishes merged.job result self.old.core self.new.core }
        // What a crash leaves, and what the call does to files.
        ensures upholds { S.tells → Upholds (S.world self.old.store) (S.world self.new.store) self.old.core self.new.core }
        ensures files { FinishesFiles result S.tells S.world self.old self.new }
        // As the theories see it: the merge and its maintenance, or one of unknown outcome, else nothing.
        ensures deeds { MergeDeeds merged.job result self.old.core self.new.core }
    {
        self.finish_with(merged, false)
    }

    /// `finish_compaction`. Where the inputs are known to be tables of this tree, no entries are compared.
    pub(crate) fn finish_with(
        &mut self,
        merged: MergedCompaction,
        own: bool,
    ) -> Result<Finished, Error>
        requires { own ≡ true → HasOwnInputs merged.job self.old.core }
        ensures finishes { Finishes merged.job result self.old.core self.new.core }
        ensures upholds { S.tells → Upholds (S.world self.old.store) (S.world self.new.store) self.old.core self.new.core }
        ensures files { FinishesFiles result S.tells S.world self.old self.new }
        ensures deeds { MergeDeeds merged.job result self.old.core self.new.core }
    {
        compactions_are_deeds();
        self.facts();
        let finished = self.finish_spent(&merged, own);
        drop(merged.keep());
        finished
    }
}
