// How a flush is installed.
ghost use Rattle.std.specs.Prelude.{ℕ, [], ◌≡◌, ◌⊎◌, ◌↔◌, ◌++◌, ◌-◌, None, true, false, take, reverse, length, map, IsTrue, IsSome, IfOk, IfErr, IsErrOf};
ghost use Rattle.std.specs.List.Sorted.{IsPermutation};
ghost use Rattle.lsm_model.specs.Steps.{among};
ghost use Rattle.lsm_versions.specs.Levels.{range, all_of, HasOwnIds};
ghost use Rattle.lsm_versions.specs.Refusals.{IsRefusedFor};
ghost use Rattle.lsm_below.specs.Runs.{IsRun};
ghost use Rattle.lsm_commit.specs.Stored.{AreOnDisk};
ghost use Rattle.lsm_flush.specs.Jobs.{ids_in, entries_in};
ghost use Rattle.lsm_commit.specs.Causes.{HasCause};
ghost use Rattle.lsm_state.specs.Cleaning.{LeavesNoVersions, RemovesTables};
ghost use Rattle.lsm_state.specs.Causes.{BlamesOrUnclean};
ghost use Rattle.lsm_parts.specs.Held.{entries_of};
ghost use Rattle.lsm_commit.specs.Foreign.{Passes};
ghost use Rattle.lsm_state.specs.Commits.{UpholdsFiles, Upholds};
ghost use Rattle.lsm_state.specs.Deeds.{IsMarkDeed};
ghost use Rattle.lsm_state.specs.Flushes.{IsCurrent, IsFlushedOf, MayInstall, InstallsSpent, Registers, IsFlushDeed, IsLostFlush, spent};
ghost use Rattle.lsm_state.specs.Files.{RegistersFiles};

use crate::{TreeState, flushes_are_deeds};
use lsm_below::{MemtableId, SeqNo, TableId};
use lsm_commit::crashes_leave_versions;
use lsm_flush::{Registered, SealedMemtable, WrittenFlush, same_entries, same_tables};
use lsm_parts::{Error, LIMIT, Memtables, SuperVersion};
use lsm_store::Store;
use lsm_tables::Table;
use lsm_versions::changes_keep_tables;
use std::alloc::{AllocError, Global};
use std::collections::HashSet;

/// Whether these ids, newest first, are the first of those sealed memtables, which stand in the order of sealing.
fn are_first(ids: &[MemtableId], sealed: &[MemtableId]) -> bool
    ensures { IsTrue result ↔ (take (length ids.now) sealed.now ≡ reverse ids.now) }
{
    let mut newer = ids;
    let mut rest = sealed;
    'oldest: while let Some((id, before)) = newer.split_last() {
        let Some((oldest, behind)) = rest.split_first() else {
            return false;
        };
        if *oldest != *id {
            return false;
        }
        newer = before;
        rest = behind;
    }
    true
}

/// Whether memtables have these ids.
fn have_ids(memtables: &[SealedMemtable], ids: &[MemtableId]) -> bool
    ensures { IsTrue result ↔ (ids_in memtables.now ≡ ids.now) }
{
    if memtables.len() != ids.len() {
        return false;
    }
    for at in 0..ids.len() {
        if memtables[at].id() != ids[at] {
            return false;
        }
    }
    true
}

/// Whether a memtable has the entries that a tree holds under its id.
fn has_entries(held: &Memtables, memtable: &SealedMemtable) -> bool
    ensures { IsTrue result ↔ (memtable.now.entries ≡ entries_of held.now memtable.now.id) }
{
    let entries = memtable.as_memtable();
    match held.find(memtable.id()) {
        Some(found) => same_entries(entries, found),
        None => entries.is_empty(),
    }
}

/// Whether memtables have the entries that a tree holds under their ids.
fn have_entries(held: &Memtables, memtables: &[SealedMemtable]) -> bool
    ensures { IsTrue result ↔ (entries_in memtables.now ≡ map (entries_of held.now) (ids_in memtables.now)) }
{
    for memtable in memtables {
        if !has_entries(held, memtable) {
            return false;
        }
    }
    true
}

/// The super version that a flush makes.
fn flushed_version(
    alloc: Global,
    job: &WrittenFlush,
    latest: &SuperVersion,
    number: SeqNo,
) -> Result<SuperVersion, Error>
    requires run { IsRun range job.now.tables }
    requires new { HasOwnIds (job.now.tables ++ all_of latest.now.version.levels) }
    ensures ok { IfOk result (IsFlushedOf job.now number latest.now) }
    ensures tables { IfOk result (λ sv. IsPermutation (job.now.tables ++ all_of latest.now.version.levels) (all_of sv.version.levels)) }
    ensures err { IfErr result (IsRefusedFor [] job.now.tables 0 latest.now.version) }
{
    changes_keep_tables();
    latest.version.facts();
    let tables = job.tables();
    let version = latest
        .version
        .with_new_l0_run(alloc, tables, job.job().passed())?;
    version.facts();
    Ok(SuperVersion {
        active_memtable: latest.active_memtable,
        sealed_memtables: latest
            .sealed_memtables
            .without_first(job.job().memtables().len())?,
        version,
        seqno: number,
    })
}

/// The ids of tables.
fn ids_of(alloc: Global, tables: &[Table]) -> Result<HashSet<TableId>, AllocError>
    ensures { IfOk result (λ ids. (i : ℕ) → among ids.keys i ≡ among (map (λ t. t.id) tables.now) i) }
{
    let mut ids = HashSet::new(alloc);
    for table in tables {
        ids.insert(table.id())?;
    }
    Ok(ids)
}

impl<S: Store> TreeState<S> {
    /// Whether a job is the open one, its tables are those that were written for it, its memtables are the first sealed
    /// ones, and their entries are its own. The cost is linear in the entries.
    fn is_current(&self, job: &WrittenFlush) -> bool
        ensures { IsTrue result ↔ IsCurrent job.now self.now.core }
    {
        let Some(open) = &self.flush else {
            return false;
        };
        let memtables = job.job().memtables();
        let sealed = &self.history.latest_version().sealed_memtables;
        open.number() == job.job().number()
            && have_ids(memtables, open.ids())
            && are_first(open.ids(), sealed.as_slice())
            && same_tables(open.written(), job.tables())
            && have_entries(&self.memtables, memtables)
    }

    /// Installs a job that is spent, and cleans up after it.
    fn install(&mut self, job: &WrittenFlush) -> Result<Registered, Error>
        requires { MayInstall job.now self.old.core }
        ensures installs { InstallsSpent job.now result self.old.core self.new.core }
        ensures upholds { S.tells → AreOnDisk (S.world self.old.store) job.now.tables → UpholdsFiles (S.world self.old.store) (S.world self.new.store) self.old.core self.new.core }
        ensures passes { S.tells → Passes (S.world self.old.store) (S.world self.new.store) }
        ensures causes { HasCause (BlamesOrUnclean result) (S.world self.old.store) (S.world self.new.store) }
        ensures gone { S.tells → IfOk result (λ a. a.cleaned ≡ true → LeavesNoVersions (S.world self.new.store) self.old.core.history self.new.core.history) }
        ensures rests { IfOk result (λ a. a.installed ≡ false → self.new.store ≡ self.old.store) }
    {
        crashes_leave_versions(&self.store);
        let number = self.seqno.get();
        if number >= LIMIT {
            return Err(Error::OutOfNumbers);
        }
        let latest = self.history.latest_version();
        let next = flushed_version(self.alloc, job, latest, number)?;
        self.commit(next, None)?;
        let cleaned = self.clean_up(job.watermark());
        Ok(Registered {
            installed: true,
            cleaned,
        })
    }

    /// Spends a job, and installs it where it is current.
    pub(crate) fn register(&mut self, job: WrittenFlush, current: bool) -> Result<Registered, Error>
        requires { IsTrue current ↔ IsCurrent job self.old.core }
        ensures registers { Registers job result self.old.core self.new.core }
        ensures upholds { S.tells → Upholds (S.world self.old.store) (S.world self.new.store) self.old.core self.new.core }
        ensures causes { HasCause (BlamesOrUnclean result) (S.world self.old.store) (S.world self.new.store) }
        ensures gone { S.tells → IfOk result (λ a. a.installed ≡ true → a.cleaned ≡ true → LeavesNoVersions (S.world self.new.store) self.old.core.history self.new.core.history) }
        ensures rests { IfOk result (λ a. a.installed ≡ false → self.new.store ≡ self.old.store) }
        ensures no_call { IsSome self.old.core.lost → self.new.store ≡ self.old.store }
        ensures marks { IsMarkDeed job.watermark self.old.core (spent job.job.number self.old.core) }
        ensures deeds { IfOk result (λ a. a.installed ≡ true → IsFlushDeed job self.old.core self.new.core) }
        ensures lost { IsErrOf result Error.CommitUnknown → IsLostFlush job self.old.core self.new.core }
    {
        flushes_are_deeds();
        self.facts();
        job.facts();
        crashes_leave_versions(&self.store);
        self.close_flush(job.job().number());
        if self.lost.is_some() {
            drop(job.keep());
            return Err(Error::Unrecoverable);
        }
        if current {
            let installed = self.install(&job);
            drop(job.keep());
            return installed;
        }
        drop(job.keep());
        Ok(Registered {
            installed: false,
            cleaned: true,
        })
    }

    /// As `register`, of a current job; refused, the files of its tables are removed, as far as the store lets it, unless the
    /// version that names them may be the current one.
    fn register_current(&mut self, job: WrittenFlush) -> Result<Registered, Error>
        requires certain { self.old.core.lost ≡ None }
        requires current { IsCurrent job self.old.core }
        ensures registers { Registers job result self.old.core self.new.core }
        ensures upholds { S.tells → Upholds (S.world self.old.store) (S.world self.new.store) self.old.core self.new.core }
        ensures causes { HasCause (BlamesOrUnclean result) (S.world self.old.store) (S.world self.new.store) }
        ensures gone { S.tells → IfOk result (λ a. a.installed ≡ true → a.cleaned ≡ true → LeavesNoVersions (S.world self.new.store) self.old.core.history self.new.core.history) }
        ensures rests { IfOk result (λ a. a.installed ≡ false → self.new.store ≡ self.old.store) }
        ensures refused { S.tells → IsErrOf result Error.OutOfNumbers ⊎ IsErrOf result Error.TooManyRuns → RemovesTables (map (λ t. t.id) job.tables) (S.world self.old.store) (S.world self.new.store) }
        ensures deeds { IfOk result (λ a. a.installed ≡ true → IsFlushDeed job self.old.core self.new.core) }
        ensures lost { IsErrOf result Error.CommitUnknown → IsLostFlush job self.old.core self.new.core }
    {
        self.facts();
        let Ok(ids) = ids_of(self.alloc, job.tables()) else {
            self.is_upheld();
            self.abandon_flush(job.into_job());
            return Err(Error::OutOfMemory);
        };
        match self.register(job, true) {
            Ok(registered) => Ok(registered),
            Err(Error::CommitUnknown) => Err(Error::CommitUnknown),
            Err(error) => {
                self.give_up(&ids);
                Err(error)
            }
        }
    }

    /// Installs the tables of a job, if it is the open one, its tables are those that were written for it, its memtables
    /// are the first sealed ones, and their entries are its own: then a new super version reads the tables in place of the
    /// memtables, and what no snapshot from the job's watermark on reads is cleaned up after it. Else it is stale, and
    /// nothing changes. The job is spent whatever is answered: its flush is no longer open. The cost is linear in the
    /// entries, which are compared, and in the tables.
    ///
    /// `cleaned` is false where the store failed after the commit: what was to go is tried again by the next one.
    ///
    /// # Errors
    ///
    /// `Unrecoverable` after a `CommitUnknown`, with no store call. `OutOfNumbers` where the counter stands at 2^63 or
    /// above, or the version's id at 2^64 - 1; `TooManyRuns` where the first level would have 256 runs, after those that
    /// don't overlap are joined, or a run 2^32 tables; `OutOfMemory`; `Store` where the version's file wasn't written.
    /// `CommitUnknown` where replacing `current` failed: reads stay as they are, and a crash leaves the old version or the
    /// new one.
    ///
    /// Refused with `OutOfNumbers`, `TooManyRuns`, `Store`, or `OutOfMemory` once it has begun, the files of its tables are
    /// removed, as far as the store lets it. Else they stay, also those of a stale job, since they may be another tree's;
    /// the next opening removes what isn't named.
    pub fn register_tables(&mut self, job: WrittenFlush) -> Result<Registered, Error>
        ensures registers { Registers job result self.old.core self.new.core }
        // What a crash leaves, and what the call does to files.
        ensures upholds { S.tells → Upholds (S.world self.old.store) (S.world self.new.store) self.old.core self.new.core }
        ensures files { RegistersFiles job result S.tells S.world self.old self.new }
        // As the theories see it: the mark, and after it the flush and the maintenance, or one of unknown outcome.
        ensures marks { IsMarkDeed job.watermark self.old.core (spent job.job.number self.old.core) }
        ensures deeds { IfOk result (λ a. a.installed ≡ true → IsFlushDeed job self.old.core self.new.core) }
        ensures lost { IsErrOf result Error.CommitUnknown → IsLostFlush job self.old.core self.new.core }
    {
        flushes_are_deeds();
        self.facts();
        let current = self.is_current(&job);
        if current && !self.is_uncertain() {
            return self.register_current(job);
        }
        self.register(job, current)
    }
}
