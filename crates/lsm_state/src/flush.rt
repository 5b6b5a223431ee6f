// The calls of a flush, up to its tables.
ghost use Rattle.std.specs.Prelude.{◌≡◌, ◌+◌, ◌≤◌, ◌++◌, None, length, reverse, IfOk};
ghost use Rattle.lsm_versions.specs.Levels.{all_of, HasOwnIds};
ghost use Rattle.lsm_commit.specs.Stored.{AreOnDisk};
ghost use Rattle.lsm_commit.specs.Writing.{HoldEntries, RefusesWriting};
ghost use Rattle.lsm_state.specs.Commits.{Upholds};
ghost use Rattle.lsm_state.specs.Deeds.{IsNoDeed};
ghost use Rattle.lsm_state.specs.Flushes.{Begins, WritesTables, with_next_table, noted_in, spent, spent_in};
ghost use Rattle.lsm_state.specs.Files.{WritesFiles};

use crate::TreeState;
use lsm_below::MemtableId;
use lsm_commit::{crashes_leave_versions, write_tables};
use lsm_flush::{FlushJob, MergedFlush, OpenFlush, WrittenFlush};
use lsm_parts::{Error, LIMIT, SealedMemtables};
use lsm_store::Store;
use lsm_tables::Table;
use lsm_versions::copies;
use std::alloc::{AllocError, Global};

/// The ids of sealed memtables, from the newest.
fn from_newest(alloc: Global, sealed: &SealedMemtables) -> Result<Vec<MemtableId>, AllocError>
    ensures { IfOk result (λ ids. ids.items ≡ reverse sealed.now) }
{
    let mut ids = Vec::from_slice(alloc, sealed.as_slice())?;
    ids.reverse();
    Ok(ids)
}

/// The open flush, unless it is that of this number.
pub(crate) fn without_job(flush: Option<OpenFlush>, number: u64) -> Option<OpenFlush>
    ensures { result ≡ spent_in number flush }
{
    match flush {
        Some(open) if open.number() == number => None,
        other => other,
    }
}

/// The open flush, with tables that were written for it, if it is that of this number.
fn with_tables(flush: Option<OpenFlush>, number: u64, tables: Vec<Table>) -> Option<OpenFlush>
    ensures { result ≡ noted_in number tables.items flush }
{
    match flush {
        Some(open) if open.number() == number => Some(open.with_written(tables)),
        other => other,
    }
}

impl<S: Store> TreeState<S> {
    /// Opens a flush of all sealed memtables: None where nothing is sealed. The job shares the memtables, and copies
    /// nothing of them. The flush is open until the job is registered or given up.
    ///
    /// # Errors
    ///
    /// `Unrecoverable` after a `CommitUnknown`, `FlushOpen` where a flush is open, `OutOfNumbers` where 2^63 flushes were
    /// begun, `OutOfMemory`. Refused, it changes nothing.
    pub fn begin_flush(&mut self) -> Result<Option<FlushJob>, Error>
        ensures begins { Begins result self.old.core self.new.core }
        ensures store { self.new.store ≡ self.old.store }
        ensures deeds { IsNoDeed self.old.core self.new.core }
    {
        let sealed = &self.history.latest_version().sealed_memtables;
        if sealed.is_empty() {
            return Ok(None);
        }
        if self.lost.is_some() {
            return Err(Error::Unrecoverable);
        }
        if self.flush.is_some() {
            return Err(Error::FlushOpen);
        }
        let number = self.next_job;
        if number >= LIMIT {
            return Err(Error::OutOfNumbers);
        }
        let ids = from_newest(self.alloc, sealed)?;
        let memtables = self.memtables.share(self.alloc, &ids)?;
        self.flush = Some(OpenFlush::new(self.alloc, number, ids));
        self.next_job = number + 1;
        Ok(Some(FlushJob::new(self.alloc, number, memtables)))
    }

    /// Writes tables that hold what a job kept, made at the tree's moment, under the next ids.
    ///
    /// # Errors
    ///
    /// `OutOfMemory`, `Store`, and `OutOfNumbers` where the next id is 2^63 or more. Ids may then be used.
    fn write_kept(&mut self, job: &MergedFlush) -> Result<Vec<Table>, Error>
        requires certain { self.old.core.lost ≡ None }
        ensures tables { IfOk result (λ tables. HoldEntries self.old.core.moment job.now.entries self.old.core.next_table self.new.core.next_table tables.items) }
        ensures own_ids { IfOk result (λ tables. HasOwnIds (tables.items ++ all_of self.old.core.history.latest.version.levels)) }
        ensures rises { self.old.core.next_table ≤ self.new.core.next_table }
        ensures draws { self.new.core.next_table ≤ self.old.core.next_table + length job.now.entries }
        ensures core { self.new.core ≡ with_next_table self.new.core.next_table self.old.core }
        ensures upholds { S.tells → Upholds (S.world self.old.store) (S.world self.new.store) self.old.core self.new.core }
        ensures on_disk { S.tells → IfOk result (λ tables. AreOnDisk (S.world self.new.store) tables.items) }
        ensures refuses { RefusesWriting result self.new.core.next_table (S.world self.old.store) (S.world self.new.store) }
    {
        job.facts();
        crashes_leave_versions(&self.store);
        let Ok(parts) = job.parts() else {
            return Err(Error::OutOfMemory);
        };
        let entries = parts.entries();
        if entries.is_empty() {
            return Ok(Vec::new(self.alloc));
        }
        let mut next = self.next_table.get();
        if next >= LIMIT {
            return Err(Error::OutOfNumbers);
        }
        let written = write_tables(
            self.alloc,
            &mut self.store,
            &mut next,
            self.moment,
            &entries,
        );
        self.next_table.set(next);
        written
    }

    /// Writes the tables of a job that was merged, one after the other, and syncs them: of their files one at a time is
    /// in memory. They are made at the tree's moment. The cost is linear in their bytes.
    ///
    /// # Errors
    ///
    /// `Unrecoverable` after a `CommitUnknown`, with no store call; `OutOfMemory`; `Store` where a store call failed;
    /// `OutOfNumbers` where the next table's id is 2^63 or more. The job comes back beside the error, and the files that were
    /// written are removed, as far as the store lets it.
    pub fn flush_to_tables(
        &mut self,
        job: MergedFlush,
    ) -> Result<WrittenFlush, (Error, MergedFlush)>
        ensures writes { WritesTables job result self.old.core self.new.core }
        // What a crash leaves, and what the call does to files.
        ensures upholds { S.tells → Upholds (S.world self.old.store) (S.world self.new.store) self.old.core self.new.core }
        ensures files { WritesFiles result S.tells S.world self.old self.new }
        // To the theories nothing is done.
        ensures deeds { IsNoDeed self.old.core self.new.core }
    {
        job.facts();
        crashes_leave_versions(&self.store);
        if self.lost.is_some() {
            return Err((Error::Unrecoverable, job));
        }
        let first = self.next_table.get();
        let tables = match self.write_kept(&job) {
            Ok(tables) => tables,
            Err(error) => {
                self.remove_drawn(first);
                return Err((error, job));
            }
        };
        let Ok(copies) = copies(self.alloc, &tables) else {
            self.remove_drawn(first);
            return Err((Error::OutOfMemory, job));
        };
        let open = self.flush.take();
        self.flush = with_tables(open, job.job().number(), copies);
        Ok(job.with_tables(tables))
    }

    /// Gives up a job: its flush is no longer open. Files that were written for it stay; the next opening removes them.
    pub fn abandon_flush(&mut self, job: FlushJob)
        ensures core { self.new.core ≡ spent job.number self.old.core }
        ensures store { self.new.store ≡ self.old.store }
        ensures deeds { IsNoDeed self.old.core self.new.core }
    {
        self.close_flush(job.number());
        drop(job.keep());
    }

    /// The flush of the job with this number is no longer open.
    pub(crate) fn close_flush(&mut self, number: u64)
        ensures core { self.new.core ≡ spent number self.old.core }
        ensures store { self.new.store ≡ self.old.store }
    {
        let open = self.flush.take();
        self.flush = without_job(open, number);
    }
}

mod register;
mod whole;
