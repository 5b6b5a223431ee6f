// A flush in one call.
ghost use Rattle.std.specs.Prelude.{◌≡◌, ◌<◌, None, true, false, IfErr, IsSome};
ghost use Rattle.lsm_commit.specs.Foreign.{AtRest};
ghost use Rattle.lsm_commit.specs.Causes.{HasCause, Blames};
ghost use Rattle.lsm_state.specs.Cleaning.{RemovesDrawn};
ghost use Rattle.lsm_state.specs.Commits.{Upholds};
ghost use Rattle.lsm_state.specs.WholeFlushes.{sealed_bytes, WritesJob, Flushes, MarksFlush, FlushesActive};
ghost use Rattle.lsm_state.specs.Files.{FlushesFiles, FlushesActiveFiles};

use crate::TreeState;
use lsm_below::{MemtableId, SeqNo};
use lsm_commit::crashes_leave_versions;
use lsm_flush::{FlushJob, Registered, WrittenFlush};
use lsm_parts::{Error, LIMIT};
use lsm_store::Store;

impl<S: Store> TreeState<S> {
    /// The bytes that the sealed memtables of the latest super version count, up to 2^64 - 1.
    pub(crate) fn sealed_size(&self) -> u64
        ensures { result ≡ sealed_bytes self.now.core }
    {
        let sealed = &self.history.latest_version().sealed_memtables;
        self.memtables.sealed_size(sealed.as_slice())
    }

    /// Of files to which nothing is done, a crash leaves what they hold, and foreign names are as they are.
    fn stays_stored(&self)
        ensures { S.tells → AtRest (S.world self.now.store) }
    {
        crashes_leave_versions(&self.store);
    }

    /// Merges a job, and writes its tables. Refused, the job is given up.
    fn write_job(&mut self, job: FlushJob, watermark: SeqNo) -> Result<WrittenFlush, Error>
        ensures writes { WritesJob watermark job result self.old.core self.new.core }
        ensures upholds { S.tells → Upholds (S.world self.old.store) (S.world self.new.store) self.old.core self.new.core }
        ensures causes { HasCause (Blames result) (S.world self.old.store) (S.world self.new.store) }
        ensures refused { S.tells → self.old.core.next_table < LIMIT → IfErr result (λ _. RemovesDrawn self.old.core.next_table self.new.core.next_table (S.world self.old.store) (S.world self.new.store)) }
        ensures no_call { IsSome self.old.core.lost → self.new.store ≡ self.old.store }
    {
        self.stays_stored();
        let merged = match job.run(watermark) {
            Ok(merged) => merged,
            Err((error, job)) => {
                self.abandon_flush(job);
                return Err(error);
            }
        };
        match self.flush_to_tables(merged) {
            Ok(written) => {
                written.facts();
                Ok(written)
            }
            Err((error, merged)) => {
                self.abandon_flush(merged.into_job());
                Err(error)
            }
        }
    }

    /// Flushes all sealed memtables, and tells whether it came to register a job.
    fn flush_marking(
        &mut self,
        watermark: SeqNo,
        marked: &mut bool,
    ) -> Result<Option<(u64, Registered)>, Error>
        ensures flushes { Flushes watermark result self.old.core self.new.core }
        ensures marks { MarksFlush watermark marked.new result self.old.core self.new.core }
        ensures unmarked { marked.new ≡ false → self.new.core.seqno ≡ self.old.core.seqno }
        ensures upholds { S.tells → Upholds (S.world self.old.store) (S.world self.new.store) self.old.core self.new.core }
        ensures files { FlushesFiles result S.tells S.world self.old self.new }
    {
        self.stays_stored();
        *marked = false;
        let first = self.next_table.get();
        let size = self.sealed_size();
        let Some(job) = self.begin_flush()? else {
            return Ok(None);
        };
        let written = self.write_job(job, watermark)?;
        *marked = true;
        match self.register(written, true) {
            Ok(registered) => Ok(Some((size, registered))),
            Err(Error::CommitUnknown) => Err(Error::CommitUnknown),
            Err(error) => {
                self.remove_drawn(first);
                Err(error)
            }
        }
    }

    /// As `flush`, and tells beside its answer whether it came to register a job: a journal of the calls then notes the
    /// watermark, also where the flush is refused.
    pub fn flush_with_mark(
        &mut self,
        watermark: SeqNo,
    ) -> (Result<Option<(u64, Registered)>, Error>, bool)
        ensures flushes { Flushes watermark result.0 self.old.core self.new.core }
        ensures marks { MarksFlush watermark result.1 result.0 self.old.core self.new.core }
        // Without a mark no sequence number is used.
        ensures unmarked { result.1 ≡ false → self.new.core.seqno ≡ self.old.core.seqno }
        // What a crash leaves, and what the call does to files.
        ensures upholds { S.tells → Upholds (S.world self.old.store) (S.world self.new.store) self.old.core self.new.core }
        ensures files { FlushesFiles result.0 S.tells S.world self.old self.new }
    {
        let mut marked = false;
        let flushed = self.flush_marking(watermark, &mut marked);
        (flushed, marked)
    }

    /// Flushes all sealed memtables in one call: merges them, writes the tables, and installs them, as `begin_flush`,
    /// `FlushJob::run`, `flush_to_tables` and `register_tables` do in turn. Nothing comes in between, so the job is never
    /// stale. Answers None where nothing is sealed, else the bytes that the sealed memtables count, up to 2^64 - 1, beside
    /// what became of the flush. The cost is linear in the entries of the sealed memtables and in the tables of the tree.
    /// While the watermark stays low, for a snapshot that is kept long, each flush leaves a super version, which lists all
    /// tables: memory grows by the square of the writes.
    ///
    /// `cleaned` is false where the store failed after the commit: what was to go is tried again by the next one.
    ///
    /// # Errors
    ///
    /// `Unrecoverable` after a `CommitUnknown`, and `FlushOpen` where a flush is open: each with no store call, and only where
    /// something is sealed. `OutOfNumbers` where 2^63 flushes were begun, the next table's id or the counter stands at 2^63
    /// or above, or the version's id at 2^64 - 1; `TooManyRuns` where the first level would have 256 runs, after those that
    /// don't overlap are joined, or a run 2^32 tables; `OutOfMemory`; `Store` where a file wasn't written. `CommitUnknown`
    /// where replacing `current` failed: a crash leaves the old version or the new one.
    ///
    /// Refused, the memtables stay sealed, reads stay as they are, and no flush is left open that wasn't. Numbers and ids of
    /// tables may be used; files that were written are removed, as far as the store lets it, but not after `CommitUnknown`.
    pub fn flush(&mut self, watermark: SeqNo) -> Result<Option<(u64, Registered)>, Error>
        ensures flushes { Flushes watermark result self.old.core self.new.core }
        // What a crash leaves, and what the call does to files.
        ensures upholds { S.tells → Upholds (S.world self.old.store) (S.world self.new.store) self.old.core self.new.core }
        ensures files { FlushesFiles result S.tells S.world self.old self.new }
    {
        self.flush_with_mark(watermark).0
    }

    /// Seals the active memtable, and flushes all sealed ones: `rotate_memtable` and then `flush`. Answers the id that this
    /// call sealed, None where nothing was written to the active memtable, beside the answer of `flush`.
    ///
    /// # Errors
    ///
    /// Those of `rotate_memtable`, `OutOfMemory` and `OutOfNumbers`: then None stands beside the error, and nothing
    /// changes. Else those of `flush`, beside the id that this call sealed: the rotation stays, and the next flush takes the
    /// memtable along.
    pub fn flush_active_memtable(
        &mut self,
        watermark: SeqNo,
    ) -> Result<(Option<MemtableId>, Option<(u64, Registered)>), (Error, Option<MemtableId>)>
        ensures flushes { FlushesActive watermark result self.old.core self.new.core }
        // What a crash leaves, and what the call does to files.
        ensures upholds { S.tells → Upholds (S.world self.old.store) (S.world self.new.store) self.old.core self.new.core }
        ensures files { FlushesActiveFiles result S.tells S.world self.old self.new }
    {
        self.stays_stored();
        let sealed = match self.rotate_memtable() {
            Ok(sealed) => sealed,
            Err(error) => return Err((error, None)),
        };
        match self.flush(watermark) {
            Ok(flushed) => Ok((sealed, flushed)),
            Err(error) => Err((error, sealed)),
        }
    }
}
