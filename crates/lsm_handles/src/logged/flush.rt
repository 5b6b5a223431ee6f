// The calls of a flush, of a logged tree behind the lock.
ghost use Rattle.std.specs.Prelude.{◌≡◌};
ghost use Rattle.lsm_state.specs.Flushes.{spent};
ghost use Rattle.lsm_logged.specs.Flushing.{FlushesLogged, FlushesBoth, BeginsLogged, WritesJobLogged, RegistersLogged};
ghost use Rattle.lsm_state.specs.Files.{FlushesActiveFiles, FlushesFiles, RegistersFiles, WritesFiles};
ghost use Rattle.lsm_handles.specs.Shared.{OnSomeLogged, TouchesTreeAlone, OnSomeLoggedFiles, OnSomeLoggedRemoving, OnceFlushed, OnceFlushedActive, OnceRegistered};

use crate::handle::Handle;
use crate::lock::act;
use lsm_below::{MemtableId, SeqNo};
use lsm_flush::{FlushJob, MergedFlush, Registered, WrittenFlush};
use lsm_logged::Logged;
use lsm_parts::Error;
use lsm_store::Store;
use std::sync::Wait;

/// A flush in its parts, or in one call, each on the tree as the lock finds it. A job shares its memtables and knows nothing of
/// the lock: while `FlushJob::run` merges them, other callers read and write.
impl<S: Store> Handle<Logged<S>> {
    /// Opens a flush of all sealed memtables, as `Logged::begin_flush`.
    pub fn begin_flush(&self, rt: &impl Wait) -> Result<Option<FlushJob>, Error>
        ensures { OnSomeLogged S (λ old new. BeginsLogged result old new) }
    {
        act!(self, rt, |tree| tree.begin_flush())
    }

    /// Writes the tables of a merged job, as `Logged::flush_to_tables`. The lock is held while they are written.
    pub fn flush_to_tables(
        &self,
        rt: &impl Wait,
        job: MergedFlush,
    ) -> Result<WrittenFlush, (Error, MergedFlush)>
        ensures { OnSomeLoggedFiles S.tells S.world (WritesFiles result) (λ old new. WritesJobLogged job result old new) }
    {
        act!(self, rt, |tree| tree.flush_to_tables(job))
    }

    /// Installs the tables of a job, or finds it stale, and removes the records that it passed, as `Logged::register_tables`.
    pub fn register_tables(&self, rt: &impl Wait, job: WrittenFlush) -> Result<Registered, Error>
        ensures { OnSomeLoggedRemoving S.tells S.world (OnceRegistered result) (RegistersFiles job result) (λ old new. RegistersLogged job result old new) }
    {
        act!(self, rt, |tree| tree.register_tables(job))
    }

    /// Gives up a job, as `Logged::abandon_flush`.
    pub fn abandon_flush(&self, rt: &impl Wait, job: FlushJob)
        ensures { OnSomeLogged S (TouchesTreeAlone (λ old new. new ≡ spent job.number old)) }
    {
        act!(self, rt, |tree| tree.abandon_flush(job))
    }

    /// Flushes all sealed memtables in one call, and removes the records that it passed, as `Logged::flush`. The lock is held
    /// throughout.
    pub fn flush(
        &self,
        rt: &impl Wait,
        watermark: SeqNo,
    ) -> Result<Option<(u64, Registered)>, Error>
        ensures { OnSomeLoggedRemoving S.tells S.world (OnceFlushed result) (FlushesFiles result) (λ old new. FlushesLogged watermark result old new) }
    {
        act!(self, rt, |tree| tree.flush(watermark))
    }

    /// Seals the active memtable and flushes all sealed ones, as `Logged::flush_active_memtable`. The lock is held
    /// throughout.
    pub fn flush_active_memtable(
        &self,
        rt: &impl Wait,
        watermark: SeqNo,
    ) -> Result<(Option<MemtableId>, Option<(u64, Registered)>), (Error, Option<MemtableId>)>
        ensures { OnSomeLoggedRemoving S.tells S.world (OnceFlushedActive result) (FlushesActiveFiles result) (λ old new. FlushesBoth watermark result old new) }
    {
        act!(self, rt, |tree| tree.flush_active_memtable(watermark))
    }
}
