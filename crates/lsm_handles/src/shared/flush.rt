// The calls of a flush, of a tree behind the lock.
ghost use Rattle.std.specs.Prelude.{◌≡◌};
ghost use Rattle.lsm_state.specs.Flushes.{Begins, WritesTables, Registers, spent};
ghost use Rattle.lsm_state.specs.WholeFlushes.{Flushes, FlushesActive};
ghost use Rattle.lsm_state.specs.Files.{FlushesActiveFiles, FlushesFiles, RegistersFiles, WritesFiles};
ghost use Rattle.lsm_handles.specs.Shared.{OnSomeTreeAlone, OnSomeTreeFiles};

use crate::handle::Handle;
use crate::lock::act;
use lsm_below::{MemtableId, SeqNo};
use lsm_flush::{FlushJob, MergedFlush, Registered, WrittenFlush};
use lsm_parts::Error;
use lsm_state::TreeState;
use lsm_store::Store;
use std::sync::Wait;

/// A flush in its parts, or in one call, each on the tree as the lock finds it. A job shares its memtables and knows
/// nothing of the lock: while `FlushJob::run` merges them, other callers read and write.
impl<S: Store> Handle<TreeState<S>> {
    /// Opens a flush of all sealed memtables, as `TreeState::begin_flush`.
    pub fn begin_flush(&self, rt: &impl Wait) -> Result<Option<FlushJob>, Error>
        ensures { OnSomeTreeAlone S (λ old new. Begins result old new) }
    {
        act!(self, rt, |tree| tree.begin_flush())
    }

    /// Writes the tables of a merged job, as `TreeState::flush_to_tables`. The lock is held while they are written.
    pub fn flush_to_tables(
        &self,
        rt: &impl Wait,
        job: MergedFlush,
    ) -> Result<WrittenFlush, (Error, MergedFlush)>
        ensures { OnSomeTreeFiles S.tells S.world (WritesFiles result) (λ old new. WritesTables job result old new) }
    {
        act!(self, rt, |tree| tree.flush_to_tables(job))
    }

    /// Installs the tables of a job, or finds it stale, as `TreeState::register_tables`.
    pub fn register_tables(&self, rt: &impl Wait, job: WrittenFlush) -> Result<Registered, Error>
        ensures { OnSomeTreeFiles S.tells S.world (RegistersFiles job result) (λ old new. Registers job result old new) }
    {
        act!(self, rt, |tree| tree.register_tables(job))
    }

    /// Gives up a job, as `TreeState::abandon_flush`.
    pub fn abandon_flush(&self, rt: &impl Wait, job: FlushJob)
        ensures { OnSomeTreeAlone S (λ old new. new ≡ spent job.number old) }
    {
        act!(self, rt, |tree| tree.abandon_flush(job))
    }

    /// Flushes all sealed memtables in one call, as `TreeState::flush`. The lock is held throughout.
    pub fn flush(
        &self,
        rt: &impl Wait,
        watermark: SeqNo,
    ) -> Result<Option<(u64, Registered)>, Error>
        ensures { OnSomeTreeFiles S.tells S.world (FlushesFiles result) (λ old new. Flushes watermark result old new) }
    {
        act!(self, rt, |tree| tree.flush(watermark))
    }

    /// Seals the active memtable and flushes all sealed ones, as `TreeState::flush_active_memtable`. The lock is held
    /// throughout.
    pub fn flush_active_memtable(
        &self,
        rt: &impl Wait,
        watermark: SeqNo,
    ) -> Result<(Option<MemtableId>, Option<(u64, Registered)>), (Error, Option<MemtableId>)>
        ensures { OnSomeTreeFiles S.tells S.world (FlushesActiveFiles result) (λ old new. FlushesActive watermark result old new) }
    {
        act!(self, rt, |tree| tree.flush_active_memtable(watermark))
    }
}
