// The calls of a flush, of a tree with its journal behind the lock.
ghost use Rattle.std.specs.Prelude.{◌≡◌, ◌⊎◌};
ghost use Rattle.lsm_state.specs.Flushes.{Begins, WritesTables, spent};
ghost use Rattle.lsm_state.specs.WholeFlushes.{FlushesActive};
ghost use Rattle.lsm_recorded.specs.Flushing.{SpendsUnnoted, IsSpentFlush, RegistersNoted, RefusesUnnoted, FlushesNoted, NotesActive};
ghost use Rattle.lsm_state.specs.Files.{FlushesActiveFiles, FlushesFiles, RegistersFiles, WritesFiles};
ghost use Rattle.lsm_handles.specs.Shared.{OnSomeTreeAlone, OnSomeTreeFiles, OnSomeRecordedFiles};

use crate::handle::Handle;
use crate::lock::act;
use lsm_below::{MemtableId, SeqNo};
use lsm_flush::{FlushJob, MergedFlush, Registered, WrittenFlush};
use lsm_parts::Error;
use lsm_recorded::{Pass, Recorded};
use lsm_store::Store;
use std::sync::Wait;

/// A flush in its parts, or in one call, as those of the same names of `Recorded`, on the tree as the lock finds it. What is
/// registered appends its mark to the pass, and its install where it is installed.
impl<S: Store> Handle<Recorded<S>> {
    /// Opens a flush of all sealed memtables, as `Recorded::begin_flush`.
    pub fn begin_flush(&self, rt: &impl Wait, pass: &mut Pass) -> Result<Option<FlushJob>, Error>
        ensures begins { OnSomeTreeAlone S (λ old new. Begins result old new) }
        ensures pass { pass.new ≡ pass.old }
    {
        act!(self, rt, |tree| tree.begin_flush(pass))
    }

    /// Writes the tables of a merged job, as `Recorded::flush_to_tables`. The lock is held while they are written.
    pub fn flush_to_tables(
        &self,
        rt: &impl Wait,
        pass: &mut Pass,
        job: MergedFlush,
    ) -> Result<WrittenFlush, (Error, MergedFlush)>
        ensures writes { OnSomeTreeFiles S.tells S.world (WritesFiles result) (λ old new. WritesTables job result old new) }
        ensures pass { pass.new ≡ pass.old }
    {
        act!(self, rt, |tree| tree.flush_to_tables(pass, job))
    }

    /// Installs the tables of a job, or finds it stale, as `Recorded::register_tables`.
    pub fn register_tables(
        &self,
        rt: &impl Wait,
        pass: &mut Pass,
        job: WrittenFlush,
    ) -> Result<Registered, Error>
        ensures { OnSomeRecordedFiles S.tells S.world (RegistersFiles job result) (λ old new. SpendsUnnoted (IsSpentFlush job) result old new pass.old pass.new ⊎ RegistersNoted job result old new pass.old pass.new) }
    {
        act!(self, rt, |tree| tree.register_tables(pass, job))
    }

    /// Gives up a job, as `Recorded::abandon_flush`.
    pub fn abandon_flush(&self, rt: &impl Wait, pass: &mut Pass, job: FlushJob)
        ensures core { OnSomeTreeAlone S (λ old new. new ≡ spent job.number old) }
        ensures pass { pass.new ≡ pass.old }
    {
        act!(self, rt, |tree| tree.abandon_flush(pass, job))
    }

    /// Flushes all sealed memtables in one call, as `Recorded::flush`. The lock is held throughout.
    pub fn flush(
        &self,
        rt: &impl Wait,
        pass: &mut Pass,
        watermark: SeqNo,
    ) -> Result<Option<(u64, Registered)>, Error>
        ensures { OnSomeRecordedFiles S.tells S.world (FlushesFiles result) (λ old new. RefusesUnnoted result old new pass.old pass.new ⊎ FlushesNoted watermark result old.tree.core new.tree.core old.journal new.journal pass.old pass.new) }
    {
        act!(self, rt, |tree| tree.flush(pass, watermark))
    }

    /// Seals the active memtable and flushes all sealed ones, as `Recorded::flush_active_memtable`. The lock is held
    /// throughout.
    pub fn flush_active_memtable(
        &self,
        rt: &impl Wait,
        pass: &mut Pass,
        watermark: SeqNo,
    ) -> Result<(Option<MemtableId>, Option<(u64, Registered)>), (Error, Option<MemtableId>)>
        ensures { OnSomeRecordedFiles S.tells S.world (FlushesActiveFiles result) (λ old new. FlushesActive watermark result old.tree.core new.tree.core × NotesActive watermark result old.tree.core new.tree.core old.journal new.journal pass.old pass.new) }
    {
        act!(self, rt, |tree| tree.flush_active_memtable(pass, watermark))
    }
}
