// The calls of a flush, and what they add to a journal.
ghost use Rattle.std.specs.Prelude.{◌≡◌, ◌⊎◌, None};
ghost use Rattle.lsm_state.specs.Commits.{Upholds};
ghost use Rattle.lsm_state.specs.Flushes.{Begins, WritesTables, spent};
ghost use Rattle.lsm_state.specs.WholeFlushes.{FlushesActive};
ghost use Rattle.lsm_state.specs.Files.{WritesFiles, RegistersFiles, FlushesFiles, FlushesActiveFiles};
ghost use Rattle.lsm_recorded.specs.Flushing.{SpendsUnnoted, IsSpentFlush, RegistersNoted, RefusesUnnoted, FlushesNoted, NotesActive};

use crate::noting::{beside_copies, put, put_entries};
use crate::pass::Pass;
use crate::recorded::Recorded;
use lsm_below::{MemtableId, SeqNo};
use lsm_flush::{FlushJob, MergedFlush, Registered, WrittenFlush};
use lsm_journal::{flush_active_noting, flush_entries, flush_noting, register_noting};
use lsm_model::reads_are_sound;
use lsm_parts::Error;
use lsm_state::flushes_keep_reads;
use lsm_store::Store;

/// A flush in its parts, or in one call. No call changes what a snapshot sees that is answered before and after. What
/// is registered is noted: a `Mark` of the watermark, and where tables are installed an `Install` under the sequence
/// number that they get.
impl<S: Store> Recorded<S> {
    ghost use Rattle.lsm_recorded.specs.Recorded.{Stays};

    /// Opens a flush of all sealed memtables, as `TreeState::begin_flush`. The journal and the pass stay.
    pub fn begin_flush(&mut self, pass: &mut Pass) -> Result<Option<FlushJob>, Error>
        ensures core { Begins result self.old.tree.core self.new.tree.core }
        ensures store { self.new.tree.store ≡ self.old.tree.store }
        ensures journal { self.new.journal ≡ self.old.journal }
        ensures pass { pass.new ≡ pass.old }
        ensures views { Stays self.old.tree.core self.new.tree.core }
        ensures opened { self.new.opened ≡ self.old.opened }
    {
        reads_are_sound();
        flushes_keep_reads();
        let _ = pass;
        self.core.begin_flush()
    }

    /// Writes the tables of a job that was merged, as `TreeState::flush_to_tables`; refused, the job comes back beside
    /// the error. The journal and the pass stay.
    pub fn flush_to_tables(
        &mut self,
        pass: &mut Pass,
        job: MergedFlush,
    ) -> Result<WrittenFlush, (Error, MergedFlush)>
        ensures core { WritesTables job result self.old.tree.core self.new.tree.core }
        // What a crash leaves, and what the call does to files.
        ensures upholds { S.tells → Upholds (S.world self.old.tree.store) (S.world self.new.tree.store) self.old.tree.core self.new.tree.core }
        ensures files { WritesFiles result S.tells S.world self.old.tree self.new.tree }
        ensures journal { self.new.journal ≡ self.old.journal }
        ensures pass { pass.new ≡ pass.old }
        ensures views { Stays self.old.tree.core self.new.tree.core }
        ensures opened { self.new.opened ≡ self.old.opened }
    {
        reads_are_sound();
        flushes_keep_reads();
        let _ = pass;
        self.core.flush_to_tables(job)
    }

    /// Gives up a job, as `TreeState::abandon_flush`. The journal and the pass stay.
    pub fn abandon_flush(&mut self, pass: &mut Pass, job: FlushJob)
        ensures core { self.new.tree.core ≡ spent job.number self.old.tree.core }
        ensures store { self.new.tree.store ≡ self.old.tree.store }
        ensures journal { self.new.journal ≡ self.old.journal }
        ensures pass { pass.new ≡ pass.old }
        ensures views { Stays self.old.tree.core self.new.tree.core }
        ensures opened { self.new.opened ≡ self.old.opened }
    {
        reads_are_sound();
        flushes_keep_reads();
        let _ = pass;
        self.core.abandon_flush(job);
    }

    /// Installs the tables of a job, as `TreeState::register_tables`, and notes the mark, whatever is answered, and the
    /// install where there is one. The job is spent whatever is answered. The cost is that of the tree's call.
    ///
    /// # Errors
    ///
    /// As `TreeState::register_tables`; and `OutOfMemory`, before all else, where there is no room for the notes: then
    /// nothing is noted.
    pub fn register_tables(
        &mut self,
        pass: &mut Pass,
        job: WrittenFlush,
    ) -> Result<Registered, Error>
        ensures registers { SpendsUnnoted (IsSpentFlush job) result self.old self.new pass.old pass.new ⊎ RegistersNoted job result self.old self.new pass.old pass.new }
        // What a crash leaves, and what the call does to files.
        ensures upholds { S.tells → Upholds (S.world self.old.tree.store) (S.world self.new.tree.store) self.old.tree.core self.new.tree.core }
        ensures files { RegistersFiles job result S.tells S.world self.old.tree self.new.tree }
        ensures views { Stays self.old.tree.core self.new.tree.core }
        ensures opened { self.new.opened ≡ self.old.opened }
    {
        reads_are_sound();
        flushes_keep_reads();
        self.stays_stored();
        let made = flush_entries(self.alloc, job.watermark(), self.core.seqno().get());
        let both = beside_copies(self.alloc, &mut self.journal, &mut pass.entries, made);
        let Ok((entries, copies)) = both else {
            self.core.abandon_flush(job.into_job());
            return Err(Error::OutOfMemory);
        };
        let (registered, entries) = register_noting(&mut self.core, job, entries);
        put!(self, pass, entries, copies);
        registered
    }

    /// Flushes all sealed memtables in one call, as `TreeState::flush`. Where it comes to register a job it notes the
    /// mark, also where it is refused then, and the install where it is answered.
    ///
    /// # Errors
    ///
    /// As `TreeState::flush`; and `OutOfMemory`, before all else, where there is no room for the notes: then nothing
    /// changes.
    pub fn flush(
        &mut self,
        pass: &mut Pass,
        watermark: SeqNo,
    ) -> Result<Option<(u64, Registered)>, Error>
        ensures flushes { RefusesUnnoted result self.old self.new pass.old pass.new ⊎ FlushesNoted watermark result self.old.tree.core self.new.tree.core self.old.journal self.new.journal pass.old pass.new }
        // What a crash leaves, and what the call does to files.
        ensures upholds { S.tells → Upholds (S.world self.old.tree.store) (S.world self.new.tree.store) self.old.tree.core self.new.tree.core }
        ensures files { FlushesFiles result S.tells S.world self.old.tree self.new.tree }
        ensures views { Stays self.old.tree.core self.new.tree.core }
        ensures opened { self.new.opened ≡ self.old.opened }
    {
        reads_are_sound();
        flushes_keep_reads();
        self.is_upheld();
        let made = flush_entries(self.alloc, watermark, self.core.seqno().get());
        let both = beside_copies(self.alloc, &mut self.journal, &mut pass.entries, made);
        let Ok((entries, copies)) = both else {
            return Err(Error::OutOfMemory);
        };
        let (flushed, entries) = flush_noting(&mut self.core, watermark, entries);
        put!(self, pass, entries, copies);
        flushed
    }

    /// Seals the active memtable, and flushes all sealed ones: `rotate_memtable` and then `flush`, as
    /// `TreeState::flush_active_memtable`. It notes what `flush` does.
    ///
    /// # Errors
    ///
    /// As `TreeState::flush_active_memtable`; and `OutOfMemory` beside None, before all else, where there is no room for
    /// the notes: then nothing changes.
    pub fn flush_active_memtable(
        &mut self,
        pass: &mut Pass,
        watermark: SeqNo,
    ) -> Result<(Option<MemtableId>, Option<(u64, Registered)>), (Error, Option<MemtableId>)>
        ensures core { FlushesActive watermark result self.old.tree.core self.new.tree.core }
        ensures noted { NotesActive watermark result self.old.tree.core self.new.tree.core self.old.journal self.new.journal pass.old pass.new }
        // What a crash leaves, and what the call does to files.
        ensures upholds { S.tells → Upholds (S.world self.old.tree.store) (S.world self.new.tree.store) self.old.tree.core self.new.tree.core }
        ensures files { FlushesActiveFiles result S.tells S.world self.old.tree self.new.tree }
        ensures views { Stays self.old.tree.core self.new.tree.core }
        ensures opened { self.new.opened ≡ self.old.opened }
    {
        reads_are_sound();
        flushes_keep_reads();
        self.is_upheld();
        let made = flush_entries(self.alloc, watermark, self.core.seqno().get());
        let both = beside_copies(self.alloc, &mut self.journal, &mut pass.entries, made);
        let Ok((entries, copies)) = both else {
            return Err((Error::OutOfMemory, None));
        };
        let (flushed, entries) = flush_active_noting(&mut self.core, watermark, entries);
        put!(self, pass, entries, copies);
        flushed
    }
}
