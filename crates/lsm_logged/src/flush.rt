// Flushes of a logged tree, and a clear.
ghost use Rattle.std.specs.Prelude.{◌≡◌, ◌⊎◌, ◌<◌, ◌^◌, [], true, false, None, IfOk, OnOk, IfSome};
ghost use Rattle.lsm_commit.specs.Causes.{HasCause};
ghost use Rattle.lsm_state.specs.Commits.{UpholdsFiles, Upholds};
ghost use Rattle.lsm_state.specs.Flushes.{sealed_ids, spent};
ghost use Rattle.lsm_state.specs.Files.{ClearsFiles, WritesFiles, RegistersFiles, FlushesFiles, FlushesActiveFiles};
ghost use Rattle.lsm_logged.specs.Keeping.{is_unsure, tree_of};
ghost use Rattle.lsm_logged.specs.Removing.{log_from_of, AreGone, KeepsKnown, KeepsRest, Passed};
ghost use Rattle.lsm_logged.specs.Acting.{ActsNot, FlushesAct, FlushesBothAct, RegistersAct, ClearsAct};
ghost use Rattle.lsm_logged.specs.Flushing.{FlushesLogged, FlushesBoth, BeginsLogged, WritesJobLogged, RegistersLogged, ClearsLogged, CleansLog, RemovesBehind};

use crate::Logged;
use lsm_below::{Error, MemtableId, SeqNo, plain_numbers_are_read};
use lsm_commit::crashes_leave_versions;
use lsm_flush::{FlushJob, MergedFlush, Registered, WrittenFlush};
use lsm_state::flushes_are_deeds;
use lsm_store::Store;

impl<S: Store> Logged<S> {
    /// The counter is below 2^64.
    pub(crate) fn counter_fits(&self)
        ensures { self.now.core.seqno < 2 ^ 64 }
    {
        let _ = self.tree.seqno().get();
    }

    /// Whether a record has unknown outcome, and something is sealed.
    fn is_flush_unsure(&self) -> bool
        ensures unsure { result ≡ true → (self.now.doubted ≡ true) × (sealed_ids self.now.core ≡ [] → ⊥) }
        ensures sure { result ≡ false → (self.now.doubted ≡ false) ⊎ (sealed_ids self.now.core ≡ []) }
    {
        self.doubted && self.tree.sealed_memtable_count() > 0
    }

    /// What became of a flush, once the records that it passed are removed, where it was installed and all was cleaned up.
    fn clean_log(&mut self, flushed: Registered) -> Registered
        ensures cleans { CleansLog flushed result self.old self.new }
        ensures still { flushed.installed ≡ false → self.new ≡ self.old }
        ensures passes { S.tells → Passed (log_from_of self.old.core) (S.world self.old.store) (S.world self.new.store) }
        ensures upholds { S.tells → UpholdsFiles (S.world self.old.store) (S.world self.new.store) self.old.core self.new.core }
        ensures known { S.tells → KeepsKnown (S.world self.old.store) (S.world self.new.store) self.old.numbers self.new.numbers }
        ensures others { S.tells → KeepsRest self.old.numbers (S.world self.old.store) (S.world self.new.store) }
        ensures gone { S.tells → result.installed ≡ true → result.cleaned ≡ true → AreGone (S.world self.new.store) (log_from_of self.old.core) self.old.numbers }
        ensures causes { HasCause (flushed.cleaned ≡ true × result.cleaned ≡ false) (S.world self.old.store) (S.world self.new.store) }
    {
        self.tree.is_upheld();
        if !flushed.installed || !flushed.cleaned {
            return flushed;
        }
        Registered {
            installed: true,
            cleaned: self.remove_passed().is_ok(),
        }
    }

    /// `TreeState::flush`, after which the records below the version's `log_from` are removed, rising: those that the flush
    /// passed, and any that were left before. Each costs what the disk takes to remove a file, 3.2 ms on ext4: behind a lock a
    /// flush that passes 4,000 records holds readers for 13 seconds. `cleaned` is false too where one of them wasn't removed;
    /// the next flush or clear tries it again.
    ///
    /// # Errors
    ///
    /// As `TreeState::flush`, and `Unrecoverable` also where a record has unknown outcome and something is sealed.
    pub fn flush(&mut self, watermark: SeqNo) -> Result<Option<(u64, Registered)>, Error>
        ensures flushes { FlushesLogged watermark result self.old self.new }
        // Of names that are none of the tree's own, records that the version has passed may go, and nothing else changes.
        ensures passes { S.tells → Passed (log_from_of self.new.core) (S.world self.old.store) (S.world self.new.store) }
        // None of them before that version is on the disk.
        ensures behind { S.tells → RemovesBehind (S.world self.old.store) (S.world self.new.store) self.old.core self.new.core }
        // Each record that is there stays known, and a number is forgotten only where its record is gone.
        ensures known { S.tells → KeepsKnown (S.world self.old.store) (S.world self.new.store) self.old.numbers self.new.numbers }
        // After a whole clean-up no record is left that the version has passed: none of the known ones, and with `known`
        // none at all.
        ensures passed_are_gone { S.tells → IfOk result (λ a. IfSome a (λ p. p.1.cleaned ≡ true → AreGone (S.world self.new.store) (log_from_of self.new.core) self.old.numbers)) }
        // As the theory sees it: a flush, or one of unknown outcome, else nothing.
        ensures acts { S.tells → FlushesAct watermark result (S.world self.old.store) (S.world self.new.store) self.old self.new }
        ensures upholds { S.tells → UpholdsFiles (S.world self.old.store) (S.world self.new.store) self.old.core self.new.core }
        ensures files { FlushesFiles result S.tells S.world (tree_of self.old) (tree_of self.new) }
        // After an unknown outcome no call of the store is made.
        ensures no_call { is_unsure self.old ≡ true → self.new.store ≡ self.old.store }
    {
        plain_numbers_are_read();
        self.counter_fits();
        self.tree.is_upheld();
        if self.is_flush_unsure() {
            return Err(Error::Unrecoverable);
        }
        let flushed = self.tree.flush(watermark)?;
        match flushed {
            Some((bytes, registered)) => Ok(Some((bytes, self.clean_log(registered)))),
            None => Ok(None),
        }
    }

    /// Seals the active memtable, and flushes all that is sealed, as `rotate_memtable` and `flush` do in turn. Refused, it
    /// tells beside the error which memtable is sealed meanwhile.
    ///
    /// # Errors
    ///
    /// Those of both calls.
    pub fn flush_active_memtable(
        &mut self,
        watermark: SeqNo,
    ) -> Result<(Option<MemtableId>, Option<(u64, Registered)>), (Error, Option<MemtableId>)>
        ensures flushes { FlushesBoth watermark result self.old self.new }
        ensures passes { S.tells → Passed (log_from_of self.new.core) (S.world self.old.store) (S.world self.new.store) }
        ensures behind { S.tells → RemovesBehind (S.world self.old.store) (S.world self.new.store) self.old.core self.new.core }
        // Each record that is there stays known, and a number is forgotten only where its record is gone.
        ensures known { S.tells → KeepsKnown (S.world self.old.store) (S.world self.new.store) self.old.numbers self.new.numbers }
        // After a whole clean-up no record is left that the version has passed: none of the known ones, and with `known`
        // none at all.
        ensures passed_are_gone { S.tells → IfOk result (λ a. IfSome a.1 (λ p. p.1.cleaned ≡ true → AreGone (S.world self.new.store) (log_from_of self.new.core) self.old.numbers)) }
        // As the theory sees it: a rotation, and after it a flush.
        ensures acts { S.tells → FlushesBothAct watermark result (S.world self.old.store) (S.world self.new.store) self.old self.new }
        ensures upholds { S.tells → UpholdsFiles (S.world self.old.store) (S.world self.new.store) self.old.core self.new.core }
        ensures files { FlushesActiveFiles result S.tells S.world (tree_of self.old) (tree_of self.new) }
        // After an unknown outcome no call of the store is made.
        ensures no_call { is_unsure self.old ≡ true → self.new.store ≡ self.old.store }
    {
        crashes_leave_versions(self.tree.store());
        flushes_are_deeds();
        self.tree.facts();
        let sealed = match self.rotate_memtable() {
            Ok(sealed) => sealed,
            Err(error) => return Err((error, None)),
        };
        match self.flush(watermark) {
            Ok(flushed) => Ok((sealed, flushed)),
            Err(error) => Err((error, sealed)),
        }
    }

    /// `TreeState::begin_flush`.
    ///
    /// # Errors
    ///
    /// As that call, and `Unrecoverable` also where a record has unknown outcome and something is sealed.
    pub fn begin_flush(&mut self) -> Result<Option<FlushJob>, Error>
        ensures begins { BeginsLogged result self.old self.new }
        // As the theory sees it nothing is done.
        ensures acts { S.tells → ActsNot (S.world self.old.store) (S.world self.new.store) self.old self.new }
    {
        self.tree.is_upheld();
        crashes_leave_versions(self.tree.store());
        if self.is_flush_unsure() {
            return Err(Error::Unrecoverable);
        }
        self.tree.begin_flush()
    }

    /// `TreeState::flush_to_tables`.
    ///
    /// # Errors
    ///
    /// As that call, and `Unrecoverable` also where a record has unknown outcome.
    pub fn flush_to_tables(
        &mut self,
        job: MergedFlush,
    ) -> Result<WrittenFlush, (Error, MergedFlush)>
        ensures writes { WritesJobLogged job result self.old self.new }
        // As the theory sees it nothing is done.
        ensures acts { S.tells → ActsNot (S.world self.old.store) (S.world self.new.store) self.old self.new }
        ensures upholds { S.tells → Upholds (S.world self.old.store) (S.world self.new.store) self.old.core self.new.core }
        ensures files { WritesFiles result S.tells S.world (tree_of self.old) (tree_of self.new) }
        // After an unknown outcome no call of the store is made.
        ensures no_call { is_unsure self.old ≡ true → self.new.store ≡ self.old.store }
    {
        self.tree.is_upheld();
        if self.doubted {
            return Err((Error::Unrecoverable, job));
        }
        self.tree.flush_to_tables(job)
    }

    /// `TreeState::abandon_flush`.
    pub fn abandon_flush(&mut self, job: FlushJob)
        ensures core { self.new.core ≡ spent job.number self.old.core }
        ensures store { self.new.store ≡ self.old.store }
        ensures log { (self.new.numbers ≡ self.old.numbers) × (self.new.doubted ≡ self.old.doubted) }
        // As the theory sees it nothing is done.
        ensures acts { S.tells → ActsNot (S.world self.old.store) (S.world self.new.store) self.old self.new }
    {
        crashes_leave_versions(self.tree.store());
        self.tree.abandon_flush(job);
    }

    /// `TreeState::register_tables`, after which records are removed as after `flush`.
    ///
    /// # Errors
    ///
    /// As that call, and `Unrecoverable` also where a record has unknown outcome. The job is spent whatever is answered.
    pub fn register_tables(&mut self, job: WrittenFlush) -> Result<Registered, Error>
        ensures registers { RegistersLogged job result self.old self.new }
        ensures passes { S.tells → Passed (log_from_of self.new.core) (S.world self.old.store) (S.world self.new.store) }
        ensures behind { S.tells → RemovesBehind (S.world self.old.store) (S.world self.new.store) self.old.core self.new.core }
        // Each record that is there stays known, and a number is forgotten only where its record is gone.
        ensures known { S.tells → KeepsKnown (S.world self.old.store) (S.world self.new.store) self.old.numbers self.new.numbers }
        // After a whole clean-up no record is left that the version has passed: none of the known ones, and with `known`
        // none at all.
        ensures passed_are_gone { S.tells → IfOk result (λ a. a.installed ≡ true → a.cleaned ≡ true → AreGone (S.world self.new.store) (log_from_of self.new.core) self.old.numbers) }
        // As the theory sees it: a flush, or one of unknown outcome, else nothing.
        ensures acts { S.tells → RegistersAct job result (S.world self.old.store) (S.world self.new.store) self.old self.new }
        ensures upholds { S.tells → UpholdsFiles (S.world self.old.store) (S.world self.new.store) self.old.core self.new.core }
        ensures files { RegistersFiles job result S.tells S.world (tree_of self.old) (tree_of self.new) }
        // After an unknown outcome no call of the store is made.
        ensures no_call { is_unsure self.old ≡ true → self.new.store ≡ self.old.store }
    {
        plain_numbers_are_read();
        flushes_are_deeds();
        job.facts();
        self.tree.facts();
        self.counter_fits();
        self.tree.is_upheld();
        crashes_leave_versions(self.tree.store());
        if self.doubted {
            self.tree.abandon_flush(job.into_job());
            return Err(Error::Unrecoverable);
        }
        let registered = self.tree.register_tables(job)?;
        Ok(self.clean_log(registered))
    }

    /// `TreeState::clear`, after which the records below the version's `log_from` are removed, rising, each at the cost that
    /// `flush` names: from its number on a log is read, so all batches before it are forgotten, flushed or not.
    ///
    /// # Errors
    ///
    /// As `TreeState::clear`, and `Unrecoverable` also where a record has unknown outcome. `AfterCommit` where the tree is
    /// cleared, but a record wasn't removed: the next flush or clear tries it again.
    pub fn clear(&mut self) -> Result<SeqNo, Error>
        ensures clears { ClearsLogged result self.old self.new }
        ensures passes { S.tells → Passed (log_from_of self.new.core) (S.world self.old.store) (S.world self.new.store) }
        ensures behind { S.tells → RemovesBehind (S.world self.old.store) (S.world self.new.store) self.old.core self.new.core }
        // Each record that is there stays known, and a number is forgotten only where its record is gone.
        ensures known { S.tells → KeepsKnown (S.world self.old.store) (S.world self.new.store) self.old.numbers self.new.numbers }
        // After a whole clean-up no record is left that the version has passed: none of the known ones, and with `known`
        // none at all.
        ensures passed_are_gone { S.tells → OnOk result (AreGone (S.world self.new.store) (log_from_of self.new.core) self.old.numbers) }
        // As the theory sees it: a clear, or one of unknown outcome, else nothing.
        ensures acts { S.tells → ClearsAct result (S.world self.old.store) (S.world self.new.store) self.old self.new }
        ensures upholds { S.tells → UpholdsFiles (S.world self.old.store) (S.world self.new.store) self.old.core self.new.core }
        ensures files { ClearsFiles result S.tells S.world (tree_of self.old) (tree_of self.new) }
        // After an unknown outcome no call of the store is made.
        ensures no_call { is_unsure self.old ≡ true → self.new.store ≡ self.old.store }
    {
        plain_numbers_are_read();
        self.counter_fits();
        self.tree.is_upheld();
        if self.is_uncertain() {
            return Err(Error::Unrecoverable);
        }
        let number = self.tree.clear()?;
        match self.remove_passed() {
            Ok(()) => Ok(number),
            Err(_) => Err(Error::AfterCommit),
        }
    }
}
