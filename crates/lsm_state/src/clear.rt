// A clear, and how unflushed entries are forgotten.
ghost use Rattle.std.specs.Prelude.{◌≡◌, ◌⊎◌, ◌-◌, ◌<◌, ◌≤◌, ◌^◌, None, IsSome, IfOk, IfErr};
ghost use Rattle.lsm_commit.specs.Stored.{CountsFaults};
ghost use Rattle.lsm_state.specs.Commits.{Upholds};
ghost use Rattle.lsm_state.specs.Clearing.{cleared_in, flushed_only, Clears, ClearDeeds, ForgetsUnflushed};

use crate::TreeState;
use crate::commit::oldest_memtable;
use lsm_below::{MemtableId, SeqNo};
use lsm_parts::{Error, LIMIT, SealedMemtables, SuperVersion, Version};
use lsm_store::Store;

impl<S: Store> TreeState<S> {
    /// A super version without entries: a new active memtable, no sealed ones, and the next version, without tables, from
    /// whose number on a log is read.
    fn cleared_version(&self) -> Result<SuperVersion, Error>
        ensures ok { IfOk result (λ next. next ≡ cleared_in self.now.core) }
        ensures number { IfOk result (λ _. self.now.core.next_memtable < LIMIT) }
        ensures out_of_numbers { IfErr result (λ _. (LIMIT ≤ self.now.core.next_memtable) ⊎ (self.now.core.history.latest.version.id ≡ 2 ^ 64 - 1)) }
        ensures only { IfErr result (λ e. e ≡ Error.OutOfNumbers) }
    {
        let active_memtable = self.next_memtable.get();
        let id = self.history.latest_version().version.id();
        if active_memtable >= LIMIT || id == u64::MAX {
            return Err(Error::OutOfNumbers);
        }
        // The number that the commit will draw: nothing draws one in between.
        let number = self.seqno.get();
        Ok(SuperVersion {
            active_memtable,
            sealed_memtables: SealedMemtables::new(self.alloc),
            version: Version::new(self.alloc, id + 1).with_log_from(number),
            seqno: number,
        })
    }

    /// A clear, where no commit of unknown outcome came before.
    fn commit_clear(&mut self) -> Result<SeqNo, Error>
        requires certain { self.old.core.lost ≡ None }
        ensures clears { Clears result self.old.core self.new.core }
        ensures upholds { S.tells → Upholds (S.world self.old.store) (S.world self.new.store) self.old.core self.new.core }
        ensures counts { CountsFaults (S.world self.old.store) (S.world self.new.store) result }
    {
        self.is_upheld();
        let next = match self.cleared_version() {
            Ok(next) => next,
            Err(error) => return Err(error),
        };
        let number = next.seqno;
        let room = self.memtables.room(self.alloc)?;
        self.commit(next, Some(room))?;
        Ok(number)
    }

    /// Commits a super version without entries, and answers the number that it used: a new active memtable, no sealed ones,
    /// and no tables. Snapshots up to that number see what they saw. The files of tables stay, as orphans. An open flush and
    /// open merges stay open: their jobs are stale when they come back. The cost is linear in the memtables that are held.
    ///
    /// # Errors
    ///
    /// `Unrecoverable` after a `CommitUnknown`, with no store call. `OutOfNumbers` where the counter or the next memtable's id
    /// stands at 2^63 or above, or the version's id at 2^64 - 1; `OutOfMemory`; `Store` where the version's file wasn't written.
    /// `CommitUnknown` where replacing `current` failed: reads stay as they are, and a crash leaves the old version or one
    /// without tables. Refused, reads stay; after `Store` or `OutOfMemory` the sequence number may be used.
    pub fn clear(&mut self) -> Result<SeqNo, Error>
        ensures clears { Clears result self.old.core self.new.core }
        // What a crash leaves.
        ensures upholds { S.tells → Upholds (S.world self.old.store) (S.world self.new.store) self.old.core self.new.core }
        ensures no_call { IsSome self.old.core.lost → self.new.store ≡ self.old.store }
        // A call of the store failed exactly where the answer says so.
        ensures counts { CountsFaults (S.world self.old.store) (S.world self.new.store) result }
        // As the theories see it: a clear, or one of unknown outcome, else nothing.
        ensures deeds { ClearDeeds result self.old.core self.new.core }
    {
        self.facts();
        self.is_upheld();
        if self.is_uncertain() {
            return Err(Error::Unrecoverable);
        }
        self.commit_clear()
    }

    /// A super version with the tables and the number of the latest one, a new active memtable of this id, and no sealed ones.
    fn without_unflushed(&self, id: MemtableId) -> Result<SuperVersion, Error>
        ensures ok { IfOk result (λ next. next ≡ (flushed_only id self.now.core.history).latest) }
        ensures memory { IfErr result (λ e. e ≡ Error.OutOfMemory) }
    {
        let latest = self.history.latest_version();
        Ok(SuperVersion {
            active_memtable: id,
            sealed_memtables: SealedMemtables::new(self.alloc),
            version: latest.version.copy(self.alloc)?,
            seqno: latest.seqno,
        })
    }

    /// Forgets what isn't flushed: the latest super version has a new active memtable and no sealed ones from then on, under
    /// its number. It does nothing where nothing was written to the active memtable. Older super versions keep their
    /// memtables; those that none names go. So snapshots above the number of the latest super version lose what they saw of
    /// these memtables, and the job of an open flush is stale. The cost is linear in the tables and the memtables that go.
    ///
    /// # Errors
    ///
    /// `OutOfNumbers` where the next memtable's id stands at 2^63 or above, `OutOfMemory`. Refused, it changes nothing.
    pub fn clear_active_memtable(&mut self) -> Result<(), Error>
        ensures forgets { ForgetsUnflushed result self.old.core self.new.core }
        ensures store { self.new.store ≡ self.old.store }
    {
        if self.memtables.is_active_empty() {
            return Ok(());
        }
        let id = self.next_memtable.get();
        if id >= LIMIT {
            return Err(Error::OutOfNumbers);
        }
        let next = self.without_unflushed(id)?;
        self.memtables.rotate(self.alloc, id)?;
        self.history.replace_latest_version(next);
        self.next_memtable.set(id + 1);
        let oldest = oldest_memtable(self.history.oldest_version());
        self.memtables.forget_before(oldest);
        Ok(())
    }
}
