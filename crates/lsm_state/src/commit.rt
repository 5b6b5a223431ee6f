// How a super version becomes the latest one, and what is cleaned up after it.
ghost use Rattle.std.specs.Prelude.{◌≡◌, ◌≤◌, ◌<◌, ◌⊎◌, length, None, Some, IfSome, is_some, true, false, IsErrOf};
ghost use Rattle.lsm_versions.specs.Levels.{all_of};
ghost use Rattle.lsm_commit.specs.Stored.{AreOnDisk, CountsFaults};
ghost use Rattle.lsm_commit.specs.Foreign.{Passes};
ghost use Rattle.lsm_parts.specs.History.{versions_of};
ghost use Rattle.lsm_parts.specs.Maintenance.{AreGone};
ghost use Rattle.lsm_commit.specs.Causes.{HasCause};
ghost use Rattle.lsm_state.specs.Kept.{least_named, KeepsIds, KeepsTables};
ghost use Rattle.lsm_parts.specs.Held.{HasFirst};
ghost use Rattle.lsm_state.specs.Commits.{counted, fronted, next_id, fresh_in, Commits, UpholdsFiles, Upholds};
ghost use Rattle.lsm_state.specs.Cleaning.{Cleans};

use crate::TreeState;
use lsm_below::{MemtableId, SeqNo};
use lsm_commit::{commit_version, crashes_leave_versions};
use lsm_manifest::encode_version;
use lsm_parts::{
    Error, LIMIT, Memtables, Room, SequenceNumberCounter, SuperVersion, SuperVersions, Version,
};
use lsm_store::Store;
use std::alloc::Global;

/// The id of the oldest memtable that a super version names.
pub(crate) fn oldest_memtable(version: &SuperVersion) -> MemtableId
    ensures { result ≡ least_named version.now }
{
    match version.sealed_memtables.as_slice().first() {
        Some(id) => *id,
        None => version.active_memtable,
    }
}

/// Takes the latest super version away again, whose commit was refused. Where its outcome is unknown, its version is kept.
fn undo_commit(history: &mut SuperVersions, lost: &mut Option<Version>, error: &Error)
    requires { 0 < length history.old.older }
    ensures left { versions_of history.new ≡ history.old.older }
    ensures unknown { error.now ≡ Error.CommitUnknown → lost.new ≡ Some (history.old.latest.version) }
    ensures refused { (error.now ≡ Error.CommitUnknown → ⊥) → lost.new ≡ lost.old }
{
    let refused = history.take_back();
    if let Error::CommitUnknown = error {
        *lost = Some(refused.version);
    }
}

/// Seals the active memtable in favour of an empty one, where there is room for it, and uses its id.
fn put_fresh(
    alloc: Global,
    memtables: &mut Memtables,
    next_memtable: &mut SequenceNumberCounter,
    room: Option<Room>,
)
    requires newer { HasFirst memtables.old (λ t. t.id < next_memtable.old) }
    requires fits { IfSome room (λ r. length memtables.old ≤ r) }
    requires number { IfSome room (λ _. next_memtable.old < LIMIT) }
    ensures memtables { memtables.new ≡ fronted (is_some room) next_memtable.old memtables.old }
    ensures number { next_memtable.new ≡ next_id (is_some room) next_memtable.old }
{
    if let Some(room) = room {
        let id = next_memtable.get();
        memtables.rotate_within(alloc, id, room);
        next_memtable.set(id + 1);
    }
}

impl<S: Store> TreeState<S> {
    /// Makes a super version the latest one, once its version is the current one on the disk, where its tables are
    /// already. Every kind of commit goes through here. Where it comes with room, its active memtable is a new one.
    ///
    /// # Errors
    ///
    /// `OutOfNumbers` where the counter stands at 2^63 or above, `OutOfMemory` where a growth was refused: nothing changes.
    /// `OutOfMemory` where the store was refused one, `Store` where the version's file wasn't written, `CommitUnknown` where
    /// replacing `current` failed: nothing is installed, but the number is used.
    pub(crate) fn commit(&mut self, next: SuperVersion, room: Option<Room>) -> Result<(), Error>
        requires number { next.seqno ≡ self.old.core.seqno }
        requires later { self.old.core.history.latest.version.id < next.version.id }
        requires certain { self.old.core.lost ≡ None }
        requires room { IfSome room (λ r. length self.old.core.memtables ≤ r) }
        requires fresh { IfSome room (λ _. self.old.core.next_memtable < LIMIT) }
        requires ids { KeepsIds (fresh_in (is_some room) self.old.core).memtables (record { latest = next; older = versions_of self.old.core.history }) (fresh_in (is_some room) self.old.core).next_memtable }
        requires tables { KeepsTables self.old.core.flush (record { latest = next; older = versions_of self.old.core.history }) self.old.core.next_table }
        ensures commits { Commits (is_some room) next result self.old.core self.new.core }
        // Refused for memory before a store call, it changes nothing.
        ensures memory { IsErrOf result Error.OutOfMemory → (self.new ≡ self.old) ⊎ (self.new.core ≡ counted self.old.core) }
        ensures upholds { S.tells → AreOnDisk (S.world self.old.store) (all_of next.version.levels) → UpholdsFiles (S.world self.old.store) (S.world self.new.store) self.old.core self.new.core }
        ensures passes { S.tells → Passes (S.world self.old.store) (S.world self.new.store) }
        ensures counts { CountsFaults (S.world self.old.store) (S.world self.new.store) result }
    {
        crashes_leave_versions(&self.store);
        let number = self.seqno.get();
        if number >= LIMIT {
            return Err(Error::OutOfNumbers);
        }
        // All growths come before the number is drawn, that of the version's file too.
        let file = encode_version(self.alloc, &next.version)?;
        self.history.append_version(next)?;
        self.seqno.set(number + 1);
        let version = &self.history.latest_version().version;
        match commit_version(&mut self.store, version, &file) {
            Ok(()) => {
                self.visible_seqno.fetch_max(number + 1);
                let next = &mut self.next_memtable;
                put_fresh(self.alloc, &mut self.memtables, next, room);
                Ok(())
            }
            Err(error) => {
                drop(room);
                undo_commit(&mut self.history, &mut self.lost, &error);
                Err(error)
            }
        }
    }

    /// Maintenance at a watermark, and then the memtables that no super version names any more go. Returns whether
    /// maintenance came to its end; a fault of the store stops it.
    pub(crate) fn clean_up(&mut self, watermark: SeqNo) -> bool
        ensures cleans { Cleans watermark result self.old.core self.new.core }
        ensures gone { S.tells → result ≡ true → AreGone (S.world self.new.store) self.old.core.history self.new.core.history }
        ensures upholds { S.tells → self.old.core.lost ≡ None → Upholds (S.world self.old.store) (S.world self.new.store) self.old.core self.new.core }
        ensures causes { HasCause (result ≡ false) (S.world self.old.store) (S.world self.new.store) }
    {
        let maintained = self.history.maintenance(&mut self.store, watermark);
        let oldest = oldest_memtable(self.history.oldest_version());
        self.memtables.forget_before(oldest);
        maintained.is_ok()
    }
}

mod settling;
