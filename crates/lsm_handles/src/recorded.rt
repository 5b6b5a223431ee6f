// The calls of a tree with its journal, behind the lock.
ghost use Rattle.std.specs.Prelude.{◌≡◌, ◌⊎◌, IfOk, IfErr, is_some};
ghost use Rattle.lsm_below.specs.Entries.{plain};
ghost use Rattle.lsm_model.specs.Beginnings.{shown_by};
ghost use Rattle.lsm_model.specs.Journal.{Agrees};
ghost use Rattle.lsm_model.specs.Ops.{op_entry};
ghost use Rattle.lsm_model.specs.declared.question.Question.TheVariants.{Between, Prefix};
ghost use Rattle.lsm_model.specs.declared.op.Op.TheVariants.{Set, Del, Weak};
ghost use Rattle.lsm_versions.specs.Levels.{placed_of};
ghost use Rattle.lsm_recorded.specs.Closing.{ListTogether};
ghost use Rattle.lsm_state.specs.Calls.{SealsActive};
ghost use Rattle.lsm_recorded.specs.Calls.{NotesWrite, NotesBatch, NotesGet, NotesPairs, NotesNothing};
ghost use Rattle.lsm_state.specs.Listing.{Lists, ListsPrefix};
ghost use Rattle.lsm_recorded.specs.Flushing.{RefusesUnnoted};
ghost use Rattle.lsm_recorded.specs.Clearing.{ClearsNoted};
ghost use Rattle.lsm_state.specs.Files.{ClearsFiles};
ghost use Rattle.lsm_handles.specs.Shared.{OnSomeTreeAlone, OnSomeRecorded, AtSomeTree, AtSomeRecorded, OnSomeRecordedFiles};

use crate::handle::Handle;
use crate::lock::{act, read};
use lsm_below::{InternalValue, MemtableId, SeqNo, UserKey, UserValue};
use lsm_model::{KvPairs, Op};
use lsm_parts::Error;
use lsm_recorded::{Closed, Pass, Recorded};
use lsm_store::Store;
use std::ops::Bound;
use std::sync::Wait;

/// Each call does, refuses and costs what the one of the same name of `Recorded` does, on the tree as the
/// lock finds it. An answered write or read appends its entries to the pass, a refused one none.
impl<S: Store> Handle<Recorded<S>> {
    /// The value of a key at a snapshot, as `Recorded::get`.
    pub fn get(
        &self,
        rt: &impl Wait,
        pass: &mut Pass,
        key: &[u8],
        snapshot: SeqNo,
    ) -> Result<Option<UserValue>, Error>
        ensures { OnSomeRecorded S (λ old new. NotesGet key.now snapshot result old new pass.old pass.new) }
    {
        act!(self, rt, |tree| tree.get(pass, key, snapshot))
    }

    /// The pairs in the bounds that a snapshot shows, as `Recorded::range`.
    pub fn range(
        &self,
        rt: &impl Wait,
        pass: &mut Pass,
        bounds: &(Bound<UserKey>, Bound<UserKey>),
        snapshot: SeqNo,
    ) -> Result<KvPairs, Error>
        ensures { OnSomeRecorded S (λ old new. NotesPairs (Between bounds.now.0 bounds.now.1) (λ c pairs. Lists c bounds.now.0 bounds.now.1 snapshot pairs) snapshot result old new pass.old pass.new) }
    {
        act!(self, rt, |tree| tree.range(pass, bounds, snapshot))
    }

    /// The pairs of the keys that begin so, as `Recorded::prefix`.
    pub fn prefix(
        &self,
        rt: &impl Wait,
        pass: &mut Pass,
        prefix: &UserKey,
        snapshot: SeqNo,
    ) -> Result<KvPairs, Error>
        ensures { OnSomeRecorded S (λ old new. NotesPairs (Prefix prefix.now) (λ c pairs. ListsPrefix c prefix.now snapshot pairs) snapshot result old new pass.old pass.new) }
    {
        act!(self, rt, |tree| tree.prefix(pass, prefix, snapshot))
    }

    /// Seals the active memtable, as `Recorded::rotate_memtable`.
    pub fn rotate_memtable(
        &self,
        rt: &impl Wait,
        pass: &mut Pass,
    ) -> Result<Option<MemtableId>, Error>
        ensures { OnSomeRecorded S (λ old new. NotesNothing (SealsActive result) old new pass.old pass.new) }
    {
        act!(self, rt, |tree| tree.rotate_memtable(pass))
    }

    /// Writes an entry under its own sequence number, as `Recorded::append_entry`.
    pub fn append_entry(
        &self,
        rt: &impl Wait,
        pass: &mut Pass,
        entry: InternalValue,
    ) -> Result<(u64, u64), Error>
        ensures { OnSomeRecorded S (λ old new. NotesWrite (plain entry) result old new pass.old pass.new) }
    {
        act!(self, rt, |tree| tree.append_entry(pass, entry))
    }

    /// Sets a key under a sequence number, as `Recorded::insert`.
    pub fn insert(
        &self,
        rt: &impl Wait,
        pass: &mut Pass,
        key: UserKey,
        value: UserValue,
        seqno: SeqNo,
    ) -> Result<(u64, u64), Error>
        ensures { OnSomeRecorded S (λ old new. NotesWrite (op_entry key seqno (Set value)) result old new pass.old pass.new) }
    {
        act!(self, rt, |tree| tree.insert(pass, key, value, seqno))
    }

    /// Removes a key under a sequence number, as `Recorded::remove`.
    pub fn remove(
        &self,
        rt: &impl Wait,
        pass: &mut Pass,
        key: UserKey,
        seqno: SeqNo,
    ) -> Result<(u64, u64), Error>
        ensures { OnSomeRecorded S (λ old new. NotesWrite (op_entry key seqno Del) result old new pass.old pass.new) }
    {
        act!(self, rt, |tree| tree.remove(pass, key, seqno))
    }

    /// Removes a key, of which at most one value was ever written, as `Recorded::remove_weak`.
    pub fn remove_weak(
        &self,
        rt: &impl Wait,
        pass: &mut Pass,
        key: UserKey,
        seqno: SeqNo,
    ) -> Result<(u64, u64), Error>
        ensures { OnSomeRecorded S (λ old new. NotesWrite (op_entry key seqno Weak) result old new pass.old pass.new) }
    {
        act!(self, rt, |tree| tree.remove_weak(pass, key, seqno))
    }

    /// Writes a batch under the next sequence number, which it returns, as `Recorded::write`.
    pub fn write(
        &self,
        rt: &impl Wait,
        pass: &mut Pass,
        ops: Vec<(UserKey, Op)>,
    ) -> Result<SeqNo, Error>
        ensures { OnSomeRecorded S (λ old new. NotesBatch ops.items result old new pass.old pass.new) }
    {
        act!(self, rt, |tree| tree.write(pass, ops))
    }

    /// Clears the tree, as `Recorded::clear`. The lock is held while the version's file is written.
    pub fn clear(&self, rt: &impl Wait, pass: &mut Pass) -> Result<SeqNo, Error>
        ensures { OnSomeRecordedFiles S.tells S.world (ClearsFiles result) (λ old new. RefusesUnnoted result old new pass.old pass.new ⊎ ClearsNoted result old new pass.old pass.new) }
    {
        act!(self, rt, |tree| tree.clear(pass))
    }

    /// A copy of the journal and the version that was opened, where the passes together list the journal, else the passes; as
    /// `Recorded::close`.
    pub fn close(&self, rt: &impl Wait, passes: Vec<Pass>) -> Result<Closed, Vec<Pass>>
        ensures listed { IfOk result (λ c. ListTogether c.journal.items passes.items) }
        ensures agrees { IfOk result (λ c. Agrees (shown_by (placed_of c.opened.levels)) c.journal.items) }
        // It is the journal of a tree, and these are the tables that it was opened with.
        ensures tree { IfOk result (λ c. AtSomeRecorded S (λ t. (t.journal ≡ c.journal.items) × (t.opened ≡ placed_of c.opened.levels))) }
        ensures back { IfErr result (λ back. back ≡ passes) }
    {
        read!(self, rt, |tree| tree.close(passes))
    }

    /// Sets the moment, in nanoseconds, at which tables are made from now on, as `Recorded::set_moment`.
    pub fn set_moment(&self, rt: &impl Wait, moment: u64)
        ensures { OnSomeTreeAlone S (λ old new. new ≡ record old { moment = moment }) }
    {
        act!(self, rt, |tree| tree.set_moment(moment))
    }

    /// Whether a commit of unknown outcome came before, as `Recorded::is_uncertain`.
    pub fn is_uncertain(&self, rt: &impl Wait) -> bool
        ensures { AtSomeTree (λ c. result ≡ is_some c.lost) }
    {
        read!(self, rt, |tree| tree.is_uncertain())
    }
}

mod compaction;
mod flush;
