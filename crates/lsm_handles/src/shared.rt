// The calls of a tree behind the lock.
ghost use Rattle.std.specs.Prelude.{◌≡◌, ◌<◌, ◌+◌, max, is_some, Option, IfOk};
ghost use Rattle.lsm_below.specs.Entries.{plain};
ghost use Rattle.lsm_model.specs.Ops.{op_entry};
ghost use Rattle.lsm_model.specs.declared.op.Op.TheVariants.{Set, Del, Weak};
ghost use Rattle.lsm_state.specs.Flushes.{with_next_table};
ghost use Rattle.lsm_state.specs.Calls.{Appends, WritesBatch, SealsActive, Draws};
ghost use Rattle.lsm_state.specs.Clearing.{Clears, ForgetsUnflushed};
ghost use Rattle.lsm_state.specs.Files.{ClearsFiles};
ghost use Rattle.lsm_handles.specs.Shared.{OnSomeTreeAlone, AtSomeTree, OnSomeTreeFiles};

use crate::handle::Handle;
use crate::lock::{act, read};
use lsm_below::{InternalValue, MemtableId, SeqNo, TableId, UserKey, UserValue};
use lsm_model::Op;
use lsm_parts::{Error, LIMIT};
use lsm_state::TreeState;
use lsm_store::Store;
use std::sync::Wait;

/// Each call does, refuses and costs what the one of the same name of `TreeState` does, on the tree as the
/// lock finds it. It holds the lock until it returns.
impl<S: Store> Handle<TreeState<S>> {
    /// Whether a commit of unknown outcome came before, as `TreeState::is_uncertain`.
    pub fn is_uncertain(&self, rt: &impl Wait) -> bool
        ensures { AtSomeTree (λ c. result ≡ is_some c.lost) }
    {
        read!(self, rt, |tree| tree.is_uncertain())
    }

    /// Seals the active memtable, as `TreeState::rotate_memtable`.
    pub fn rotate_memtable(&self, rt: &impl Wait) -> Result<Option<MemtableId>, Error>
        ensures { OnSomeTreeAlone S (SealsActive result) }
    {
        act!(self, rt, |tree| tree.rotate_memtable())
    }

    /// Writes an entry under its own sequence number, as `TreeState::append_entry`.
    pub fn append_entry(&self, rt: &impl Wait, entry: InternalValue) -> Result<(u64, u64), Error>
        ensures { OnSomeTreeAlone S (λ old new. Appends (plain entry) result old new) }
    {
        act!(self, rt, |tree| tree.append_entry(entry))
    }

    /// Sets a key under a sequence number, as `TreeState::insert`.
    pub fn insert(
        &self,
        rt: &impl Wait,
        key: UserKey,
        value: UserValue,
        seqno: SeqNo,
    ) -> Result<(u64, u64), Error>
        ensures { OnSomeTreeAlone S (λ old new. Appends (op_entry key seqno (Set value)) result old new) }
    {
        act!(self, rt, |tree| tree.insert(key, value, seqno))
    }

    /// Removes a key under a sequence number, as `TreeState::remove`.
    pub fn remove(&self, rt: &impl Wait, key: UserKey, seqno: SeqNo) -> Result<(u64, u64), Error>
        ensures { OnSomeTreeAlone S (λ old new. Appends (op_entry key seqno Del) result old new) }
    {
        act!(self, rt, |tree| tree.remove(key, seqno))
    }

    /// Removes a key, of which at most one value was ever written, as `TreeState::remove_weak`.
    pub fn remove_weak(
        &self,
        rt: &impl Wait,
        key: UserKey,
        seqno: SeqNo,
    ) -> Result<(u64, u64), Error>
        ensures { OnSomeTreeAlone S (λ old new. Appends (op_entry key seqno Weak) result old new) }
    {
        act!(self, rt, |tree| tree.remove_weak(key, seqno))
    }

    /// Writes a batch under the next sequence number, which it returns, as `TreeState::write`.
    pub fn write(&self, rt: &impl Wait, ops: Vec<(UserKey, Op)>) -> Result<SeqNo, Error>
        ensures { OnSomeTreeAlone S (λ old new. WritesBatch ops.items result old new) }
    {
        act!(self, rt, |tree| tree.write(ops))
    }

    /// Clears the tree, as `TreeState::clear`. The lock is held while the version's file is written.
    pub fn clear(&self, rt: &impl Wait) -> Result<SeqNo, Error>
        ensures { OnSomeTreeFiles S.tells S.world (ClearsFiles result) (λ old new. Clears result old new) }
    {
        act!(self, rt, |tree| tree.clear())
    }

    /// Forgets what isn't flushed, as `TreeState::clear_active_memtable`.
    pub fn clear_active_memtable(&self, rt: &impl Wait) -> Result<(), Error>
        ensures { OnSomeTreeAlone S (λ old new. ForgetsUnflushed result old new) }
    {
        act!(self, rt, |tree| tree.clear_active_memtable())
    }

    /// Draws the next sequence number, to write under it.
    ///
    /// # Errors
    ///
    /// `OutOfNumbers` from 2^63 on; then nothing changes.
    pub fn next_seqno(&self, rt: &impl Wait) -> Result<SeqNo, Error>
        ensures draws { OnSomeTreeAlone S (Draws (λ c. c.seqno) (λ c. record c { seqno = c.seqno + 1 }) result) }
        ensures below { IfOk result (λ n. n < LIMIT) }
    {
        act!(self, rt, |tree| tree.seqno_mut().next())
    }

    /// Draws an id for a table, as `TreeState::get_next_table_id`: no table of the tree gets it.
    ///
    /// # Errors
    ///
    /// `OutOfNumbers` where the next id is 2^63 or more; then nothing changes.
    pub fn get_next_table_id(&self, rt: &impl Wait) -> Result<TableId, Error>
        ensures { OnSomeTreeAlone S (Draws (λ c. c.next_table) (λ c. with_next_table (c.next_table + 1) c) result) }
    {
        act!(self, rt, |tree| tree.get_next_table_id())
    }

    /// Sets the moment, in nanoseconds, at which tables are made from now on, as `TreeState::set_moment`.
    pub fn set_moment(&self, rt: &impl Wait, moment: u64)
        ensures { OnSomeTreeAlone S (λ old new. new ≡ record old { moment = moment }) }
    {
        act!(self, rt, |tree| tree.set_moment(moment))
    }

    /// Raises the visible counter to a number, unless it stands at a greater one: snapshots at it see what is numbered below it, so
    /// after a write under the number n raise it to n + 1.
    pub fn raise_visible(&self, rt: &impl Wait, seqno: SeqNo)
        ensures { OnSomeTreeAlone S (λ old new. new ≡ record old { visible_seqno = max old.visible_seqno seqno }) }
    {
        act!(self, rt, |tree| tree.visible_seqno_mut().fetch_max(seqno))
    }
}

mod compaction;
mod flush;
