// The calls of a logged tree behind the lock.
ghost use Rattle.std.specs.Prelude.{◌≡◌, ◌+◌, Option, OnOk, length};
ghost use Rattle.lsm_below.specs.Sums.{capped};
ghost use Rattle.lsm_parts.specs.Held.{HasFirst};
ghost use Rattle.lsm_state.specs.WholeFlushes.{sealed_bytes};
ghost use Rattle.lsm_state.specs.Flushes.{with_next_table};
ghost use Rattle.lsm_state.specs.Calls.{SealsActive, Draws};
ghost use Rattle.lsm_logged.specs.Keeping.{is_unsure};
ghost use Rattle.lsm_logged.specs.Flushing.{ClearsLogged};
ghost use Rattle.lsm_state.specs.Files.{ClearsFiles};
ghost use Rattle.lsm_handles.specs.Shared.{OnSomeLogged, AtSomeTree, AtSomeLogged, TouchesTreeAlone, WritesRecorded, OnSomeLoggedRemoving};

use crate::handle::Handle;
use crate::lock::{act, read};
use lsm_below::{MemtableId, SeqNo, TableId, UserKey};
use lsm_logged::Logged;
use lsm_model::Op;
use lsm_parts::Error;
use lsm_store::Store;
use std::sync::Wait;

/// Each call does, refuses and costs what the one of the same name of `Logged` does, or of the `TreeState` that it lends, on the
/// tree as the lock finds it. It holds the lock until it returns, also while a record is synced.
impl<S: Store> Handle<Logged<S>> {
    /// Writes a batch under the next sequence number, which it returns once the record of the batch is in the store, as
    /// `Logged::write`. The record is put and synced under the lock: a batch of many operations costs one sync, many batches
    /// cost one each.
    pub fn write(&self, rt: &impl Wait, ops: Vec<(UserKey, Op)>) -> Result<SeqNo, Error>
        ensures { OnSomeLogged S (WritesRecorded S.tells S.world ops.items result) }
    {
        act!(self, rt, |tree| tree.write(ops))
    }

    /// Seals the active memtable, as `Logged::rotate_memtable`.
    pub fn rotate_memtable(&self, rt: &impl Wait) -> Result<Option<MemtableId>, Error>
        ensures { OnSomeLogged S (TouchesTreeAlone (SealsActive result)) }
    {
        act!(self, rt, |tree| tree.rotate_memtable())
    }

    /// Clears the tree, as `Logged::clear`. The lock is held while the version's file is written and records are removed.
    pub fn clear(&self, rt: &impl Wait) -> Result<SeqNo, Error>
        ensures { OnSomeLoggedRemoving S.tells S.world (OnOk result) (ClearsFiles result) (λ old new. ClearsLogged result old new) }
    {
        act!(self, rt, |tree| tree.clear())
    }

    /// Draws an id for a table, as `Logged::get_next_table_id`: no table of the tree gets it.
    ///
    /// # Errors
    ///
    /// `OutOfNumbers` where the next id is 2^63 or more; then nothing changes.
    pub fn get_next_table_id(&self, rt: &impl Wait) -> Result<TableId, Error>
        ensures { OnSomeLogged S (TouchesTreeAlone (Draws (λ c. c.next_table) (λ c. with_next_table (c.next_table + 1) c) result)) }
    {
        act!(self, rt, |tree| tree.get_next_table_id())
    }

    /// Sets the moment, in nanoseconds, at which tables are made from now on, as `Logged::set_moment`.
    pub fn set_moment(&self, rt: &impl Wait, moment: u64)
        ensures { OnSomeLogged S (TouchesTreeAlone (λ old new. new ≡ record old { moment = moment })) }
    {
        act!(self, rt, |tree| tree.set_moment(moment))
    }

    /// Whether a `CommitUnknown` came before, of a commit or of a record, as `Logged::is_uncertain`.
    pub fn is_uncertain(&self, rt: &impl Wait) -> bool
        ensures { AtSomeLogged S (λ t. result ≡ is_unsure t) }
    {
        read!(self, rt, |tree| tree.is_uncertain())
    }

    /// How many records may be in the store, as `Logged::log_len`.
    pub fn log_len(&self, rt: &impl Wait) -> usize
        ensures { AtSomeLogged S (λ t. result ≡ length t.numbers) }
    {
        read!(self, rt, |tree| tree.log_len())
    }

    /// The bytes that the memtables count which aren't flushed, as `Logged::log_bytes`.
    pub fn log_bytes(&self, rt: &impl Wait) -> u64
        ensures { AtSomeTree (λ c. HasFirst c.memtables (λ m. result ≡ capped (sealed_bytes c + m.size))) }
    {
        read!(self, rt, |tree| tree.log_bytes())
    }
}

mod compaction;
mod flush;
