// A tree with a log above it.
ghost use Rattle.std.specs.Prelude.{◌≡◌, ◌≤◌, ◌+◌, ◌⊎◌, ◌↔◌, [], length, Ok, None, IfOk, IfErr, OnOk, OnErr, IsErrOf};
ghost use Rattle.lsm_state.specs.Calls.{Rotates};
ghost use Rattle.lsm_below.specs.Sums.{capped};
ghost use Rattle.lsm_parts.specs.Held.{first_entries, HasFirst};
ghost use Rattle.lsm_state.specs.Flushes.{with_next_table};
ghost use Rattle.lsm_state.specs.WholeFlushes.{sealed_bytes};
ghost use Rattle.lsm_logged.specs.Acting.{ActsNot, RotatesAct};
ghost use Rattle.lsm_logged.specs.Keeping.{is_unsure, IsKeptLogged};

use lsm_below::{Error, MemtableId, SeqNo, TableId};
use lsm_commit::crashes_leave_versions;
use lsm_parts::LIMIT;
use lsm_state::{TreeState, flushes_are_deeds};
use lsm_store::{MemStore, Store};
use std::marker::Model;

/// A tree with a log above it, with one owner.
///
/// # Examples
///
/// ```text
/// let number = tree.write(vec![in alloc; (key, Op::Set(value))]?)?;
/// let found = tree.get(b"key", number + 1)?;
/// ```
#[derive(Drop)]
pub struct Logged<S: Store = MemStore> {
    pub(crate) tree: TreeState<S>,
    /// The numbers of the records that may be in the store, rising.
    pub(crate) numbers: Vec<SeqNo>,
    /// Whether a record has unknown outcome.
    pub(crate) doubted: bool,
}

impl<S: Store> Model for Logged<S> {
    ghost use Rattle.lsm_logged.specs.Keeping.{SeenLogged, AreRecordNumbers};

    ghost Value = { SeenLogged S };

    ghost view = { λ t. record { store = t.tree.store; core = t.tree.core; numbers = t.numbers.items; doubted = t.doubted } };

    ghost invariant = { λ t. AreRecordNumbers t.tree.core.seqno t.numbers.items };
}

impl<S: Store> Logged<S> {
    /// What every logged tree meets: what its tree does, and the numbers of its records rise and are below the counter.
    pub fn facts(&self)
        ensures { IsKeptLogged self.now }
    {
        self.tree.facts();
    }

    /// The tree, to be read, as by `TreeState::choose`.
    pub fn tree(&self) -> &TreeState<S>
        ensures { result.now ≡ record { store = self.now.store; core = self.now.core } }
    {
        &self.tree
    }

    /// How many records may be in the store: those of batches that aren't flushed, and those that are still to be removed.
    pub fn log_len(&self) -> usize
        ensures { result ≡ length self.now.numbers }
    {
        self.numbers.len()
    }

    /// The bytes that the memtables count which aren't flushed: of each write in them those of its key and value, and 48, so no
    /// fewer than its part of a record takes. It is about what replaying the log takes in memory. The cost is linear in the sealed
    /// memtables.
    pub fn log_bytes(&self) -> u64
        ensures { HasFirst self.now.core.memtables (λ m. result ≡ capped (sealed_bytes self.now.core + m.size)) }
    {
        self.tree.unflushed_size()
    }

    /// `TreeState::get_next_table_id`.
    ///
    /// # Errors
    ///
    /// As that call.
    pub fn get_next_table_id(&mut self) -> Result<TableId, Error>
        ensures ok { IfOk result (λ id. id ≡ self.old.core.next_table) }
        ensures used { OnOk result (self.new.core ≡ with_next_table (self.old.core.next_table + 1) self.old.core) }
        ensures store { self.new.store ≡ self.old.store }
        ensures log { (self.new.numbers ≡ self.old.numbers) × (self.new.doubted ≡ self.old.doubted) }
        ensures err { OnErr result (self.new ≡ self.old) }
        ensures out_of_numbers { IsErrOf result Error.OutOfNumbers ↔ LIMIT ≤ self.old.core.next_table }
        ensures only { IfErr result (λ e. e ≡ Error.OutOfNumbers) }
        // As the theory sees it nothing is done.
        ensures acts { S.tells → ActsNot (S.world self.old.store) (S.world self.new.store) self.old self.new }
    {
        crashes_leave_versions(self.tree.store());
        self.tree.get_next_table_id()
    }

    /// `TreeState::rotate_memtable`.
    pub fn rotate_memtable(&mut self) -> Result<Option<MemtableId>, Error>
        ensures ok { IfOk result (λ r. Rotates self.old.core r self.new.core) }
        ensures err { OnErr result (self.new ≡ self.old) }
        ensures store { self.new.store ≡ self.old.store }
        ensures log { (self.new.numbers ≡ self.old.numbers) × (self.new.doubted ≡ self.old.doubted) }
        ensures out_of_numbers { IsErrOf result Error.OutOfNumbers → LIMIT ≤ self.old.core.next_memtable }
        ensures told { LIMIT ≤ self.old.core.next_memtable → IfOk result (λ _. first_entries self.old.core.memtables ≡ []) }
        ensures empty { first_entries self.old.core.memtables ≡ [] → result ≡ Ok None }
        ensures only { IfErr result (λ e. (e ≡ Error.OutOfNumbers) ⊎ (e ≡ Error.OutOfMemory)) }
        // As the theory sees it: a rotation, or nothing.
        ensures acts { S.tells → RotatesAct result (S.world self.old.store) self.old self.new }
    {
        flushes_are_deeds();
        self.tree.facts();
        crashes_leave_versions(self.tree.store());
        self.tree.rotate_memtable()
    }

    /// Sets the moment at which tables are made from now on, in nanoseconds.
    pub fn set_moment(&mut self, moment: u64)
        ensures core { self.new.core ≡ record (self.old.core) { moment = moment } }
        ensures store { self.new.store ≡ self.old.store }
        ensures log { (self.new.numbers ≡ self.old.numbers) × (self.new.doubted ≡ self.old.doubted) }
        // As the theory sees it nothing is done.
        ensures acts { S.tells → ActsNot (S.world self.old.store) (S.world self.new.store) self.old self.new }
    {
        crashes_leave_versions(self.tree.store());
        self.tree.set_moment(moment);
    }

    /// Whether a `CommitUnknown` came before, of a commit or of a record: then nothing is written, committed or removed
    /// until the tree is opened again.
    pub fn is_uncertain(&self) -> bool
        ensures { result ≡ is_unsure self.now }
    {
        self.doubted || self.tree.is_uncertain()
    }
}
