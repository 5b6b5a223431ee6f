// The tree: memtables by id, a history of super versions, and its counters.
ghost use Rattle.std.specs.Prelude.{◌≡◌, ℕ, ◌+◌, ◌≤◌, ◌↔◌, ◌⊎◌, true, [], None, Some, IsTrue, IfOk, IfErr, OnOk, OnErr, IsErrOf};
ghost use Rattle.std.specs.Borrow.{sem};
ghost use Rattle.std.specs.Option.{is_some};
ghost use Rattle.lsm_model.specs.Steps.{among};
ghost use Rattle.lsm_compaction.specs.OpenMerges.{hides};
ghost use Rattle.lsm_parts.specs.History.{found_version};
ghost use Rattle.lsm_versions.specs.declared.version.TreeType.TheVariants.{Standard};
ghost use Rattle.lsm_state.specs.Deeds.{IsNoDeed};
ghost use Rattle.lsm_state.specs.Flushes.{with_next_table};
ghost use Rattle.lsm_parts.specs.Held.{HasFirst, first_entries};

use lsm_below::{MemtableId, SeqNo, TableId, TreeId};
use lsm_compaction::OpenMerges;
use lsm_flush::OpenFlush;
use lsm_parts::{
    Config, Error, LIMIT, Memtable, Memtables, SequenceNumberCounter, SuperVersion, SuperVersions,
    Version,
};
use lsm_store::{MemStore, Store};
use lsm_versions::{CompactionState, TreeType};
use std::alloc::Global;
use std::marker::Model;

/// A tree with one owner. Reads of one key are logarithmic in each of its sources.
///
/// # Examples
///
/// ```text
/// let opened = TreeState::open_unlogged(alloc, Config::new(0, 0, 0), MemStore::new(alloc));
/// let mut tree = opened.map_err(|refused| refused.0)?;
/// let number = tree.write(vec![in alloc; (key, Op::Set(value))]?)?;
/// let found = tree.get(b"key", number + 1)?;
/// ```
#[derive(Drop)]
pub struct TreeState<S: Store = MemStore> {
    pub(crate) alloc: Global,
    pub(crate) store: S,
    pub(crate) config: Config,
    pub(crate) memtables: Memtables,
    pub(crate) history: SuperVersions,
    pub(crate) next_memtable: SequenceNumberCounter,
    pub(crate) next_table: SequenceNumberCounter,
    pub(crate) next_job: u64,
    pub(crate) moment: u64,
    pub(crate) seqno: SequenceNumberCounter,
    pub(crate) visible_seqno: SequenceNumberCounter,
    pub(crate) flush: Option<OpenFlush>,
    /// The version of a commit of unknown outcome.
    pub(crate) lost: Option<Version>,
    pub(crate) merges: OpenMerges,
}

impl<S: Store> Model for TreeState<S> {
    ghost use Rattle.lsm_state.specs.Core.{Seen};
    ghost use Rattle.lsm_state.specs.Kept.{KeepsIds, KeepsTables};

    ghost Value = { Seen S };

    ghost view = { λ t. record { store = t.store; core = record { config = t.config; memtables = t.memtables; history = t.history; next_memtable = t.next_memtable; next_table = t.next_table; next_job = t.next_job; moment = t.moment; seqno = t.seqno; visible_seqno = t.visible_seqno; flush = t.flush; lost = t.lost; merges = t.merges } } };

    ghost invariant = { λ t. KeepsIds t.memtables t.history t.next_memtable × KeepsTables t.flush t.history t.next_table };
}

impl<S: Store> TreeState<S> {
    ghost use Rattle.lsm_state.specs.Calls.{Rotates};
    ghost use Rattle.lsm_state.specs.Kept.{IsKeptTree};
    ghost use Rattle.lsm_state.specs.Lending.{LendsSeqno, LendsVisible};

    /// What every tree meets: its memtables' entries stand in order and fit files, ids of memtables fall and are those
    /// that super versions name, no id of a table stands twice, its versions are laid out, and no table is one of two open merges.
    pub fn facts(&self)
        ensures { IsKeptTree self.now.core }
    {
        self.memtables.facts();
        self.history.facts();
        self.merges.facts();
    }

    /// The counter of sequence numbers.
    pub fn seqno(&self) -> &SequenceNumberCounter
        ensures { result.now ≡ self.now.core.seqno }
    {
        &self.seqno
    }

    /// The counter of sequence numbers, to be changed.
    pub fn seqno_mut(&mut self) -> &mut SequenceNumberCounter
        ensures* lends { sem 𝓛 (LendsSeqno S.row S.Store self.entry result) }
        ensures value { result.now ≡ self.old.core.seqno }
    {
        &mut self.seqno
    }

    /// The visible counter: the snapshot that sees every batch so far.
    pub fn visible_seqno(&self) -> &SequenceNumberCounter
        ensures { result.now ≡ self.now.core.visible_seqno }
    {
        &self.visible_seqno
    }

    /// The visible counter, to be changed.
    pub fn visible_seqno_mut(&mut self) -> &mut SequenceNumberCounter
        ensures* lends { sem 𝓛 (LendsVisible S.row S.Store self.entry result) }
        ensures value { result.now ≡ self.old.core.visible_seqno }
    {
        &mut self.visible_seqno
    }

    /// The tree's id, as it was opened with.
    pub fn id(&self) -> TreeId
        ensures { result ≡ self.now.core.config.id }
    {
        self.config.id
    }

    /// What the tree was opened with.
    pub fn tree_config(&self) -> &Config
        ensures { result.now ≡ self.now.core.config }
    {
        &self.config
    }

    /// What kind of tree it is: always a standard one.
    pub fn tree_type(&self) -> TreeType
        ensures { result ≡ Standard }
    {
        TreeType::Standard
    }

    /// The moment at which tables that are written from now on are made, in nanoseconds. It is 0 in a tree that was opened.
    pub fn moment(&self) -> u64
        ensures { result ≡ self.now.core.moment }
    {
        self.moment
    }

    /// Sets the moment at which tables are made from now on, in nanoseconds: a tree asks no clock. While it is 0, any time to
    /// live of `Fifo` expires them.
    pub fn set_moment(&mut self, moment: u64)
        ensures core { self.new.core ≡ record (self.old.core) { moment = moment } }
        ensures store { self.new.store ≡ self.old.store }
        ensures deeds { IsNoDeed self.old.core self.new.core }
    {
        self.moment = moment;
    }

    /// Whether a `CommitUnknown` came before: then nothing is committed or removed until the tree is opened again.
    pub fn is_uncertain(&self) -> bool
        ensures { result ≡ is_some self.now.core.lost }
    {
        self.lost.is_some()
    }

    /// The tables that open merges work on, as strategies are told them.
    pub fn compaction_state(&self) -> &CompactionState
        ensures { (i : ℕ) → among result.now i ≡ hides self.now.core.merges.underway i }
    {
        self.merges.compaction_state()
    }

    /// Whether an open merge works on a table.
    pub fn is_compacting(&self) -> bool
        ensures { IsTrue result ↔ ((i : ℕ) × (hides self.now.core.merges.underway i ≡ true)) }
    {
        self.merges.is_compacting()
    }

    /// The memtable that is written to.
    pub fn active_memtable(&self) -> &Memtable
        ensures first { HasFirst self.now.core.memtables (λ m. result.now ≡ m) }
        ensures id { result.now.id ≡ self.now.core.history.latest.active_memtable }
    {
        self.memtables.active()
    }

    /// An id for a table, which is used then: no table of this tree gets it.
    ///
    /// # Errors
    ///
    /// `OutOfNumbers` where the next id is 2^63 or more. Nothing changes then.
    pub fn get_next_table_id(&mut self) -> Result<TableId, Error>
        ensures ok { IfOk result (λ id. id ≡ self.old.core.next_table) }
        ensures used { OnOk result (self.new.core ≡ with_next_table (self.old.core.next_table + 1) self.old.core) }
        ensures store { self.new.store ≡ self.old.store }
        ensures deeds { IsNoDeed self.old.core self.new.core }

        ensures err { OnErr result (self.new ≡ self.old) }
        ensures out_of_numbers { IsErrOf result Error.OutOfNumbers ↔ LIMIT ≤ self.old.core.next_table }
        ensures only { IfErr result (λ e. e ≡ Error.OutOfNumbers) }
    {
        self.next_table.next()
    }

    /// The super version that a snapshot reads: at 0 the oldest, else the newest one numbered below it.
    /// Where there is none it is `SnapshotTooOld`, and only there.
    pub fn get_version_for_snapshot(&self, snapshot: SeqNo) -> Result<&SuperVersion, Error>
        ensures ok { IfOk result (λ sv. found_version snapshot self.now.core.history ≡ Some sv.now) }
        ensures too_old { IsErrOf result Error.SnapshotTooOld ↔ (found_version snapshot self.now.core.history ≡ None) }
        ensures only { IfErr result (λ e. e ≡ Error.SnapshotTooOld) }
    {
        self.history.get_version_for_snapshot(snapshot)
    }

    /// Seals the active memtable in favour of an empty one, and returns the id of the sealed one;
    /// None where nothing was written to it. The id of the new one is drawn: at 2^63 it is
    /// `OutOfNumbers`. Refused, it changes nothing.
    pub fn rotate_memtable(&mut self) -> Result<Option<MemtableId>, Error>
        ensures ok { IfOk result (λ r. Rotates self.old.core r self.new.core) }
        ensures store { self.new.store ≡ self.old.store }

        ensures err { OnErr result (self.new ≡ self.old) }
        ensures out_of_numbers { IsErrOf result Error.OutOfNumbers → LIMIT ≤ self.old.core.next_memtable }
        ensures told { LIMIT ≤ self.old.core.next_memtable → IfOk result (λ _. first_entries self.old.core.memtables ≡ []) }
        ensures empty { first_entries self.old.core.memtables ≡ [] → result ≡ Ok None }
        ensures only { IfErr result (λ e. (e ≡ Error.OutOfNumbers) ⊎ (e ≡ Error.OutOfMemory)) }
    {
        if self.memtables.is_active_empty() {
            return Ok(None);
        }
        let id = self.next_memtable.get();
        if id >= LIMIT {
            return Err(Error::OutOfNumbers);
        }
        let sealed = self.history.latest_version().active_memtable;
        self.history.rotate_latest(id)?;
        if let Err(error) = self.memtables.rotate(self.alloc, id) {
            self.history.rotate_back();
            return Err(error);
        }
        self.next_memtable.set(id + 1);
        Ok(Some(sealed))
    }
}
