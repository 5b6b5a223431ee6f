// What is counted and told of a tree behind the lock, whatever stands above it.
ghost use Rattle.std.specs.Prelude.{◌≡◌, ◌+◌, ◌++◌, ◌↔◌, ℕ, true, [], IfErr, IfOk, IsTrue, length, slice_get, slice_index_or, option_map};
ghost use Rattle.lsm_below.specs.Optimizes.{tables_of};
ghost use Rattle.lsm_below.specs.Sums.{capped};
ghost use Rattle.lsm_tables.specs.Tables.{tombstones, weak_tombstones, reclaimable};
ghost use Rattle.lsm_memtable.specs.Memtables.{highest_of};
ghost use Rattle.lsm_compaction.specs.OpenMerges.{hides};
ghost use Rattle.lsm_versions.specs.Levels.{all_of, bytes_of};
ghost use Rattle.lsm_versions.specs.declared.version.TreeType.TheVariants.{Standard};
ghost use Rattle.lsm_parts.specs.History.{named_size};
ghost use Rattle.lsm_state.specs.Counts.{tables_now, persisted_of, unflushed_of, counted_now};
ghost use Rattle.lsm_handles.specs.Shared.{AtSomeTree};

use crate::handle::Handle;
use crate::lock::read_tree;
use lsm_below::{Error, SeqNo, TableId, TreeId};
use lsm_logged::Logged;
use lsm_recorded::Recorded;
use lsm_state::TreeState;
use lsm_store::Store;
use lsm_versions::{TreeType, Version};
use std::alloc::Global;
use std::sync::Wait;

/// What has a tree: the tree itself, one with a log above it, one with its call history. Handles on each of them count and tell
/// the same of it.
///
/// # Examples
///
/// ```text
/// fn tables<C: HasTree>(handle: &Handle<C>, rt: &impl Wait) -> usize {
///     handle.table_count(rt)
/// }
/// ```
pub trait HasTree {
    /// The store of the tree.
    type Store: Store;

    /// The tree, to be read.
    fn tree(&self) -> &TreeState<Self::Store>;
}

impl<S: Store> HasTree for TreeState<S> {
    type Store = S;

    fn tree(&self) -> &TreeState<S> {
        self
    }
}

impl<S: Store> HasTree for Logged<S> {
    type Store = S;

    fn tree(&self) -> &TreeState<S> {
        Logged::tree(self)
    }
}

impl<S: Store> HasTree for Recorded<S> {
    type Store = S;

    fn tree(&self) -> &TreeState<S> {
        Recorded::tree(self)
    }
}

/// What the calls of the same names of `TreeState` count and tell, of the tree as the lock finds it. Two such calls may find two
/// trees.
impl<C: HasTree> Handle<C> {
    /// The tree's id, as it was opened with.
    pub fn id(&self, rt: &impl Wait) -> TreeId
        ensures { AtSomeTree (λ c. result ≡ c.config.id) }
    {
        read_tree!(self, rt, |tree| tree.id())
    }

    /// What kind of tree it is: always a standard one.
    pub fn tree_type(&self, rt: &impl Wait) -> TreeType
        ensures { result ≡ Standard }
    {
        read_tree!(self, rt, |tree| tree.tree_type())
    }

    /// The snapshot that sees every write so far that was made visible.
    pub fn visible_number(&self, rt: &impl Wait) -> SeqNo
        ensures { AtSomeTree (λ c. c.visible_seqno ≡ result) }
    {
        read_tree!(self, rt, |tree| tree.visible_seqno().get())
    }

    /// The moment, in nanoseconds, at which tables are made, as `set_moment` set it: `Options` take it.
    pub fn moment(&self, rt: &impl Wait) -> u64
        ensures { AtSomeTree (λ c. result ≡ c.moment) }
    {
        read_tree!(self, rt, |tree| tree.moment())
    }

    /// The latest version: a copy, which shares its tables. Its `log_from` is the number from which a log above the tree is
    /// read. The cost is linear in the tables.
    ///
    /// # Errors
    ///
    /// `OutOfMemory` where a growth was refused.
    pub fn current_version(&self, rt: &impl Wait, alloc: Global) -> Result<Version, Error>
        ensures copy { IfOk result (λ v. AtSomeTree (λ c. v ≡ c.history.latest.version)) }
        ensures memory { IfErr result (λ e. e ≡ Error.OutOfMemory) }
    {
        read_tree!(self, rt, |tree| Ok(tree.current_version().copy(alloc)?))
    }

    /// Whether an open merge works on a table.
    pub fn is_compacting(&self, rt: &impl Wait) -> bool
        ensures { AtSomeTree (λ c. IsTrue result ↔ ((i : ℕ) × (hides c.merges.underway i ≡ true))) }
    {
        read_tree!(self, rt, |tree| tree.is_compacting())
    }

    /// The id that the next table gets.
    pub fn next_table_id(&self, rt: &impl Wait) -> TableId
        ensures { AtSomeTree (λ c. result ≡ c.next_table) }
    {
        read_tree!(self, rt, |tree| tree.next_table_id())
    }

    /// How many tables the latest version has.
    pub fn table_count(&self, rt: &impl Wait) -> usize
        ensures { AtSomeTree (λ c. result ≡ capped (length (all_of c.history.latest.version.levels))) }
    {
        read_tree!(self, rt, |tree| tree.table_count())
    }

    /// How many runs the first level has.
    pub fn l0_run_count(&self, rt: &impl Wait) -> usize
        ensures { AtSomeTree (λ c. result ≡ length (slice_index_or c.history.latest.version.levels 0 [])) }
    {
        read_tree!(self, rt, |tree| tree.l0_run_count())
    }

    /// How many tables a level has, None from 7 on.
    pub fn level_table_count(&self, rt: &impl Wait, level: usize) -> Option<usize>
        ensures { AtSomeTree (λ c. result ≡ option_map (λ runs. capped (length (tables_of runs))) (slice_get c.history.latest.version.levels level)) }
    {
        read_tree!(self, rt, |tree| tree.level_table_count(level))
    }

    /// How many memtables are sealed and not flushed.
    pub fn sealed_memtable_count(&self, rt: &impl Wait) -> usize
        ensures { AtSomeTree (λ c. result ≡ length c.history.latest.sealed_memtables) }
    {
        read_tree!(self, rt, |tree| tree.sealed_memtable_count())
    }

    /// How many older super versions are kept.
    pub fn version_free_list_len(&self, rt: &impl Wait) -> usize
        ensures { AtSomeTree (λ c. result ≡ length c.history.older) }
    {
        read_tree!(self, rt, |tree| tree.version_free_list_len())
    }

    /// How many entries memtables and tables hold.
    pub fn approximate_len(&self, rt: &impl Wait) -> usize
        ensures { AtSomeTree (λ c. result ≡ capped (length (unflushed_of c) + length (persisted_of c))) }
    {
        read_tree!(self, rt, |tree| tree.approximate_len())
    }

    /// The bytes of the tables of the latest version.
    pub fn disk_space(&self, rt: &impl Wait) -> u64
        ensures { AtSomeTree (λ c. result ≡ capped (bytes_of (tables_now c))) }
    {
        read_tree!(self, rt, |tree| tree.disk_space())
    }

    /// How many tombstones of either kind its tables hold.
    pub fn tombstone_count(&self, rt: &impl Wait) -> u64
        ensures { AtSomeTree (λ c. result ≡ counted_now tombstones c) }
    {
        read_tree!(self, rt, |tree| tree.tombstone_count())
    }

    /// How many weak tombstones its tables hold.
    pub fn weak_tombstone_count(&self, rt: &impl Wait) -> u64
        ensures { AtSomeTree (λ c. result ≡ counted_now weak_tombstones c) }
    {
        read_tree!(self, rt, |tree| tree.weak_tombstone_count())
    }

    /// How many weak tombstones stand directly above a value in one of its tables.
    pub fn weak_tombstone_reclaimable_count(&self, rt: &impl Wait) -> u64
        ensures { AtSomeTree (λ c. result ≡ counted_now reclaimable c) }
    {
        read_tree!(self, rt, |tree| tree.weak_tombstone_reclaimable_count())
    }

    /// The bytes of the memtables that any super version names.
    pub fn version_memtable_size_sum(&self, rt: &impl Wait) -> u64
        ensures { AtSomeTree (λ c. result ≡ named_size c.history c.memtables) }
    {
        read_tree!(self, rt, |tree| tree.version_memtable_size_sum())
    }

    /// The greatest sequence number of all entries.
    pub fn get_highest_seqno(&self, rt: &impl Wait) -> Option<SeqNo>
        ensures { AtSomeTree (λ c. result ≡ highest_of (unflushed_of c ++ persisted_of c)) }
    {
        read_tree!(self, rt, |tree| tree.get_highest_seqno())
    }

    /// The greatest sequence number in memtables.
    pub fn get_highest_memtable_seqno(&self, rt: &impl Wait) -> Option<SeqNo>
        ensures { AtSomeTree (λ c. result ≡ highest_of (unflushed_of c)) }
    {
        read_tree!(self, rt, |tree| tree.get_highest_memtable_seqno())
    }

    /// The greatest sequence number in tables.
    pub fn get_highest_persisted_seqno(&self, rt: &impl Wait) -> Option<SeqNo>
        ensures { AtSomeTree (λ c. result ≡ highest_of (persisted_of c)) }
    {
        read_tree!(self, rt, |tree| tree.get_highest_persisted_seqno())
    }
}
