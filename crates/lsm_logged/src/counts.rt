// What is counted of a logged tree, and what is told of it.
ghost use Rattle.std.specs.Prelude.{◌≡◌, ℕ, ◌↔◌, true, IsTrue, ◌+◌, ◌++◌, [], length, slice_get, slice_index_or};
ghost use Rattle.std.specs.Option.{option_map};
ghost use Rattle.lsm_below.specs.Optimizes.{tables_of};
ghost use Rattle.lsm_below.specs.Sums.{capped};
ghost use Rattle.lsm_tables.specs.Tables.{tombstones, weak_tombstones, reclaimable};
ghost use Rattle.lsm_model.specs.Steps.{among};
ghost use Rattle.lsm_memtable.specs.Memtables.{highest_of};
ghost use Rattle.lsm_versions.specs.declared.version.TreeType.TheVariants.{Standard};
ghost use Rattle.lsm_versions.specs.Levels.{bytes_of, all_of};
ghost use Rattle.lsm_compaction.specs.OpenMerges.{hides};
ghost use Rattle.lsm_parts.specs.Held.{HasFirst};
ghost use Rattle.lsm_parts.specs.History.{named_size};
ghost use Rattle.lsm_state.specs.WholeFlushes.{sealed_bytes};
ghost use Rattle.lsm_state.specs.Counts.{tables_now, persisted_of, unflushed_of, counted_now};
ghost use Rattle.lsm_state.specs.WholeCompactions.{options_at};

use crate::Logged;
use lsm_below::{SeqNo, TableId, TreeId};
use lsm_parts::{Config, Memtable, SequenceNumberCounter, Version};
use lsm_state::Options;
use lsm_store::Store;
use lsm_versions::{CompactionState, TreeType};

/// What the calls of the same names of `TreeState` count and tell of the tree below the log. None takes memory or calls the store,
/// and none is refused.
impl<S: Store> Logged<S> {
    /// The tree's id, as `TreeState::id`.
    pub fn id(&self) -> TreeId
        ensures { result ≡ self.now.core.config.id }
    {
        self.tree.id()
    }

    /// What the tree was opened with, as `TreeState::tree_config`.
    pub fn tree_config(&self) -> &Config
        ensures { result.now ≡ self.now.core.config }
    {
        self.tree.tree_config()
    }

    /// What kind of tree it is, as `TreeState::tree_type`.
    pub fn tree_type(&self) -> TreeType
        ensures { result ≡ Standard }
    {
        self.tree.tree_type()
    }

    /// The moment at which tables are made from now on, in nanoseconds, as `TreeState::moment`.
    pub fn moment(&self) -> u64
        ensures { result ≡ self.now.core.moment }
    {
        self.tree.moment()
    }

    /// The counter of sequence numbers, as `TreeState::seqno`.
    pub fn seqno(&self) -> &SequenceNumberCounter
        ensures { result.now ≡ self.now.core.seqno }
    {
        self.tree.seqno()
    }

    /// The visible counter: the snapshot that sees every batch so far, as `TreeState::visible_seqno`.
    pub fn visible_seqno(&self) -> &SequenceNumberCounter
        ensures { result.now ≡ self.now.core.visible_seqno }
    {
        self.tree.visible_seqno()
    }

    /// The latest version, as `TreeState::current_version`.
    pub fn current_version(&self) -> &Version
        ensures { result.now ≡ self.now.core.history.latest.version }
    {
        self.tree.current_version()
    }

    /// How many tables the latest version has, as `TreeState::table_count`.
    pub fn table_count(&self) -> usize
        ensures { result ≡ capped (length (all_of self.now.core.history.latest.version.levels)) }
    {
        self.tree.table_count()
    }

    /// The id that the next table gets, as `TreeState::next_table_id`.
    pub fn next_table_id(&self) -> TableId
        ensures { result ≡ self.now.core.next_table }
    {
        self.tree.next_table_id()
    }

    /// The memtable that is written to, as `TreeState::active_memtable`.
    pub fn active_memtable(&self) -> &Memtable
        ensures first { HasFirst self.now.core.memtables (λ m. result.now ≡ m) }
        ensures id { result.now.id ≡ self.now.core.history.latest.active_memtable }
    {
        self.tree.active_memtable()
    }

    /// The tables that open merges work on, as `TreeState::compaction_state`.
    pub fn compaction_state(&self) -> &CompactionState
        ensures { (i : ℕ) → among result.now i ≡ hides self.now.core.merges.underway i }
    {
        self.tree.compaction_state()
    }

    /// Whether an open merge works on a table, as `TreeState::is_compacting`.
    pub fn is_compacting(&self) -> bool
        ensures { IsTrue result ↔ ((i : ℕ) × (hides self.now.core.merges.underway i ≡ true)) }
    {
        self.tree.is_compacting()
    }

    /// The options of a compaction at a watermark, as `TreeState::options_at`.
    pub fn options_at(&self, watermark: SeqNo) -> Options
        ensures { result ≡ options_at watermark self.now.core }
    {
        self.tree.options_at(watermark)
    }

    /// How many runs the first level has, as `TreeState::l0_run_count`.
    pub fn l0_run_count(&self) -> usize
        ensures { result ≡ length (slice_index_or self.now.core.history.latest.version.levels 0 []) }
    {
        self.tree.l0_run_count()
    }

    /// How many tables a level has, None from 7 on, as `TreeState::level_table_count`.
    pub fn level_table_count(&self, level: usize) -> Option<usize>
        ensures { result ≡ option_map (λ runs. capped (length (tables_of runs))) (slice_get self.now.core.history.latest.version.levels level) }
    {
        self.tree.level_table_count(level)
    }

    /// How many memtables are sealed and not flushed yet, as `TreeState::sealed_memtable_count`.
    pub fn sealed_memtable_count(&self) -> usize
        ensures { result ≡ length self.now.core.history.latest.sealed_memtables }
    {
        self.tree.sealed_memtable_count()
    }

    /// How many super versions are kept beside the latest one, as `TreeState::version_free_list_len`.
    pub fn version_free_list_len(&self) -> usize
        ensures { result ≡ length self.now.core.history.older }
    {
        self.tree.version_free_list_len()
    }

    /// How many entries the latest super version reads, as `TreeState::approximate_len`.
    pub fn approximate_len(&self) -> usize
        ensures { result ≡ capped (length (unflushed_of self.now.core) + length (persisted_of self.now.core)) }
    {
        self.tree.approximate_len()
    }

    /// The bytes of the latest version's table files, as `TreeState::disk_space`.
    pub fn disk_space(&self) -> u64
        ensures { result ≡ capped (bytes_of (tables_now self.now.core)) }
    {
        self.tree.disk_space()
    }

    /// How many entries of tables remove their key, as `TreeState::tombstone_count`.
    pub fn tombstone_count(&self) -> u64
        ensures { result ≡ counted_now tombstones self.now.core }
    {
        self.tree.tombstone_count()
    }

    /// How many entries of tables remove their key weakly, as `TreeState::weak_tombstone_count`.
    pub fn weak_tombstone_count(&self) -> u64
        ensures { result ≡ counted_now weak_tombstones self.now.core }
    {
        self.tree.weak_tombstone_count()
    }

    /// How many weak tombstones stand directly above a value of their key, as `TreeState::weak_tombstone_reclaimable_count`.
    pub fn weak_tombstone_reclaimable_count(&self) -> u64
        ensures { result ≡ counted_now reclaimable self.now.core }
    {
        self.tree.weak_tombstone_reclaimable_count()
    }

    /// The bytes that all memtables count which some super version names, as `TreeState::version_memtable_size_sum`.
    pub fn version_memtable_size_sum(&self) -> u64
        ensures { result ≡ named_size self.now.core.history self.now.core.memtables }
    {
        self.tree.version_memtable_size_sum()
    }

    /// The bytes that the memtables count which aren't flushed, as `TreeState::unflushed_size`.
    pub fn unflushed_size(&self) -> u64
        ensures { HasFirst self.now.core.memtables (λ m. result ≡ capped (sealed_bytes self.now.core + m.size)) }
    {
        self.tree.unflushed_size()
    }

    /// The greatest sequence number in tables, as `TreeState::get_highest_persisted_seqno`.
    pub fn get_highest_persisted_seqno(&self) -> Option<SeqNo>
        ensures { result ≡ highest_of (persisted_of self.now.core) }
    {
        self.tree.get_highest_persisted_seqno()
    }

    /// The greatest sequence number in memtables, as `TreeState::get_highest_memtable_seqno`.
    pub fn get_highest_memtable_seqno(&self) -> Option<SeqNo>
        ensures { result ≡ highest_of (unflushed_of self.now.core) }
    {
        self.tree.get_highest_memtable_seqno()
    }

    /// The greatest sequence number in memtables and tables, as `TreeState::get_highest_seqno`.
    pub fn get_highest_seqno(&self) -> Option<SeqNo>
        ensures { result ≡ highest_of (unflushed_of self.now.core ++ persisted_of self.now.core) }
    {
        self.tree.get_highest_seqno()
    }
}
