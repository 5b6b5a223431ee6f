// What is counted of a tree with its journal, and what is told of it.
ghost use Rattle.std.specs.Prelude.{◌≡◌, ◌↔◌, ℕ, ◌+◌, ◌++◌, [], true, length, slice_get, slice_index_or, IsTrue};
ghost use Rattle.std.specs.Option.{is_some, option_map};
ghost use Rattle.lsm_below.specs.Optimizes.{tables_of};
ghost use Rattle.lsm_below.specs.Sums.{capped};
ghost use Rattle.lsm_tables.specs.Tables.{tombstones, weak_tombstones, reclaimable};
ghost use Rattle.lsm_memtable.specs.Memtables.{highest_of};
ghost use Rattle.lsm_versions.specs.Levels.{bytes_of};
ghost use Rattle.lsm_versions.specs.declared.version.TreeType.TheVariants.{Standard};
ghost use Rattle.lsm_compaction.specs.OpenMerges.{hides};
ghost use Rattle.lsm_parts.specs.History.{named_size};
ghost use Rattle.lsm_state.specs.Counts.{tables_now, persisted_of, unflushed_of, counted_now};

use crate::recorded::Recorded;
use lsm_below::{SeqNo, TreeId};
use lsm_parts::Config;
use lsm_store::Store;
use lsm_versions::TreeType;

/// What the calls of the same names of `TreeState` count and tell. None takes memory or calls the store, and none is
/// refused or noted.
impl<S: Store> Recorded<S> {
    /// The tree's id, as it was opened with.
    pub fn id(&self) -> TreeId
        ensures { result ≡ self.now.tree.core.config.id }
    {
        self.core.id()
    }

    /// What the tree was opened with.
    pub fn tree_config(&self) -> &Config
        ensures { result.now ≡ self.now.tree.core.config }
    {
        self.core.tree_config()
    }

    /// What kind of tree it is: always a standard one.
    pub fn tree_type(&self) -> TreeType
        ensures { result ≡ Standard }
    {
        self.core.tree_type()
    }

    /// The moment at which tables that are written from now on are made, in nanoseconds.
    pub fn moment(&self) -> u64
        ensures { result ≡ self.now.tree.core.moment }
    {
        self.core.moment()
    }

    /// Sets the moment at which tables are made from now on, in nanoseconds, as `TreeState::set_moment`. The journal stays,
    /// and so do reads.
    pub fn set_moment(&mut self, moment: u64)
        ensures core { self.new.tree.core ≡ record (self.old.tree.core) { moment = moment } }
        ensures store { self.new.tree.store ≡ self.old.tree.store }
        ensures journal { self.new.journal ≡ self.old.journal }
        ensures opened { self.new.opened ≡ self.old.opened }
    {
        self.core.set_moment(moment);
    }

    /// Whether a `CommitUnknown` came before: then nothing is committed or removed until the tree is opened again.
    pub fn is_uncertain(&self) -> bool
        ensures { result ≡ is_some self.now.tree.core.lost }
    {
        self.core.is_uncertain()
    }

    /// Whether an open merge works on a table.
    pub fn is_compacting(&self) -> bool
        ensures { IsTrue result ↔ ((i : ℕ) × (hides self.now.tree.core.merges.underway i ≡ true)) }
    {
        self.core.is_compacting()
    }

    /// How many runs the first level of the latest version has.
    pub fn l0_run_count(&self) -> usize
        ensures { result ≡ length (slice_index_or self.now.tree.core.history.latest.version.levels 0 []) }
    {
        self.core.l0_run_count()
    }

    /// How many tables a level of the latest version has, by the level's index from 0 on: None from 7 on. The cost is linear
    /// in the level's runs.
    pub fn level_table_count(&self, level: usize) -> Option<usize>
        ensures { result ≡ option_map (λ runs. capped (length (tables_of runs))) (slice_get self.now.tree.core.history.latest.version.levels level) }
    {
        self.core.level_table_count(level)
    }

    /// How many memtables the latest super version names that are sealed and not flushed yet.
    pub fn sealed_memtable_count(&self) -> usize
        ensures { result ≡ length self.now.tree.core.history.latest.sealed_memtables }
    {
        self.core.sealed_memtable_count()
    }

    /// How many super versions are kept beside the latest one.
    pub fn version_free_list_len(&self) -> usize
        ensures { result ≡ length self.now.tree.core.history.older }
    {
        self.core.version_free_list_len()
    }

    /// How many entries the latest super version reads, in memtables and tables: tombstones count, and so does each older
    /// version of a key. The cost is linear in the sealed memtables, each of which is found by bisection.
    pub fn approximate_len(&self) -> usize
        ensures { result ≡ capped (length (unflushed_of self.now.tree.core) + length (persisted_of self.now.tree.core)) }
    {
        self.core.approximate_len()
    }

    /// The bytes of the latest version's table files.
    pub fn disk_space(&self) -> u64
        ensures { result ≡ capped (bytes_of (tables_now self.now.tree.core)) }
    {
        self.core.disk_space()
    }

    /// How many entries of the latest version's tables remove their key, weakly or not.
    pub fn tombstone_count(&self) -> u64
        ensures { result ≡ counted_now tombstones self.now.tree.core }
    {
        self.core.tombstone_count()
    }

    /// How many entries of the latest version's tables remove their key weakly.
    pub fn weak_tombstone_count(&self) -> u64
        ensures { result ≡ counted_now weak_tombstones self.now.tree.core }
    {
        self.core.weak_tombstone_count()
    }

    /// How many weak tombstones of the latest version's tables stand, in their table, directly above a value of their key.
    pub fn weak_tombstone_reclaimable_count(&self) -> u64
        ensures { result ≡ counted_now reclaimable self.now.tree.core }
    {
        self.core.weak_tombstone_reclaimable_count()
    }

    /// The bytes that the memtables count which some super version names, each once. The cost is linear in the memtables,
    /// times the super versions and what they name.
    pub fn version_memtable_size_sum(&self) -> u64
        ensures { result ≡ named_size self.now.tree.core.history self.now.tree.core.memtables }
    {
        self.core.version_memtable_size_sum()
    }

    /// The greatest sequence number in the latest version's tables: None where there is no table.
    pub fn get_highest_persisted_seqno(&self) -> Option<SeqNo>
        ensures { result ≡ highest_of (persisted_of self.now.tree.core) }
    {
        self.core.get_highest_persisted_seqno()
    }

    /// The greatest sequence number in the memtables that the latest super version names: None where they have no entry.
    /// The cost is linear in the sealed memtables, each of which is found by bisection.
    pub fn get_highest_memtable_seqno(&self) -> Option<SeqNo>
        ensures { result ≡ highest_of (unflushed_of self.now.tree.core) }
    {
        self.core.get_highest_memtable_seqno()
    }

    /// The greatest sequence number that the latest super version reads, in memtables and tables: None where there is no
    /// entry. The cost is that of `get_highest_memtable_seqno`.
    pub fn get_highest_seqno(&self) -> Option<SeqNo>
        ensures { result ≡ highest_of (unflushed_of self.now.tree.core ++ persisted_of self.now.tree.core) }
    {
        self.core.get_highest_seqno()
    }
}
