// What is counted of a tree.
ghost use Rattle.std.specs.Prelude.{◌≡◌, ◌+◌, ◌++◌, [], length, slice_get, slice_index_or};
ghost use Rattle.std.specs.Option.{option_map};
ghost use Rattle.lsm_below.specs.Optimizes.{tables_of};
ghost use Rattle.lsm_below.specs.Sums.{capped};
ghost use Rattle.lsm_tables.specs.Tables.{tombstones, weak_tombstones, reclaimable};
ghost use Rattle.lsm_memtable.specs.Memtables.{highest_of};
ghost use Rattle.lsm_versions.specs.Levels.{bytes_of};
ghost use Rattle.lsm_parts.specs.History.{named_size};
ghost use Rattle.lsm_parts.specs.Held.{HasFirst};
ghost use Rattle.lsm_state.specs.WholeFlushes.{sealed_bytes};
ghost use Rattle.lsm_state.specs.Counts.{tables_now, persisted_of, unflushed_of, counted_now};

use crate::TreeState;
use lsm_below::SeqNo;
use lsm_parts::greater_of;
use lsm_store::Store;

/// Counts, sizes and greatest sequence numbers. None of these calls takes memory or calls the store, and none is
/// refused. What is counted of tables costs constant time. A sum past 2^64 - 1 stands there.
impl<S: Store> TreeState<S> {
    /// How many runs the first level of the latest version has.
    pub fn l0_run_count(&self) -> usize
        ensures { result ≡ length (slice_index_or self.now.core.history.latest.version.levels 0 []) }
    {
        self.current_version().l0().run_count()
    }

    /// How many tables a level of the latest version has, by the level's index from 0 on: None from 7 on. The cost is
    /// linear in the level's runs.
    pub fn level_table_count(&self, level: usize) -> Option<usize>
        ensures { result ≡ option_map (λ runs. capped (length (tables_of runs))) (slice_get self.now.core.history.latest.version.levels level) }
    {
        match self.current_version().level(level) {
            Some(level) => Some(level.table_count()),
            None => None,
        }
    }

    /// How many memtables the latest super version names that are sealed and not flushed yet.
    pub fn sealed_memtable_count(&self) -> usize
        ensures { result ≡ length self.now.core.history.latest.sealed_memtables }
    {
        self.history.latest_version().sealed_memtables.len()
    }

    /// How many super versions are kept beside the latest one.
    pub fn version_free_list_len(&self) -> usize
        ensures { result ≡ length self.now.core.history.older }
    {
        self.history.free_list_len()
    }

    /// How many entries the latest super version reads, in memtables and tables: tombstones count, and so does each
    /// older version of a key. The cost is linear in the sealed memtables, each of which is found by bisection.
    pub fn approximate_len(&self) -> usize
        ensures { result ≡ capped (length (unflushed_of self.now.core) + length (persisted_of self.now.core)) }
    {
        let latest = self.history.latest_version();
        let sealed = self.memtables.len_of(latest.sealed_memtables.as_slice());
        let active = self.memtables.len_at(latest.active_memtable);
        sealed
            .saturating_add(active)
            .saturating_add(latest.version.totals().items)
    }

    /// The bytes of the latest version's table files.
    pub fn disk_space(&self) -> u64
        ensures { result ≡ capped (bytes_of (tables_now self.now.core)) }
    {
        self.current_version().totals().bytes
    }

    /// How many entries of the latest version's tables remove their key, weakly or not.
    pub fn tombstone_count(&self) -> u64
        ensures { result ≡ counted_now tombstones self.now.core }
    {
        self.current_version().totals().tombstones as u64
    }

    /// How many entries of the latest version's tables remove their key weakly.
    pub fn weak_tombstone_count(&self) -> u64
        ensures { result ≡ counted_now weak_tombstones self.now.core }
    {
        self.current_version().totals().weak_tombstones as u64
    }

    /// How many weak tombstones of the latest version's tables stand, in their table, directly above a value of their
    /// key, which a compaction may take away with them.
    pub fn weak_tombstone_reclaimable_count(&self) -> u64
        ensures { result ≡ counted_now reclaimable self.now.core }
    {
        self.current_version().totals().reclaimable as u64
    }

    /// The bytes that the memtables count which some super version names, each once: of each accepted insert those of
    /// its key and value, and 48. The cost is linear in the memtables, times the super versions and what they name.
    pub fn version_memtable_size_sum(&self) -> u64
        ensures { result ≡ named_size self.now.core.history self.now.core.memtables }
    {
        self.memtables.size_sum(&self.history)
    }

    /// The bytes that the active memtable and the sealed ones of the latest super version count: of each accepted insert those
    /// of its key and value, and 48. The cost is linear in the sealed memtables, each of which is found by bisection.
    pub fn unflushed_size(&self) -> u64
        ensures { HasFirst self.now.core.memtables (λ m. result ≡ capped (sealed_bytes self.now.core + m.size)) }
    {
        self.sealed_size()
            .saturating_add(self.active_memtable().size())
    }

    /// The greatest sequence number in the latest version's tables: None where there is no table.
    pub fn get_highest_persisted_seqno(&self) -> Option<SeqNo>
        ensures { result ≡ highest_of (persisted_of self.now.core) }
    {
        let totals = self.current_version().totals();
        if totals.items == 0 {
            return None;
        }
        Some(totals.highest)
    }

    /// The greatest sequence number in the memtables that the latest super version names: None where they have no
    /// entry. The cost is linear in the sealed memtables, each of which is found by bisection.
    pub fn get_highest_memtable_seqno(&self) -> Option<SeqNo>
        ensures { result ≡ highest_of (unflushed_of self.now.core) }
    {
        let latest = self.history.latest_version();
        let sealed = self
            .memtables
            .highest_in(latest.sealed_memtables.as_slice());
        greater_of(sealed, self.memtables.highest_at(latest.active_memtable))
    }

    /// The greatest sequence number that the latest super version reads, in memtables and tables: None where there is no
    /// entry. The cost is that of `get_highest_memtable_seqno`.
    pub fn get_highest_seqno(&self) -> Option<SeqNo>
        ensures { result ≡ highest_of (unflushed_of self.now.core ++ persisted_of self.now.core) }
    {
        greater_of(
            self.get_highest_memtable_seqno(),
            self.get_highest_persisted_seqno(),
        )
    }
}
