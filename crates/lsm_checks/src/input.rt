// What a choice of tables names.
use lsm_below::TableId;
use std::collections::HashSet;

/// The tables that a compaction takes, and where they go.
///
/// ```text
/// let input = Input { table_ids, dest_level: 6, canonical_level: 6, target_size: u64::MAX };
/// ```
#[derive(Drop, Debug, PartialEq, Eq)]
pub struct Input {
    /// The ids of the tables.
    pub table_ids: HashSet<TableId>,
    /// The level into which their entries go.
    pub dest_level: u8,
    /// The level that the tables count as, between 0 and the last one.
    pub canonical_level: u8,
    /// The bytes of entries from which on a new table is begun.
    pub target_size: u64,
}
