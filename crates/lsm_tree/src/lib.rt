//! The tree for its callers: the names of all crates below, and no code of its own.
//!
//! | Module | Holds |
//! |-|-|
//! | `laws` | theorems as the contracts of functions that do nothing |
#![tactic(auto)]

pub mod laws;

// Entries, tables, memtables, iterators.
pub use lsm_below::{
    AsEntry, CompactionStream, Error, Headed, InternalKey, InternalValue, KeyRange, KvPair,
    ListSource, MemtableId, Merger, MvccStream, Ranged, Run, SeqNo, Source, Stretch, TableId,
    TreeId, UserKey, UserValue, ValueType, compact, has_same_key, head_of, is_run, optimize_runs,
    share,
};
pub use lsm_iter::{
    End, Guard, IterGuard, IterState, Overlay, Pairs, RangeItem, TreeIter, prefix_to_range,
    take_ends,
};
pub use lsm_memtable::{Iter, Memtable, Revocable, Span, Steps};
pub use lsm_tables::{
    Checksum, Entries, MultiWriter, Parts, Table, TableError, decode, encode, fits_image,
    is_writable, write_tables,
};

// The tree and what it consists of.
pub use lsm_checks::{
    Input, Kind, Why, any_missing, first_reason, last_reason, last_reason_by_ids, pick_run_indexes,
};
pub use lsm_compaction::{
    CompactionJob, MergeSettings, MergedCompaction, OpenMerges, RunSource, chosen_inputs,
    create_compaction_stream, merge_runs,
};
pub use lsm_flush::{FlushJob, MergedFlush, Registered, SealedMemtable, WrittenFlush};
pub use lsm_parts::{
    Config, DEFAULT_LEVEL_COUNT, LIMIT, SealedMemtables, SequenceNumberCounter, SuperVersion,
    SuperVersions, Version, VersionId, seqno_filter,
};
pub use lsm_pick::{
    Choice, ChooseError, CompactionStrategy, DropRange, FIFO_COMPACTION_NAME, Fifo,
    LEVELED_COMPACTION_NAME, Leveled, Levelled, Major, OwnedBounds, fifo, leveled,
};
pub use lsm_state::{
    Begun, Finished, Found, MAX_KEY_LEN, MAX_VALUE_LEN, Options, TreeState, do_compaction,
};
pub use lsm_versions::{
    CompactionState, GenericLevel, HiddenSet, Level, Tables, Totals, TreeType, ids_are_own,
    levels_fit,
};

// Files.
pub use lsm_manifest::{
    FileName, FormatVersion, Manifest, Opened, RecoveredTable, Recovery, get_current_version,
    open_files, persist_version, recover, table_name, version_name,
};
pub use lsm_store::{
    Fault, FolderCall, FolderError, FolderFault, FolderStore, MemStore, Pick, Store, StoreError,
};

// The tree behind a lock.
pub use lsm_handles::{Gate, Handle, HasTree, LoggedTree, ReadsTree, RecordedTree, RunJob, Tree};

// Calls as data, the call history and the log.
pub use lsm_log_runs::{LogStep, TakenLogged, give_up_all, live_logged, run_from, run_logged};
pub use lsm_logged::Logged;
pub use lsm_model::{Answer, JournalEntry, KeyBound, KeyRanges, KvPairs, Op, Ops, Question};
pub use lsm_recorded::{Closed, Pass, Recorded, SharedEntry};
pub use lsm_runs::{
    Compacted, Count, Counter, JobStep, Outcome, Reply, Slot, Slots, Step, Taken, live, run,
};
