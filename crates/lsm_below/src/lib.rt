//! Entries, their order and their streams: what every layer of the tree shares.
//!
//! | Module | Holds |
//! |-|-|
//! | `ids` | sequence numbers, ids, and shared bytes |
//! | `limits` | how long keys and values may be, and what an entry counts beside them |
//! | `error` | what a call of the tree refuses, and why |
//! | `value_type` | what an entry does to its key |
//! | `key` | a user key with its sequence number, and the order of entries |
//! | `value` | an entry: a key and its value |
//! | `head` | the head of a key, its first 16 bytes as a number, and entries that are lent with it |
//! | `key_range` | all keys from a least to a greatest one, and what has such a range |
//! | `run` | tables sorted by their keys, no two of which share one |
//! | `optimize` | joins runs where their tables allow it |
//! | `same` | whether two entries are the same in all their parts |
//! | `stretch` | entries that follow each other, lent with their heads |
//! | `source` | what gives entries in order, one at a time, owned or lent |
//! | `list_source` | a list of entries, as a source |
//! | `slot` | a source and its first entry |
//! | `heap` | the indexes of slots, as a heap |
//! | `merger` | all entries of several sources, in order |
//! | `mvcc_stream` | the first entry of each key |
//! | `compaction_stream` | what a compaction keeps |
//! | `number` | numbers as they are printed |
//! | `laws` | what always holds of keys, entries and merges, each as the contract of a function |
#![tactic(auto)]

mod compaction_stream;
mod error;
mod head;
mod heap;
mod ids;
mod key;
mod key_range;
mod laws;
mod limits;
mod list_source;
mod merger;
mod mvcc_stream;
mod number;
mod optimize;
mod run;
mod same;
mod slot;
mod source;
mod stretch;
mod value;
mod value_type;

pub use compaction_stream::{CompactionStream, compact};
pub use error::Error;
pub use head::{Headed, head_of};
pub use ids::{KvPair, MemtableId, SeqNo, TableId, TreeId, UserKey, UserValue, share};
pub use key::InternalKey;
pub use key_range::{KeyRange, Ranged};
pub use laws::{
    all_is_kept, entries_are_ordered, entries_are_parted, first_visible_is_top, keys_are_ordered,
    merges_by_key, slices_hold_bytes,
};
pub use limits::{ENTRY_OVERHEAD, MAX_KEY_LEN, MAX_VALUE_LEN};
pub use list_source::ListSource;
pub use merger::Merger;
pub use mvcc_stream::MvccStream;
pub use number::{parse_number, plain_numbers_are_read};
pub use optimize::optimize_runs;
pub use run::{Run, is_run};
pub use same::{has_same_parts, have_same_parts};
pub use source::{AsEntry, Source, has_same_key};
pub use stretch::Stretch;
pub use value::InternalValue;
pub use value_type::ValueType;
