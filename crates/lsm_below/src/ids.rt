// Sequence numbers, ids, and shared bytes.
ghost use Rattle.std.specs.Prelude.{◌≡◌, IfOk};

use bytes::Bytes;
use std::alloc::AllocError;

/// A sequence number: of a write, a snapshot or a commit. A write's is below 2^63.
///
/// A snapshot sees the writes with lesser sequence numbers, and not those with its own.
pub type SeqNo = u64;

/// The id of a table, which is also its file's name.
pub type TableId = u64;

/// The id of a tree, as its configuration gives it.
pub type TreeId = u64;

/// The id of a memtable.
pub type MemtableId = u64;

/// A key, as its user spells it: 0 to `MAX_KEY_LEN` bytes in a tree. Copies share the bytes.
pub type UserKey = Bytes;

/// A value: 0 to `MAX_VALUE_LEN` bytes in a tree. Copies share the bytes.
pub type UserValue = Bytes;

/// A key with its value.
pub type KvPair = (UserKey, UserValue);

/// The same bytes once more, shared. Refused only for want of memory.
pub fn share(bytes: &Bytes) -> Result<Bytes, AllocError>
    ensures { IfOk result (λ copy. copy ≡ bytes.now) }
{
    bytes.clone()
}
