// Chunks of memory that the keys and values of entries share.
ghost use Rattle.std.specs.Prelude.{◌≡◌, ◌+◌, ◌≤◌, [], length, IfOk};
ghost use Rattle.std.specs.Bool.{OnTrue};

use bytes::BytesMut;
use lsm_below::{InternalKey, InternalValue};
use std::alloc::{AllocError, Global};

/// The longest key and value together that are copied into a chunk.
const MOST_COPIED: usize = 1024;

/// The shortest chunk, and the longest.
const FIRST_CHUNK: u64 = 1024;

const LONGEST_CHUNK: u64 = 65_536;

/// Makes room for the bytes of an entry of at most 1,024, in a new chunk where there is too little: as long as all
/// inserts so far, from 1 KiB to 64 KiB. False where the chunk is refused, and then nothing changes.
fn has_room(arena: &mut BytesMut, alloc: Global, len: usize, size: u64) -> bool
    requires empty { arena.old.items ≡ [] }
    requires short { len ≤ 1024 }
    ensures empty { arena.new.items ≡ [] }
    ensures room { OnTrue result (len ≤ arena.new.spare) }
{
    if len <= arena.capacity() {
        return true;
    }
    let chunk = size.max(FIRST_CHUNK).min(LONGEST_CHUNK) as usize;
    let Ok(chunk) = BytesMut::with_capacity(alloc, chunk) else {
        return false;
    };
    *arena = chunk;
    true
}

/// The entry with its key and value, one after the other, cut from the chunk. There is room for them. Refused only
/// for want of memory.
fn copied(arena: &mut BytesMut, entry: &InternalValue) -> Result<InternalValue, AllocError>
    requires empty { arena.old.items ≡ [] }
    requires room { length entry.now.key.user_key + length entry.now.value ≤ arena.old.spare }
    ensures ok { IfOk result (λ e. e ≡ entry.now) }
    ensures empty { arena.new.items ≡ [] }
{
    let user_key = entry.key.user_key.as_slice();
    arena.extend_reserved(user_key);
    arena.extend_reserved(entry.value.as_slice());
    let both = arena.freeze_to(arena.len());
    arena.clear();
    let mut value = both?;
    let user_key = value.split_to(user_key.len())?;
    let key = InternalKey {
        user_key,
        seqno: entry.key.seqno,
        value_type: entry.key.value_type,
    };
    Ok(InternalValue { key, value })
}

/// The entry, its bytes copied into a chunk that entries share: so they need no memory and no count of owners of their
/// own. Left as it is where it has more than 1,024 bytes, or where memory for the chunk is refused.
pub(crate) fn housed(
    arena: &mut BytesMut,
    alloc: Global,
    entry: InternalValue,
    size: u64,
) -> InternalValue
    requires { arena.old.items ≡ [] }
    ensures same { result ≡ entry }
    ensures empty { arena.new.items ≡ [] }
{
    let len = entry.key.user_key.len().saturating_add(entry.value.len());
    if len > MOST_COPIED || !has_room(arena, alloc, len, size) {
        return entry;
    }
    match copied(arena, &entry) {
        Ok(copy) => copy,
        Err(_) => entry,
    }
}
