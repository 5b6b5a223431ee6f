// An entry: a key with its sequence number and type, and a value.
ghost use Rattle.std.specs.Prelude.{◌≡◌, IfOk};
ghost use Rattle.lsm_below.specs.Entries.{entry_at, tombstone_at, weak_tombstone_at, is_tombstone_type, kept_value, plain};

use crate::{InternalKey, SeqNo, UserKey, UserValue, ValueType};
use std::alloc::AllocError;

/// An entry: what a write leaves in memtables and tables. A tombstone's value is empty, of either kind.
///
/// ```text
/// let set = InternalValue::from_components(key, value, 1, ValueType::Value);
/// let removed = InternalValue::new_tombstone(other, 2);
/// ```
#[derive(Drop, Clone, Debug)]
pub struct InternalValue {
    pub key: InternalKey,
    pub value: UserValue,
}

impl InternalValue {
    /// An entry of these parts. A tombstone keeps no value: one that is passed is dropped.
    pub fn from_components(
        user_key: UserKey,
        value: UserValue,
        seqno: SeqNo,
        value_type: ValueType,
    ) -> InternalValue
        ensures { result ≡ entry_at user_key seqno value_type (kept_value value_type value) }
    {
        let value = match value_type {
            ValueType::Value => value,
            ValueType::Tombstone | ValueType::WeakTombstone => UserValue::new(),
        };
        InternalValue {
            key: InternalKey::new(user_key, seqno, value_type),
            value,
        }
    }

    /// An entry that removes its key.
    pub fn new_tombstone(user_key: UserKey, seqno: SeqNo) -> InternalValue
        ensures { result ≡ tombstone_at user_key seqno }
    {
        InternalValue::from_components(user_key, UserValue::new(), seqno, ValueType::Tombstone)
    }

    /// An entry that removes its key, of which at most one value was ever written.
    pub fn new_weak_tombstone(user_key: UserKey, seqno: SeqNo) -> InternalValue
        ensures { result ≡ weak_tombstone_at user_key seqno }
    {
        InternalValue::from_components(user_key, UserValue::new(), seqno, ValueType::WeakTombstone)
    }

    /// The entry, of which a tombstone keeps no value.
    pub fn into_plain(self) -> InternalValue
        ensures { result ≡ plain self }
    {
        let InternalValue { key, value } = self;
        InternalValue::from_components(key.user_key, value, key.seqno, key.value_type)
    }

    /// Whether the entry removes its key, weakly or not.
    pub fn is_tombstone(&self) -> bool
        ensures { result ≡ is_tombstone_type self.now.key.value_type }
    {
        self.key.is_tombstone()
    }

    /// A copy, which shares the bytes. Refused only for want of memory.
    pub fn copy(&self) -> Result<InternalValue, AllocError>
        ensures { IfOk result (λ copy. copy ≡ self.now) }
    {
        self.clone()
    }
}
