// What a write does to its key.
ghost use Rattle.std.specs.Prelude.{◌≡◌, IfOk};

use lsm_below::{InternalValue, SeqNo, UserKey, UserValue, ValueType, share};
use std::alloc::AllocError;
use std::marker::Model;

/// What a write does to its key.
///
/// ```text
/// let entry = Op::Set(value).into_entry(key, 1);
/// ```
#[derive(Drop, Debug)]
pub enum Op {
    /// The key has this value.
    Set(UserValue),
    /// The key is removed.
    Del,
    /// The key is removed, and at most one value of it was ever written.
    Weak,
}

impl Op {
    ghost use Rattle.lsm_model.specs.Ops.{op_entry};

    /// The same, which shares the bytes of a value: a batch that is refused is dropped, so who tries again passes copies.
    ///
    /// # Errors
    ///
    /// Refused only for want of memory.
    pub fn copy(&self) -> Result<Op, AllocError>
        ensures { IfOk result (λ copy. copy ≡ self.now) }
    {
        match self {
            Op::Set(value) => Ok(Op::Set(share(value)?)),
            Op::Del => Ok(Op::Del),
            Op::Weak => Ok(Op::Weak),
        }
    }

    /// The entry of this write to a key, under a sequence number.
    pub fn into_entry(self, key: UserKey, number: SeqNo) -> InternalValue
        ensures { result ≡ op_entry key number self }
    {
        match self {
            Op::Set(value) => InternalValue::from_components(key, value, number, ValueType::Value),
            Op::Del => InternalValue::new_tombstone(key, number),
            Op::Weak => InternalValue::new_weak_tombstone(key, number),
        }
    }

    /// The entry of this write to a key, under a sequence number. It shares the bytes of both.
    ///
    /// # Errors
    ///
    /// Refused only for want of memory.
    pub fn entry(&self, key: &UserKey, number: SeqNo) -> Result<InternalValue, AllocError>
        ensures { IfOk result (λ e. e ≡ op_entry key.now number self.now) }
    {
        let key = share(key)?;
        match self {
            Op::Set(value) => {
                let value = share(value)?;
                Ok(InternalValue::from_components(key, value, number, ValueType::Value))
            }
            Op::Del => Ok(InternalValue::new_tombstone(key, number)),
            Op::Weak => Ok(InternalValue::new_weak_tombstone(key, number)),
        }
    }
}

/// The writes of a batch, seen as a list.
///
/// ```text
/// let ops = Ops::new(vec![in alloc; (key, Op::Set(value)), (other, Op::Del)]?);
/// ```
#[derive(Drop, Debug)]
pub struct Ops {
    list: Vec<(UserKey, Op)>,
}

impl Model for Ops {
    ghost use Rattle.std.specs.Prelude.{List, ℕ};
    ghost use Rattle.lsm_model.specs.declared.op.Op.{Op};

    ghost Value = { List (List ℕ × Op) };

    ghost view = { λ o. o.list.items };
}

impl Ops {
    /// These writes, each of them a key and what it does to the key.
    pub fn new(list: Vec<(UserKey, Op)>) -> Ops
        ensures { result ≡ list.items }
    {
        Ops { list }
    }

    /// The writes, as they were passed.
    pub fn into_vec(self) -> Vec<(UserKey, Op)>
        ensures { result.items ≡ self }
    {
        self.list
    }

    /// The writes, as a slice.
    pub fn as_slice(&self) -> &[(UserKey, Op)]
        ensures { result.now ≡ self.now }
    {
        &self.list
    }
}
