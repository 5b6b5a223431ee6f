// What the tests write.
use lsm_tree::{Op, UserKey};
use std::alloc::{AllocError, Global};

/// A key or a value of these letters.
pub fn text(spelled: &'static str) -> UserKey {
    UserKey::from_static(spelled.as_bytes())
}

/// A batch of one key.
pub fn set(alloc: Global, key: UserKey, value: UserKey) -> Result<Vec<(UserKey, Op)>, AllocError> {
    let mut ops = Vec::with_capacity(alloc, 1)?;
    ops.push((key, Op::Set(value)))?;
    Ok(ops)
}
