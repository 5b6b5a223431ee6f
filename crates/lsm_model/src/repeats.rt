// Keys that come twice.
ghost use Rattle.std.specs.Prelude.{◌≡◌, IfOk};
ghost use Rattle.lsm_model.specs.Ops.{repeats, keys_of};

use crate::Op;
use lsm_below::UserKey;
use std::alloc::{AllocError, Global};
use std::collections::BTreeSet;

/// Whether a batch names a key twice. The cost is that of sorting its keys. Refused only for want of memory.
pub fn has_repeats(alloc: Global, ops: &[(UserKey, Op)]) -> Result<bool, AllocError>
    ensures { IfOk result (λ b. b ≡ repeats (keys_of ops.now)) }
{
    if ops.len() < 2 {
        return Ok(false);
    }
    let mut seen = BTreeSet::new(alloc);
    for (key, _) in ops {
        let is_new = seen.insert(key.as_slice())?;
        if !is_new {
            return Ok(true);
        }
    }
    Ok(false)
}
