// The bounds of the keys that begin alike.
ghost use Rattle.std.specs.Prelude.{◌≡◌, ◌+◌, ◌<◌, ◌∷◌, ◌++◌, [], true, IfOk, IfErr};
ghost use Rattle.lsm_below.specs.Keys.{Bytes, AreBytes};
ghost use Rattle.lsm_iter.specs.Prefixes.{Follows, LetsIn, LetsInJust};
ghost use Rattle.lsm_iter.specs.Shown.{lies_within, begins_with};

use crate::Error;
use lsm_below::{UserKey, slices_hold_bytes};
use std::alloc::{AllocError, Global};
use std::ops::Bound;

/// A key's numbers are those of bytes.
pub(crate) fn key_has_bytes(key: &UserKey)
    ensures { AreBytes key.now }
{
    slices_hold_bytes(key.as_slice());
}

/// The bytes before the last one, and that one raised by one: the least key above all that begin with both.
fn raised(alloc: Global, front: &[u8], last: u8) -> Result<UserKey, AllocError>
    requires { last < 255 }
    ensures { IfOk result (λ key. key ≡ front.now ++ (last + 1) ∷ []) }
{
    let mut end = Vec::with_capacity(alloc, front.len().saturating_add(1))?;
    end.extend_from_slice(front)?;
    end.push(last + 1)?;
    Ok(UserKey::from_vec(end)?)
}

/// The upper bound of the keys that begin so, of those not below the prefix itself.
fn upper_of(alloc: Global, prefix: &[u8]) -> Result<Bound<UserKey>, AllocError>
    ensures only { IfOk result (Follows prefix.now) }
    ensures all { IfOk result (LetsIn prefix.now) }
{
    let mut rest = prefix;
    while let Some((last, front)) = rest.split_last() {
        if *last < 255 {
            return Ok(Bound::Excluded(raised(alloc, front, *last)?));
        }
        rest = front;
    }
    Ok(Bound::Unbounded)
}

/// The bounds within which just the keys lie that begin with a prefix.
///
/// For an empty one both are open. Else the lower bound is the prefix, included. The upper one cuts trailing
/// bytes 255 and adds one to the last byte left, excluded; where none is left it is open.
/// Refused only for want of memory.
pub fn prefix_to_range(
    alloc: Global,
    prefix: &[u8],
) -> Result<(Bound<UserKey>, Bound<UserKey>), Error>
    ensures ok { IfOk result (λ bounds. LetsInJust prefix.now bounds.0 bounds.1) }
    ensures all { IfOk result
        (λ bounds. (key : Bytes) → begins_with prefix.now key ≡ true → lies_within bounds.0 bounds.1 key ≡ true) }
    ensures memory { IfErr result (λ e. e ≡ Error.OutOfMemory) }
{
    if prefix.is_empty() {
        return Ok((Bound::Unbounded, Bound::Unbounded));
    }
    let upper = upper_of(alloc, prefix)?;
    let lower = UserKey::copy_from_slice(alloc, prefix)?;
    Ok((Bound::Included(lower), upper))
}
