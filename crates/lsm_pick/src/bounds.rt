// Bounds of keys.
ghost use Rattle.std.specs.Prelude.{◌≡◌, IfOk, option_map};
ghost use Rattle.lsm_below.specs.Keys.{is_below};
ghost use Rattle.lsm_pick.specs.Simple.{holds, is_from, is_to, key_of, are_reversed};

use crate::tables::key_is_upto;
use lsm_below::{KeyRange, UserKey};
use std::alloc::AllocError;
use std::cmp::Ordering;
use std::ops::Bound;

#[tactic(auto, unfolding(lsm_below::specs::Keys::is_below))]
fn key_is_below(left: &UserKey, right: &UserKey) -> bool
    ensures { result ≡ is_below left.now right.now }
{
    match left.as_slice().cmp(right.as_slice()) {
        Ordering::Less => true,
        Ordering::Equal | Ordering::Greater => false,
    }
}

/// Bounds of keys, which own them. Where the start is after the end, no range lies within.
///
/// # Examples
///
/// ```text
/// let bounds = OwnedBounds { start: Bound::Included(from), end: Bound::Excluded(to) };
/// ```
#[derive(Drop)]
pub struct OwnedBounds {
    /// Where they begin.
    pub start: Bound<UserKey>,
    /// Where they end.
    pub end: Bound<UserKey>,
}

fn lies_from(start: &Bound<UserKey>, key: &UserKey) -> bool
    ensures { result ≡ is_from start.now key.now }
{
    match start {
        Bound::Included(a) => key_is_upto(a, key),
        Bound::Excluded(a) => key_is_below(a, key),
        Bound::Unbounded => true,
    }
}

fn lies_to(end: &Bound<UserKey>, key: &UserKey) -> bool
    ensures { result ≡ is_to end.now key.now }
{
    match end {
        Bound::Included(b) => key_is_upto(key, b),
        Bound::Excluded(b) => key_is_below(key, b),
        Bound::Unbounded => true,
    }
}

fn copy_bound(bound: &Bound<UserKey>) -> Result<Bound<UserKey>, AllocError>
    ensures { IfOk result (λ copy. copy ≡ bound.now) }
{
    Ok(match bound {
        Bound::Included(key) => Bound::Included(key.clone()?),
        Bound::Excluded(key) => Bound::Excluded(key.clone()?),
        Bound::Unbounded => Bound::Unbounded,
    })
}

/// The key of a bound, if it has one.
fn key_of(bound: &Bound<UserKey>) -> Option<&UserKey>
    ensures { option_map (λ k. k.now) result ≡ key_of bound.now }
{
    match bound {
        Bound::Included(key) => Some(key),
        Bound::Excluded(key) => Some(key),
        Bound::Unbounded => None,
    }
}

impl OwnedBounds {
    /// Whether the key of their end is below that of their start: then no range lies within.
    pub fn is_reversed(&self) -> bool
        ensures { result ≡ are_reversed self.now }
    {
        match (key_of(&self.start), key_of(&self.end)) {
            (Some(start), Some(end)) => key_is_below(end, start),
            _ => false,
        }
    }

    /// Whether the whole range lies within.
    pub fn contains(&self, range: &KeyRange) -> bool
        ensures { result ≡ holds self.now range.now }
    {
        lies_from(&self.start, range.min()) && lies_to(&self.end, range.max())
    }

    /// A copy, which shares the bytes of the keys. Refused only for want of memory.
    pub fn copy(&self) -> Result<OwnedBounds, AllocError>
        ensures { IfOk result (λ copy. copy ≡ self.now) }
    {
        Ok(OwnedBounds {
            start: copy_bound(&self.start)?,
            end: copy_bound(&self.end)?,
        })
    }
}
