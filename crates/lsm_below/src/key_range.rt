// All keys from a least to a greatest one.
ghost use Rattle.std.specs.Prelude.{◌≡◌, [], IfOk, MatchOption};
ghost use Rattle.std.specs.Ordering.{is_le};
ghost use Rattle.lsm_below.specs.Keys.{bytes_cmp, is_below};
ghost use Rattle.lsm_below.specs.Ranges.{IsRange, IsHull, in_range, overlap, hull, lesser_of, greater_of};

use crate::UserKey;
use std::alloc::AllocError;
use std::cmp::Ordering;
use std::marker::Model;

/// The keys from `min` to `max`, both in it. `min` is never above `max`.
///
/// ```text
/// let range = KeyRange::new((least, greatest));
/// if range.contains_key(b"key") { .. }
/// ```
#[derive(Drop, Debug)]
pub struct KeyRange {
    min: UserKey,
    max: UserKey,
}

impl Model for KeyRange {
    ghost use Rattle.lsm_below.specs.Ranges.{Range, IsRange};

    ghost Value = { Range };

    ghost view = { λ r. record { min = r.min; max = r.max } };

    ghost invariant = { λ r. IsRange (record { min = r.min; max = r.max }) };
}

/// Whether the first key is before the second.
#[tactic(auto, unfolding(crate::specs::Keys::is_below))]
pub fn key_is_below(left: &[u8], right: &[u8]) -> bool
    ensures { result ≡ is_below left.now right.now }
{
    match left.cmp(right) {
        Ordering::Less => true,
        Ordering::Equal | Ordering::Greater => false,
    }
}

/// Whether the first key is not above the second.
pub fn key_is_at_most(left: &[u8], right: &[u8]) -> bool
    ensures { result ≡ is_le (bytes_cmp left.now right.now) }
{
    match left.cmp(right) {
        Ordering::Less | Ordering::Equal => true,
        Ordering::Greater => false,
    }
}

fn lesser<'a>(left: &'a UserKey, right: &'a UserKey) -> &'a UserKey
    ensures { result.now ≡ lesser_of left.now right.now }
{
    if key_is_below(right.as_slice(), left.as_slice()) {
        right
    } else {
        left
    }
}

fn greater<'a>(left: &'a UserKey, right: &'a UserKey) -> &'a UserKey
    ensures { result.now ≡ greater_of left.now right.now }
{
    if key_is_below(left.as_slice(), right.as_slice()) {
        right
    } else {
        left
    }
}

impl KeyRange {
    /// The range between these ends, the first of which is not above the second.
    pub fn new(ends: (UserKey, UserKey)) -> KeyRange
        requires { IsRange (record { min = ends.0; max = ends.1 }) }
        ensures { result ≡ record { min = ends.0; max = ends.1 } }
    {
        KeyRange {
            min: ends.0,
            max: ends.1,
        }
    }

    /// The least key.
    pub fn min(&self) -> &UserKey
        ensures { result.now ≡ self.now.min }
    {
        &self.min
    }

    /// The greatest key.
    pub fn max(&self) -> &UserKey
        ensures { result.now ≡ self.now.max }
    {
        &self.max
    }

    /// The bytes of the least key.
    pub(crate) fn min_bytes(&self) -> &[u8]
        ensures { result.now ≡ self.now.min }
    {
        self.min.as_slice()
    }

    /// The bytes of the greatest key.
    pub(crate) fn max_bytes(&self) -> &[u8]
        ensures { result.now ≡ self.now.max }
    {
        self.max.as_slice()
    }

    /// What every range meets: its least key is not above its greatest one.
    pub fn facts(&self)
        ensures { IsRange self.now }
    {
        let _ = &self.min;
    }

    /// Whether the key is in the range.
    pub fn contains_key(&self, key: &[u8]) -> bool
        ensures { result ≡ in_range key.now self.now }
    {
        key_is_at_most(self.min_bytes(), key) && key_is_at_most(key, self.max_bytes())
    }

    /// Whether the two ranges have a key in common.
    pub fn overlaps_with_key_range(&self, other: &KeyRange) -> bool
        ensures { result ≡ overlap self.now other.now }
    {
        key_is_at_most(self.min_bytes(), other.max_bytes())
            && key_is_at_most(other.min_bytes(), self.max_bytes())
    }

    /// A copy, which shares the bytes of its keys. Refused only for want of memory.
    pub fn copy(&self) -> Result<KeyRange, AllocError>
        ensures { IfOk result (λ copy. copy ≡ self.now) }
    {
        Ok(KeyRange {
            min: self.min.clone()?,
            max: self.max.clone()?,
        })
    }

    /// The range that just holds several: from the least of their keys to the greatest. None for none.
    pub fn aggregate(ranges: &[KeyRange]) -> Result<Option<KeyRange>, AllocError>
        ensures { IfOk result (λ r. MatchOption r (ranges.now ≡ []) (IsHull (λ s. s) ranges.now)) }
    {
        let Some(first) = ranges.first() else {
            return Ok(None);
        };
        let mut hull = first.copy()?;
        for range in ranges {
            hull = hull.joined(range)?;
        }
        Ok(Some(hull))
    }

    /// The range that just holds two: from the lesser least key to the greater greatest one.
    pub fn joined(&self, other: &KeyRange) -> Result<KeyRange, AllocError>
        ensures { IfOk result (λ r. r ≡ hull self.now other.now) }
    {
        Ok(KeyRange {
            min: lesser(&self.min, &other.min).clone()?,
            max: greater(&self.max, &other.max).clone()?,
        })
    }
}

/// What has a range of keys, as a table has.
pub trait Ranged {
    ghost use Rattle.lsm_below.specs.Ranges.{Range};

    ghost range: { Self → Range };

    /// The range of its keys.
    fn key_range(&self) -> &KeyRange
        ensures { result.now ≡ range self.now };
}
