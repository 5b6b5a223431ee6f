// The bounds and prefixes that words give.
ghost use Rattle.std.specs.Prelude.{◌≡◌, IfOk, bytes_eq, codes};
ghost use Rattle.lsm_shell_parts.specs.Bounds.{included_of, excluded_of, prefix_of};

use bytes::Bytes;
use lsm_below::UserKey;
use std::alloc::{AllocError, Global};
use std::ops::Bound;

/// Whether a word names no key.
fn is_open(word: &[u8]) -> bool
    ensures { result ≡ bytes_eq word.now (codes "-") }
{
    matches!(word, b"-")
}

/// The bound that a word gives with its key within, open for `-`.
pub fn parse_included(alloc: Global, word: &[u8]) -> Result<Bound<UserKey>, AllocError>
    ensures { IfOk result (λ bound. bound ≡ included_of word.now) }
{
    if is_open(word) {
        return Ok(Bound::Unbounded);
    }
    Ok(Bound::Included(Bytes::copy_from_slice(alloc, word)?))
}

/// The bound that a word gives with its key without, open for `-`.
pub fn parse_excluded(alloc: Global, word: &[u8]) -> Result<Bound<UserKey>, AllocError>
    ensures { IfOk result (λ bound. bound ≡ excluded_of word.now) }
{
    if is_open(word) {
        return Ok(Bound::Unbounded);
    }
    Ok(Bound::Excluded(Bytes::copy_from_slice(alloc, word)?))
}

/// The prefix that a word gives, the empty one for `-`.
pub fn parse_prefix(alloc: Global, word: &[u8]) -> Result<UserKey, AllocError>
    ensures { IfOk result (λ prefix. prefix ≡ prefix_of word.now) }
{
    if is_open(word) {
        return Ok(Bytes::new());
    }
    Bytes::copy_from_slice(alloc, word)
}
