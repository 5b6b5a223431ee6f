// The head of a key, its first 16 bytes as a number, and entries that are lent with it.
ghost use Rattle.std.specs.Prelude.{◌≡◌, ◌<◌, length, slice_index_or};
ghost use Rattle.std.specs.Ordering.{is_eq, nat_cmp};
ghost use Rattle.std.specs.Cmp.Lexicographic.{slice_cmp};
ghost use Rattle.lsm_below.specs.Entries.{Entry, HasBytes};
ghost use Rattle.lsm_below.specs.Heads.{key_head, entry_head, AreHeads};
ghost use Rattle.lsm_below.specs.Keys.{AreBytes};
ghost use Rattle.lsm_below.specs.Lookups.{stands_before};
ghost use Rattle.lsm_below.specs.Slots.{is_before, same_key};

use crate::InternalValue;
use crate::source::{AsEntry, has_same_key, stands_before};
use std::cmp::Ordering;
use std::marker::Model;

/// How many bytes of a key its head holds.
const HEAD: usize = 16;

/// A byte of the key, and zero after its end.
fn byte_at(key: &[u8], place: usize) -> u8
    ensures { result ≡ slice_index_or key.now place 0 }
{
    if place < key.len() { key[place] } else { 0 }
}

/// The first 16 bytes of the key as a number, big endian, with zeros after a short key.
pub fn head_of(key: &[u8]) -> u128
    ensures head { result ≡ key_head key.now }
    ensures bytes { AreBytes key.now }
{
    match key.first_chunk::<HEAD>() {
        Some(bytes) => u128::from_be_bytes(*bytes),
        None => padded_head(key),
    }
}

/// `head_of`, byte by byte.
fn padded_head(key: &[u8]) -> u128
    ensures head { result ≡ key_head key.now }
    ensures bytes { AreBytes key.now }
{
    let mut head: u128 = 0;
    for place in 0..HEAD {
        head = head * 256 + byte_at(key, place) as u128;
    }
    head
}

/// Whether the entry comes before each entry of the key with a sequence number below this. Their keys have one head, so
/// that two of one length which the head holds whole are the same, and no byte of them is read.
fn stands_ahead(entry: &InternalValue, key: &[u8], number: u128) -> bool
    requires own { HasBytes entry.now }
    requires bytes { AreBytes key.now }
    requires head { entry_head entry.now ≡ key_head key.now }
    ensures { result ≡ stands_before key.now number entry.now }
{
    let own = entry.key.user_key.as_slice();
    if own.len() == key.len() && key.len() <= HEAD {
        return entry.key.seqno as u128 >= number;
    }
    match own.cmp(key) {
        Ordering::Less => true,
        Ordering::Equal => entry.key.seqno as u128 >= number,
        Ordering::Greater => false,
    }
}

/// Whether the entry has this key. Their keys have one head, so that two of one length which the head holds whole are the
/// same, and no byte of them is read.
fn has_key(entry: &InternalValue, key: &[u8]) -> bool
    requires own { HasBytes entry.now }
    requires bytes { AreBytes key.now }
    requires head { entry_head entry.now ≡ key_head key.now }
    ensures { result ≡ is_eq (slice_cmp nat_cmp entry.now.key.user_key key.now) }
{
    let own = entry.key.user_key.as_slice();
    if own.len() == key.len() && key.len() <= HEAD {
        return true;
    }
    own == key
}

/// Whether two keys of one head are the same. Where the lengths tell, no byte of them is read.
#[inline(never)]
fn has_same_rest(entry: &InternalValue, other: &InternalValue) -> bool
    requires own { HasBytes entry.now }
    requires other { HasBytes other.now }
    requires head { entry_head entry.now ≡ entry_head other.now }
    ensures { result ≡ same_key entry.now other.now }
{
    let len = entry.key.user_key.len();
    if len != other.key.user_key.len() {
        return false;
    }
    if len <= HEAD {
        return true;
    }
    has_same_key(entry, other)
}

/// An entry that is lent, with the head of its key: most comparisons need nothing else of it.
///
/// ```text
/// let lent = Headed::new(&entry, head_of(entry.key.user_key.as_slice()));
/// if lent.has_key(head_of(b"key"), b"key") { .. }
/// ```
#[derive(Drop)]
pub struct Headed<'a> {
    entry: &'a InternalValue,
    head: u128,
}

impl<'a> Model for Headed<'a> {
    ghost use Rattle.std.specs.Prelude.{◌≡◌};
    ghost use Rattle.lsm_below.specs.Entries.{Entry, HasBytes};
    ghost use Rattle.lsm_below.specs.Heads.{entry_head};

    ghost Value = { Entry };

    ghost view = { λ h. h.entry.now };

    ghost invariant = { λ h. (h.head ≡ entry_head h.entry.now) × HasBytes h.entry.now };
}

impl<'a> Headed<'a> {
    /// The entry, whose key has this head.
    #[inline(always)]
    pub fn new(entry: &'a InternalValue, head: u128) -> Headed<'a>
        requires head { head ≡ entry_head entry.now }
        requires bytes { HasBytes entry.now }
        ensures { result ≡ entry.now }
    {
        Headed { entry, head }
    }

    /// The entry at a place of a list, beside which the heads stand.
    #[inline(always)]
    pub fn at(heads: &[u128], entries: &'a [InternalValue], place: usize) -> Headed<'a>
        requires heads { AreHeads heads.now entries.now }
        requires place { place < length entries.now }
        ensures { (d : Entry) → result ≡ slice_index_or entries.now place d }
    {
        Headed::new(&entries[place], heads[place])
    }

    /// The entry.
    #[inline(always)]
    pub fn entry(&self) -> &'a InternalValue
        ensures { result.now ≡ self.now }
    {
        self.entry
    }

    /// Whether two entries have one key. Where the heads or the lengths tell, no byte of a key is read.
    #[inline(always)]
    pub fn has_same_key(&self, other: &Headed<'_>) -> bool
        ensures { result ≡ same_key self.now other.now }
    {
        if self.head == other.head {
            has_same_rest(self.entry, other.entry)
        } else {
            false
        }
    }

    /// Whether the entry stands before the other one. Where the heads differ it looks at nothing else.
    #[inline(always)]
    pub fn stands_before(&self, other: &Headed<'_>) -> bool
        ensures { result ≡ is_before self.now other.now }
    {
        if self.head == other.head {
            stands_before(self.entry, other.entry)
        } else {
            self.head < other.head
        }
    }

    /// Whether the entry comes before each entry of the key, which has this head, with a sequence number below this.
    /// Where the heads differ it looks at nothing else.
    #[inline(always)]
    pub fn is_ahead(&self, head: u128, key: &[u8], number: u128) -> bool
        requires { head ≡ key_head key.now }
        ensures { result ≡ stands_before key.now number self.now }
    {
        if self.head == head {
            stands_ahead(self.entry, key, number)
        } else {
            self.head < head
        }
    }

    /// Whether the entry has this key, which has this head. Where the heads differ it looks at nothing else.
    #[inline(always)]
    pub fn has_key(&self, head: u128, key: &[u8]) -> bool
        requires { head ≡ key_head key.now }
        ensures { result ≡ is_eq (slice_cmp nat_cmp self.now.key.user_key key.now) }
    {
        if self.head == head {
            has_key(self.entry, key)
        } else {
            false
        }
    }
}

impl<'a> AsEntry for Headed<'a> {
    ghost shows = { λ headed. headed };

    #[inline(always)]
    fn as_entry(&self) -> &InternalValue {
        self.entry
    }

    #[inline(always)]
    fn stands_before(&self, other: &Self) -> bool {
        self.stands_before(other)
    }

    #[inline(always)]
    fn has_same_key(&self, other: &Self) -> bool {
        self.has_same_key(other)
    }
}
