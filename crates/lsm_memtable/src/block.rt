// Up to 64 entries in order, with the heads of their keys.
ghost use Rattle.std.specs.Prelude.{◌≡◌, ℕ, ◌+◌, ◌-◌, ◌<◌, ◌≤◌, [], ◌∷◌, ◌++◌, length, min, IfOk, OnOk, OnErr, true, false, slice_index_or, slice_set};
ghost use Rattle.std.specs.List.{insert, remove};
ghost use Rattle.std.specs.Ordering.{is_eq, nat_cmp};
ghost use Rattle.std.specs.Cmp.Lexicographic.{slice_cmp};
ghost use Rattle.lsm_below.specs.declared.value.InternalValue.{InternalValue};
ghost use Rattle.lsm_below.specs.Entries.{entry_cmp, key_cmp};
ghost use Rattle.lsm_below.specs.Sorted.{Rises};
ghost use Rattle.lsm_below.specs.Lookups.{stands_before};
ghost use Rattle.lsm_below.specs.Sums.{capped};
ghost use Rattle.lsm_below.specs.Heads.{key_head};
ghost use Rattle.lsm_memtable.specs.Blocks.{CountsDigits};
ghost use Rattle.lsm_memtable.specs.Inserts.{MovesFew};

use crate::Steps;
use crate::spread::spread;
use lsm_below::{
    Headed, InternalKey, InternalValue, Stretch, UserKey, entries_are_parted, head_of,
};
use std::alloc::{AllocError, Global};
use std::marker::Model;
use std::mem;

/// How many entries a block has at most.
pub(crate) const MOST: usize = 64;

/// How many entries a full block keeps at least when it is split.
const HALF: usize = 32;

/// For how many more entries a block has room when it was made or has grown.
pub(crate) const STEP: usize = 8;

/// Entries in order, and the head of each one's key, which most comparisons need alone. The last head stands
/// beside them, since a search among blocks needs nothing else of most.
#[derive(Drop)]
pub(crate) struct Block {
    last: u128,
    heads: Vec<u128>,
    entries: Vec<InternalValue>,
}

impl Model for Block {
    ghost use Rattle.std.specs.Prelude.{◌≡◌, ◌-◌, List, length, slice_index_or};
    ghost use Rattle.lsm_below.specs.declared.value.InternalValue.{InternalValue};
    ghost use Rattle.lsm_below.specs.Heads.{AreHeads};

    ghost Value = { List InternalValue };

    ghost view = { λ b. b.entries.items };

    ghost invariant = { λ b. AreHeads b.heads.items b.entries.items × (b.last ≡ slice_index_or b.heads.items (length b.heads.items - 1) 0) };
}

/// The last head, 0 where there is none.
fn last_of(heads: &[u128]) -> u128
    ensures { result ≡ slice_index_or heads.now (length heads.now - 1) 0 }
{
    match heads.last() {
        Some(head) => *head,
        None => 0,
    }
}

impl Block {
    /// A block of one entry, with room for so many. Refused only for want of memory.
    pub(crate) fn of(alloc: Global, room: usize, entry: InternalValue) -> Result<Block, AllocError>
        requires { 0 < room }
        ensures { IfOk result (λ b. b ≡ entry ∷ []) }
    {
        let mut heads = Vec::with_capacity(alloc, room)?;
        let mut entries = Vec::with_capacity(alloc, room)?;
        let last = head_of(entry.key.user_key.as_slice());
        heads.push(last).unwrap();
        entries.push(entry).unwrap();
        Ok(Block {
            last,
            heads,
            entries,
        })
    }

    pub(crate) fn len(&self) -> usize
        ensures { result ≡ length self.now }
    {
        self.entries.len()
    }

    pub(crate) fn as_slice(&self) -> &[InternalValue]
        ensures { result.now ≡ self.now }
    {
        &self.entries
    }

    /// The entries with their heads.
    pub(crate) fn stretch(&self) -> Stretch<'_>
        ensures { result ≡ self.now }
    {
        Stretch::new(&self.entries, &self.heads)
    }

    pub(crate) fn at(&self, place: usize) -> &InternalValue
        requires { place < length self.now }
        ensures { result.now ≡ slice_index_or self.now place result.now }
    {
        &self.entries[place]
    }

    /// Whether the entry there comes before each entry of the key with a sequence number below this. It is one
    /// comparison.
    pub(crate) fn is_ahead(
        &self,
        place: usize,
        head: u128,
        key: &[u8],
        number: u128,
        steps: &mut Steps,
    ) -> bool
        requires place { place < length self.now }
        requires head { head ≡ key_head key.now }
        ensures is { (d : InternalValue) → result ≡ stands_before key.now number (slice_index_or self.now place d) }
        ensures compared { steps.new.compared ≡ capped (steps.old.compared + 1) }
        ensures moved { steps.new.moved ≡ steps.old.moved }
    {
        steps.tick_compared();
        Headed::at(&self.heads, &self.entries, place).is_ahead(head, key, number)
    }

    /// `is_ahead` for the last entry. Where the heads differ it looks at nothing else.
    pub(crate) fn is_last_ahead(
        &self,
        head: u128,
        key: &[u8],
        number: u128,
        steps: &mut Steps,
    ) -> bool
        requires some { 0 < length self.now }
        requires head { head ≡ key_head key.now }
        ensures is { (d : InternalValue) → result ≡ stands_before key.now number (slice_index_or self.now (length self.now - 1) d) }
        ensures compared { steps.new.compared ≡ capped (steps.old.compared + 1) }
        ensures moved { steps.new.moved ≡ steps.old.moved }
    {
        steps.tick_compared();
        let at = self.entries.len() - 1;
        Headed::new(&self.entries[at], self.last).is_ahead(head, key, number)
    }

    /// How many entries come before each entry of the key with a sequence number below this. The last one doesn't.
    pub(crate) fn place(&self, head: u128, key: &[u8], number: u128, steps: &mut Steps) -> usize
        requires some { 0 < length self.now }
        requires rises { Rises entry_cmp self.now }
        requires head { head ≡ key_head key.now }
        requires last { (d : InternalValue) → stands_before key.now number (slice_index_or self.now (length self.now - 1) d) ≡ false }
        ensures bound { result < length self.now }
        ensures before { (j : ℕ) (d : InternalValue) → j < result → stands_before key.now number (slice_index_or self.now j d) ≡ true }
        ensures behind { (j : ℕ) (d : InternalValue) → result ≤ j → j < length self.now → stands_before key.now number (slice_index_or self.now j d) ≡ false }
        ensures compared { CountsDigits (length self.now - 1) 0 steps.old.compared steps.new.compared }
        ensures moved { steps.new.moved ≡ steps.old.moved }
    {
        entries_are_parted();
        let mut low = 0;
        let mut high = self.len() - 1;
        while low < high {
            let mid = low + (high - low) / 2;
            if self.is_ahead(mid, head, key, number, steps) {
                low = mid + 1;
            } else {
                high = mid;
            }
        }
        low
    }

    /// Whether the entry there has this key. Where the heads differ it looks at nothing else.
    pub(crate) fn has_key(&self, place: usize, key: &[u8]) -> bool
        requires { place < length self.now }
        ensures { (d : InternalValue) → result ≡ is_eq (slice_cmp nat_cmp (slice_index_or self.now place d).key.user_key key.now) }
    {
        Headed::at(&self.heads, &self.entries, place).has_key(head_of(key), key)
    }

    /// Whether the entry there has this key and sequence number.
    pub(crate) fn is_same(&self, place: usize, key: &InternalKey) -> bool
        requires { place < length self.now }
        ensures { (d : InternalValue) → result ≡ is_eq (key_cmp (slice_index_or self.now place d).key key.now) }
    {
        self.has_key(place, key.user_key.as_slice()) && self.entries[place].key.seqno == key.seqno
    }

    /// Puts the entry over the one there, which it returns.
    pub(crate) fn replace(&mut self, place: usize, entry: InternalValue) -> InternalValue
        requires { place < length self.old }
        ensures entries { self.new ≡ slice_set self.old place entry }
        ensures replaced { result ≡ slice_index_or self.old place result }
    {
        self.heads[place] = head_of(entry.key.user_key.as_slice());
        self.last = last_of(&self.heads);
        mem::replace(&mut self.entries[place], entry)
    }

    /// Takes the entry there out, and moves those after.
    pub(crate) fn remove(&mut self, place: usize)
        requires { place < length self.old }
        ensures { self.new ≡ remove self.old place }
    {
        self.heads.remove(place);
        self.last = last_of(&self.heads);
        let taken = self.entries.remove(place);
        drop(taken);
    }

    /// Puts the entry there, and moves those after; where there is no room, all move to a larger place.
    /// Refused only for want of memory, and then nothing changes.
    pub(crate) fn insert(
        &mut self,
        alloc: Global,
        place: usize,
        entry: InternalValue,
        steps: &mut Steps,
    ) -> Result<(), AllocError>
        requires place { place ≤ length self.old }
        requires few { length self.old < 64 }
        ensures ok { OnOk result (self.new ≡ insert self.old place entry) }
        ensures err { OnErr result (self.new ≡ self.old) }
        ensures counted { OnOk result (capped (steps.old.moved + (length self.old - place)) ≤ steps.new.moved) }
        ensures moves { MovesFew result steps.old steps.new }
    {
        let len = self.entries.len();
        if len < self.heads.capacity() && len < self.entries.capacity() {
            steps.tick_moves(len - place);
            self.heads
                .insert(place, head_of(entry.key.user_key.as_slice()))
                .unwrap();
            self.entries.insert(place, entry).unwrap();
            self.last = last_of(&self.heads);
            return Ok(());
        }
        let room = (len + STEP).min(MOST);
        self.rebuild(alloc, room, room, place, entry, steps)?;
        Ok(())
    }

    /// Puts the entry at a place of a full block, of which it keeps half; the other half is returned.
    /// Refused only for want of memory, and then nothing changes.
    pub(crate) fn split(
        &mut self,
        alloc: Global,
        place: usize,
        entry: InternalValue,
        steps: &mut Steps,
    ) -> Result<Block, AllocError>
        requires place { place ≤ length self.old }
        requires full { length self.old ≡ 64 }
        ensures ok { IfOk result (λ upper. (self.new ++ upper ≡ insert self.old place entry) × (length self.new ≡ 32)) }
        ensures counted { OnOk result (steps.new.moved ≡ capped (steps.old.moved + 64)) }
        ensures err { OnErr result (self.new ≡ self.old) }
        ensures moves { MovesFew result steps.old steps.new }
    {
        self.rebuild(alloc, HALF, HALF + STEP, place, entry, steps)
    }

    /// Puts the entry at a place: all entries move once, the first ones to new vectors with this room, up to
    /// a length, and the rest to another block. Refused only for want of memory, and then nothing changes.
    fn rebuild(
        &mut self,
        alloc: Global,
        keep: usize,
        room: usize,
        place: usize,
        entry: InternalValue,
        steps: &mut Steps,
    ) -> Result<Block, AllocError>
        requires place { place ≤ length self.old }
        requires few { length self.old ≤ 64 }
        requires keep { keep ≤ room }
        requires room { length self.old + 1 ≤ keep + room }
        ensures ok { IfOk result (λ rest. (self.new ++ rest ≡ insert self.old place entry) × (length self.new ≡ min keep (length self.old + 1))) }
        ensures counted { OnOk result (steps.new.moved ≡ capped (steps.old.moved + length self.old)) }
        ensures err { OnErr result (self.new ≡ self.old) }
        ensures moves { MovesFew result steps.old steps.new }
    {
        let len = self.entries.len();
        let left = if len < keep { 0 } else { room };
        let mut heads = Vec::with_capacity(alloc, room)?;
        let mut entries = Vec::with_capacity(alloc, room)?;
        let mut upper_heads = Vec::with_capacity(alloc, left)?;
        let mut upper = Vec::with_capacity(alloc, left)?;
        steps.tick_moves(len);
        let head = head_of(entry.key.user_key.as_slice());
        let old_heads = mem::replace(&mut self.heads, Vec::new(alloc));
        spread(old_heads, place, head, &mut heads, keep, &mut upper_heads);
        let old_entries = mem::replace(&mut self.entries, Vec::new(alloc));
        spread(old_entries, place, entry, &mut entries, keep, &mut upper);
        self.last = last_of(&heads);
        self.heads = heads;
        self.entries = entries;
        Ok(Block {
            last: last_of(&upper_heads),
            heads: upper_heads,
            entries: upper,
        })
    }
}
