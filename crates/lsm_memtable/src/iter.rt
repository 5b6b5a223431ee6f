// The entries between two places, from both ends.
ghost use Rattle.std.specs.Prelude.{◌≡◌, ◌+◌, ◌-◌, ◌<◌, ◌≤◌, [], ◌∷◌, ◌++◌, length, take, drop, MatchOption, IfSome};
ghost use Rattle.std.specs.List.{All};
ghost use Rattle.std.specs.Iterator.{at_most};
ghost use Rattle.lsm_memtable.specs.Blocks.{joined, spot, IsFilled, HasPlace};
ghost use Rattle.lsm_memtable.specs.Iters.{TakesFirst, TakesLast};

use crate::block::Block;
use crate::block_list::Place;
use crate::part::Part;
use lsm_below::{Headed, InternalValue, Stretch};
use std::collections::VecDeque;
use std::marker::Model;

/// The entries of a memtable between two places, in order, from both ends: what is left of a first block, the
/// blocks between, and what is left of a last one.
///
/// # Examples
///
/// ```text
/// let mut entries = memtable.range(&bounds);
/// let least = entries.next();
/// let greatest = entries.next_back();
/// ```
#[derive(Drop)]
pub struct Iter<'a> {
    front: Stretch<'a>,
    middle: Part<'a>,
    back: Stretch<'a>,
}

impl<'a> Model for Iter<'a> {
    ghost use Rattle.std.specs.Prelude.{List, ◌++◌};
    ghost use Rattle.std.specs.List.{All};
    ghost use Rattle.lsm_below.specs.Entries.{Entry};
    ghost use Rattle.lsm_memtable.specs.Blocks.{joined, IsFilled};
    ghost use Rattle.lsm_memtable.specs.Parts.{blocks_of};

    ghost Value = { List Entry };

    ghost view = { λ s. s.front ++ (joined (blocks_of s.middle) ++ s.back) };

    ghost invariant = { λ s. All IsFilled (blocks_of s.middle) };
}

impl<'a> Iterator for Iter<'a> {
    type Item = &'a InternalValue;

    ghost next_gives = { TakesFirst };

    ghost remaining = { λ s. at_most (length s) };

    fn next(&mut self) -> Option<&'a InternalValue> {
        let headed = self.take_first()?;
        Some(headed.entry())
    }
}

impl<'a> DoubleEndedIterator for Iter<'a> {
    ghost next_back_gives = { TakesLast };

    fn next_back(&mut self) -> Option<&'a InternalValue> {
        let headed = self.take_last()?;
        Some(headed.entry())
    }
}

impl<'a> Iter<'a> {
    /// Takes the first entry, with its head.
    fn take_first(&mut self) -> Option<Headed<'a>>
        ensures { MatchOption result ((self.old ≡ []) × (self.new ≡ [])) (λ h. self.old ≡ h ∷ self.new) }
    {
        if let Some((headed, front)) = self.front.split_first() {
            self.front = front;
            return Some(headed);
        }
        if let Some((block, middle)) = self.middle.split_first() {
            let (headed, front) = block.stretch().split_first()?;
            self.front = front;
            self.middle = middle;
            return Some(headed);
        }
        let (headed, front) = self.back.split_first()?;
        self.front = front;
        self.back = Stretch::empty();
        Some(headed)
    }

    /// Takes the last entry, with its head.
    fn take_last(&mut self) -> Option<Headed<'a>>
        ensures { MatchOption result ((self.old ≡ []) × (self.new ≡ [])) (λ h. self.old ≡ self.new ++ h ∷ []) }
    {
        if let Some((headed, back)) = self.back.split_last() {
            self.back = back;
            return Some(headed);
        }
        if let Some((block, middle)) = self.middle.split_last() {
            let (headed, back) = block.stretch().split_last()?;
            self.middle = middle;
            self.back = back;
            return Some(headed);
        }
        let (headed, back) = self.front.split_last()?;
        self.front = Stretch::empty();
        self.back = back;
        Some(headed)
    }

    /// The entries of the first block that is left, or what is left of it, all at once.
    pub fn next_block(&mut self) -> Option<&'a [InternalValue]>
        ensures parts { MatchOption result (self.old ≡ []) (λ block. self.old ≡ block.now ++ self.new) }
        ensures some { IfSome result (λ block. 0 < length block.now) }
    {
        let entries = self.front.entries();
        if !entries.is_empty() {
            self.front = Stretch::empty();
            return Some(entries);
        }
        if let Some((block, middle)) = self.middle.split_first() {
            self.middle = middle;
            return Some(block.as_slice());
        }
        let entries = self.back.entries();
        if entries.is_empty() {
            return None;
        }
        self.back = Stretch::empty();
        Some(entries)
    }

    /// The first entry, where the first block is done.
    #[inline(never)]
    fn first_behind(&self) -> Option<Headed<'a>>
        ensures { MatchOption result (self.now ≡ []) (λ h. self.now ≡ h ∷ drop 1 self.now) }
    {
        self.copy().take_first()
    }

    /// The first entry, with its head.
    #[inline(always)]
    pub fn first_headed(&self) -> Option<Headed<'a>>
        ensures { MatchOption result (self.now ≡ []) (λ h. self.now ≡ h ∷ drop 1 self.now) }
    {
        match self.front.first() {
            Some(headed) => Some(headed),
            None => self.first_behind(),
        }
    }

    /// The last entry, where the last block is done.
    #[inline(never)]
    fn last_before(&self) -> Option<Headed<'a>>
        ensures { MatchOption result (self.now ≡ []) (λ h. self.now ≡ take (length self.now - 1) self.now ++ h ∷ []) }
    {
        self.copy().take_last()
    }

    /// The last entry, with its head.
    #[inline(always)]
    pub fn last_headed(&self) -> Option<Headed<'a>>
        ensures { MatchOption result (self.now ≡ []) (λ h. self.now ≡ take (length self.now - 1) self.now ++ h ∷ []) }
    {
        match self.back.last() {
            Some(headed) => Some(headed),
            None => self.last_before(),
        }
    }

    /// Leaves the first entry out, where the first block is done.
    #[inline(never)]
    fn drop_behind(&mut self)
        ensures { self.new ≡ drop 1 self.old }
    {
        let _ = self.take_first();
    }

    /// Leaves the first entry out, if there is one.
    #[inline(always)]
    pub fn drop_first(&mut self)
        ensures { self.new ≡ drop 1 self.old }
    {
        if self.front.len() == 0 {
            self.drop_behind();
        } else {
            self.front = self.front.behind(1);
        }
    }

    /// Leaves the last entry out, where the last block is done.
    #[inline(never)]
    fn drop_before(&mut self)
        ensures { self.new ≡ take (length self.old - 1) self.old }
    {
        let _ = self.take_last();
    }

    /// Leaves the last entry out, if there is one.
    #[inline(always)]
    pub fn drop_last(&mut self)
        ensures { self.new ≡ take (length self.old - 1) self.old }
    {
        let len = self.back.len();
        if len == 0 {
            self.drop_before();
        } else {
            self.back = self.back.up_to(len - 1);
        }
    }

    /// The same entries once more, from both ends.
    pub fn copy(&self) -> Iter<'a>
        ensures { result ≡ self.now }
    {
        Iter {
            front: self.front.copy(),
            middle: self.middle,
            back: self.back.copy(),
        }
    }
}

/// No entry.
fn nothing<'a>() -> Iter<'a>
    ensures { result ≡ [] }
{
    Iter {
        front: Stretch::empty(),
        middle: Part::empty(),
        back: Stretch::empty(),
    }
}

/// All entries of blocks.
pub(crate) fn whole(blocks: &VecDeque<Block>) -> Iter<'_>
    requires { All IsFilled blocks.now.items }
    ensures { result ≡ joined blocks.now.items }
{
    Iter {
        front: Stretch::empty(),
        middle: Part::all(blocks),
        back: Stretch::empty(),
    }
}

/// The entries from a place on in one block, up to a place in a later one.
fn across<'a>(blocks: &'a VecDeque<Block>, from: Place, to: Place) -> Iter<'a>
    requires filled { All IsFilled blocks.now.items }
    requires from { HasPlace blocks.now.items from.block from.at }
    requires to { HasPlace blocks.now.items to.block to.at }
    requires order { from.block < to.block }
    ensures { result ≡ take (spot blocks.now.items to.block to.at - spot blocks.now.items from.block from.at) (drop (spot blocks.now.items from.block from.at) (joined blocks.now.items)) }
{
    Iter {
        front: blocks[from.block].stretch().behind(from.at),
        middle: Part::of(blocks, from.block + 1, to.block),
        back: blocks[to.block].stretch().up_to(to.at),
    }
}

/// The entries between two places of a block.
fn inside<'a>(blocks: &'a VecDeque<Block>, from: Place, to: Place) -> Iter<'a>
    requires from { HasPlace blocks.now.items from.block from.at }
    requires to { HasPlace blocks.now.items to.block to.at }
    requires same { from.block ≡ to.block }
    requires order { from.at ≤ to.at }
    ensures { result ≡ take (spot blocks.now.items to.block to.at - spot blocks.now.items from.block from.at) (drop (spot blocks.now.items from.block from.at) (joined blocks.now.items)) }
{
    Iter {
        front: blocks[from.block]
            .stretch()
            .behind(from.at)
            .up_to(to.at - from.at),
        middle: Part::empty(),
        back: Stretch::empty(),
    }
}

/// The entries from a place on, up to another one. There is none where that stands before the first one.
pub(crate) fn between<'a>(blocks: &'a VecDeque<Block>, from: Place, to: Place) -> Iter<'a>
    requires filled { All IsFilled blocks.now.items }
    requires from { HasPlace blocks.now.items from.block from.at }
    requires to { HasPlace blocks.now.items to.block to.at }
    ensures { result ≡ take (spot blocks.now.items to.block to.at - spot blocks.now.items from.block from.at) (drop (spot blocks.now.items from.block from.at) (joined blocks.now.items)) }
{
    if from.block < to.block {
        return across(blocks, from, to);
    }
    if from.block == to.block && from.at <= to.at {
        return inside(blocks, from, to);
    }
    nothing()
}
