// A part of a memtable between two places, which may be cut again.
ghost use Rattle.std.specs.Prelude.{◌≡◌, ◌≤◌, max, min, true, false};
ghost use Rattle.lsm_below.specs.Lookups.{within};
ghost use Rattle.std.specs.List.{All};
ghost use Rattle.lsm_below.specs.Entries.{HasBytes, entry_cmp};
ghost use Rattle.lsm_below.specs.Sorted.{Rises};
ghost use Rattle.lsm_memtable.specs.Blocks.{joined, spot, AreBlocks, HasPlace};

use crate::Iter;
use crate::block::Block;
use crate::block_list::Place;
use crate::bounds::{lower_place, upper_place};
use crate::iter::{between, whole};
use lsm_below::{UserKey, entries_are_parted};
use std::collections::VecDeque;
use std::marker::Model;
use std::ops::Bound;

/// The entries of a memtable between two places. It borrows the memtable, and may be cut again.
///
/// # Examples
///
/// ```text
/// let span = memtable.span().within(&bounds);
/// let greatest = span.iter().next_back();
/// ```
#[derive(Drop)]
pub struct Span<'a> {
    blocks: &'a VecDeque<Block>,
    from: Place,
    to: Place,
}

impl<'a> Model for Span<'a> {
    ghost use Rattle.std.specs.Prelude.{List};
    ghost use Rattle.std.specs.List.{All};
    ghost use Rattle.lsm_below.specs.Entries.{Entry, HasBytes};
    ghost use Rattle.lsm_memtable.specs.Blocks.{joined, AreBlocks};
    ghost use Rattle.lsm_memtable.specs.Spans.{between, ArePlaces};

    ghost Value = { List Entry };

    ghost view = { λ s. between s.blocks.now.items s.from.block s.from.at s.to.block s.to.at };

    ghost invariant = { λ s. AreBlocks s.blocks.now.items × ArePlaces s.blocks.now.items s.from.block s.from.at s.to.block s.to.at × All HasBytes (joined s.blocks.now.items) };
}

/// Whether a place stands before another one.
fn is_before(blocks: &VecDeque<Block>, left: Place, right: Place) -> bool
    requires left { HasPlace blocks.now.items left.block left.at }
    requires right { HasPlace blocks.now.items right.block right.at }
    ensures before { result ≡ true → spot blocks.now.items left.block left.at ≤ spot blocks.now.items right.block right.at }
    ensures behind { result ≡ false → spot blocks.now.items right.block right.at ≤ spot blocks.now.items left.block left.at }
{
    let _ = blocks;
    if left.block < right.block {
        return true;
    }
    if right.block < left.block {
        return false;
    }
    left.at < right.at
}

/// The later one of two places.
fn later(blocks: &VecDeque<Block>, left: Place, right: Place) -> Place
    requires left { HasPlace blocks.now.items left.block left.at }
    requires right { HasPlace blocks.now.items right.block right.at }
    ensures place { HasPlace blocks.now.items result.block result.at }
    ensures spot { spot blocks.now.items result.block result.at ≡ max (spot blocks.now.items left.block left.at) (spot blocks.now.items right.block right.at) }
{
    if is_before(blocks, left, right) {
        right
    } else {
        left
    }
}

/// The earlier one of two places.
fn earlier(blocks: &VecDeque<Block>, left: Place, right: Place) -> Place
    requires left { HasPlace blocks.now.items left.block left.at }
    requires right { HasPlace blocks.now.items right.block right.at }
    ensures place { HasPlace blocks.now.items result.block result.at }
    ensures spot { spot blocks.now.items result.block result.at ≡ min (spot blocks.now.items left.block left.at) (spot blocks.now.items right.block right.at) }
{
    if is_before(blocks, left, right) {
        left
    } else {
        right
    }
}

/// All entries of blocks.
pub(crate) fn span_of(blocks: &VecDeque<Block>) -> Span<'_>
    requires blocks { AreBlocks blocks.now.items }
    requires bytes { All HasBytes (joined blocks.now.items) }
    ensures { result ≡ joined blocks.now.items }
{
    let from = Place { block: 0, at: 0 };
    if blocks.is_empty() {
        return Span {
            blocks,
            from,
            to: from,
        };
    }
    let block = blocks.len() - 1;
    let at = blocks[block].len();
    Span {
        blocks,
        from,
        to: Place { block, at },
    }
}

impl<'a> Span<'a> {
    /// What every such part meets: its entries stand in order.
    pub fn facts(&self)
        ensures { Rises entry_cmp self.now }
    {
        let _ = &self.from;
    }

    /// The keys of its entries have the numbers of bytes.
    pub fn keys_hold_bytes(&self)
        ensures { All HasBytes self.now }
    {
        let _ = &self.from;
    }

    /// The entries in order, from both ends.
    pub fn iter(&self) -> Iter<'a>
        ensures { result ≡ self.now }
    {
        if self.blocks.is_empty() {
            return whole(self.blocks);
        }
        between(self.blocks, self.from, self.to)
    }

    /// The entries in the bounds. The cost is logarithmic.
    pub fn within(&self, bounds: &(Bound<UserKey>, Bound<UserKey>)) -> Span<'a>
        ensures { result ≡ within bounds.now.0 bounds.now.1 self.now }
    {
        entries_are_parted();
        if self.blocks.is_empty() {
            return Span {
                blocks: self.blocks,
                from: self.from,
                to: self.to,
            };
        }
        let from = later(self.blocks, self.from, lower_place(self.blocks, &bounds.0));
        let to = earlier(self.blocks, self.to, upper_place(self.blocks, &bounds.1));
        Span {
            blocks: self.blocks,
            from,
            to,
        }
    }
}
