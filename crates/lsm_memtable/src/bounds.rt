// Where bounds cut blocks.
ghost use Rattle.std.specs.Prelude.{◌≡◌, ◌<◌, length, not};
ghost use Rattle.lsm_below.specs.Lookups.{is_from, is_to, within};
ghost use Rattle.lsm_memtable.specs.Blocks.{joined, AreBlocks, IsEdge};

use crate::block::Block;
use crate::block_list::{Place, find};
use crate::iter::{between, whole};
use crate::{Iter, Steps};
use lsm_below::{UserKey, entries_are_parted};
use std::collections::VecDeque;
use std::ops::Bound;

/// Above all sequence numbers: all entries of a key are below it.
const ABOVE_ALL: u128 = 18_446_744_073_709_551_616;

/// Where the entries within a lower bound begin.
pub(crate) fn lower_place(blocks: &VecDeque<Block>, bound: &Bound<UserKey>) -> Place
    requires some { 0 < length blocks.now.items }
    requires blocks { AreBlocks blocks.now.items }
    ensures { IsEdge (λ e. not (is_from bound.now e.key.user_key)) blocks.now.items result.block result.at }
{
    match bound {
        Bound::Included(low) => find(blocks, low.as_slice(), ABOVE_ALL, &mut Steps::new()),
        Bound::Excluded(low) => find(blocks, low.as_slice(), 0, &mut Steps::new()),
        Bound::Unbounded => Place { block: 0, at: 0 },
    }
}

/// Where the entries within an upper bound end.
pub(crate) fn upper_place(blocks: &VecDeque<Block>, bound: &Bound<UserKey>) -> Place
    requires some { 0 < length blocks.now.items }
    requires blocks { AreBlocks blocks.now.items }
    ensures { IsEdge (λ e. is_to bound.now e.key.user_key) blocks.now.items result.block result.at }
{
    match bound {
        Bound::Included(high) => find(blocks, high.as_slice(), 0, &mut Steps::new()),
        Bound::Excluded(high) => find(blocks, high.as_slice(), ABOVE_ALL, &mut Steps::new()),
        Bound::Unbounded => {
            let block = blocks.len() - 1;
            let at = blocks[block].len();
            Place { block, at }
        }
    }
}

/// The entries of blocks in the bounds: they stand together.
pub(crate) fn blocks_within<'a>(
    blocks: &'a VecDeque<Block>,
    lower: &Bound<UserKey>,
    upper: &Bound<UserKey>,
) -> Iter<'a>
    requires { AreBlocks blocks.now.items }
    ensures { result ≡ within lower.now upper.now (joined blocks.now.items) }
{
    entries_are_parted();
    if blocks.is_empty() {
        return whole(blocks);
    }
    let from = lower_place(blocks, lower);
    let to = upper_place(blocks, upper);
    between(blocks, from, to)
}
