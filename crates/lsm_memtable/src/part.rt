// Blocks that follow each other, in the two slices that a ring has of them.
ghost use Rattle.std.specs.Prelude.{◌≡◌, ◌-◌, ◌<◌, ◌≤◌, [], ◌∷◌, ◌++◌, length, take, drop, slice_index_or, MatchOption};
ghost use Rattle.lsm_memtable.specs.Parts.{blocks_of};

use crate::block::Block;
use std::collections::VecDeque;

/// Blocks that follow each other: those of the first slice, then those of the second one. Where a ring goes on at the
/// start of its memory they stand in two slices, else in the first one alone.
#[derive(Clone, Copy)]
pub(crate) struct Part<'a> {
    first: &'a [Block],
    second: &'a [Block],
}

impl<'a> Part<'a> {
    /// No block.
    pub(crate) fn empty() -> Part<'a>
        ensures { blocks_of result ≡ [] }
    {
        Part {
            first: &[],
            second: &[],
        }
    }

    /// All blocks of a ring.
    pub(crate) fn all(blocks: &'a VecDeque<Block>) -> Part<'a>
        ensures { blocks_of result ≡ blocks.now.items }
    {
        let (first, second) = blocks.as_slices();
        Part { first, second }
    }

    /// The block at a place.
    pub(crate) fn at(self, place: usize) -> &'a Block
        requires { place < length (blocks_of self) }
        ensures { result.now ≡ slice_index_or (blocks_of self.entry) place result.now }
    {
        let len = self.first.len();
        if place < len {
            &self.first[place]
        } else {
            &self.second[place - len]
        }
    }

    /// The blocks of a ring from one place up to another one.
    pub(crate) fn of(blocks: &'a VecDeque<Block>, from: usize, to: usize) -> Part<'a>
        requires order { from ≤ to }
        requires within { to ≤ length blocks.now.items }
        ensures { blocks_of result ≡ take (to - from) (drop from blocks.now.items) }
    {
        let (front, rest) = blocks.as_slices();
        let len = front.len();
        if to <= len {
            return Part {
                first: &front[from..to],
                second: &[],
            };
        }
        if len <= from {
            return Part {
                first: &rest[from - len..to - len],
                second: &[],
            };
        }
        Part {
            first: &front[from..],
            second: &rest[..to - len],
        }
    }

    /// The first block, and those after it.
    pub(crate) fn split_first(self) -> Option<(&'a Block, Part<'a>)>
        ensures { MatchOption result (blocks_of self.entry ≡ []) (λ p. blocks_of self.entry ≡ p.0.now ∷ blocks_of p.1) }
    {
        if let Some((block, first)) = self.first.split_first() {
            let rest = Part {
                first,
                second: self.second,
            };
            return Some((block, rest));
        }
        let (block, first) = self.second.split_first()?;
        Some((block, Part { first, second: &[] }))
    }

    /// The last block, and those before it.
    pub(crate) fn split_last(self) -> Option<(&'a Block, Part<'a>)>
        ensures { MatchOption result (blocks_of self.entry ≡ []) (λ p. blocks_of self.entry ≡ blocks_of p.1 ++ p.0.now ∷ []) }
    {
        if let Some((block, second)) = self.second.split_last() {
            let rest = Part {
                first: self.first,
                second,
            };
            return Some((block, rest));
        }
        let (block, first) = self.first.split_last()?;
        Some((block, Part { first, second: &[] }))
    }
}
