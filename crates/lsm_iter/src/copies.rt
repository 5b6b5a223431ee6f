// Copied entries, in blocks that go one by one.
ghost use Rattle.std.specs.Prelude.{◌≡◌, [], ◌∷◌, ◌++◌, length, option_copied, IfOk, OnOk, OnErr};
ghost use Rattle.lsm_below.specs.Sums.{capped};
ghost use Rattle.lsm_iter.specs.Left.{end_item, Takes};
ghost use Rattle.lsm_iter.specs.Joined.{joined, AreFull};
ghost use Rattle.lsm_iter.specs.declared.tree_iter.End.TheVariants.{Front, Back};

use crate::End;
use lsm_below::InternalValue;
use std::alloc::{AllocError, Global};
use std::collections::VecDeque;
use std::marker::Model;

/// How many entries a block has room for.
const ROOM: usize = 64;

/// The entry at an end of a list.
fn item_at(end: End, list: &VecDeque<InternalValue>) -> Option<&InternalValue>
    ensures { option_copied result ≡ end_item end list.now.items }
{
    match end {
        End::Front => list.front(),
        End::Back => list.back(),
    }
}

/// Takes the entry at an end of a list.
fn pop_at(end: End, list: &mut VecDeque<InternalValue>) -> Option<InternalValue>
    ensures is { result ≡ end_item end list.old.items }
    ensures takes { Takes end list.old.items result list.new.items }
{
    match end {
        End::Front => list.pop_front(),
        End::Back => list.pop_back(),
    }
}

/// Entries that follow each other.
#[derive(Drop)]
struct Block {
    entries: VecDeque<InternalValue>,
}

impl Model for Block {
    ghost use Rattle.std.specs.Prelude.{List};
    ghost use Rattle.lsm_below.specs.Entries.{Entry};

    ghost Value = { List Entry };

    ghost view = { λ b. b.entries.items };
}

impl Block {
    /// A block of one entry. Refused only for want of memory.
    fn of(alloc: Global, entry: InternalValue) -> Result<Block, AllocError>
        ensures { IfOk result (λ b. b ≡ entry ∷ []) }
    {
        let mut entries = VecDeque::with_capacity(alloc, ROOM)?;
        entries.push_back(entry)?;
        Ok(Block { entries })
    }

    fn len(&self) -> usize
        ensures { result ≡ length self.now }
    {
        self.entries.len()
    }

    /// Appends an entry. Refused only for want of memory.
    fn push(&mut self, entry: InternalValue) -> Result<(), AllocError>
        ensures ok { OnOk result (self.new ≡ self.old ++ entry ∷ []) }
        ensures err { OnErr result (self.new ≡ self.old) }
    {
        self.entries.push_back(entry)?;
        Ok(())
    }

    /// The entry at this end.
    fn peek(&self, end: End) -> Option<&InternalValue>
        ensures { option_copied result ≡ end_item end self.now }
    {
        item_at(end, &self.entries)
    }

    /// Takes the entry at this end.
    fn take(&mut self, end: End) -> Option<InternalValue>
        ensures is { result ≡ end_item end self.old }
        ensures takes { Takes end self.old result self.new }
    {
        pop_at(end, &mut self.entries)
    }
}

/// The entry at an end of blocks that have one each.
fn peek_blocks(end: End, blocks: &VecDeque<Block>) -> Option<&InternalValue>
    requires { AreFull blocks.now.items }
    ensures { option_copied result ≡ end_item end (joined blocks.now.items) }
{
    match end {
        End::Front => blocks.front()?.peek(end),
        End::Back => blocks.back()?.peek(end),
    }
}

/// Takes the first entry. A block that has none left goes.
fn take_front(blocks: &mut VecDeque<Block>) -> Option<InternalValue>
    requires { AreFull blocks.old.items }
    ensures is { result ≡ end_item Front (joined blocks.old.items) }
    ensures takes { Takes Front (joined blocks.old.items) result (joined blocks.new.items) }
    ensures full { AreFull blocks.new.items }
{
    if blocks.is_empty() {
        return None;
    }
    let entry = blocks[0].take(End::Front);
    if blocks[0].len() == 0 {
        blocks.pop_front();
    }
    entry
}

/// Takes the last entry. A block that has none left goes.
fn take_back(blocks: &mut VecDeque<Block>) -> Option<InternalValue>
    requires { AreFull blocks.old.items }
    ensures is { result ≡ end_item Back (joined blocks.old.items) }
    ensures takes { Takes Back (joined blocks.old.items) result (joined blocks.new.items) }
    ensures full { AreFull blocks.new.items }
{
    if blocks.is_empty() {
        return None;
    }
    let last = blocks.len() - 1;
    let entry = blocks[last].take(End::Back);
    if blocks[last].len() == 0 {
        blocks.pop_back();
    }
    entry
}

/// Appends an entry: where the last block has no room, in a block of its own. Refused only for want of memory.
fn push_entry(
    alloc: Global,
    blocks: &mut VecDeque<Block>,
    entry: InternalValue,
) -> Result<(), AllocError>
    requires { AreFull blocks.old.items }
    ensures joined { OnOk result (joined blocks.new.items ≡ joined blocks.old.items ++ entry ∷ []) }
    ensures full { OnOk result (AreFull blocks.new.items) }
    ensures err { OnErr result (blocks.new.items ≡ blocks.old.items) }
{
    let count = blocks.len();
    if count == 0 || blocks[count - 1].len() >= ROOM {
        blocks.push_back(Block::of(alloc, entry)?)?;
        return Ok(());
    }
    blocks[count - 1].push(entry)?;
    Ok(())
}

/// Copied entries in order. They stand in blocks, each of which is let go when its last entry is taken.
#[derive(Drop)]
pub(crate) struct Copies {
    blocks: VecDeque<Block>,
}

impl Model for Copies {
    ghost use Rattle.std.specs.Prelude.{List};
    ghost use Rattle.lsm_below.specs.Entries.{Entry};
    ghost use Rattle.lsm_iter.specs.Joined.{joined, AreFull};

    ghost Value = { List Entry };

    ghost view = { λ c. joined c.blocks.items };

    ghost invariant = { λ c. AreFull c.blocks.items };
}

impl Copies {
    /// No entry.
    pub(crate) fn new(alloc: Global) -> Copies
        ensures { result ≡ [] }
    {
        Copies {
            blocks: VecDeque::new(alloc),
        }
    }

    /// How many entries there are.
    pub(crate) fn len(&self) -> usize
        ensures { result ≡ capped (length self.now) }
    {
        let mut len: usize = 0;
        for at in 0..self.blocks.len() {
            len = len.saturating_add(self.blocks[at].len());
        }
        len
    }

    /// Appends an entry. Refused only for want of memory.
    pub(crate) fn push(&mut self, alloc: Global, entry: InternalValue) -> Result<(), AllocError>
        ensures { OnOk result (self.new ≡ self.old ++ entry ∷ []) }
    {
        push_entry(alloc, &mut self.blocks, entry)
    }

    /// The entry at this end.
    pub(crate) fn peek(&self, end: End) -> Option<&InternalValue>
        ensures { option_copied result ≡ end_item end self.now }
    {
        peek_blocks(end, &self.blocks)
    }

    /// Takes the entry at this end.
    pub(crate) fn take(&mut self, end: End) -> Option<InternalValue>
        ensures is { result ≡ end_item end self.old }
        ensures takes { Takes end self.old result self.new }
    {
        match end {
            End::Front => take_front(&mut self.blocks),
            End::Back => take_back(&mut self.blocks),
        }
    }

    /// Leaves out the entry at this end.
    pub(crate) fn skip(&mut self, end: End)
        ensures { Takes end self.old (end_item end self.old) self.new }
    {
        let _ = self.take(end);
    }
}
