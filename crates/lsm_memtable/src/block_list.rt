// Blocks that together are one list: search, insert, split.
ghost use Rattle.std.specs.Prelude.{◌≡◌, ℕ, ◌+◌, ◌-◌, ◌<◌, ◌≤◌, [], length, List, IfOk, OnOk, OnErr, option_copied, true, false, slice_index_or, slice_set, take};
ghost use Rattle.std.specs.List.{All, remove};
ghost use Rattle.std.specs.Ordering.{is_eq};
ghost use Rattle.lsm_below.specs.declared.value.InternalValue.{InternalValue};
ghost use Rattle.lsm_below.specs.Entries.{entry_cmp, key_cmp};
ghost use Rattle.lsm_below.specs.Sorted.{put, first};
ghost use Rattle.lsm_below.specs.Lookups.{is_visible, stands_before};
ghost use Rattle.lsm_below.specs.Heads.{key_head};
ghost use Rattle.lsm_memtable.specs.Blocks.{joined, spot, AreBlocks, IsFilled, HasPlace, IsPlace, CountsDigits};
ghost use Rattle.lsm_memtable.specs.Inserts.{Inserts, MovesFew};
ghost use Rattle.lsm_memtable.specs.Undo.{Undoes, AreUndone, undo_of};

use crate::Steps;
use crate::block::{Block, MOST, STEP};
use crate::part::Part;
use lsm_below::{
    InternalKey, InternalValue, SeqNo, entries_are_ordered, entries_are_parted, head_of,
};
use std::alloc::{AllocError, Global};
use std::collections::VecDeque;

/// The block where the entries of the key with a sequence number below this begin. They begin before the end of all.
fn block_for(
    blocks: &VecDeque<Block>,
    head: u128,
    key: &[u8],
    number: u128,
    steps: &mut Steps,
) -> usize
    requires some { 0 < length blocks.now.items }
    requires head { head ≡ key_head key.now }
    requires blocks { AreBlocks blocks.now.items }
    requires end { (d : InternalValue) → stands_before key.now number (slice_index_or (slice_index_or blocks.now.items (length blocks.now.items - 1) []) (length (slice_index_or blocks.now.items (length blocks.now.items - 1) []) - 1) d) ≡ false }
    ensures bound { result < length blocks.now.items }
    ensures before { (j : ℕ) (d : InternalValue) → j < length (joined (take result blocks.now.items)) → stands_before key.now number (slice_index_or (joined blocks.now.items) j d) ≡ true }
    ensures edge { (d : InternalValue) → stands_before key.now number (slice_index_or (slice_index_or blocks.now.items result []) (length (slice_index_or blocks.now.items result []) - 1) d) ≡ false }
    ensures compared { CountsDigits (length blocks.now.items) 0 steps.old.compared steps.new.compared }
    ensures moved { steps.new.moved ≡ steps.old.moved }
{
    entries_are_parted();
    // A ring would look at each step where it goes on at the start of its memory.
    let all = Part::all(blocks);
    let mut low = 0;
    let mut high = blocks.len() - 1;
    while low < high {
        let mid = low + (high - low) / 2;
        if all.at(mid).is_last_ahead(head, key, number, steps) {
            low = mid + 1;
        } else {
            high = mid;
        }
    }
    low
}

/// A place in a block.
#[derive(Clone, Copy)]
pub(crate) struct Place {
    pub(crate) block: usize,
    pub(crate) at: usize,
}

/// Where the entries of the key with a sequence number below this begin. It looks at the end of all first, which is where
/// an entry goes where keys rise.
pub(crate) fn find(blocks: &VecDeque<Block>, key: &[u8], number: u128, steps: &mut Steps) -> Place
    requires some { 0 < length blocks.now.items }
    requires blocks { AreBlocks blocks.now.items }
    ensures place { IsPlace blocks.now.items key.now number result.block result.at }
    ensures compared { CountsDigits (length blocks.now.items) 7 steps.old.compared steps.new.compared }
    ensures moved { steps.new.moved ≡ steps.old.moved }
{
    entries_are_parted();
    let head = head_of(key);
    let end = blocks.len() - 1;
    let last = &blocks[end];
    if last.is_last_ahead(head, key, number, steps) {
        return Place {
            block: end,
            at: last.len(),
        };
    }
    let block = block_for(blocks, head, key, number, steps);
    let at = blocks[block].place(head, key, number, steps);
    Place { block, at }
}

/// The first entry of a key below the snapshot.
pub(crate) fn first_visible<'a>(
    blocks: &'a VecDeque<Block>,
    key: &[u8],
    snapshot: SeqNo,
    steps: &mut Steps,
) -> Option<&'a InternalValue>
    requires { AreBlocks blocks.now.items }
    ensures found { option_copied result ≡ first (is_visible key.now snapshot) (joined blocks.now.items) }
    ensures compared { CountsDigits (length blocks.now.items) 8 steps.old.compared steps.new.compared }
    ensures moved { steps.new.moved ≡ steps.old.moved }
{
    entries_are_parted();
    if blocks.is_empty() {
        return None;
    }
    let place = find(blocks, key, snapshot as u128, steps);
    let block = &blocks[place.block];
    if place.at == block.len() {
        return None;
    }
    let entry = block.at(place.at);
    steps.tick_compared();
    if block.has_key(place.at, key) {
        Some(entry)
    } else {
        None
    }
}

/// Whether an entry of the key and sequence number stands at their place.
fn is_taken(blocks: &VecDeque<Block>, place: Place, key: &InternalKey, steps: &mut Steps) -> bool
    requires { IsPlace blocks.now.items key.now.user_key (key.now.seqno + 1) place.block place.at }
    ensures inside { result ≡ true → place.at < length (slice_index_or blocks.now.items place.block []) }
    ensures same { (d : InternalValue) → result ≡ true → is_eq (key_cmp (slice_index_or (joined blocks.now.items) (spot blocks.now.items place.block place.at) d).key key.now) ≡ true }
    ensures other { (d : InternalValue) → result ≡ false → spot blocks.now.items place.block place.at < length (joined blocks.now.items) → is_eq (key_cmp (slice_index_or (joined blocks.now.items) (spot blocks.now.items place.block place.at) d).key key.now) ≡ false }
    ensures compared { steps.new.compared ≤ steps.old.compared + 1 }
    ensures moved { steps.new.moved ≡ steps.old.moved }
{
    let block = &blocks[place.block];
    if place.at == block.len() {
        return false;
    }
    steps.tick_compared();
    block.is_same(place.at, key)
}

/// Puts an entry into a block that isn't full. Refused only for want of memory, and then nothing changes.
fn insert_in(
    blocks: &mut VecDeque<Block>,
    alloc: Global,
    place: Place,
    entry: InternalValue,
    steps: &mut Steps,
) -> Result<(), AllocError>
    requires place { HasPlace blocks.old.items place.block place.at }
    requires few { length (slice_index_or blocks.old.items place.block []) < 64 }
    requires filled { All IsFilled blocks.old.items }
    ensures inserts { Inserts result blocks.old.items blocks.new.items (spot blocks.old.items place.block place.at) entry }
    ensures moves { MovesFew result steps.old steps.new }
{
    blocks[place.block].insert(alloc, place.at, entry, steps)?;
    Ok(())
}

/// Splits a full block into two, with an entry more. Refused only for want of memory, and then nothing changes.
fn split_in(
    blocks: &mut VecDeque<Block>,
    alloc: Global,
    place: Place,
    entry: InternalValue,
    steps: &mut Steps,
) -> Result<(), AllocError>
    requires place { HasPlace blocks.old.items place.block place.at }
    requires full { length (slice_index_or blocks.old.items place.block []) ≡ 64 }
    requires filled { All IsFilled blocks.old.items }
    ensures inserts { Inserts result blocks.old.items blocks.new.items (spot blocks.old.items place.block place.at) entry }
    ensures moves { MovesFew result steps.old steps.new }
{
    blocks.reserve(1)?;
    let upper = blocks[place.block].split(alloc, place.at, entry, steps)?;
    blocks.insert(place.block + 1, upper).unwrap();
    Ok(())
}

/// For how many entries a block has room that begins at this place among the blocks. One that begins after all others is
/// where keys rise, and fills: it never grows, so that none of its entries moves.
fn room_for(blocks: &VecDeque<Block>, block: usize) -> usize
    ensures { 0 < result }
{
    if 0 < block && block == blocks.len() {
        MOST
    } else {
        STEP
    }
}

/// Puts an entry in a block of its own, before the blocks from a place on. Refused only for want of memory, and then
/// nothing changes.
fn begin_block(
    blocks: &mut VecDeque<Block>,
    alloc: Global,
    block: usize,
    entry: InternalValue,
) -> Result<(), AllocError>
    requires block { block ≤ length blocks.old.items }
    requires filled { All IsFilled blocks.old.items }
    ensures { Inserts result blocks.old.items blocks.new.items (spot blocks.old.items block 0) entry }
{
    blocks.reserve(1)?;
    let new = Block::of(alloc, room_for(blocks, block), entry)?;
    blocks.insert(block, new).unwrap();
    Ok(())
}

/// Puts an entry before a full block: at the end of the block before it where that isn't full, else in a block of its
/// own. Refused only for want of memory, and then nothing changes.
fn insert_before(
    blocks: &mut VecDeque<Block>,
    alloc: Global,
    block: usize,
    entry: InternalValue,
    steps: &mut Steps,
) -> Result<(), AllocError>
    requires block { block ≤ length blocks.old.items }
    requires filled { All IsFilled blocks.old.items }
    ensures inserts { Inserts result blocks.old.items blocks.new.items (spot blocks.old.items block 0) entry }
    ensures moves { MovesFew result steps.old steps.new }
{
    if 0 < block {
        let at = blocks[block - 1].len();
        if at < MOST {
            let place = Place {
                block: block - 1,
                at,
            };
            return insert_in(blocks, alloc, place, entry, steps);
        }
    }
    begin_block(blocks, alloc, block, entry)
}

/// Puts an entry at a place between entries. A full block is split, but at an edge of it the entry goes to the block
/// before or begins a new one, so that keys that rise, and versions of one key, leave full blocks.
/// Refused only for want of memory, and then nothing changes.
fn insert_at(
    blocks: &mut VecDeque<Block>,
    alloc: Global,
    place: Place,
    entry: InternalValue,
    steps: &mut Steps,
) -> Result<(), AllocError>
    requires place { HasPlace blocks.old.items place.block place.at }
    requires filled { All IsFilled blocks.old.items }
    ensures inserts { Inserts result blocks.old.items blocks.new.items (spot blocks.old.items place.block place.at) entry }
    ensures moves { MovesFew result steps.old steps.new }
{
    let len = blocks[place.block].len();
    if len < MOST {
        return insert_in(blocks, alloc, place, entry, steps);
    }
    if place.at == 0 {
        return insert_before(blocks, alloc, place.block, entry, steps);
    }
    if place.at == len {
        return begin_block(blocks, alloc, place.block + 1, entry);
    }
    split_in(blocks, alloc, place, entry, steps)
}

/// Puts the entry over the one there, which it returns.
fn replace_at(blocks: &mut VecDeque<Block>, place: Place, entry: InternalValue) -> InternalValue
    requires block { place.block < length blocks.old.items }
    requires at { place.at < length (slice_index_or blocks.old.items place.block []) }
    requires filled { All IsFilled blocks.old.items }
    ensures entries { joined blocks.new.items ≡ slice_set (joined blocks.old.items) (spot blocks.old.items place.block place.at) entry }
    ensures replaced { result ≡ slice_index_or (joined blocks.old.items) (spot blocks.old.items place.block place.at) result }
    ensures filled { All IsFilled blocks.new.items }
{
    blocks[place.block].replace(place.at, entry)
}

/// Takes out the entry there, and its block where it was the only one.
fn remove_at(blocks: &mut VecDeque<Block>, place: Place)
    requires block { place.block < length blocks.old.items }
    requires at { place.at < length (slice_index_or blocks.old.items place.block []) }
    requires filled { All IsFilled blocks.old.items }
    ensures entries { joined blocks.new.items ≡ remove (joined blocks.old.items) (spot blocks.old.items place.block place.at) }
    ensures filled { All IsFilled blocks.new.items }
{
    if blocks[place.block].len() == 1 {
        drop(blocks.remove(place.block).unwrap());
        return;
    }
    blocks[place.block].remove(place.at);
}

/// Puts an entry in its place, over one of the same key and sequence number, which it returns.
/// Refused only for want of memory, and then nothing changes.
pub(crate) fn put_entry(
    blocks: &mut VecDeque<Block>,
    alloc: Global,
    entry: InternalValue,
    steps: &mut Steps,
) -> Result<Option<InternalValue>, AllocError>
    requires { AreBlocks blocks.old.items }
    ensures ok { OnOk result (joined blocks.new.items ≡ put entry_cmp entry (joined blocks.old.items)) }
    ensures undo { IfOk result (λ replaced. Undoes (undo_of entry.key replaced) (joined blocks.old.items) (joined blocks.new.items)) }
    ensures err { OnErr result (blocks.new.items ≡ blocks.old.items) }
    ensures sound { AreBlocks blocks.new.items }
    ensures compared { CountsDigits (length blocks.old.items) 8 steps.old.compared steps.new.compared }
    ensures moved { steps.new.moved ≤ steps.old.moved + 64 }
    ensures unmoved { OnErr result (steps.new.moved ≡ steps.old.moved) }
{
    entries_are_ordered();
    if blocks.is_empty() {
        begin_block(blocks, alloc, 0, entry)?;
        return Ok(None);
    }
    let number = entry.key.seqno as u128 + 1;
    let place = find(blocks, entry.key.user_key.as_slice(), number, steps);
    if is_taken(blocks, place, &entry.key, steps) {
        return Ok(Some(replace_at(blocks, place, entry)));
    }
    insert_at(blocks, alloc, place, entry, steps)?;
    Ok(None)
}

/// What takes a put back: its key, and the entry that it replaced.
#[derive(Drop)]
pub(crate) struct Undo {
    pub(crate) key: InternalKey,
    pub(crate) replaced: Option<InternalValue>,
}

/// Takes a put back.
fn take_back(blocks: &mut VecDeque<Block>, undo: Undo)
    requires sound { AreBlocks blocks.old.items }
    requires made { (before : List InternalValue) × Undoes undo before (joined blocks.old.items) }
    ensures same { (before : List InternalValue) → Undoes undo before (joined blocks.old.items) → joined blocks.new.items ≡ before }
    ensures sound { AreBlocks blocks.new.items }
{
    entries_are_ordered();
    let Undo { key, replaced } = undo;
    let number = key.seqno as u128 + 1;
    let place = find(blocks, key.user_key.as_slice(), number, &mut Steps::new());
    match replaced {
        Some(entry) => drop(replace_at(blocks, place, entry)),
        None => remove_at(blocks, place),
    }
}

/// Takes puts back, the last one first.
pub(crate) fn take_all_back(blocks: &mut VecDeque<Block>, mut log: Vec<Undo>)
    requires sound { AreBlocks blocks.old.items }
    requires made { (before : List InternalValue) × AreUndone log.items before (joined blocks.old.items) }
    ensures same { (before : List InternalValue) → AreUndone log.items before (joined blocks.old.items) → joined blocks.new.items ≡ before }
    ensures sound { AreBlocks blocks.new.items }
{
    while let Some(undo) = log.pop() {
        take_back(blocks, undo);
    }
}
