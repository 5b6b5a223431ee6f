// An iterator over what a snapshot shows, from both ends.
ghost use Rattle.std.specs.Prelude.{◌≡◌, ◌≤◌, length, IfOk, IfErr, OnErr};
ghost use Rattle.std.specs.List.{All};
ghost use Rattle.std.specs.Iterator.{at_most};
ghost use Rattle.std.specs.declared.ops.Bound.{Bound};
ghost use Rattle.lsm_below.specs.Keys.{Bytes};
ghost use Rattle.lsm_below.specs.Entries.{HasBytes};
ghost use Rattle.lsm_below.specs.Sums.{capped};
ghost use Rattle.lsm_below.specs.declared.error.Error.{Error};
ghost use Rattle.lsm_iter.specs.Shown.{Shows, ShowsPrefix};
ghost use Rattle.lsm_iter.specs.Prefixes.{LetsInJust};
ghost use Rattle.lsm_iter.specs.Reads.{counted_at};
ghost use Rattle.lsm_iter.specs.Left.{copied_within};
ghost use Rattle.lsm_iter.specs.Ends.{TakesEntry, TakesPair, TakesEnds};
ghost use Rattle.lsm_iter.specs.declared.tree_iter.End.TheVariants.{Front, Back};

use crate::cursor::Cursor;
use crate::outermost::take_shown;
use crate::prefix::prefix_to_range;
use crate::{Error, Guard, IterState};
use lsm_below::{InternalValue, SeqNo, UserKey, entries_are_ordered, merges_by_key};
use lsm_model::maps_are_read;
use std::alloc::Global;
use std::marker::Model;
use std::ops::Bound;

/// An end of a list.
#[derive(Clone, Copy, Debug, PartialEq, Eq)]
pub enum End {
    Front,
    Back,
}

/// The keys and values that a snapshot shows in the bounds, by rising key, from both ends.
/// It owns what it gives, with the bytes shared, and stands as of its making.
///
/// It holds copies of what memtables and the index have in the bounds, and shares the tables: of a table nothing is
/// copied before its turn. A step compares the keys at one end of all sources once, and passes what it doesn't show. Only
/// the copy of a table's entry may be refused, for want of memory: such a step gives that error, and the iterator has
/// ended.
///
/// # Examples
///
/// ```text
/// let mut iter = tree.range(&bounds, snapshot, None)?;
/// let least = iter.next();
/// let greatest = iter.next_back();
/// ```
#[derive(Drop)]
pub struct TreeIter {
    cursors: Vec<Cursor>,
}

impl Model for TreeIter {
    ghost use Rattle.lsm_iter.specs.Left.{SeenIter, iter_of};

    ghost Value = { SeenIter };

    ghost view = { λ t. iter_of t.cursors.items };
}

impl TreeIter {
    /// What a snapshot shows within bounds: of each key the entry with the greatest sequence number that counts, unless
    /// that is a tombstone. Bounds that leave no room between them show nothing. Refused only for want of memory.
    pub fn create_range(
        alloc: Global,
        state: &IterState<'_>,
        bounds: &(Bound<UserKey>, Bound<UserKey>),
        snapshot: SeqNo,
    ) -> Result<TreeIter, Error>
        ensures shows { IfOk result (λ iter. Shows bounds.now.0 bounds.now.1 (counted_at snapshot state.now) iter.left) }
        ensures bytes { IfOk result (λ iter. All HasBytes iter.left) }
        ensures held { IfOk result (λ iter. iter.held ≡ copied_within bounds.now.0 bounds.now.1 snapshot state.now) }
        ensures memory { IfErr result (λ e. e ≡ Error.OutOfMemory) }
    {
        entries_are_ordered();
        merges_by_key();
        maps_are_read();
        Ok(TreeIter {
            cursors: state.readers(alloc, bounds, snapshot)?,
        })
    }

    /// What a snapshot shows of the keys that begin so, as `create_range`. Refused only for want of memory.
    pub fn create_prefix(
        alloc: Global,
        state: &IterState<'_>,
        prefix: &[u8],
        snapshot: SeqNo,
    ) -> Result<TreeIter, Error>
        ensures shows { IfOk result (λ iter. ShowsPrefix prefix.now (counted_at snapshot state.now) iter.left) }
        ensures held { IfOk result
            (λ iter. (low high : Bound Bytes) × LetsInJust prefix.now low high × (iter.held ≡ copied_within low high snapshot state.now)) }
        ensures memory { IfErr result (λ e. e ≡ Error.OutOfMemory) }
    {
        let bounds = prefix_to_range(alloc, prefix)?;
        let iter = TreeIter::create_range(alloc, state, &bounds, snapshot)?;
        Ok(iter)
    }

    /// How many entries the iterator owns: at its making the copies alone; a step adds none.
    pub fn held(&self) -> usize
        ensures { result ≡ capped self.now.held }
    {
        let mut held: usize = 0;
        for cursor in &self.cursors {
            held = held.saturating_add(cursor.held());
        }
        held
    }

    /// Takes the entry at an end of what is left.
    fn take(&mut self, end: End) -> Option<Result<InternalValue, Error>>
        ensures takes { TakesEntry end self.old.left result self.new.left }
        ensures held { self.new.held ≤ self.old.held }
    {
        match take_shown(end, &mut self.cursors) {
            Ok(None) => None,
            Ok(Some(entry)) => Some(Ok(entry)),
            Err(error) => {
                self.cursors.clear();
                Some(Err(error.into()))
            }
        }
    }

    /// Takes the pair at an end of what is left.
    fn take_pair(&mut self, end: End) -> Option<Guard>
        ensures takes { TakesPair end self.old.left result self.new.left }
        ensures held { self.new.held ≤ self.old.held }
    {
        match self.take(end)? {
            Ok(entry) => Some(Guard::of_entry(entry)),
            Err(error) => Some(Guard::new(Err(error))),
        }
    }

    /// The first entry of those left. Refused only for want of memory, and then it has ended.
    pub fn next_entry(&mut self) -> Option<Result<InternalValue, Error>>
        ensures takes { TakesEntry Front self.old.left result self.new.left }
        ensures held { self.new.held ≤ self.old.held }
    {
        self.take(End::Front)
    }

    /// The last entry of those left. Refused only for want of memory, and then it has ended.
    pub fn next_entry_back(&mut self) -> Option<Result<InternalValue, Error>>
        ensures takes { TakesEntry Back self.old.left result self.new.left }
        ensures held { self.new.held ≤ self.old.held }
    {
        self.take(End::Back)
    }
}

impl Iterator for TreeIter {
    type Item = Guard;

    ghost next_gives = { λ s r t. TakesPair Front s.left r t.left };

    ghost remaining = { λ s. at_most (length s.left) };

    fn next(&mut self) -> Option<Guard> {
        self.take_pair(End::Front)
    }
}

impl DoubleEndedIterator for TreeIter {
    ghost next_back_gives = { λ s r t. TakesPair Back s.left r t.left };

    fn next_back(&mut self) -> Option<Guard> {
        self.take_pair(End::Back)
    }
}

/// The pair at one end.
fn take_end(iter: &mut TreeIter, end: End) -> Option<Guard>
    ensures { TakesPair end iter.old.left result iter.new.left }
{
    match end {
        End::Front => iter.next(),
        End::Back => iter.next_back(),
    }
}

/// Takes a pair from an end at each turn. Refused only for want of memory, and then nothing is taken.
pub fn take_ends(
    alloc: Global,
    iter: &mut TreeIter,
    turns: &[End],
) -> Result<Vec<Option<Guard>>, Error>
    ensures ok { IfOk result (λ pairs. TakesEnds iter.old.left turns.now pairs.items iter.new.left) }
    ensures err { OnErr result (iter.new ≡ iter.old) }
    ensures memory { IfErr result (λ e. e ≡ Error.OutOfMemory) }
{
    let mut pairs = Vec::with_capacity(alloc, turns.len())?;
    for end in turns {
        let pair = take_end(iter, *end);
        let Ok(()) = pairs.push(pair) else {
            unreachable!()
        };
    }
    Ok(pairs)
}
