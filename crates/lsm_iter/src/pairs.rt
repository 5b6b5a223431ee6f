// What a snapshot shows, lent by the tree, from both ends.
ghost use Rattle.std.specs.Prelude.{◌≡◌, List, length, option_copied, IfOk, IfErr};
ghost use Rattle.std.specs.Iterator.{at_most};
ghost use Rattle.lsm_below.specs.declared.error.Error.{Error};
ghost use Rattle.std.specs.List.{All};
ghost use Rattle.lsm_below.specs.Entries.{Entry, HasBytes};
ghost use Rattle.lsm_iter.specs.Shown.{Shows, ShowsPrefix};
ghost use Rattle.lsm_iter.specs.Left.{Takes};
ghost use Rattle.lsm_iter.specs.declared.tree_iter.End.{End};
ghost use Rattle.lsm_iter.specs.Reads.{counted_at};
ghost use Rattle.lsm_iter.specs.Lenders.{LendsPair};
ghost use Rattle.lsm_iter.specs.declared.tree_iter.End.TheVariants.{Front, Back};

use crate::lender::Lender;
use crate::lending::{lend_first, lend_shown};
use crate::prefix::prefix_to_range;
use crate::{End, Error, IterState};
use lsm_below::{InternalValue, SeqNo, UserKey, UserValue, entries_are_ordered, merges_by_key};
use lsm_model::maps_are_read;
use std::alloc::Global;
use std::marker::Model;
use std::ops::Bound;

/// The keys and values that a snapshot shows in the bounds, by rising key, from both ends, lent by the tree. It owns no
/// entry and counts no owner, and the tree doesn't change while it is there.
///
/// Making it costs a search in each memtable and in each table in the bounds, and memory for the list of these. A step
/// needs no memory: it compares the keys at one end of all sources once, and passes what the snapshot doesn't show.
///
/// # Examples
///
/// ```text
/// let mut pairs = tree.pairs(&bounds, snapshot, None)?;
/// let least = pairs.next();
/// let greatest = pairs.next_back();
/// while let Some((key, value)) = pairs.next() {
///     total += key.len() + value.len();
/// }
/// ```
#[derive(Drop)]
pub struct Pairs<'a> {
    lenders: Vec<Lender<'a>>,
}

impl<'a> Model for Pairs<'a> {
    ghost use Rattle.std.specs.Prelude.{List};
    ghost use Rattle.lsm_below.specs.Entries.{Entry};
    ghost use Rattle.lsm_iter.specs.Left.{left_of, shown_list};

    ghost Value = { List Entry };

    ghost view = { λ p. shown_list (left_of p.lenders.items) };
}

/// The pair of an entry.
#[inline(always)]
fn pair_of(entry: Option<&InternalValue>) -> Option<(&UserKey, &UserValue)>
    ensures { (end : End) (s t : List Entry) → Takes end s (option_copied entry.entry) t → LendsPair end s result t }
{
    let entry = entry?;
    Some((&entry.key.user_key, &entry.value))
}

impl<'a> Pairs<'a> {
    /// What a snapshot shows within bounds: of each key the entry with the greatest sequence number that counts, unless
    /// that is a tombstone. Bounds that leave no room between them show nothing. Refused only for want of memory.
    pub fn create_range(
        alloc: Global,
        state: &IterState<'a>,
        bounds: &(Bound<UserKey>, Bound<UserKey>),
        snapshot: SeqNo,
    ) -> Result<Pairs<'a>, Error>
        ensures shows { IfOk result (λ pairs. Shows bounds.now.0 bounds.now.1 (counted_at snapshot state.now) pairs) }
        ensures bytes { IfOk result (All HasBytes) }
        ensures memory { IfErr result (λ e. e ≡ Error.OutOfMemory) }
    {
        entries_are_ordered();
        merges_by_key();
        maps_are_read();
        Ok(Pairs {
            lenders: state.readers(alloc, bounds, snapshot)?,
        })
    }

    /// What a snapshot shows of the keys that begin so, as `create_range`. Refused only for want of memory.
    pub fn create_prefix(
        alloc: Global,
        state: &IterState<'a>,
        prefix: &[u8],
        snapshot: SeqNo,
    ) -> Result<Pairs<'a>, Error>
        ensures shows { IfOk result (λ pairs. ShowsPrefix prefix.now (counted_at snapshot state.now) pairs) }
        ensures memory { IfErr result (λ e. e ≡ Error.OutOfMemory) }
    {
        let bounds = prefix_to_range(alloc, prefix)?;
        let pairs = Pairs::create_range(alloc, state, &bounds, snapshot)?;
        Ok(pairs)
    }

    /// Takes the first entry of what is left.
    #[inline(always)]
    pub(crate) fn take_front(&mut self) -> Option<&'a InternalValue>
        ensures { Takes Front self.old (option_copied result) self.new }
    {
        lend_first(&mut self.lenders)
    }

    /// Takes the entry at an end of what is left.
    pub(crate) fn take_end(&mut self, end: End) -> Option<&'a InternalValue>
        ensures { Takes end self.old (option_copied result) self.new }
    {
        lend_shown(end, &mut self.lenders)
    }

    /// Lends the first pair of what is left.
    #[inline(always)]
    fn lend(&mut self) -> Option<(&'a UserKey, &'a UserValue)>
        ensures { LendsPair Front self.old result self.new }
    {
        pair_of(self.take_front())
    }

    /// Lends the last pair of what is left.
    fn lend_back(&mut self) -> Option<(&'a UserKey, &'a UserValue)>
        ensures { LendsPair Back self.old result self.new }
    {
        pair_of(self.take_end(End::Back))
    }
}

impl<'a> Iterator for Pairs<'a> {
    type Item = (&'a UserKey, &'a UserValue);

    ghost next_gives = { λ s r t. LendsPair Front s r t };

    ghost remaining = { λ s. at_most (length s) };

    #[inline(always)]
    fn next(&mut self) -> Option<(&'a UserKey, &'a UserValue)> {
        self.lend()
    }
}

impl<'a> DoubleEndedIterator for Pairs<'a> {
    ghost next_back_gives = { λ s r t. LendsPair Back s r t };

    #[inline(always)]
    fn next_back(&mut self) -> Option<(&'a UserKey, &'a UserValue)> {
        self.lend_back()
    }
}
