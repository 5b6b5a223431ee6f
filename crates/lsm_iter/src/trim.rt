// The entries of a table between two places, at both of which one stands that counts.
ghost use Rattle.std.specs.Prelude.{◌≡◌, ◌-◌, ◌+◌, ◌<◌, ◌≤◌, true, ◌&&◌, length, take, drop, filter, slice_index_or, slice_range, option_copied, IfOk};
ghost use Rattle.std.specs.List.{All};
ghost use Rattle.lsm_below.specs.Entries.{Entry, entry_cmp, HasBytes};
ghost use Rattle.lsm_below.specs.Slots.{same_key};
ghost use Rattle.lsm_below.specs.Sorted.{Rises};
ghost use Rattle.lsm_iter.specs.Reads.{at};
ghost use Rattle.lsm_iter.specs.Shown.{by_key};
ghost use Rattle.lsm_iter.specs.Left.{tops, end_item, copied, Takes};
ghost use Rattle.lsm_iter.specs.Trims.{IsTrimmed, Trims, IsGroup, counts};
ghost use Rattle.lsm_iter.specs.declared.tree_iter.End.TheVariants.{Front, Back};

use crate::End;
use crate::parts::{OfTable, Part, Parts};
use lsm_below::{InternalValue, SeqNo, UserKey, entries_are_ordered, has_same_key};
use lsm_tables::Table;
use std::alloc::AllocError;
use std::marker::Model;
use std::ops::Bound;

/// After how many entries of one key a binary search for its end pays.
const NEAR: usize = 8;

/// How many entries have the key of the first one, by binary search.
#[inline(never)]
fn far_group_len(entries: &[InternalValue]) -> usize
    requires some { 0 < length entries.now }
    requires rises { Rises entry_cmp entries.now }
    ensures { IsGroup entries.now result }
{
    entries_are_ordered();
    let first = &entries[0];
    entries.partition_point(|entry| has_same_key(first, entry))
}

/// How many entries have the key of the first one: they are the first ones. Few are counted one by one.
#[inline(always)]
fn group_len(entries: &[InternalValue]) -> usize
    requires some { 0 < length entries.now }
    requires rises { Rises entry_cmp entries.now }
    ensures { IsGroup entries.now result }
{
    entries_are_ordered();
    let mut len = 1;
    while len < entries.len() && has_same_key(&entries[0], &entries[len]) {
        if len == NEAR {
            return far_group_len(entries);
        }
        len += 1;
    }
    len
}

/// How many entries come before the first one that counts.
#[inline(always)]
fn hidden_len(entries: &[InternalValue], below: SeqNo) -> usize
    ensures inside { result ≤ length entries.now }
    ensures trims { Trims Front below entries.now (drop result entries.now) }
{
    for (at, entry) in entries.iter().enumerate() {
        if entry.key.seqno < below {
            return at;
        }
    }
    entries.len()
}

/// How many entries there are up to the last one that counts.
fn counted_len(entries: &[InternalValue], below: SeqNo) -> usize
    ensures inside { result ≤ length entries.now }
    ensures same { filter (counts below) (take result entries.now) ≡ filter (counts below) entries.now }
    ensures last { 0 < result → (d : Entry) → counts below (slice_index_or entries.now (result - 1) d) ≡ true }
{
    let mut len = entries.len();
    while len > 0 {
        if entries[len - 1].key.seqno < below {
            return len;
        }
        len -= 1;
    }
    0
}

/// Whether an entry counts, and has the key of another one.
fn counts_with(entry: &InternalValue, other: &InternalValue, below: SeqNo) -> bool
    ensures { result ≡ (counts below entry.now && same_key entry.now other.now) }
{
    entry.key.seqno < below && has_same_key(entry, other)
}

/// Of entries of which the last one counts, the place of the newest one of its key that does.
fn newest_place(entries: &[InternalValue], below: SeqNo) -> usize
    requires some { 0 < length entries.now }
    requires rises { Rises entry_cmp entries.now }
    requires last { (d : Entry) → counts below (slice_index_or entries.now (length entries.now - 1) d) ≡ true }
    ensures inside { result < length entries.now }
    ensures trims { Trims Back below entries.now (take (result + 1) entries.now) }
{
    entries_are_ordered();
    let mut place = entries.len() - 1;
    while place > 0 && counts_with(&entries[place - 1], &entries[place], below) {
        if entries.len() - place == NEAR {
            let last = &entries[entries.len() - 1];
            return entries.partition_point(|entry| !counts_with(entry, last, below));
        }
        place -= 1;
    }
    place
}

/// How many entries there are up to the newest one, that counts, of the last key.
fn left_len(entries: &[InternalValue], below: SeqNo) -> usize
    requires { Rises entry_cmp entries.now }
    ensures inside { result ≤ length entries.now }
    ensures trims { Trims Back below entries.now (take result entries.now) }
{
    let len = counted_len(entries, below);
    if len == 0 {
        return 0;
    }
    newest_place(&entries[..len], below) + 1
}

/// The place after the first entry's key, and what doesn't count after it.
#[inline(always)]
pub(crate) fn past_front(entries: &[InternalValue], below: SeqNo) -> usize
    requires some { 0 < length entries.now }
    requires rises { Rises entry_cmp entries.now }
    requires trimmed { IsTrimmed below entries.now }
    ensures inside { result ≤ length entries.now }
    ensures takes { Takes Front (tops (at below entries.now)) (end_item Front (tops (at below entries.now))) (tops (at below (drop result entries.now))) }
    ensures trimmed { IsTrimmed below (drop result entries.now) }
{
    let group = group_len(entries);
    group + hidden_len(&entries[group..], below)
}

/// How many entries are left without the last one.
pub(crate) fn past_back(entries: &[InternalValue], below: SeqNo) -> usize
    requires some { 0 < length entries.now }
    requires rises { Rises entry_cmp entries.now }
    requires trimmed { IsTrimmed below entries.now }
    ensures inside { result ≤ length entries.now }
    ensures takes { Takes Back (tops (at below entries.now)) (end_item Back (tops (at below entries.now))) (tops (at below (take result entries.now))) }
    ensures trimmed { IsTrimmed below (take result entries.now) }
{
    left_len(&entries[..entries.len() - 1], below)
}

/// The places between which a table's entries are left: of those in bounds, from the first that counts to the newest
/// one, that counts, of the last key.
pub(crate) fn places_left(
    table: &Table,
    bounds: &(Bound<UserKey>, Bound<UserKey>),
    below: SeqNo,
) -> (usize, usize)
    ensures in_order { result.0 ≤ result.1 }
    ensures inside { result.1 ≤ length table.now.entries }
    ensures trimmed { IsTrimmed below (slice_range table.now.entries result.0 result.1) }
    ensures is { tops (at below (slice_range table.now.entries result.0 result.1)) ≡ copied bounds.now.0 bounds.now.1 (at below table.now.entries) }
    ensures bytes { All HasBytes (copied bounds.now.0 bounds.now.1 (at below table.now.entries)) }
{
    table.facts();
    let entries = table.entries();
    let (start, end) = table.places(&bounds.0, &bounds.1);
    let low = start + hidden_len(&entries[start..end], below);
    let high = low + left_len(&entries[low..end], below);
    (low, high)
}

/// The entries of a table between two places, of which the newest of each key that counts are left. At both
/// places stand such entries, so an end is seen at once. The table is shared.
#[derive(Drop)]
pub(crate) struct Trim {
    table: Table,
    low: usize,
    high: usize,
    below: SeqNo,
}

impl Model for Trim {
    ghost use Rattle.std.specs.Prelude.{List, ◌≤◌, length, slice_range};
    ghost use Rattle.lsm_below.specs.Entries.{Entry};
    ghost use Rattle.lsm_iter.specs.Reads.{at};
    ghost use Rattle.lsm_iter.specs.Left.{tops};
    ghost use Rattle.lsm_iter.specs.Trims.{IsTrimmed};

    ghost Value = { List Entry };

    ghost view = { λ t. tops (at t.below (slice_range t.table.entries t.low t.high)) };

    ghost invariant = { λ t. (t.low ≤ t.high) × (t.high ≤ length t.table.entries) × IsTrimmed t.below (slice_range t.table.entries t.low t.high) };
}

/// The entry at this end.
#[inline(always)]
pub(crate) fn end_entry(end: End, entries: &[InternalValue]) -> Option<&InternalValue>
    ensures { option_copied result ≡ end_item end entries.now }
{
    match end {
        End::Front => match entries.split_first() {
            None => None,
            Some((first, _)) => Some(first),
        },
        End::Back => match entries.split_last() {
            None => None,
            Some((last, _)) => Some(last),
        },
    }
}

impl Trim {
    /// Of each key in the bounds the newest entry below a sequence number. Refused only for want of memory.
    pub(crate) fn new(
        table: &Table,
        bounds: &(Bound<UserKey>, Bound<UserKey>),
        below: SeqNo,
    ) -> Result<Trim, AllocError>
        ensures is { IfOk result (λ t. t ≡ copied bounds.now.0 bounds.now.1 (at below table.now.entries)) }
        ensures bytes { IfOk result (All HasBytes) }
    {
        let (low, high) = places_left(table, bounds, below);
        let table = table.copy()?;
        Ok(Trim {
            table,
            low,
            high,
            below,
        })
    }

    /// The entry at this end, if there is one.
    pub(crate) fn peek(&self, end: End) -> Option<&InternalValue>
        ensures is { option_copied result ≡ end_item end self.now }
    {
        end_entry(end, &self.table.entries()[self.low..self.high])
    }

    /// What is left rises by its keys.
    pub(crate) fn facts(&self)
        ensures { Rises by_key self.now }
    {
        self.table.facts();
    }

    /// Takes the entry at this end off.
    pub(crate) fn skip(&mut self, end: End)
        ensures { Takes end self.old (end_item end self.old) self.new }
    {
        if self.low == self.high {
            return;
        }
        self.table.facts();
        let part = &self.table.entries()[self.low..self.high];
        match end {
            End::Front => self.low += past_front(part, self.below),
            End::Back => self.high = self.low + past_back(part, self.below),
        }
    }
}

impl Part for Trim {
    ghost left = { λ t. t };

    fn is_over(&self) -> bool {
        self.peek(End::Front).is_none()
    }

    fn skip_end(&mut self, end: End) {
        self.skip(end);
    }
}

impl<'a> OfTable<'a> for Trim {
    fn of_table(
        table: &'a Table,
        bounds: &(Bound<UserKey>, Bound<UserKey>),
        below: SeqNo,
    ) -> Result<Trim, AllocError> {
        Trim::new(table, bounds, below)
    }
}

impl Parts<Trim> {
    /// The entry at this end, if there is one.
    pub(crate) fn peek(&self, end: End) -> Option<&InternalValue>
        ensures { option_copied result ≡ end_item end self.now }
    {
        self.outermost(end)?.peek(end)
    }
}
