// A cursor: what is left of a source, one entry of each key, from both ends.
ghost use Rattle.std.specs.Prelude.{◌≡◌, ◌≤◌, true, Some, option_copied, option_to_list, filter, IfOk, OnErr};
ghost use Rattle.std.specs.List.{All};
ghost use Rattle.lsm_below.specs.Entries.{Entry, HasBytes, entry_cmp, is_value};
ghost use Rattle.lsm_below.specs.Sorted.{Rises};
ghost use Rattle.lsm_below.specs.Sums.{capped};
ghost use Rattle.lsm_iter.specs.Shown.{by_key};
ghost use Rattle.lsm_iter.specs.Reads.{at};
ghost use Rattle.lsm_iter.specs.Left.{tops, end_item, Takes, TakesValue};
ghost use Rattle.lsm_iter.specs.Cursors.{left_in, owned_in};

use crate::End;
use crate::copies::Copies;
use crate::parts::Parts;
use crate::prefix::key_has_bytes;
use crate::sources::Reader;
use crate::trim::Trim;
use crate::walk::Walk;
use lsm_below::{InternalValue, Run, SeqNo, UserKey, entries_are_ordered, merges_by_key};
use lsm_memtable::{Iter, Span};
use lsm_tables::Table;
use std::alloc::{AllocError, Global};
use std::marker::Model;
use std::ops::Bound;

/// Where a cursor's entries stand: copies of those of a memtable, or in tables that are shared.
#[derive(Drop)]
pub(crate) enum Held {
    Copied(Copies),
    Shared(Parts<Trim>),
}

/// What is left of a source: of each key the newest entry that counts, by rising key, from both ends.
#[derive(Drop)]
pub(crate) struct Cursor {
    held: Held,
}

impl Model for Cursor {
    ghost use Rattle.lsm_below.specs.Sorted.{Rises};
    ghost use Rattle.lsm_iter.specs.Shown.{by_key};
    ghost use Rattle.lsm_iter.specs.Left.{SeenCursor};
    ghost use Rattle.lsm_iter.specs.Cursors.{left_in, owned_in};

    ghost Value = { SeenCursor };

    ghost view = { λ c. record { left = left_in c.held; held = owned_in c.held } };

    ghost invariant = { λ c. Rises by_key (left_in c.held) };
}

/// Whether an entry is a value: a tombstone shows nothing.
pub(crate) fn is_a_value(entry: &InternalValue) -> bool
    ensures { result ≡ is_value entry.now }
{
    !entry.is_tombstone()
}

/// The entry, if it is a value.
fn value_of(entry: Option<InternalValue>) -> Option<InternalValue>
    ensures { option_to_list result ≡ filter is_value (option_to_list entry) }
{
    let entry = entry?;
    if is_a_value(&entry) {
        Some(entry)
    } else {
        None
    }
}

/// Copies of the newest entry of each key that counts, which share the bytes. Refused only for want of memory.
fn copy_tops(alloc: Global, entries: Iter<'_>, below: SeqNo) -> Result<Copies, AllocError>
    requires { Rises entry_cmp entries }
    ensures is { IfOk result (λ list. list ≡ tops (at below entries.entry)) }
    ensures bytes { IfOk result (All HasBytes) }
{
    let mut list = Copies::new(alloc);
    let mut walk = Walk::new(entries, below);
    while let Some(entry) = walk.take_front() {
        key_has_bytes(&entry.key.user_key);
        list.push(alloc, entry.copy()?)?;
    }
    Ok(list)
}

/// The entry at an end of a cursor.
fn peek_in(end: End, held: &Held) -> Option<&InternalValue>
    ensures { option_copied result ≡ end_item end (left_in held.now) }
{
    match held {
        Held::Copied(list) => list.peek(end),
        Held::Shared(tables) => tables.peek(end),
    }
}

/// Leaves out the entry at an end of a cursor.
fn skip_in(end: End, held: &mut Held)
    ensures takes { Takes end (left_in held.old) (end_item end (left_in held.old)) (left_in held.new) }
    ensures owned { owned_in held.new ≤ owned_in held.old }
{
    match held {
        Held::Copied(list) => list.skip(end),
        Held::Shared(tables) => tables.skip(end),
    }
}

/// A copy of the entry, if it is a value. Refused only for want of memory, and only where it is a value.
fn copy_of_value(entry: Option<&InternalValue>) -> Result<Option<InternalValue>, AllocError>
    ensures is { IfOk result (λ v. option_to_list v ≡ filter is_value (option_to_list (option_copied entry.entry))) }
    ensures err { OnErr result ((e : Entry) × (option_copied entry.entry ≡ Some e) × (is_value e ≡ true)) }
{
    match entry {
        Some(entry) if is_a_value(entry) => Ok(Some(entry.copy()?)),
        _ => Ok(None),
    }
}

/// Takes the entry at an end of a cursor, if it is a value.
fn take_in(end: End, held: &mut Held) -> Result<Option<InternalValue>, AllocError>
    ensures takes { IfOk result (λ v. TakesValue end (left_in held.old) v (left_in held.new)) }
    ensures rises { Rises by_key (left_in held.old) → Rises by_key (left_in held.new) }
    ensures owned { owned_in held.new ≤ owned_in held.old }
    ensures err { OnErr result ((e : Entry) × (end_item end (left_in held.old) ≡ Some e) × (is_value e ≡ true)) }
{
    if let Held::Copied(list) = held {
        return Ok(value_of(list.take(end)));
    }
    let value = copy_of_value(peek_in(end, held))?;
    skip_in(end, held);
    Ok(value)
}

impl<'a> Reader<'a> for Cursor {
    ghost use Rattle.std.specs.Prelude.{true};

    ghost seen = { λ c. c };

    ghost copies = { true };

    fn of_span(alloc: Global, span: &Span<'a>, below: SeqNo) -> Result<Cursor, AllocError> {
        entries_are_ordered();
        merges_by_key();
        span.facts();
        let list = copy_tops(alloc, span.iter(), below)?;
        Ok(Cursor {
            held: Held::Copied(list),
        })
    }

    fn of_run(
        alloc: Global,
        run: &'a Run<Table>,
        bounds: &(Bound<UserKey>, Bound<UserKey>),
        below: SeqNo,
    ) -> Result<Cursor, AllocError> {
        let tables = Parts::<Trim>::new(alloc, run, bounds, below)?;
        tables.facts();
        Ok(Cursor {
            held: Held::Shared(tables),
        })
    }

    fn peek(&self, end: End) -> Option<&InternalValue> {
        peek_in(end, &self.held)
    }

    fn skip(&mut self, end: End) {
        skip_in(end, &mut self.held);
    }
}

impl Cursor {
    /// What every cursor meets: its keys rise.
    pub(crate) fn facts(&self)
        ensures { Rises by_key self.now.left }
    {
        let _ = &self.held;
    }

    /// Takes the entry at this end, if it is a value, and leaves it out if it isn't. Refused only for want of
    /// memory, where it is a value.
    pub(crate) fn take(&mut self, end: End) -> Result<Option<InternalValue>, AllocError>
        ensures rises { Rises by_key self.old.left }
        ensures takes { IfOk result (λ v. TakesValue end self.old.left v self.new.left) }
        ensures held { self.new.held ≤ self.old.held }
        ensures err { OnErr result ((e : Entry) × (end_item end self.old.left ≡ Some e) × (is_value e ≡ true)) }
    {
        take_in(end, &mut self.held)
    }

    /// How many entries the cursor owns.
    pub(crate) fn held(&self) -> usize
        ensures { result ≡ capped self.now.held }
    {
        match &self.held {
            Held::Copied(list) => list.len(),
            Held::Shared(_) => 0,
        }
    }
}
