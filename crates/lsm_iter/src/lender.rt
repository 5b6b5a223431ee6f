// What is left of a source that is lent, from both ends.
ghost use Rattle.std.specs.Prelude.{◌≡◌, ◌≤◌, filter, option_copied, option_to_list};
ghost use Rattle.lsm_below.specs.Entries.{is_value};
ghost use Rattle.lsm_below.specs.Sorted.{Rises};
ghost use Rattle.lsm_iter.specs.Shown.{by_key};
ghost use Rattle.lsm_iter.specs.Left.{end_item, Takes, TakesValue};
ghost use Rattle.lsm_iter.specs.Lenders.{left_in};
ghost use Rattle.lsm_iter.specs.declared.tree_iter.End.TheVariants.{Front};

use crate::End;
use crate::cut::Cut;
use crate::parts::Parts;
use crate::sources::Reader;
use crate::walk::Walk;
use lsm_below::{InternalValue, Run, SeqNo, UserKey};
use lsm_memtable::Span;
use lsm_tables::Table;
use std::alloc::{AllocError, Global};
use std::marker::Model;
use std::ops::Bound;

/// Where a lender's entries stand: in a memtable, or in tables of a run.
#[derive(Drop)]
pub(crate) enum Source<'a> {
    Memtable(Walk<'a>),
    Tables(Parts<Cut<'a>>),
}

/// What is left of a source: of each key the newest entry that counts, by rising key, from both ends. It owns none.
#[derive(Drop)]
pub(crate) struct Lender<'a> {
    source: Source<'a>,
}

impl<'a> Model for Lender<'a> {
    ghost use Rattle.lsm_below.specs.Sorted.{Rises};
    ghost use Rattle.lsm_iter.specs.Shown.{by_key};
    ghost use Rattle.lsm_iter.specs.Left.{SeenCursor};
    ghost use Rattle.lsm_iter.specs.Lenders.{left_in};

    ghost Value = { SeenCursor };

    ghost view = { λ l. record { left = left_in l.source; held = 0 } };

    ghost invariant = { λ l. Rises by_key (left_in l.source) };
}

/// The entry at an end of a source.
#[inline(always)]
fn peek_in<'a>(end: End, source: &Source<'a>) -> Option<&'a InternalValue>
    ensures { option_copied result ≡ end_item end (left_in source.now) }
{
    match source {
        Source::Memtable(entries) => entries.peek(end),
        Source::Tables(tables) => tables.peek(end),
    }
}

/// Leaves out the entry at an end of a source.
#[inline(always)]
fn skip_in(end: End, source: &mut Source<'_>)
    ensures { Takes end (left_in source.old) (end_item end (left_in source.old)) (left_in source.new) }
{
    match source {
        Source::Memtable(entries) => entries.skip(end),
        Source::Tables(tables) => tables.skip(end),
    }
}

/// The first entry of a source, which is taken off.
#[inline(always)]
fn take_front_in<'a>(source: &mut Source<'a>) -> Option<&'a InternalValue>
    ensures is { option_copied result ≡ end_item Front (left_in source.old) }
    ensures takes { Takes Front (left_in source.old) (end_item Front (left_in source.old)) (left_in source.new) }
{
    match source {
        Source::Memtable(entries) => entries.take_front(),
        Source::Tables(tables) => tables.take_front(),
    }
}

/// The entry, if it is a value.
#[inline(always)]
fn value_of(entry: Option<&InternalValue>) -> Option<&InternalValue>
    ensures { option_to_list (option_copied result) ≡ filter is_value (option_to_list (option_copied entry.entry)) }
{
    let entry = entry?;
    if entry.is_tombstone() {
        None
    } else {
        Some(entry)
    }
}

impl<'a> Reader<'a> for Lender<'a> {
    ghost use Rattle.std.specs.Prelude.{false};

    ghost seen = { λ l. l };

    ghost copies = { false };

    fn of_span(_alloc: Global, span: &Span<'a>, below: SeqNo) -> Result<Lender<'a>, AllocError> {
        span.facts();
        span.keys_hold_bytes();
        let entries = Walk::new(span.iter(), below);
        entries.facts();
        Ok(Lender {
            source: Source::Memtable(entries),
        })
    }

    fn of_run(
        alloc: Global,
        run: &'a Run<Table>,
        bounds: &(Bound<UserKey>, Bound<UserKey>),
        below: SeqNo,
    ) -> Result<Lender<'a>, AllocError> {
        let tables = Parts::<Cut<'a>>::new(alloc, run, bounds, below)?;
        tables.facts();
        Ok(Lender {
            source: Source::Tables(tables),
        })
    }

    #[inline(always)]
    fn peek(&self, end: End) -> Option<&InternalValue> {
        peek_in(end, &self.source)
    }

    #[inline(always)]
    fn skip(&mut self, end: End) {
        skip_in(end, &mut self.source);
    }
}

impl<'a> Lender<'a> {
    /// Takes the entry at this end, if it is a value, and leaves it out if it isn't.
    #[inline(always)]
    pub(crate) fn take(&mut self, end: End) -> Option<&'a InternalValue>
        ensures rises { Rises by_key self.old.left }
        ensures takes { TakesValue end self.old.left (option_copied result) self.new.left }
        ensures held { self.new.held ≤ self.old.held }
    {
        let value = value_of(peek_in(end, &self.source));
        skip_in(end, &mut self.source);
        value
    }

    /// The first entry, which is taken off.
    #[inline(always)]
    pub(crate) fn take_front(&mut self) -> Option<&'a InternalValue>
        ensures rises { Rises by_key self.old.left }
        ensures is { option_copied result ≡ end_item Front self.old.left }
        ensures takes { Takes Front self.old.left (end_item Front self.old.left) self.new.left }
        ensures held { self.new.held ≤ self.old.held }
    {
        take_front_in(&mut self.source)
    }
}
