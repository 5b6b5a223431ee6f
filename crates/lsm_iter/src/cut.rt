// The entries of a table that is lent, between two places, at both of which one stands that counts.
ghost use Rattle.std.specs.Prelude.{◌≡◌, option_copied};
ghost use Rattle.std.specs.List.{All};
ghost use Rattle.lsm_below.specs.Entries.{HasBytes};
ghost use Rattle.lsm_below.specs.Sorted.{Rises};
ghost use Rattle.lsm_iter.specs.Reads.{at};
ghost use Rattle.lsm_iter.specs.Shown.{by_key};
ghost use Rattle.lsm_iter.specs.Left.{end_item, copied, Takes};
ghost use Rattle.lsm_iter.specs.declared.tree_iter.End.TheVariants.{Front};

use crate::End;
use crate::parts::{OfTable, Part, Parts};
use crate::trim::{end_entry, past_back, past_front, places_left};
use lsm_below::{InternalValue, SeqNo, UserKey};
use lsm_tables::Table;
use std::alloc::AllocError;
use std::marker::Model;
use std::ops::Bound;

/// The entries of a table between two places, of which the newest of each key that counts are left. At both
/// places stand such entries, so an end is seen at once. They are lent.
#[derive(Drop)]
pub(crate) struct Cut<'a> {
    rest: &'a [InternalValue],
    below: SeqNo,
}

impl<'a> Model for Cut<'a> {
    ghost use Rattle.std.specs.Prelude.{List};
    ghost use Rattle.lsm_below.specs.Entries.{Entry};
    ghost use Rattle.lsm_iter.specs.Reads.{at};
    ghost use Rattle.lsm_iter.specs.Left.{tops};
    ghost use Rattle.lsm_iter.specs.Trims.{RisesTrimmed};

    ghost Value = { List Entry };

    ghost view = { λ c. tops (at c.below c.rest.now) };

    ghost invariant = { λ c. RisesTrimmed c.below c.rest.now };
}

impl<'a> Cut<'a> {
    /// Of each key in the bounds the newest entry below a sequence number.
    pub(crate) fn new(
        table: &'a Table,
        bounds: &(Bound<UserKey>, Bound<UserKey>),
        below: SeqNo,
    ) -> Cut<'a>
        ensures is { result ≡ copied bounds.now.0 bounds.now.1 (at below table.now.entries) }
        ensures bytes { All HasBytes result }
    {
        table.facts();
        let (low, high) = places_left(table, bounds, below);
        Cut {
            rest: &table.entries()[low..high],
            below,
        }
    }

    /// The entry at this end, if there is one.
    #[inline(always)]
    pub(crate) fn peek(&self, end: End) -> Option<&'a InternalValue>
        ensures is { option_copied result ≡ end_item end self.now }
    {
        end_entry(end, self.rest)
    }

    /// What is left rises by its keys.
    pub(crate) fn facts(&self)
        ensures { Rises by_key self.now }
    {
        let _ = &self.rest;
    }

    /// Takes the entry at this end off.
    #[inline(always)]
    pub(crate) fn skip(&mut self, end: End)
        ensures { Takes end self.old (end_item end self.old) self.new }
    {
        if self.rest.is_empty() {
            return;
        }
        match end {
            End::Front => {
                let past = past_front(self.rest, self.below);
                self.rest = &self.rest[past..];
            }
            End::Back => {
                let len = past_back(self.rest, self.below);
                self.rest = &self.rest[..len];
            }
        }
    }
}

impl<'a> Part for Cut<'a> {
    ghost left = { λ c. c };

    #[inline(always)]
    fn is_over(&self) -> bool {
        self.peek(End::Front).is_none()
    }

    #[inline(always)]
    fn skip_end(&mut self, end: End) {
        self.skip(end);
    }
}

impl<'a> OfTable<'a> for Cut<'a> {
    fn of_table(
        table: &'a Table,
        bounds: &(Bound<UserKey>, Bound<UserKey>),
        below: SeqNo,
    ) -> Result<Cut<'a>, AllocError> {
        Ok(Cut::new(table, bounds, below))
    }
}

impl<'a> Parts<Cut<'a>> {
    /// The entry at this end, if there is one.
    #[inline(always)]
    pub(crate) fn peek(&self, end: End) -> Option<&'a InternalValue>
        ensures { option_copied result ≡ end_item end self.now }
    {
        self.outermost(end)?.peek(end)
    }

    /// The first entry, which is taken off.
    #[inline(always)]
    pub(crate) fn take_front(&mut self) -> Option<&'a InternalValue>
        ensures is { option_copied result ≡ end_item Front self.old }
        ensures takes { Takes Front self.old (end_item Front self.old) self.new }
    {
        let entry = self.peek(End::Front);
        self.skip(End::Front);
        entry
    }
}
