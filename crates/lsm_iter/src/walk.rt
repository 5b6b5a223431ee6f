// What is left of entries of a memtable that are lent, which are compared by their heads.
ghost use Rattle.std.specs.Prelude.{◌≡◌, ◌++◌, ◌&&◌, ◌||◌, not, List, filter, option_copied};
ghost use Rattle.lsm_below.specs.Entries.{Entry, entry_cmp};
ghost use Rattle.lsm_below.specs.Sorted.{Rises};
ghost use Rattle.lsm_iter.specs.Reads.{at};
ghost use Rattle.lsm_iter.specs.Shown.{by_key};
ghost use Rattle.lsm_iter.specs.Left.{tops, end_item, Takes};
ghost use Rattle.lsm_iter.specs.Cursors.{repeats, firsts_after};
ghost use Rattle.lsm_iter.specs.Trims.{Trims, counts, hides};
ghost use Rattle.lsm_iter.specs.declared.tree_iter.End.TheVariants.{Front, Back};

use crate::End;
use lsm_below::{Headed, InternalValue, SeqNo};
use lsm_memtable::Iter;
use std::marker::Model;

/// Whether an entry is left after one that was passed: it counts, and has another key.
#[inline(always)]
fn is_left(passed: Option<&Headed<'_>>, next: &Headed<'_>, below: SeqNo) -> bool
    ensures { result ≡ (counts below next.now && not (repeats (option_copied passed.entry) next.now)) }
{
    if next.entry().key.seqno >= below {
        return false;
    }
    match passed {
        Some(passed) => !passed.has_same_key(next),
        None => true,
    }
}

/// Passes what doesn't count at the front, and what has the key of an entry that was passed.
#[inline(never)]
fn pass_front(rest: &mut Iter<'_>, passed: Option<&Headed<'_>>, below: SeqNo)
    ensures same { tops (at below rest.new) ≡ firsts_after (option_copied passed.entry) (filter (counts below) rest.old) }
    ensures ends { end_item Front (tops (at below rest.new)) ≡ end_item Front rest.new }
    ensures passed { (front : List Entry) × (rest.old ≡ front ++ rest.new) }
{
    loop {
        let Some(next) = rest.first_headed() else {
            return;
        };
        if is_left(passed, &next, below) {
            return;
        }
        rest.drop_first();
    }
}

/// `pass_front`, which mostly has nothing to pass.
#[inline(always)]
fn settle_front(rest: &mut Iter<'_>, passed: Option<&Headed<'_>>, below: SeqNo)
    ensures same { tops (at below rest.new) ≡ firsts_after (option_copied passed.entry) (filter (counts below) rest.old) }
    ensures ends { end_item Front (tops (at below rest.new)) ≡ end_item Front rest.new }
    ensures passed { (front : List Entry) × (rest.old ≡ front ++ rest.new) }
{
    if let Some(next) = rest.first_headed() {
        if is_left(passed, &next, below) {
            return;
        }
    }
    pass_front(rest, passed, below);
}

/// Whether the last entry isn't left: it doesn't count, or the one before it is a newer one of its key that does.
#[inline(always)]
fn is_hidden(before: Option<Headed<'_>>, last: &Headed<'_>, below: SeqNo) -> bool
    ensures { result ≡ (not (counts below last.now) || hides below before.entry last.now) }
{
    if last.entry().key.seqno >= below {
        return true;
    }
    match before {
        Some(before) => before.entry().key.seqno < below && before.has_same_key(last),
        None => false,
    }
}

/// Passes what isn't left at the back: up to the newest entry that counts, of the last key that has one.
#[inline(never)]
fn pass_back(rest: &mut Iter<'_>, below: SeqNo)
    requires { Rises entry_cmp rest.old }
    ensures trims { Trims Back below rest.old rest.new }
    ensures passed { (back : List Entry) × (rest.old ≡ rest.new ++ back) }
{
    loop {
        let Some(last) = rest.last_headed() else {
            return;
        };
        let mut front = rest.copy();
        front.drop_last();
        if !is_hidden(front.last_headed(), &last, below) {
            return;
        }
        rest.drop_last();
    }
}

/// The entry without its head.
#[inline(always)]
fn entry_of(headed: Option<Headed<'_>>) -> Option<&InternalValue>
    ensures { option_copied result ≡ headed.entry }
{
    let headed = headed?;
    Some(headed.entry())
}

/// Entries in order, of which the newest of each key that counts are left. At both ends stand such entries, so an
/// end is seen at once.
#[derive(Drop)]
pub(crate) struct Walk<'a> {
    rest: Iter<'a>,
    below: SeqNo,
}

impl<'a> Model for Walk<'a> {
    ghost use Rattle.std.specs.Prelude.{List};
    ghost use Rattle.lsm_below.specs.Entries.{Entry};
    ghost use Rattle.lsm_iter.specs.Reads.{at};
    ghost use Rattle.lsm_iter.specs.Left.{tops};
    ghost use Rattle.lsm_iter.specs.Trims.{RisesTrimmed};

    ghost Value = { List Entry };

    ghost view = { λ w. tops (at w.below w.rest) };

    ghost invariant = { λ w. RisesTrimmed w.below w.rest };
}

impl<'a> Walk<'a> {
    /// Of each key the newest entry below a sequence number.
    pub(crate) fn new(entries: Iter<'a>, below: SeqNo) -> Walk<'a>
        requires { Rises entry_cmp entries }
        ensures { result ≡ tops (at below entries.entry) }
    {
        let mut rest = entries;
        pass_front(&mut rest, None, below);
        pass_back(&mut rest, below);
        Walk { rest, below }
    }

    /// The entry at this end, if there is one.
    #[inline(always)]
    pub(crate) fn peek(&self, end: End) -> Option<&'a InternalValue>
        ensures { option_copied result ≡ end_item end self.now }
    {
        match end {
            End::Front => entry_of(self.rest.first_headed()),
            End::Back => entry_of(self.rest.last_headed()),
        }
    }

    /// What is left rises by its keys.
    pub(crate) fn facts(&self)
        ensures { Rises by_key self.now }
    {
        let _ = &self.rest;
    }

    /// Takes the first entry off: leaves it out, those of its key, and what doesn't count after it.
    #[inline(always)]
    fn skip_front(&mut self)
        ensures { Takes Front self.old (end_item Front self.old) self.new }
    {
        let Some(first) = self.rest.first_headed() else {
            return;
        };
        self.rest.drop_first();
        settle_front(&mut self.rest, Some(&first), self.below);
    }

    /// Takes the last entry off: leaves it out, and what isn't left before it.
    fn skip_back(&mut self)
        ensures { Takes Back self.old (end_item Back self.old) self.new }
    {
        let Some(_last) = self.rest.last_headed() else {
            return;
        };
        self.rest.drop_last();
        pass_back(&mut self.rest, self.below);
    }

    /// Takes the entry at this end off.
    #[inline(always)]
    pub(crate) fn skip(&mut self, end: End)
        ensures { Takes end self.old (end_item end self.old) self.new }
    {
        match end {
            End::Front => self.skip_front(),
            End::Back => self.skip_back(),
        }
    }

    /// The first entry, which is taken off.
    #[inline(always)]
    pub(crate) fn take_front(&mut self) -> Option<&'a InternalValue>
        ensures is { option_copied result ≡ end_item Front self.old }
        ensures takes { Takes Front self.old (end_item Front self.old) self.new }
    {
        let entry = self.peek(End::Front);
        self.skip(End::Front);
        entry
    }
}
