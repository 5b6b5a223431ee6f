// What is left of a run of tables: a part of each table, lent or shared, one after the other.
ghost use Rattle.std.specs.Prelude.{◌≡◌, ℕ, [], map, flat_map, Some, None, MatchOption, IfOk, OnOk, ◌++◌};
ghost use Rattle.std.specs.List.{All};
ghost use Rattle.lsm_below.specs.Entries.{HasBytes};
ghost use Rattle.lsm_below.specs.Runs.{IsRun};
ghost use Rattle.lsm_below.specs.Sorted.{Rises};
ghost use Rattle.lsm_tables.specs.Tables.{range_of};
ghost use Rattle.lsm_iter.specs.Reads.{at};
ghost use Rattle.lsm_iter.specs.Shown.{by_key};
ghost use Rattle.lsm_iter.specs.Left.{end_item, copied, Takes};
ghost use Rattle.lsm_iter.specs.Joined.{joined, AreFull};
ghost use Rattle.lsm_iter.specs.Sound.{IsSound};
ghost use Rattle.lsm_iter.specs.declared.tree_iter.End.TheVariants.{Front, Back};

use crate::End;
use lsm_below::{Run, SeqNo, UserKey};
use lsm_tables::Table;
use std::alloc::{AllocError, Global};
use std::collections::VecDeque;
use std::marker::Model;
use std::ops::Bound;

/// The tables of a run from the first to the last one that reach into the bounds: the others have nothing there.
pub(crate) fn touched<'a>(
    run: &'a Run<Table>,
    bounds: &(Bound<UserKey>, Bound<UserKey>),
) -> &'a [Table]
    requires { All IsSound run.now }
    ensures run { IsRun (λ t. range_of t.entries) result.now }
    ensures sound { All IsSound result.now }
    ensures same { (s : ℕ) → flat_map (λ t. copied bounds.now.0 bounds.now.1 (at s t.entries)) result.now ≡ flat_map (λ t. copied bounds.now.0 bounds.now.1 (at s t.entries)) run.now }
{
    run.facts();
    let tables = run.as_slice();
    match run.range_overlap_indexes(&bounds.0, &bounds.1) {
        None => &tables[..0],
        Some((first, last)) => &tables[first..last + 1],
    }
}

/// What is left of a table: of each key the newest entry that counts, by rising key, from both ends.
pub(crate) trait Part: Drop {
    ghost use Rattle.std.specs.Prelude.{List, IsTrue, ◌↔◌, ◌≡◌, []};
    ghost use Rattle.lsm_below.specs.Entries.{Entry};
    ghost use Rattle.lsm_iter.specs.Left.{end_item, Takes};

    ghost left: { Self → List Entry };

    /// Whether nothing is left.
    fn is_over(&self) -> bool
        ensures { IsTrue result ↔ (left self.now ≡ []) };

    /// Takes the entry at this end off.
    fn skip_end(&mut self, end: End)
        ensures { Takes end (left self.old) (end_item end (left self.old)) (left self.new) };
}

/// A part that a table gives.
pub(crate) trait OfTable<'a>: Part {
    ghost use Rattle.std.specs.Prelude.{◌≡◌, IfOk};
    ghost use Rattle.std.specs.List.{All};
    ghost use Rattle.lsm_below.specs.Entries.{HasBytes};
    ghost use Rattle.lsm_iter.specs.Reads.{at};
    ghost use Rattle.lsm_iter.specs.Left.{copied};

    /// Of each key in the bounds the newest entry below a sequence number. Refused only for want of memory.
    fn of_table(
        table: &'a Table,
        bounds: &(Bound<UserKey>, Bound<UserKey>),
        below: SeqNo,
    ) -> Result<Self, AllocError>
        ensures is { IfOk result (λ p. Self.left p ≡ copied bounds.now.0 bounds.now.1 (at below table.now.entries)) }
        ensures bytes { IfOk result (λ p. All HasBytes (Self.left p)) };
}

/// The tables of a run, as far as they are left, of which each has an entry.
#[derive(Drop)]
pub(crate) struct Parts<P: Part> {
    parts: VecDeque<P>,
}

impl<P: Part> Model for Parts<P> {
    ghost use Rattle.std.specs.Prelude.{List, map};
    ghost use Rattle.lsm_below.specs.Entries.{Entry};
    ghost use Rattle.lsm_below.specs.Sorted.{Rises};
    ghost use Rattle.lsm_iter.specs.Shown.{by_key};
    ghost use Rattle.lsm_iter.specs.Joined.{joined, AreFull};

    ghost Value = { List Entry };

    ghost view = { λ s. joined (map P.left s.parts.items) };

    ghost invariant = { λ s. Rises by_key (joined (map P.left s.parts.items)) × AreFull (map P.left s.parts.items) };
}

/// Takes the first entry off. A part that has nothing left goes.
#[inline(always)]
fn skip_front<P: Part>(parts: &mut VecDeque<P>)
    requires { AreFull (map P.left parts.old.items) }
    ensures takes { Takes Front (joined (map P.left parts.old.items)) (end_item Front (joined (map P.left parts.old.items))) (joined (map P.left parts.new.items)) }
    ensures full { AreFull (map P.left parts.new.items) }
{
    if parts.is_empty() {
        return;
    }
    parts[0].skip_end(End::Front);
    if parts[0].is_over() {
        parts.pop_front();
    }
}

/// Takes the last entry off. A part that has nothing left goes.
fn skip_back<P: Part>(parts: &mut VecDeque<P>)
    requires { AreFull (map P.left parts.old.items) }
    ensures takes { Takes Back (joined (map P.left parts.old.items)) (end_item Back (joined (map P.left parts.old.items))) (joined (map P.left parts.new.items)) }
    ensures full { AreFull (map P.left parts.new.items) }
{
    if parts.is_empty() {
        return;
    }
    let last = parts.len() - 1;
    parts[last].skip_end(End::Back);
    if parts[last].is_over() {
        parts.pop_back();
    }
}

/// Adds a part after the others, if it has an entry. Refused only for want of memory.
fn push_part<P: Part>(parts: &mut VecDeque<P>, part: P) -> Result<(), AllocError>
    requires { AreFull (map P.left parts.old.items) }
    ensures joined { OnOk result (joined (map P.left parts.new.items) ≡ joined (map P.left parts.old.items) ++ P.left part) }
    ensures full { AreFull (map P.left parts.new.items) }
{
    if !part.is_over() {
        parts.push_back(part)?;
    }
    Ok(())
}

impl<'a, P: OfTable<'a>> Parts<P> {
    /// Of each key in the bounds the newest entry below a sequence number, of all tables of a run. Refused only for
    /// want of memory.
    pub(crate) fn new(
        alloc: Global,
        run: &'a Run<Table>,
        bounds: &(Bound<UserKey>, Bound<UserKey>),
        below: SeqNo,
    ) -> Result<Parts<P>, AllocError>
        requires { All IsSound run.now }
        ensures is { IfOk result (λ s. s ≡ flat_map (λ t. copied bounds.now.0 bounds.now.1 (at below t.entries)) run.now) }
        ensures bytes { IfOk result (All HasBytes) }
    {
        let mut parts = VecDeque::new(alloc);
        for table in touched(run, bounds) {
            push_part(&mut parts, P::of_table(table, bounds, below)?)?;
        }
        Ok(Parts { parts })
    }
}

impl<P: Part> Parts<P> {
    /// What is left rises by its keys.
    pub(crate) fn facts(&self)
        ensures { Rises by_key self.now }
    {
        let _ = &self.parts;
    }

    /// The part at this end.
    #[inline(always)]
    pub(crate) fn outermost(&self, end: End) -> Option<&P>
        ensures { MatchOption result (self.now ≡ []) (λ p. end_item end (P.left p.now) ≡ end_item end self.now) }
    {
        match end {
            End::Front => self.parts.front(),
            End::Back => self.parts.back(),
        }
    }

    /// Takes the entry at this end off.
    #[inline(always)]
    pub(crate) fn skip(&mut self, end: End)
        ensures { Takes end self.old (end_item end self.old) self.new }
    {
        match end {
            End::Front => skip_front(&mut self.parts),
            End::Back => skip_back(&mut self.parts),
        }
    }
}
