// Readers of the sources that an iterator reads.
ghost use Rattle.std.specs.Prelude.{◌≡◌, [], ◌∷◌, ◌++◌, ◌+◌, map, option_to_list, OnOk};
ghost use Rattle.std.specs.List.{All};
ghost use Rattle.lsm_below.specs.Optimizes.{tables_of as all_tables};
ghost use Rattle.lsm_versions.specs.Levels.{all_of};
ghost use Rattle.lsm_iter.specs.Reads.{at, index_of, tables_of};
ghost use Rattle.lsm_iter.specs.Left.{left_of, held_in};
ghost use Rattle.lsm_iter.specs.Puts.{PutsCursors, owned_of};
ghost use Rattle.lsm_iter.specs.Sound.{IsSound};

use crate::{End, Memtable, Overlay, Version};
use lsm_below::{InternalValue, Run, SeqNo, UserKey};
use lsm_memtable::Span;
use lsm_tables::Table;
use lsm_versions::Level;
use std::alloc::{AllocError, Global};
use std::ops::Bound;

/// What reads a source: of each key the newest entry that counts, by rising key, from both ends.
pub(crate) trait Reader<'a>: Drop {
    ghost use Rattle.std.specs.Prelude.{◌≡◌, ◌≤◌, Bool, length, cond, flat_map, option_copied, IfOk};
    ghost use Rattle.std.specs.List.{All};
    ghost use Rattle.lsm_below.specs.Entries.{HasBytes};
    ghost use Rattle.lsm_below.specs.Sorted.{Rises};
    ghost use Rattle.lsm_iter.specs.Reads.{at};
    ghost use Rattle.lsm_iter.specs.Left.{SeenCursor, tops, copied, end_item, Takes};
    ghost use Rattle.lsm_iter.specs.Shown.{by_key};
    ghost use Rattle.lsm_iter.specs.Sound.{IsSound};

    /// What is left, and how many entries it owns.
    ghost seen: { Self → SeenCursor };

    /// Whether it owns copies of a memtable's entries.
    ghost copies: { Bool };

    /// What is left of a part of a memtable. Refused only for want of memory.
    fn of_span(alloc: Global, span: &Span<'a>, below: SeqNo) -> Result<Self, AllocError>
        ensures left { IfOk result (λ r. (seen r).left ≡ tops (at below span.now)) }
        ensures held { IfOk result (λ r. (seen r).held ≡ cond copies (length (seen r).left) 0) }
        ensures bytes { IfOk result (λ r. All HasBytes (seen r).left) };

    /// What lies of a run's tables within bounds, of which no entry is copied. Refused only for want of memory.
    fn of_run(
        alloc: Global,
        run: &'a Run<Table>,
        bounds: &(Bound<UserKey>, Bound<UserKey>),
        below: SeqNo,
    ) -> Result<Self, AllocError>
        requires { All IsSound run.now }
        ensures left { IfOk result (λ r. (seen r).left ≡ flat_map (λ t. copied bounds.now.0 bounds.now.1 (at below t.entries)) run.now) }
        ensures held { IfOk result (λ r. (seen r).held ≡ 0) }
        ensures bytes { IfOk result (λ r. All HasBytes (seen r).left) };

    /// The entry at this end.
    fn peek(&self, end: End) -> Option<&InternalValue>
        ensures is { option_copied result ≡ end_item end (seen self.now).left }
        ensures rises { Rises by_key (seen self.now).left };

    /// Leaves out the entry at this end.
    fn skip(&mut self, end: End)
        ensures takes { Takes end (seen self.old).left (end_item end (seen self.old).left) (seen self.new).left }
        ensures held { (seen self.new).held ≤ (seen self.old).held };
}

/// Appends a reader, unless nothing is left of it. Refused only for want of memory.
fn push_reader<'a, R: Reader<'a>>(readers: &mut Vec<R>, reader: R) -> Result<(), AllocError>
    ensures left { OnOk result (left_of (map R.seen readers.new.items) ≡ left_of (map R.seen readers.old.items) ++ (R.seen reader).left) }
    // One of which nothing is left owns nothing.
    ensures held { ((R.seen reader).left ≡ [] → (R.seen reader).held ≡ 0) → OnOk result (held_in (map R.seen readers.new.items) ≡ held_in (map R.seen readers.old.items) + (R.seen reader).held) }
{
    match reader.peek(End::Front) {
        Some(_entry) => readers.push(reader)?,
        None => {}
    }
    Ok(())
}

/// Appends a reader of what lies of a memtable within bounds.
fn push_memtable<'a, R: Reader<'a>>(
    alloc: Global,
    readers: &mut Vec<R>,
    memtable: &'a Memtable,
    bounds: &(Bound<UserKey>, Bound<UserKey>),
    below: SeqNo,
) -> Result<(), AllocError>
    ensures { OnOk result
        (PutsCursors bounds.now.0 bounds.now.1 (at below memtable.now.entries ∷ []) (owned_of R.copies bounds.now.0 bounds.now.1 (at below memtable.now.entries ∷ [])) (map R.seen readers.old.items) (map R.seen readers.new.items)) }
{
    let span = memtable.span().within(bounds);
    span.facts();
    let reader = R::of_span(alloc, &span, below)?;
    push_reader(readers, reader)?;
    Ok(())
}

/// Appends a reader of an index.
pub(crate) fn push_index<'a, R: Reader<'a>>(
    alloc: Global,
    readers: &mut Vec<R>,
    overlay: Overlay<'a>,
    bounds: &(Bound<UserKey>, Bound<UserKey>),
) -> Result<(), AllocError>
    ensures { OnOk result
        (PutsCursors bounds.now.0 bounds.now.1 (option_to_list (index_of overlay.entry)) (owned_of R.copies bounds.now.0 bounds.now.1 (option_to_list (index_of overlay.entry))) (map R.seen readers.old.items) (map R.seen readers.new.items)) }
{
    match overlay {
        Some((index, below)) => push_memtable(alloc, readers, index, bounds, below),
        None => Ok(()),
    }
}

/// Appends a reader of each memtable.
pub(crate) fn push_memtables<'a, R: Reader<'a>>(
    alloc: Global,
    readers: &mut Vec<R>,
    memtables: &[&'a Memtable],
    bounds: &(Bound<UserKey>, Bound<UserKey>),
    below: SeqNo,
) -> Result<(), AllocError>
    ensures { OnOk result
        (PutsCursors bounds.now.0 bounds.now.1 (map (λ m. at below m.now.entries) memtables.now) (owned_of R.copies bounds.now.0 bounds.now.1 (map (λ m. at below m.now.entries) memtables.now)) (map R.seen readers.old.items) (map R.seen readers.new.items)) }
{
    for memtable in memtables {
        push_memtable(alloc, readers, memtable, bounds, below)?;
    }
    Ok(())
}

/// Appends a reader of a run, whose tables are walked one after the other.
fn push_run<'a, R: Reader<'a>>(
    alloc: Global,
    readers: &mut Vec<R>,
    run: &'a Run<Table>,
    bounds: &(Bound<UserKey>, Bound<UserKey>),
    below: SeqNo,
) -> Result<(), AllocError>
    requires { All IsSound run.now }
    ensures { OnOk result (PutsCursors bounds.now.0 bounds.now.1 (map (λ t. at below t.entries) run.now) 0 (map R.seen readers.old.items) (map R.seen readers.new.items)) }
{
    let reader = R::of_run(alloc, run, bounds, below)?;
    push_reader(readers, reader)?;
    Ok(())
}

/// Appends a reader of each run of a level.
fn push_runs<'a, R: Reader<'a>>(
    alloc: Global,
    readers: &mut Vec<R>,
    runs: &'a [Run<Table>],
    bounds: &(Bound<UserKey>, Bound<UserKey>),
    below: SeqNo,
) -> Result<(), AllocError>
    requires { All IsSound (all_tables runs.now) }
    ensures { OnOk result (PutsCursors bounds.now.0 bounds.now.1 (map (λ t. at below t.entries) (all_tables runs.now)) 0 (map R.seen readers.old.items) (map R.seen readers.new.items)) }
{
    for run in runs {
        push_run(alloc, readers, run, bounds, below)?;
    }
    Ok(())
}

/// Appends a reader of each run of each level.
fn push_levels<'a, R: Reader<'a>>(
    alloc: Global,
    readers: &mut Vec<R>,
    levels: &'a [Level],
    bounds: &(Bound<UserKey>, Bound<UserKey>),
    below: SeqNo,
) -> Result<(), AllocError>
    requires { All IsSound (all_of levels.now) }
    ensures { OnOk result (PutsCursors bounds.now.0 bounds.now.1 (map (λ t. at below t.entries) (all_of levels.now)) 0 (map R.seen readers.old.items) (map R.seen readers.new.items)) }
{
    for level in levels {
        push_runs(alloc, readers, level.as_slice(), bounds, below)?;
    }
    Ok(())
}

/// Appends a reader of each run of a version, in the order of a walk.
pub(crate) fn push_version<'a, R: Reader<'a>>(
    alloc: Global,
    readers: &mut Vec<R>,
    version: &'a Version,
    bounds: &(Bound<UserKey>, Bound<UserKey>),
    below: SeqNo,
) -> Result<(), AllocError>
    ensures { OnOk result (PutsCursors bounds.now.0 bounds.now.1 (map (at below) (tables_of version.now)) 0 (map R.seen readers.old.items) (map R.seen readers.new.items)) }
{
    version.facts();
    // What is shown of a version are the entries of these tables.
    let _ = version.iter_tables();
    push_levels(alloc, readers, version.levels(), bounds, below)?;
    Ok(())
}
