// Runs of tables.
//
// What owns a run borrows it to a helper, and has no `?` after: a deep value that is dropped is long to prove.

use crate::samples::{range, run_of};
use lsm_below::{KeyRange, Ranged, Run, UserKey, optimize_runs};
use std::alloc::{AllocError, Global};
use std::ops::Bound;
use std::process::Abort;
use std::test::Fail;

#[derive(Drop)]
struct Piece {
    range: KeyRange,
}

impl Ranged for Piece {
    ghost range = { λ p. p.range };

    fn key_range(&self) -> &KeyRange {
        &self.range
    }
}

impl Clone for Piece {
    ghost use Rattle.std.specs.Prelude.{◌≡◌};

    ghost is_clone = { λ p copy. copy ≡ p };

    fn clone(&self) -> Result<Piece, AllocError> {
        Ok(Piece {
            range: self.range.copy()?,
        })
    }
}

fn piece_of(rt: &impl Abort, min: &'static [u8], max: &'static [u8]) -> Piece {
    Piece {
        range: range(rt, min, max),
    }
}

/// Tables from a to c, e to g, i to k.
fn three(rt: &impl Abort, alloc: Global) -> Result<Vec<Piece>, AllocError> {
    Ok(vec![in alloc;
        piece_of(rt, b"a", b"c"),
        piece_of(rt, b"e", b"g"),
        piece_of(rt, b"i", b"k"),
    ]?)
}

fn count_overlapping(run: &Run<Piece>, range: KeyRange) -> usize {
    let count = run.get_overlapping(&range).len();
    drop(range);
    count
}

fn count_contained(run: &Run<Piece>, range: KeyRange) -> usize {
    let count = run.get_contained(&range).len();
    drop(range);
    count
}

fn look_ups(rt: &impl Abort, run: &Run<Piece>) {
    assert_eq!(rt; count_overlapping(run, range(rt, b"c", b"e")), 2);
    assert_eq!(rt; count_contained(run, range(rt, b"a", b"h")), 2);
    assert!(rt; run.get_for_key(b"d").is_none());
    assert!(rt; run.get_for_key(b"f").is_some());
}

fn indexes(rt: &impl Abort, run: &Run<Piece>) {
    let from = Bound::Included(UserKey::from_static(b"c"));
    let to = Bound::Included(UserKey::from_static(b"e"));
    assert_eq!(rt; run.range_overlap_indexes(&from, &to), Some((0, 1)));
}

/// Whether the range of the run ends with the key k.
fn ends_with_k(run: &Run<Piece>) -> Result<bool, AllocError> {
    let hull = run.aggregate_key_range()?;
    Ok(hull.contains_key(b"k") && !hull.contains_key(b"l"))
}

#[test]
fn three_tables(rt: HostRuntime) -> Result<(), Fail> {
    let run = run_of(&rt, three(&rt, rt.alloc())?);
    look_ups(&rt, &run);
    indexes(&rt, &run);
    let ends = ends_with_k(&run);
    drop(run);
    assert!(rt; ends?);
    Ok(())
}

#[test]
fn a_run_is_copied_whole(rt: HostRuntime) -> Result<(), Fail> {
    let run = run_of(&rt, three(&rt, rt.alloc())?);
    let copied = run.copy();
    drop(run);
    let copy = copied?;
    assert_eq!(rt; copy.as_slice().len(), 3);
    indexes(&rt, &copy);
    drop(copy);
    Ok(())
}

/// Two runs of a table each.
fn two_runs(
    alloc: Global,
    first: Run<Piece>,
    second: Run<Piece>,
) -> Result<Vec<Run<Piece>>, AllocError> {
    Ok(vec![in alloc; first, second]?)
}

/// How many runs are left of two.
fn left_of(alloc: Global, first: Run<Piece>, second: Run<Piece>) -> Result<usize, AllocError> {
    let new = optimize_runs(alloc, two_runs(alloc, first, second)?)?;
    let count = new.len();
    drop(new);
    Ok(count)
}

#[test]
fn runs_are_joined(rt: HostRuntime) -> Result<(), Fail> {
    let alloc = rt.alloc();
    for (min, max, other_min, other_max, wanted) in [
        (b"e", b"g", b"a", b"c", 1),
        (b"a", b"c", b"c", b"d", 2),
    ] {
        let first = Run::single(alloc, piece_of(&rt, min, max))?;
        let second = Run::single(alloc, piece_of(&rt, other_min, other_max))?;
        assert_eq!(rt; left_of(alloc, first, second)?, wanted);
    }
    Ok(())
}
