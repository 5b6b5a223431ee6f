// Merges of everything, drops within bounds.
use crate::asking::{Row, Wanted, chooses};
use lsm_below::UserKey;
use lsm_pick::{DropRange, Major, OwnedBounds};
use std::alloc::Global;
use std::ops::Bound;
use std::process::Abort;
use std::test::Fail;

const THREE: [Row; 3] = [(0, 0, "a", 0), (0, 1, "b", 0), (6, 2, "c", 0)];

#[test]
fn everything_is_merged(rt: HostRuntime) -> Result<(), Fail> {
    let major = Major::default();
    let all = Wanted::Merge(&[0, 1, 2], 6, 6);
    assert!(rt; chooses(&rt, rt.alloc(), &major, u64::MAX, &THREE, &[], all)?);
    assert!(rt; chooses(&rt, rt.alloc(), &major, 0, &THREE, &[2], Wanted::Nothing)?);
    let none = Wanted::Merge(&[], 6, 6);
    assert!(rt; chooses(&rt, rt.alloc(), &Major::new(7), 7, &[], &[], none)?);
    Ok(())
}

fn key_of(bound: Bound<&'static str>) -> Bound<UserKey> {
    match bound {
        Bound::Included(text) => Bound::Included(UserKey::from_static(text.as_bytes())),
        Bound::Excluded(text) => Bound::Excluded(UserKey::from_static(text.as_bytes())),
        Bound::Unbounded => Bound::Unbounded,
    }
}

/// Bounds, and what is dropped where table 1 is hidden.
type Within = (Bound<&'static str>, Bound<&'static str>, Wanted);

const WITHIN: [Within; 6] = [
    (
        Bound::Included("a"),
        Bound::Excluded("b"),
        Wanted::Drop(&[0]),
    ),
    (Bound::Included("a"), Bound::Included("b"), Wanted::Nothing),
    (Bound::Excluded("b"), Bound::Unbounded, Wanted::Drop(&[2])),
    (
        Bound::Excluded("b"),
        Bound::Excluded("b"),
        Wanted::Drop(&[]),
    ),
    (
        Bound::Included("c"),
        Bound::Included("a"),
        Wanted::Drop(&[]),
    ),
    (Bound::Unbounded, Bound::Unbounded, Wanted::Nothing),
];

fn drops(rt: &impl Abort, alloc: Global, row: Within) -> Result<bool, Fail> {
    let bounds = OwnedBounds {
        start: key_of(row.0),
        end: key_of(row.1),
    };
    let strategy = DropRange::new(bounds.copy()?);
    chooses(rt, alloc, &strategy, 0, &THREE, &[1], row.2)
}

#[test]
fn tables_within_bounds_are_dropped(rt: HostRuntime) -> Result<(), Fail> {
    for row in WITHIN {
        assert!(rt; drops(&rt, rt.alloc(), row)?, "{:?} to {:?}", row.0, row.1);
    }
    Ok(())
}
