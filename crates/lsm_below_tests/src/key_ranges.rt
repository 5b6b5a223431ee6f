// Ranges of keys.

use crate::samples::range;
use lsm_below::KeyRange;
use std::alloc::{AllocError, Global};
use std::process::Abort;
use std::test::Fail;

/// From b to d, and from a to c.
fn two(rt: &impl Abort, alloc: Global) -> Result<Vec<KeyRange>, AllocError> {
    Ok(vec![in alloc; range(rt, b"b", b"d"), range(rt, b"a", b"c")]?)
}

fn has_ends(range: &KeyRange, min: &[u8], max: &[u8]) -> bool {
    range.min().as_slice() == min && range.max().as_slice() == max
}

/// Whether the range from a to c overlaps another one.
fn overlaps(rt: &impl Abort, min: &'static [u8], max: &'static [u8]) -> bool {
    let left = range(rt, b"a", b"c");
    let right = range(rt, min, max);
    let overlaps = left.overlaps_with_key_range(&right);
    drop(left);
    drop(right);
    overlaps
}

#[test]
fn one_shared_key_is_an_overlap(rt: HostRuntime) {
    assert!(rt; overlaps(&rt, b"c", b"e"));
    assert!(rt; !overlaps(&rt, b"d", b"e"));
}

#[test]
fn a_copy_has_the_same_ends(rt: HostRuntime) -> Result<(), Fail> {
    let range = range(&rt, b"a", b"c");
    let copied = range.copy();
    drop(range);
    assert!(rt; has_ends(&copied?, b"a", b"c"));
    Ok(())
}

#[test]
fn several_ranges_are_held_by_one(rt: HostRuntime) -> Result<(), Fail> {
    let ranges = two(&rt, rt.alloc())?;
    let held = KeyRange::aggregate(&ranges);
    drop(ranges);
    let hull = held?.ok_or("no range")?;
    assert!(rt; has_ends(&hull, b"a", b"d"));
    Ok(())
}

#[test]
fn no_range_is_held_by_none(rt: HostRuntime) -> Result<(), Fail> {
    assert!(rt; KeyRange::aggregate(&[])?.is_none());
    Ok(())
}
