// The order of entries, and their copies.

use crate::samples::{T, V, entry};
use lsm_below::{InternalValue, UserKey, UserValue};
use std::test::Fail;

/// Whether the first entry's key is before the second's.
fn stands_before(left: InternalValue, right: InternalValue) -> bool {
    let before = left.key < right.key;
    drop(left);
    drop(right);
    before
}

fn has_equal_key(left: InternalValue, right: InternalValue) -> bool {
    let equal = left.key == right.key;
    drop(left);
    drop(right);
    equal
}

#[test]
fn keys_rise_and_numbers_fall(rt: HostRuntime) {
    assert!(rt; stands_before(entry(b"a", 2, V), entry(b"a", 1, V)));
    assert!(rt; stands_before(entry(b"a", 1, V), entry(b"b", 9, V)));
    assert!(rt; has_equal_key(entry(b"a", 1, V), entry(b"a", 1, T)));
}

fn has_value_v(entry: &InternalValue) -> bool {
    entry.value.as_slice() == b"v".as_slice()
}

#[test]
fn a_copy_has_the_value(rt: HostRuntime) -> Result<(), Fail> {
    let (key, value) = (UserKey::from_static(b"a"), UserValue::from_static(b"v"));
    let entry = InternalValue::from_components(key, value, 1, V);
    let copied = entry.copy();
    drop(entry);
    assert!(rt; has_value_v(&copied?));
    Ok(())
}

#[test]
fn a_tombstone_has_none(rt: HostRuntime) -> Result<(), Fail> {
    let tombstone = entry(b"a", 1, T);
    assert!(rt; tombstone.value.is_empty());
    let copied = tombstone.key.copy();
    drop(tombstone);
    assert!(rt; copied?.is_tombstone());
    Ok(())
}
