// The bytes of tables' files.

use crate::samples::{V, W, entry};
use bytes::Bytes;
use lsm_below::{InternalKey, InternalValue, UserKey, UserValue};
use lsm_tables::{TableError, decode, encode, fits_image, is_writable, no_image_begins_another};
use std::alloc::{AllocError, Global};
use std::process::Abort;
use std::test::Fail;

/// a = x at 0, made at 0.
const IMAGE: [u8; 37] = [
    0x4c, 0x53, 0x4d, 0x54, 0, 0, 0, 0, 0, 0, 0, 0, 1, 0, 0, 0, 0, 0, 0, 0, 1, 0, 0, 0, 0, 0, 0, 0,
    0, 0, 0, 1, 0, 0, 0, 0x61, 0x78,
];

/// Whether bytes are read as an image; else they are refused as none.
fn is_read(alloc: Global, bytes: &[u8]) -> Result<bool, TableError> {
    match decode(alloc, Bytes::copy_from_slice(alloc, bytes)?) {
        Ok(_) => Ok(true),
        Err(TableError::BadTable) => Ok(false),
        Err(error) => Err(error),
    }
}

fn is_a_to_x(entry: &InternalValue) -> bool {
    entry.key.user_key.as_slice() == b"a".as_slice()
        && entry.key.seqno == 0
        && entry.key.value_type == V
        && entry.value.as_slice() == b"x".as_slice()
}

fn is_only_a_to_x(entries: &[InternalValue]) -> bool {
    entries.len() == 1 && is_a_to_x(&entries[0])
}

#[test]
fn one_entry_is_read(rt: HostRuntime) -> Result<(), Fail> {
    let bytes = Bytes::copy_from_slice(rt.alloc(), &IMAGE)?;
    let (made_at, entries) = decode(rt.alloc(), bytes)?;
    let well = is_only_a_to_x(&entries);
    drop(entries);
    assert!(rt; made_at == 0 && well);
    Ok(())
}

/// The image of entries, made at 0.
fn image_of(
    rt: &impl Abort,
    alloc: Global,
    entries: &[InternalValue],
) -> Result<Vec<u8>, AllocError> {
    assert!(rt; !entries.is_empty() && is_writable(entries));
    encode(alloc, 0, entries)
}

#[test]
fn one_entry_is_written(rt: HostRuntime) -> Result<(), Fail> {
    let entries = vec![in rt.alloc(); entry(b"a", 0, V)]?;
    let image = image_of(&rt, rt.alloc(), &entries);
    drop(entries);
    assert!(rt; image?.as_slice() == IMAGE.as_slice());
    no_image_begins_another();
    Ok(())
}

#[test]
fn a_part_is_bad(rt: HostRuntime) -> Result<(), Fail> {
    for len in 0..37 {
        assert!(rt; !is_read(rt.alloc(), &IMAGE[..len])?, "{len} bytes");
    }
    Ok(())
}

/// Counts that lie, and a byte after an image.
#[test]
fn counts_and_ends(rt: HostRuntime) -> Result<(), Fail> {
    for bytes in [
        b"LSMT\0\0\0\0\0\0\0\0\0\0\0\0\0\0\0\0".as_slice(),
        b"LSMT\0\0\0\0\0\0\0\0\xff\xff\xff\xff\xff\xff\xff\xff".as_slice(),
        b"LSMT\0\0\0\0\0\0\0\0\x01\0\0\0\0\0\0\0\x01\0\0\0\0\0\0\0\0\0\0\x01\0\0\0ax\0".as_slice(),
    ] {
        assert!(rt; !is_read(rt.alloc(), bytes)?, "{bytes:?}");
    }
    Ok(())
}

/// An entry of the key a: its sequence number, its type, and its value, which is x or none.
type Row = (u8, u8, &'static [u8]);

fn put(out: &mut Vec<u8>, row: Row) -> Result<(), AllocError> {
    let (seqno, code, value) = row;
    let len = if value.is_empty() { 0 } else { 1 };
    out.extend_from_slice(&[1, 0, seqno, 0, 0, 0, 0, 0, 0, 0, code, len, 0, 0, 0, 0x61])?;
    out.extend_from_slice(value)
}

fn put_image(out: &mut Vec<u8>, rows: &[Row]) -> Result<(), AllocError> {
    out.extend_from_slice(b"LSMT\0\0\0\0\0\0\0\0")?;
    let count = (rows.len() % 256) as u8;
    out.extend_from_slice(&[count, 0, 0, 0, 0, 0, 0, 0])?;
    for row in rows {
        put(out, *row)?;
    }
    Ok(())
}

/// Whether an image of these entries, less than 256, is read.
fn are_read(alloc: Global, rows: &[Row]) -> Result<bool, TableError> {
    let mut image = Vec::new(alloc);
    put_image(&mut image, rows)?;
    is_read(alloc, &image)
}

#[test]
fn types_and_values(rt: HostRuntime) -> Result<(), Fail> {
    let alloc = rt.alloc();
    assert!(rt; are_read(alloc, &[(0, 2, b"")])?);
    assert!(rt; !are_read(alloc, &[(0, 1, b"x")])?);
    assert!(rt; !are_read(alloc, &[(0, 2, b"x")])?);
    assert!(rt; !are_read(alloc, &[(0, 3, b"")])?);
    Ok(())
}

#[test]
fn order(rt: HostRuntime) -> Result<(), Fail> {
    let alloc = rt.alloc();
    assert!(rt; are_read(alloc, &[(2, 0, b"x"), (1, 0, b"x")])?);
    assert!(rt; !are_read(alloc, &[(1, 0, b"x"), (1, 0, b"x")])?);
    assert!(rt; !are_read(alloc, &[(1, 0, b"x"), (2, 0, b"x")])?);
    Ok(())
}

fn fits(entry: InternalValue) -> bool {
    fits_image(&entry)
}

#[test]
fn what_fits(rt: HostRuntime) {
    assert!(rt; fits(entry(b"a", 0, V)));
    assert!(rt; fits(entry(b"a", 0, W)));
    let key = InternalKey::new(UserKey::from_static(b"a"), 0, W);
    let value = UserValue::from_static(b"x");
    assert!(rt; !fits(InternalValue { key, value }));
}
