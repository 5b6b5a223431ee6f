// Files, byte by byte, stores of them, and the errors that they are refused with.

use lsm_manifest::{table_name, version_name, write_current};
use lsm_state::{Checksum, Error, MemStore, Store, StoreError};
use std::alloc::{AllocError, Global};

/// The table a = x at 0, made at 0.
pub const TABLE: [u8; 37] = [
    0x4c, 0x53, 0x4d, 0x54, 0, 0, 0, 0, 0, 0, 0, 0, 1, 0, 0, 0, 0, 0, 0, 0, 1, 0, 0, 0, 0, 0, 0, 0,
    0, 0, 0, 1, 0, 0, 0, 0x61, 0x78,
];

/// The table a = x at 5, made at 0.
pub const LATER: [u8; 37] = [
    0x4c, 0x53, 0x4d, 0x54, 0, 0, 0, 0, 0, 0, 0, 0, 1, 0, 0, 0, 0, 0, 0, 0, 1, 0, 5, 0, 0, 0, 0, 0,
    0, 0, 0, 1, 0, 0, 0, 0x61, 0x78,
];

/// The table c = y at 1, made at 0.
pub const OTHER: [u8; 37] = [
    0x4c, 0x53, 0x4d, 0x54, 0, 0, 0, 0, 0, 0, 0, 0, 1, 0, 0, 0, 0, 0, 0, 0, 1, 0, 1, 0, 0, 0, 0, 0,
    0, 0, 0, 1, 0, 0, 0, 0x63, 0x79,
];

/// Seven levels with no run.
pub const NO_TABLE: [u8; 8] = [7, 0, 0, 0, 0, 0, 0, 0];

/// One run of one table, with id 3, in the first level.
pub const ONE_TABLE: [u8; 45] = [
    7, 1, 1, 0, 0, 0, 3, 0, 0, 0, 0, 0, 0, 0, 0, 0xb7, 0x2e, 0x25, 0xe2, 0xac, 0x01, 0x46, 0x38,
    0x51, 0xbb, 0x09, 0x02, 0x2a, 0xf9, 0x67, 0x5b, 0, 0, 0, 0, 0, 0, 0, 0, 0, 0, 0, 0, 0, 0,
];

/// The place of the format's byte.
const FORMAT_PLACE: usize = 23;

/// The sections of a version's file, up to the layout's length: each section's name after its length, and its content
/// after the length of that. The format is at 23, the tree type at 70, the level count at 91, the hash type at 117.
const HEAD: [&[u8]; 6] = [
    b"\x0eformat_version\x01\0\0\0\0\0\0\0\x03",
    b"\x0dcrate_version\x06\0\0\0\0\0\0\x003.1.10",
    b"\x09tree_type\x01\0\0\0\0\0\0\0\0",
    b"\x0blevel_count\x01\0\0\0\0\0\0\0\x07",
    b"\x10filter_hash_type\x01\0\0\0\0\0\0\0\0",
    b"\x06tables",
];

/// A format: its byte, and what stands after the layout.
pub type Format = (u8, &'static [u8]);

/// Where a log is read from a number on: the section that says so, for 0 and for 1.
pub const FROM_0: [u8; 25] = *b"\x08log_from\x08\0\0\0\0\0\0\0\0\0\0\0\0\0\0\0";

pub const FROM_1: [u8; 25] = *b"\x08log_from\x08\0\0\0\0\0\0\0\x01\0\0\0\0\0\0\0";

/// The format that is read.
pub const FORMAT_3: Format = (3, &[]);

/// The format that is written and read.
pub const FORMAT_4: Format = (4, &FROM_0);

/// A version's file: its layout, places with other bytes, and what follows.
pub type File<'a> = (&'a [u8], &'a [(usize, u8)], &'a [u8]);

/// How many tables the runs of the first two levels have.
pub type Runs = [&'static [u8]; 2];

/// Names with new contents, or removed.
pub type Changes<'a> = &'a [(&'a str, Option<&'a [u8]>)];

/// Makes this the byte at a place, if there is such a place.
fn set(bytes: &mut [u8], place: usize, byte: u8) {
    if let Some(found) = bytes.get_mut(place) {
        *found = byte;
    }
}

/// The bytes of a version's file in a format.
pub fn bytes_of(alloc: Global, format: Format, file: File<'_>) -> Result<Vec<u8>, AllocError> {
    let mut out = Vec::new(alloc);
    for part in HEAD {
        out.extend_from_slice(part)?;
    }
    out.extend_from_slice(&(file.0.len() as u64).to_le_bytes())?;
    out.extend_from_slice(file.0)?;
    out.extend_from_slice(format.1)?;
    out.extend_from_slice(file.2)?;
    set(&mut out, FORMAT_PLACE, format.0);
    for (place, byte) in file.1 {
        set(&mut out, *place, *byte);
    }
    Ok(out)
}

/// A table in a layout.
fn put_table(out: &mut Vec<u8>, id: u64, bytes: &[u8]) -> Result<(), AllocError> {
    out.extend_from_slice(&id.to_le_bytes())?;
    out.push(0)?;
    out.extend_from_slice(&Checksum::of(bytes).into_u128().to_le_bytes())?;
    out.extend_from_slice(&[0; 8])
}

/// The id of the table at a place of a list.
fn id_at(place: usize) -> u64 {
    (place as u64).saturating_add(3)
}

/// The layout whose first two levels have runs of so many of the tables, in their order.
fn layout_of(alloc: Global, levels: Runs, tables: &[&[u8]]) -> Result<Vec<u8>, AllocError> {
    let mut out = vec![in alloc; 7]?;
    let mut place: usize = 0;
    for runs in levels {
        let [count, ..] = runs.len().to_le_bytes();
        out.push(count)?;
        for len in runs {
            out.extend_from_slice(&[*len, 0, 0, 0])?;
            for _ in 0..*len {
                let table = tables.get(place).copied().unwrap_or_default();
                put_table(&mut out, id_at(place), table)?;
                place = place.saturating_add(1);
            }
        }
    }
    out.extend_from_slice(&[0; 5])?;
    Ok(out)
}

/// This file is the version's, which `current` names with the file's own sum.
pub fn put_version(store: &mut impl Store, id: u64, file: &[u8]) -> Result<(), StoreError> {
    let sum = Checksum::of(file).into_u128();
    store.replace(version_name(id).as_str(), file)?;
    store.replace("current", &write_current(id, sum))
}

/// Version 5, whose first two levels have runs of these tables, and their files, from table 3 on.
pub fn fill(
    alloc: Global,
    store: &mut impl Store,
    format: Format,
    levels: Runs,
    tables: &[&[u8]],
) -> Result<(), StoreError> {
    let layout = layout_of(alloc, levels, tables)?;
    put_version(store, 5, &bytes_of(alloc, format, (&layout, &[], &[]))?)?;
    for place in 0..tables.len() {
        store.replace(table_name(id_at(place)).as_str(), tables[place])?;
    }
    Ok(())
}

pub fn change(store: &mut impl Store, changes: Changes<'_>) -> Result<(), StoreError> {
    for (name, bytes) in changes {
        match bytes {
            Some(bytes) => store.replace(*name, *bytes)?,
            None => store.remove(*name)?,
        }
    }
    Ok(())
}

/// Whether the store has these contents, and has no content where there is none.
pub fn has(alloc: Global, store: &mut MemStore, contents: Changes<'_>) -> Result<bool, StoreError> {
    for (name, wanted) in contents {
        let found = store.read(alloc, *name)?;
        if found.as_ref().map(|found| found.as_slice()) != *wanted {
            return Ok(false);
        }
    }
    Ok(true)
}

/// Whether the store has just these contents.
pub fn has_just(
    alloc: Global,
    store: &mut MemStore,
    contents: Changes<'_>,
) -> Result<bool, StoreError> {
    Ok(store.list(alloc)?.len() == contents.len() && has(alloc, store, contents)?)
}

/// An error's number, with the text and the byte that it carries.
pub type Told = (u8, &'static str, u8);

pub const UNRECOVERABLE: Told = (4, "", 0);

pub const MISMATCH: Told = (20, "", 0);

/// Formats that no version's file has, and how each is refused: the sections' names and lengths go first.
pub const NO_FORMATS: [(Format, Told); 10] = [
    ((3, &FROM_0), UNRECOVERABLE),
    ((4, &[]), UNRECOVERABLE),
    ((2, &[]), (5, "", 2)),
    ((2, &FROM_0), (5, "", 2)),
    ((5, &[]), (5, "", 5)),
    ((5, &FROM_0), (5, "", 5)),
    (
        (4, b"\x08log_form\x08\0\0\0\0\0\0\0\0\0\0\0\0\0\0\0"),
        UNRECOVERABLE,
    ),
    (
        (4, b"\x08log_from\x07\0\0\0\0\0\0\0\0\0\0\0\0\0\0"),
        UNRECOVERABLE,
    ),
    (
        (4, b"\x08log_from\x09\0\0\0\0\0\0\0\0\0\0\0\0\0\0\0\0"),
        UNRECOVERABLE,
    ),
    (
        (5, b"\x08log_form\x08\0\0\0\0\0\0\0\0\0\0\0\0\0\0\0"),
        UNRECOVERABLE,
    ),
];

/// Whether the error is this one.
pub fn is_told(error: &Error, wanted: Told) -> bool {
    let (text, byte) = match error {
        Error::InvalidVersion(byte) => ("", *byte),
        Error::InvalidTag(name, byte) => (*name, *byte),
        Error::InvalidHeader(name) => (*name, 0),
        _ => ("", 0),
    };
    error.number() == wanted.0 && text == wanted.1 && byte == wanted.2
}
