// The files of a tree and its log, and how they are damaged.
use lsm_manifest::{table_name, write_current};
use lsm_state::{Checksum, MemStore, Store, StoreError};
use std::alloc::{AllocError, Global};

/// The table a = x at 0, made at 0.
const TABLE: [u8; 37] = [
    0x4c, 0x53, 0x4d, 0x54, 0, 0, 0, 0, 0, 0, 0, 0, 1, 0, 0, 0, 0, 0, 0, 0, 1, 0, 0, 0, 0, 0, 0, 0,
    0, 0, 0, 1, 0, 0, 0, 0x61, 0x78,
];

/// The table c = y at 1, and a tombstone of c at 0, made at 0.
const OTHER: [u8; 53] = [
    0x4c, 0x53, 0x4d, 0x54, 0, 0, 0, 0, 0, 0, 0, 0, 2, 0, 0, 0, 0, 0, 0, 0, 1, 0, 1, 0, 0, 0, 0, 0,
    0, 0, 0, 1, 0, 0, 0, 0x63, 0x79, 1, 0, 0, 0, 0, 0, 0, 0, 0, 0, 1, 0, 0, 0, 0, 0x63,
];

/// The record of a = x, numbered 1, and that of b = y and a removal of a, numbered 2.
const PASSED: [u8; 25] = *b"LSML\x01\0\0\0\0\0\0\0\x01\0\0\0\x01\0\0\x01\0\0\0ax";

const RECORD: [u8; 33] =
    *b"LSML\x02\0\0\0\0\0\0\0\x02\0\0\0\x01\0\0\x01\0\0\0by\x01\0\x01\0\0\0\0a";

/// The sections of a version's file before the layout, of format 4.
const HEAD: [&[u8]; 6] = [
    b"\x0eformat_version\x01\0\0\0\0\0\0\0\x04",
    b"\x0dcrate_version\x06\0\0\0\0\0\0\x003.1.10",
    b"\x09tree_type\x01\0\0\0\0\0\0\0\0",
    b"\x0blevel_count\x01\0\0\0\0\0\0\0\x07",
    b"\x10filter_hash_type\x01\0\0\0\0\0\0\0\0",
    b"\x06tables\x4e\0\0\0\0\0\0\0",
];

/// The place of the format's byte.
const FORMAT_PLACE: usize = 23;

/// After the layout: the log is read from 2 on.
const FROM_2: [u8; 25] = *b"\x08log_from\x08\0\0\0\0\0\0\0\x02\0\0\0\0\0\0\0";

/// A file of a store.
#[derive(Drop)]
pub struct Held {
    pub name: &'static str,
    pub bytes: Vec<u8>,
}

/// A change of a file: what it holds then, or that it is gone.
#[derive(Clone, Copy)]
pub enum Change<'a> {
    Holds(&'a [u8]),
    Gone,
}

/// The sum of bytes, as it stands in files.
fn sum_of(bytes: &[u8]) -> [u8; 16] {
    Checksum::of(bytes).into_u128().to_le_bytes()
}

fn put_table(out: &mut Vec<u8>, id: u64, sum: &[u8; 16]) -> Result<(), AllocError> {
    out.extend_from_slice(&id.to_le_bytes())?;
    out.push(0)?;
    out.extend_from_slice(sum)?;
    out.extend_from_slice(&[0; 8])
}

/// The version's file whose first level has one run of tables 3 and 4, with these sums, in format 4 or 3.
fn version_of(alloc: Global, is_fourth: bool, sums: &[[u8; 16]; 2]) -> Result<Vec<u8>, AllocError> {
    let mut out = Vec::new(alloc);
    for part in HEAD {
        out.extend_from_slice(part)?;
    }
    out.extend_from_slice(&[7, 1, 2, 0, 0, 0])?;
    let [first, second] = sums;
    put_table(&mut out, 3, first)?;
    put_table(&mut out, 4, second)?;
    out.extend_from_slice(&[0; 6])?;
    if is_fourth {
        out.extend_from_slice(&FROM_2)?;
    } else if let Some(place) = out.get_mut(FORMAT_PLACE) {
        *place = 3;
    }
    Ok(out)
}

fn make_file(alloc: Global, name: &'static str, bytes: &[u8]) -> Result<Held, AllocError> {
    Ok(Held {
        name,
        bytes: Vec::from_slice(alloc, bytes)?,
    })
}

/// The files of a tree and its log, in format 4 or 3: a run of two tables, a record below `log_from` and one from it on, and
/// orphans.
pub fn image(alloc: Global, is_fourth: bool) -> Result<Vec<Held>, AllocError> {
    let version = version_of(alloc, is_fourth, &[sum_of(&TABLE), sum_of(&OTHER)])?;
    let current = write_current(5, Checksum::of(&version).into_u128());
    let mut files = Vec::new(alloc);
    files.push(make_file(alloc, "current", &current)?)?;
    files.push(make_file(alloc, "v5", &version)?)?;
    files.push(make_file(alloc, "tables/3", &TABLE)?)?;
    files.push(make_file(alloc, "tables/4", &OTHER)?)?;
    files.push(make_file(alloc, "log/1", &PASSED)?)?;
    files.push(make_file(alloc, "log/2", &RECORD)?)?;
    files.push(make_file(alloc, "v4", b"1")?)?;
    files.push(make_file(alloc, "tables/7", b"1")?)?;
    Ok(files)
}

/// A store of these files, one of which is changed or added.
pub fn store_of(
    alloc: Global,
    files: &[Held],
    name: &str,
    change: Change<'_>,
) -> Result<MemStore, StoreError> {
    let mut store = MemStore::new(alloc);
    for file in files {
        store.replace(file.name, &file.bytes)?;
    }
    match change {
        Change::Holds(bytes) => store.replace(name, bytes)?,
        Change::Gone => store.remove(name)?,
    }
    Ok(store)
}

/// The bytes of the version's file in which the table of this name has the sum of these bytes.
fn version_with(
    alloc: Global,
    is_fourth: bool,
    name: &str,
    bytes: &[u8],
) -> Result<Option<Vec<u8>>, AllocError> {
    if name == table_name(3).as_str() {
        return Ok(Some(version_of(alloc, is_fourth, &[sum_of(bytes), sum_of(&OTHER)])?));
    }
    if name == table_name(4).as_str() {
        return Ok(Some(version_of(alloc, is_fourth, &[sum_of(&TABLE), sum_of(bytes)])?));
    }
    Ok(None)
}

fn put_version(store: &mut MemStore, version: &[u8]) -> Result<(), StoreError> {
    store.replace("v5", version)?;
    let current = write_current(5, Checksum::of(version).into_u128());
    store.replace("current", &current)
}

/// A store of these files, one of which holds these bytes, and all sums are made again, so that the grammar alone decides.
pub fn store_with_sums(
    alloc: Global,
    files: &[Held],
    is_fourth: bool,
    name: &str,
    bytes: &[u8],
) -> Result<MemStore, StoreError> {
    let mut store = store_of(alloc, files, name, Change::Holds(bytes))?;
    if name == "v5" {
        put_version(&mut store, bytes)?;
    }
    if let Some(version) = version_with(alloc, is_fourth, name, bytes)? {
        put_version(&mut store, &version)?;
    }
    Ok(store)
}
