// A log beside a version in format 3.
use crate::logs::{A_IS_X, count, flush_between};
use crate::trees::{file, flush, fresh, has_names, left_with, opened};
use lsm_logged::Logged;
use lsm_manifest::write_current;
use lsm_state::{Checksum, Error, MemStore, Store};
use std::alloc::Global;
use std::test::Fail;

/// Where the format's byte stands in a version's file, and where format 3 ends.
const FORMAT_PLACE: usize = 23;

const END_OF_3: usize = 178;

/// `v1` in format 3.
fn older(alloc: Global, tree: &Logged) -> Result<Vec<u8>, Error> {
    let mut bytes = file(alloc, tree, "v1")?;
    bytes.truncate(END_OF_3);
    if let Some(place) = bytes.get_mut(FORMAT_PLACE) {
        *place = 3;
    }
    Ok(bytes)
}

fn put_version(store: &mut MemStore, bytes: &[u8]) -> Result<(), Error> {
    let sum = Checksum::of(bytes).into_u128();
    let version = store.replace("v1", bytes).is_ok();
    if version && store.replace("current", &write_current(1, sum)).is_ok() {
        Ok(())
    } else {
        Err(Error::Store)
    }
}

/// The record of b = y at 2.
const B_IS_Y: [u8; 25] = [
    0x4c, 0x53, 0x4d, 0x4c, 2, 0, 0, 0, 0, 0, 0, 0, 1, 0, 0, 0, 1, 0, 0, 1, 0, 0, 0, 0x62, 0x79,
];

/// A store with a = x in a table and a record, b = y in a record, and `v1` in format 3, which `current` names.
fn store_of(alloc: Global, tree: &mut Logged) -> Result<MemStore, Error> {
    flush_between(alloc, tree)?;
    let bytes = older(alloc, tree)?;
    let mut store = left_with(alloc, tree, &[("log/0", &A_IS_X)])?;
    let put = put_version(&mut store, &bytes);
    drop(bytes);
    match put {
        Ok(()) => Ok(store),
        Err(error) => Err(error),
    }
}

fn store_in_3(alloc: Global) -> Result<MemStore, Error> {
    let mut tree = fresh(alloc)?;
    let store = store_of(alloc, &mut tree);
    drop(tree);
    store
}

/// All names after the flush.
const NAMES: [&str; 5] = ["current", "tables/0", "tables/1", "v1", "v2"];

type Flushed = (usize, u64, bool);

/// The length of its version's file after a flush, from where on its log is read, and whether just those names are there.
fn flush_it(alloc: Global, tree: &mut Logged) -> Result<Flushed, Error> {
    flush(tree)?;
    let length = file(alloc, tree, "v2")?.len();
    let are_named = has_names(alloc, tree, "", &NAMES)?;
    Ok((length, tree.current_version().log_from(), are_named))
}

/// How many tables, entries and records there are after a crash to which both records come back.
fn count_back(alloc: Global, tree: &Logged) -> Result<(usize, usize, usize), Error> {
    let records: [(&str, &[u8]); 2] = [("log/0", &A_IS_X), ("log/2", &B_IS_Y)];
    let left = opened(alloc, left_with(alloc, tree, &records)?)?;
    let told = count(alloc, &left);
    drop(left);
    told
}

fn crash_it(alloc: Global, tree: &mut Logged) -> Result<(Flushed, (usize, usize, usize)), Error> {
    let sizes = flush_it(alloc, tree)?;
    Ok((sizes, count_back(alloc, tree)?))
}

fn flushed(alloc: Global) -> Result<(Flushed, (usize, usize, usize)), Error> {
    let mut tree = opened(alloc, store_in_3(alloc)?)?;
    let told = crash_it(alloc, &mut tree);
    drop(tree);
    told
}

#[test]
fn a_log_beside_format_3_is_flushed(rt: HostRuntime) -> Result<(), Fail> {
    let (sizes, counted) = flushed(rt.alloc())?;
    assert_eq!(rt; sizes, (236, 3, true));
    assert_eq!(rt; counted, (2, 2, 0));
    Ok(())
}
