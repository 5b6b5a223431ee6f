// A store with one damaged file: each cut, each changed byte and each doubled section. What is refused, and how, is
// read off the formats.

use crate::opening::answers;
use crate::samples::{
    FORMAT_3, FORMAT_4, Format, MISMATCH, OTHER, Runs, TABLE, Told, UNRECOVERABLE, change, fill,
    put_version,
};
use lsm_state::{MemStore, Store, StoreError};
use std::alloc::Global;
use std::test::Fail;

/// The files of version 5, whose only run has tables 3 and 4.
const FILES: [&str; 4] = ["current", "v5", "tables/3", "tables/4"];

/// Where the sections of the version's file begin and end, the last one in format 4 alone.
const SECTIONS: [(usize, usize); 7] = [
    (0, 24),
    (24, 52),
    (52, 71),
    (71, 92),
    (92, 118),
    (118, 211),
    (211, 236),
];

const ONE_RUN: Runs = [&[2], &[]];

/// Two names that are orphans.
const ORPHANS: [(&str, Option<&[u8]>); 2] = [("v4", Some(b"1")), ("tables/7", Some(b"1"))];

/// A file that is damaged, whether sums are made again up to `current`, so that the grammar alone decides, and the
/// format of the version's file.
type Place = (&'static str, bool, Format);

/// Makes these bytes a file of the store.
fn put(alloc: Global, store: &mut MemStore, at: Place, bytes: &[u8]) -> Result<(), StoreError> {
    let (name, is_remade, format) = at;
    let tables: [&[u8]; 2] = match (name, is_remade) {
        ("tables/3", true) => [bytes, &OTHER],
        ("tables/4", true) => [&TABLE, bytes],
        _ => [&TABLE, &OTHER],
    };
    fill(alloc, store, format, ONE_RUN, &tables)?;
    change(store, &ORPHANS)?;
    if is_remade && name == "v5" {
        return put_version(store, 5, bytes);
    }
    store.replace(name, bytes)
}

/// The file as it is without damage.
fn whole(alloc: Global, store: &mut MemStore, at: Place) -> Result<Vec<u8>, Fail> {
    put(alloc, store, ("tables/3", false, at.2), &TABLE)?;
    Ok(store.read(alloc, at.0)?.ok_or("it is there")?)
}

/// Whether a store with this file is refused so, or opened where nothing is wanted.
fn tells(
    alloc: Global,
    store: &mut MemStore,
    at: Place,
    bytes: &[u8],
    wanted: Option<Told>,
) -> Result<bool, Fail> {
    put(alloc, store, at, bytes)?;
    answers(alloc, store, wanted)
}

/// How a cut is refused.
fn told_of_cut(at: Place) -> Told {
    match at {
        ("current", ..) => (7, "current", 0),
        (_, false, _) => MISMATCH,
        (_, true, _) => UNRECOVERABLE,
    }
}

/// How another byte at a place of a version's file is refused. Where the level count says no run, the runs are read
/// from there on one byte too early, and the type of the first checksum is its own first byte. A log may be read from any
/// number on.
fn told_of_version(place: usize, byte: u8) -> Option<Told> {
    match place {
        23 => Some((5, "", byte)),
        46..=51 => None,
        70 => Some((7, "TreeType", 0)),
        134 if byte == 0 => Some((6, "ChecksumType", 0xb7)),
        147 | 180 => Some((6, "ChecksumType", byte)),
        148..=163 | 181..=196 => Some(MISMATCH),
        228..=235 => None,
        _ => Some(UNRECOVERABLE),
    }
}

/// How another byte at a place of a table's file is refused: the moment, the sequence number below 2^63, the key where
/// the run stays sorted, and the value may be others.
fn told_of_table(place: usize, byte: u8, is_sorted: bool) -> Option<Told> {
    match place {
        4..=11 | 22..=28 | 36 => None,
        29 if byte < 128 => None,
        29 => Some((9, "", 0)),
        35 if is_sorted => None,
        _ => Some(UNRECOVERABLE),
    }
}

/// How another byte at a place of `current` is refused. Version 4 has an orphan of another sum, and no other is there.
fn told_of_current(place: usize, byte: u8) -> Told {
    match place {
        0 if byte == 4 => MISMATCH,
        0..=7 => UNRECOVERABLE,
        8..=23 => MISMATCH,
        _ => (7, "current", 0),
    }
}

/// How another byte at a place is refused.
fn told_of_byte(at: Place, place: usize, byte: u8) -> Option<Told> {
    match at {
        ("current", ..) => Some(told_of_current(place, byte)),
        (_, false, _) => Some(MISMATCH),
        ("v5", ..) => told_of_version(place, byte),
        ("tables/3", ..) => told_of_table(place, byte, byte < b'c'),
        _ => told_of_table(place, byte, byte > b'a'),
    }
}

/// How many places of the file are told, each with a cut there and with two other bytes, up to the first that isn't.
fn count_told(alloc: Global, store: &mut MemStore, at: Place) -> Result<usize, Fail> {
    let mut bytes = whole(alloc, store, at)?;
    for place in 0..bytes.len() {
        let cut = Some(told_of_cut(at));
        let mut is_well = tells(alloc, store, at, &bytes[..place], cut)?;
        for mask in [1, 255] {
            let byte = bytes[place] ^ mask;
            bytes[place] = byte;
            let wanted = told_of_byte(at, place, byte);
            is_well = is_well && tells(alloc, store, at, &bytes, wanted)?;
            bytes[place] = byte ^ mask;
        }
        if !is_well {
            return Ok(place);
        }
    }
    Ok(bytes.len())
}

/// The formats, and the lengths of the files.
const FORMATS: [(Format, [usize; 4]); 2] = [
    (FORMAT_3, [25, 211, 37, 37]),
    (FORMAT_4, [25, 236, 37, 37]),
];

#[test]
fn cuts_and_changed_bytes_are_refused(rt: HostRuntime) -> Result<(), Fail> {
    for (format, lens) in FORMATS {
        for at in 0..8 {
            let place = (FILES[at % 4], at >= 4, format);
            let mut store = MemStore::new(rt.alloc());
            let told = count_told(rt.alloc(), &mut store, place);
            drop(store);
            assert_eq!(rt; told?, lens[at % 4], "{place:?}");
        }
    }
    Ok(())
}

/// The formats, and how long the file of a version of one table is.
const OF_ONE: [(Format, usize); 2] = [(FORMAT_3, 178), (FORMAT_4, 203)];

const ONE_TABLE_RUN: Runs = [&[1], &[]];

/// How many lengths there are below that of a version's file of one table, up to the first to which a cut isn't refused.
fn count_cuts(alloc: Global, store: &mut MemStore, format: Format) -> Result<usize, Fail> {
    fill(alloc, store, format, ONE_TABLE_RUN, &[&TABLE])?;
    let whole = store.read(alloc, "v5")?.ok_or("it is there")?;
    for length in 0..whole.len() {
        put_version(store, 5, &whole[..length])?;
        if !answers(alloc, store, Some(UNRECOVERABLE))? {
            return Ok(length);
        }
    }
    Ok(whole.len())
}

/// The same of the file of its table, whose sum is made again.
fn count_table_cuts(alloc: Global, store: &mut MemStore, format: Format) -> Result<usize, Fail> {
    for length in 0..TABLE.len() {
        fill(alloc, store, format, ONE_TABLE_RUN, &[&TABLE[..length]])?;
        if !answers(alloc, store, Some(UNRECOVERABLE))? {
            return Ok(length);
        }
    }
    Ok(TABLE.len())
}

fn count_all_cuts(
    alloc: Global,
    store: &mut MemStore,
    format: Format,
) -> Result<(usize, usize), Fail> {
    let cuts = count_cuts(alloc, store, format)?;
    Ok((cuts, count_table_cuts(alloc, store, format)?))
}

#[test]
fn cuts_in_a_store_of_one_table_are_refused(rt: HostRuntime) -> Result<(), Fail> {
    for (format, length) in OF_ONE {
        let mut store = MemStore::new(rt.alloc());
        let cuts = count_all_cuts(rt.alloc(), &mut store, format);
        drop(store);
        assert_eq!(rt; cuts?, (length, 37));
    }
    Ok(())
}

/// How many sections there are, where the version's file with each of them twice is refused so.
fn count_doubled(
    alloc: Global,
    store: &mut MemStore,
    at: Place,
    told: Told,
) -> Result<usize, Fail> {
    let good = whole(alloc, store, at)?;
    let mut count: usize = 0;
    for (from, to) in SECTIONS {
        if to > good.len() {
            return Ok(count);
        }
        let mut bytes = good.get(..to).unwrap_or_default().to_vec(alloc)?;
        bytes.extend_from_slice(good.get(from..).unwrap_or_default())?;
        if tells(alloc, store, at, &bytes, Some(told))? {
            count = count.saturating_add(1);
        }
    }
    Ok(count)
}

#[test]
fn doubled_sections_are_refused(rt: HostRuntime) -> Result<(), Fail> {
    for (format, count) in [(FORMAT_3, 6), (FORMAT_4, 7)] {
        for (is_remade, told) in [(false, MISMATCH), (true, UNRECOVERABLE)] {
            let mut store = MemStore::new(rt.alloc());
            let place = ("v5", is_remade, format);
            let doubled = count_doubled(rt.alloc(), &mut store, place, told);
            drop(store);
            assert_eq!(rt; doubled?, count, "{place:?}");
        }
    }
    Ok(())
}

/// How many neighbours there are among the sections, where the version's file with both swapped is refused.
fn count_swapped(alloc: Global, store: &mut MemStore, at: Place) -> Result<usize, Fail> {
    let good = whole(alloc, store, at)?;
    let mut count: usize = 0;
    for ((from, middle), (_, to)) in SECTIONS.iter().zip(SECTIONS.iter().skip(1)) {
        if *to > good.len() {
            return Ok(count);
        }
        let mut bytes = good.get(..*from).unwrap_or_default().to_vec(alloc)?;
        bytes.extend_from_slice(good.get(*middle..*to).unwrap_or_default())?;
        bytes.extend_from_slice(good.get(*from..*middle).unwrap_or_default())?;
        bytes.extend_from_slice(good.get(*to..).unwrap_or_default())?;
        if tells(alloc, store, at, &bytes, Some(UNRECOVERABLE))? {
            count = count.saturating_add(1);
        }
    }
    Ok(count)
}

#[test]
fn swapped_sections_are_refused(rt: HostRuntime) -> Result<(), Fail> {
    for (format, count) in [(FORMAT_3, 5), (FORMAT_4, 6)] {
        let mut store = MemStore::new(rt.alloc());
        let swapped = count_swapped(rt.alloc(), &mut store, ("v5", true, format));
        drop(store);
        assert_eq!(rt; swapped?, count);
    }
    Ok(())
}
