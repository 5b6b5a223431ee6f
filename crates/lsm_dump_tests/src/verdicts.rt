// The verdict on damaged files is that of the calls that open a tree.
use crate::images::{Change, Held, image, store_of, store_with_sums};
use lsm_dump_parts::{judge, judge_tree, look_into};
use lsm_logged::Logged;
use lsm_state::{Config, Error, MemStore, StoreError, TreeState};
use std::alloc::Global;
use std::test::Fail;

/// The number of the error with which a tree with its log isn't opened, 0 where it is.
fn opens_logged(alloc: Global, store: MemStore) -> u8 {
    match Logged::open(alloc, Config::new(0, 0, 0), store) {
        Ok(_) => 0,
        Err((error, _)) => error.number(),
    }
}

/// The number of the error with which a tree without its log isn't opened, 0 where it is.
fn opens_tree(alloc: Global, store: MemStore) -> u8 {
    match TreeState::open_raised(alloc, Config::new(0, 0, 0), store) {
        Ok(_) => 0,
        Err((error, _)) => error.number(),
    }
}

fn number_of<T: Drop>(told: Result<T, Error>) -> u8 {
    match told {
        Ok(_) => 0,
        Err(error) => error.number(),
    }
}

/// What is told of a store without opening it: the verdicts on it and on its tree, and whether something is wrong.
fn told_of(alloc: Global, store: &mut MemStore) -> Result<(u8, u8, bool), Error> {
    let verdict = number_of(judge(alloc, store));
    let tree = number_of(judge_tree(alloc, store));
    let found = look_into(alloc, store)?;
    Ok((verdict, tree, !found.faults.is_empty()))
}

/// Whether what is told of a store is what comes of opening it, twice, since it is changed by that.
fn agrees(alloc: Global, first: MemStore, second: MemStore) -> Result<bool, Error> {
    let mut first = first;
    let (verdict, tree, is_damaged) = told_of(alloc, &mut first)?;
    Ok(
        verdict == opens_logged(alloc, first)
            && tree == opens_tree(alloc, second)
            && is_damaged == (verdict != 0),
    )
}

fn agrees_on(alloc: Global, files: &[Held], name: &str, change: Change<'_>) -> Result<bool, Fail> {
    let first = store_of(alloc, files, name, change)?;
    let second = store_of(alloc, files, name, change)?;
    Ok(agrees(alloc, first, second)?)
}

/// Bytes, one of which is another.
fn changed(alloc: Global, bytes: &[u8], place: usize, mask: u8) -> Result<Vec<u8>, Fail> {
    let mut other = Vec::from_slice(alloc, bytes)?;
    if let Some(byte) = other.get_mut(place) {
        *byte ^= mask;
    }
    Ok(other)
}

/// Whether a file with these bytes is told of as it is met, with sums that are made again, so that the grammar decides.
fn agrees_with_sums(
    alloc: Global,
    files: &[Held],
    is_fourth: bool,
    name: &str,
    bytes: &[u8],
) -> Result<bool, Fail> {
    let first = store_with_sums(alloc, files, is_fourth, name, bytes)?;
    let second = store_with_sums(alloc, files, is_fourth, name, bytes)?;
    Ok(agrees(alloc, first, second)?)
}

/// Whether a file with these bytes is told of as it is met, with the sums as they are, and made again.
fn agrees_both(
    alloc: Global,
    files: &[Held],
    is_fourth: bool,
    name: &str,
    bytes: &[u8],
) -> Result<bool, Fail> {
    Ok(
        agrees_on(alloc, files, name, Change::Holds(bytes))?
            && agrees_with_sums(alloc, files, is_fourth, name, bytes)?,
    )
}

/// Of so many places one has its damages tried with the sums as they are too.
const STRIDE: usize = 8;

/// Whether a cut of a file there, and a byte that is changed there, are told of as they are met.
fn agrees_at(
    alloc: Global,
    files: &[Held],
    is_fourth: bool,
    file: &Held,
    place: usize,
) -> Result<bool, Fail> {
    let mask = match place % 3 {
        0 => 1,
        1 => 2,
        _ => 128,
    };
    let cut = file.bytes.get(..place).unwrap_or_default();
    let other = changed(alloc, &file.bytes, place, mask)?;
    for bytes in [cut, other.as_slice()] {
        let agrees = if place % STRIDE == 0 {
            agrees_both(alloc, files, is_fourth, file.name, bytes)?
        } else {
            agrees_with_sums(alloc, files, is_fourth, file.name, bytes)?
        };
        if !agrees {
            return Ok(false);
        }
    }
    Ok(true)
}

/// The first place of a file at which what is told isn't what is met.
fn first_difference(
    alloc: Global,
    files: &[Held],
    is_fourth: bool,
    file: &Held,
) -> Result<Option<usize>, Fail> {
    for place in 0..file.bytes.len() {
        if !agrees_at(alloc, files, is_fourth, file, place)? {
            return Ok(Some(place));
        }
    }
    Ok(None)
}

#[test]
fn cuts_and_changed_bytes(rt: HostRuntime) -> Result<(), Fail> {
    let alloc = rt.alloc();
    for is_fourth in [false, true] {
        let files = image(alloc, is_fourth)?;
        for file in &files {
            // The formats differ in the version's file alone.
            if is_fourth || file.name == "v5" {
                let differs = first_difference(alloc, &files, is_fourth, file)?;
                assert_eq!(rt; differs, None, "{} in format 4: {is_fourth}", file.name);
            }
        }
    }
    Ok(())
}

/// Whether a file that is gone, and one with a byte too many, are told of as they are met.
fn agrees_at_ends(
    alloc: Global,
    files: &[Held],
    is_fourth: bool,
    file: &Held,
) -> Result<bool, Fail> {
    let mut longer = Vec::from_slice(alloc, &file.bytes)?;
    longer.push(0)?;
    let gone = agrees_on(alloc, files, file.name, Change::Gone)?;
    Ok(gone && agrees_both(alloc, files, is_fourth, file.name, &longer)?)
}

#[test]
fn missing_files_and_bytes_too_many(rt: HostRuntime) -> Result<(), Fail> {
    let alloc = rt.alloc();
    for is_fourth in [false, true] {
        let files = image(alloc, is_fourth)?;
        for file in &files {
            assert!(rt;
                agrees_at_ends(alloc, &files, is_fourth, file)?,
                "{}",
                file.name
            );
        }
    }
    Ok(())
}

/// Names beside a tree's own, of which the first eight are refused.
const NAMES: [&str; 16] = [
    "version",
    "tables/x",
    "tables/01",
    "tables/18446744073709551616",
    "log/x",
    "log/02",
    "log/9223372036854775808",
    "log/a/b",
    "tables/.DS_Store",
    "tables/._3",
    "log/.DS_Store",
    "log/._1",
    "v",
    "values",
    "replace.new",
    "tables/18446744073709551615",
];

#[test]
fn names_beside_a_tree(rt: HostRuntime) -> Result<(), Fail> {
    let alloc = rt.alloc();
    let files = image(alloc, true)?;
    for name in NAMES {
        assert!(rt;
            agrees_on(alloc, &files, name, Change::Holds(b"1"))?,
            "{name}"
        );
        assert!(rt;
            agrees_on(alloc, &[], name, Change::Holds(b"1"))?,
            "{name} alone"
        );
    }
    Ok(())
}
