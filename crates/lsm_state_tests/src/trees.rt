// Writes, reads of one key and rotation of a tree.
use crate::rows::Row::{Decides, Does, Has, Reads, Shows};
use crate::rows::{Count, Row, shows};
use crate::samples::item;
use crate::scripts::Part::Plays;
use crate::scripts::{Script, open, play_all};
use crate::steps::Step::{Batch, Counter, Del, Insert, Long, Remove, Rotate, Set, Weak};
use crate::steps::Told::{Done, Number, Refused, Sealed, Sizes};
use lsm_state::{MemStore, TreeState};
use std::test::Fail;

const WRITES: [Script; 6] = [
    (
        "a snapshot sees what is numbered below it",
        &[Plays(&[
            Does(Set("a", "x"), Number(0)),
            Shows("a", 0, ""),
            Shows("a", 1, "x"),
        ])],
    ),
    // The tombstone takes 1 + 48 bytes, after 1 + 1 + 48.
    (
        "a tombstone hides the value above it",
        &[Plays(&[
            Does(Set("a", "x"), Number(0)),
            Does(Remove("a", 1), Sizes((49, 99))),
            Shows("a", 2, ""),
            Shows("a", 1, "x"),
        ])],
    ),
    // `KeyTooLong`.
    (
        "refuses what is too long",
        &[Plays(&[
            Does(Long(65_535), Sizes((65_584, 65_584))),
            Does(Long(65_536), Refused(10)),
        ])],
    ),
    // `NumberTooGreat` and `DuplicateKey`.
    (
        "refuses what is late or doubled",
        &[Plays(&[
            Does(Insert("a", "x", 9_223_372_036_854_775_808), Refused(12)),
            Does(Batch(&[("a", None), ("a", Some("x"))]), Refused(19)),
            Has(Count::Next, 0),
        ])],
    ),
    (
        "an empty batch draws a number",
        &[Plays(&[Does(Batch(&[]), Number(0)), Has(Count::Next, 1)])],
    ),
    // `OutOfNumbers`.
    (
        "the last number is drawn once",
        &[Plays(&[
            Does(Counter(9_223_372_036_854_775_807), Done),
            Does(Weak("a"), Number(9_223_372_036_854_775_807)),
            Does(Del("a"), Refused(9)),
            Has(Count::Next, 9_223_372_036_854_775_808),
        ])],
    ),
];

/// Sets the key, removes it, and seals the memtable; a second time there is nothing to seal.
const SEAL: [Row; 4] = [
    Does(Set("a", "x"), Number(0)),
    Does(Remove("a", 1), Sizes((49, 99))),
    Does(Rotate, Sealed(Some(0))),
    Does(Rotate, Sealed(None)),
];

const ROTATIONS: [Script; 3] = [
    (
        "sealed entries are read",
        &[
            Plays(&SEAL),
            Plays(&[
                Shows("a", 1, "x"),
                Decides("a", 1, Some(0)),
                Decides("a", 2, None),
            ]),
        ],
    ),
    (
        "a new tree has one memtable",
        &[Plays(&[Reads(0, 0, &[], 0, 0), Reads(1, 0, &[], 0, 0)])],
    ),
    // Rotation draws no number of a version.
    (
        "rotation seals under every snapshot",
        &[
            Plays(&SEAL),
            Plays(&[Reads(0, 1, &[0], 0, 0), Reads(1, 1, &[0], 0, 0)]),
        ],
    ),
];

#[test]
fn writes_are_numbered_sealed_and_read(rt: HostRuntime) {
    play_all(&rt, rt.alloc(), &WRITES);
    play_all(&rt, rt.alloc(), &ROTATIONS);
}

/// Whether an entry that the tree housed is written, and shown from then on.
fn takes_housed(tree: &mut TreeState) -> bool {
    let entry = tree.house(item(&("a", Some("x"), 0)));
    let is_hidden = shows(tree, "a", 1, "");
    let is_taken = matches!(tree.append_housed(entry), Ok((50, 50)));
    is_hidden && is_taken && shows(tree, "a", 1, "x")
}

#[test]
fn writes_a_housed_entry(rt: HostRuntime) -> Result<(), Fail> {
    let mut tree = open(rt.alloc(), 1, MemStore::new(rt.alloc()))?;
    let is_taken = takes_housed(&mut tree);
    drop(tree);
    assert!(rt; is_taken);
    Ok(())
}
