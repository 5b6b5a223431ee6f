// What iterators give over tables, memtables and an index, beside the rows that are written down.

use crate::layers::{Layers, make_layers};
use crate::newest::shown_within;
use crate::rows::{ALL_UNDER, Asked, BOUNDS, PREFIXES, Row, SNAPSHOTS, UNDER};
use crate::walks::{Shown, Text, Turns, WALKS, gives, is};
use lsm_state::{Error, Guard, Memtable, SeqNo, TreeIter, UserKey};
use std::alloc::Global;
use std::ops::Bound;
use std::test::Fail;

fn key_of(bound: Text) -> Bound<UserKey> {
    match bound {
        Bound::Included(text) => Bound::Included(UserKey::from_static(text.as_bytes())),
        Bound::Excluded(text) => Bound::Excluded(UserKey::from_static(text.as_bytes())),
        Bound::Unbounded => Bound::Unbounded,
    }
}

/// The index, where it counts, with the number below which it does.
fn index_at(layers: &Layers, below: Option<SeqNo>) -> Option<(&Memtable, SeqNo)> {
    Some((&layers.1, below?))
}

/// An iterator over what a row asks for.
fn iter_of(layers: &Layers, row: &Row) -> Result<TreeIter, Error> {
    let (asked, snapshot, below, _) = *row;
    let index = index_at(layers, below);
    let bounds = match asked {
        Asked::Prefix(prefix) => return layers.0.prefix(prefix.as_bytes(), snapshot, index),
        Asked::Range(lower, upper) => (key_of(lower), key_of(upper)),
        Asked::All => (Bound::Unbounded, Bound::Unbounded),
    };
    layers.0.create_internal_range(&bounds, snapshot, index)
}

/// Whether the pair at an end is this one, or there is none.
fn is_end(found: Result<Option<Guard>, Error>, wanted: Option<&Shown>) -> Result<bool, Error> {
    match wanted {
        Some(wanted) => Ok(is(found?, *wanted)),
        None => Ok(found?.is_none()),
    }
}

/// Whether the calls that keep no list tell how many there are of a row's, and both ends.
fn are_told(layers: &Layers, row: &Row) -> Result<bool, Error> {
    let (_, snapshot, below, wanted) = *row;
    let tree = &layers.0;
    Ok(
        tree.len(snapshot, index_at(layers, below))? == wanted.len()
            && tree.is_empty(snapshot, index_at(layers, below))? == wanted.is_empty()
            && is_end(
                tree.first_key_value(snapshot, index_at(layers, below)),
                wanted.first(),
            )?
            && is_end(
                tree.last_key_value(snapshot, index_at(layers, below)),
                wanted.last(),
            )?,
    )
}

/// Whether each walk gives just what a row says, and so do the other calls where it asks for all keys.
fn is_shown(layers: &Layers, row: &Row) -> Result<bool, Error> {
    for turns in WALKS {
        if !gives(iter_of(layers, row), turns, row.3)? {
            return Ok(false);
        }
    }
    match row.0 {
        Asked::All => are_told(layers, row),
        _ => Ok(true),
    }
}

/// How many rows are shown, up to the first that isn't.
fn count_shown(layers: &Layers, rows: &[Row]) -> Result<usize, Error> {
    for at in 0..rows.len() {
        if !is_shown(layers, &rows[at])? {
            return Ok(at);
        }
    }
    Ok(rows.len())
}

/// What the rows of each table are about, and the table.
const TABLES: [(&str, &[Row]); 5] = [
    ("a snapshot shows the newest below it", &SNAPSHOTS),
    ("bounds of each kind are kept", &BOUNDS),
    ("an index lies over all layers", &ALL_UNDER),
    ("an index lies over all layers, in bounds", &UNDER),
    ("a prefix shows what begins so", &PREFIXES),
];

#[test]
fn each_row_is_shown(rt: HostRuntime) -> Result<(), Fail> {
    for (name, rows) in TABLES {
        let layers = make_layers(rt.alloc())?;
        let shown = count_shown(&layers, rows);
        drop(layers);
        assert_eq!(rt; shown?, rows.len(), "{name}");
    }
    Ok(())
}

/// Whether an iterator gives just a row's when its tree is gone, with its store and the index.
fn outlives(alloc: Global, row: &Row, turns: Turns) -> Result<bool, Error> {
    let layers = make_layers(alloc)?;
    let made = iter_of(&layers, row);
    drop(layers);
    gives(made, turns, row.3)
}

#[test]
fn iterators_outlive_their_tree(rt: HostRuntime) -> Result<(), Fail> {
    for row in &ALL_UNDER {
        for turns in WALKS {
            assert!(rt; outlives(rt.alloc(), row, turns)?, "{turns:?}");
        }
    }
    Ok(())
}

/// Snapshots at which each layer shows something and hides something.
const SOME: [SeqNo; 3] = [3, 11, 22];

/// Bounds at keys with an entry and without one.
const ENDS: [Text; 16] = [
    Bound::Included(""),
    Bound::Included("a"),
    Bound::Included("ab"),
    Bound::Included("b"),
    Bound::Included("c"),
    Bound::Included("f"),
    Bound::Included("gg"),
    Bound::Included("i"),
    Bound::Excluded(""),
    Bound::Excluded("a"),
    Bound::Excluded("ab"),
    Bound::Excluded("b"),
    Bound::Excluded("c"),
    Bound::Excluded("f"),
    Bound::Excluded("gg"),
    Bound::Excluded("i"),
];

/// Whether bounds show at these snapshots what the slow answer has.
fn agrees(alloc: Global, layers: &Layers, lower: Text, upper: Text) -> Result<bool, Error> {
    for snapshot in SOME {
        let wanted = shown_within(alloc, lower, upper, snapshot)?;
        for turns in WALKS {
            let bounds = (key_of(lower), key_of(upper));
            let made = layers.0.create_internal_range(&bounds, snapshot, None);
            if !gives(made, turns, &wanted)? {
                return Ok(false);
            }
        }
    }
    Ok(true)
}

/// How many lower bounds agree with each upper one, up to the first that doesn't.
fn count_agreeing(alloc: Global, layers: &Layers) -> Result<usize, Error> {
    for at in 0..ENDS.len() {
        for upper in ENDS {
            if !agrees(alloc, layers, ENDS[at], upper)? {
                return Ok(at);
            }
        }
    }
    Ok(ENDS.len())
}

#[test]
fn all_bounds_agree_with_a_slow_answer(rt: HostRuntime) -> Result<(), Fail> {
    let layers = make_layers(rt.alloc())?;
    let agreeing = count_agreeing(rt.alloc(), &layers);
    drop(layers);
    assert_eq!(rt; agreeing?, 16);
    Ok(())
}
