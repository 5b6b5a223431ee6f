// What a tree shows after a row.
use crate::looks::get;
use crate::rows::{Look, Turn};
use crate::steps::{Tree, text};
use lsm_state::{
    End, Error, Guard, InternalValue, IterGuard, Memtable, SeqNo, TreeIter, ValueType,
};
use std::alloc::Global;

/// The number of what an index holds.
const INDEX: SeqNo = 9_223_372_036_854_775_808;

fn shows(tree: &Tree, name: &str, snapshot: SeqNo, wanted: Option<&str>) -> bool {
    match (get(tree, name, snapshot), wanted) {
        (Ok(Some(found)), Some(wanted)) => found.as_slice() == wanted.as_bytes(),
        (Ok(None), None) => true,
        _ => false,
    }
}

fn is_too_old(tree: &Tree, name: &str, snapshot: SeqNo) -> bool {
    matches!(get(tree, name, snapshot), Err(Error::SnapshotTooOld))
}

/// Whether a pair is given: none where its key is empty.
fn is_pair(given: Option<Guard>, name: &str, value: &str) -> Result<bool, Error> {
    match given {
        Some(guard) => {
            let (key, found) = guard.into_inner()?;
            Ok(key.as_slice() == name.as_bytes() && found.as_slice() == value.as_bytes())
        }
        None => Ok(name.is_empty()),
    }
}

/// Whether an iterator gives these pairs in turn.
fn gives_in_turn(iter: &mut TreeIter, turns: &[Turn]) -> Result<bool, Error> {
    for (end, name, value) in turns {
        let given = match end {
            End::Front => iter.next(),
            End::Back => iter.next_back(),
        };
        if !is_pair(given, *name, *value)? {
            return Ok(false);
        }
    }
    Ok(true)
}

fn gives(tree: &Tree, snapshot: SeqNo, turns: &[Turn]) -> Result<bool, Error> {
    let mut iter = tree.iter(snapshot, None)?;
    gives_in_turn(&mut iter, turns)
}

/// Puts a = o and a tombstone of b into an index.
fn fill(index: &mut Memtable) -> Result<(), Error> {
    index.insert(InternalValue::from_components(text("a"), text("o"), INDEX, ValueType::Value))?;
    index.insert(InternalValue::new_tombstone(text("b"), INDEX))?;
    Ok(())
}

fn gives_over(
    tree: &Tree,
    index: &Memtable,
    below: SeqNo,
    snapshot: SeqNo,
    turns: &[Turn],
) -> Result<bool, Error> {
    let mut iter = tree.iter(snapshot, Some((index, below)))?;
    gives_in_turn(&mut iter, turns)
}

fn gives_under(
    alloc: Global,
    tree: &Tree,
    below: SeqNo,
    snapshot: SeqNo,
    turns: &[Turn],
) -> Result<bool, Error> {
    let mut index = Memtable::new(alloc, 0);
    let filled = fill(&mut index);
    let told = gives_over(tree, &index, below, snapshot, turns);
    drop(index);
    filled?;
    told
}

fn is_so(alloc: Global, tree: &Tree, look: Look) -> Result<bool, Error> {
    match look {
        Look::Shows(name, snapshot, wanted) => Ok(shows(tree, name, snapshot, wanted)),
        Look::TooOld(name, snapshot) => Ok(is_too_old(tree, name, snapshot)),
        Look::Tables(tables) => Ok(tree.table_count() == tables),
        Look::Levels(runs, lowest) => {
            Ok(tree.l0_run_count() == runs && tree.level_table_count(6) == Some(lowest))
        }
        Look::Entries(entries) => Ok(tree.approximate_len() == entries),
        Look::Gives(snapshot, turns) => gives(tree, snapshot, turns),
        Look::Under(below, snapshot, turns) => gives_under(alloc, tree, below, snapshot, turns),
    }
}

/// Whether each look is as it says. One that was refused for want of memory is taken once more.
pub fn are_so(alloc: Global, tree: &Tree, looks: &[Look]) -> bool {
    let mut right = true;
    for look in looks {
        let told = match is_so(alloc, tree, *look) {
            Err(Error::OutOfMemory) => is_so(alloc, tree, *look),
            told => told,
        };
        right = right && matches!(told, Ok(true));
    }
    right
}
