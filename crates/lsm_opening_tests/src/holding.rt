// What an iterator owns, and what a step that is refused leaves of it.

use crate::layers::{INDEX, make_layers, open_filled};
use crate::walks::steps;
use lsm_state::{End, Error, MemStore, Op, SeqNo, TreeIter, TreeState, UserKey};
use std::alloc::Global;
use std::test::Fail;

/// Writes a key with its value, and gives the sequence number.
fn write(
    alloc: Global,
    tree: &mut TreeState,
    key: &'static [u8],
    value: &'static [u8],
) -> Result<SeqNo, Error> {
    let op = Op::Set(UserKey::from_static(value));
    tree.write(vec![in alloc; (UserKey::from_static(key), op)]?)
}

/// a = 1 (0) in a table (1), and b = 2 (2) and c = 3 (3) above it.
fn write_three(alloc: Global, tree: &mut TreeState) -> Result<bool, Error> {
    let first = write(alloc, tree, b"a", b"1")?;
    let flushed = tree.flush_active_memtable(0);
    let is_flushed =
        matches!(flushed, Ok((Some(_), Some((50, registered)))) if registered.installed);
    let second = write(alloc, tree, b"b", b"2")?;
    let third = write(alloc, tree, b"c", b"3")?;
    Ok(is_flushed && first == 0 && second == 2 && third == 3)
}

/// Whether the others are left. The one of the table is not owned.
fn gives_others(iter: &mut TreeIter) -> bool {
    steps(iter, End::Front, ("a", b'1'))
        && steps(iter, End::Back, ("b", b'2'))
        && iter.held() == 0
        && iter.next().is_none()
        && iter.held() == 0
}

/// Whether an iterator at 4 owns two entries and gives c's, and gives the others where its tree is cleared (4).
fn stands(alloc: Global, tree: &mut TreeState) -> Result<bool, Error> {
    let written = write_three(alloc, tree)?;
    let mut iter = tree.iter(4, None)?;
    let stepped = iter.held() == 2 && steps(&mut iter, End::Back, ("c", b'3'));
    let number = tree.clear()?;
    let is_cleared = number == 4 && tree.table_count() == 0 && tree.approximate_len() == 0;
    Ok(written && stepped && is_cleared && gives_others(&mut iter))
}

#[test]
fn an_iterator_owns_what_it_copied(rt: HostRuntime) -> Result<(), Fail> {
    let mut tree = open_filled(rt.alloc(), MemStore::new(rt.alloc()), Ok(()))?;
    let well = stands(rt.alloc(), &mut tree);
    drop(tree);
    assert!(rt; well?);
    Ok(())
}

/// Numbers of entries, and from which end they are given under the index.
const STEPS: [(End, u64); 7] = [
    (End::Back, INDEX + 44),
    (End::Front, 8),
    (End::Back, 12),
    (End::Back, 17),
    (End::Front, INDEX + 40),
    (End::Front, INDEX + 42),
    (End::Back, 13),
];

/// Whether nothing is left, from either end.
fn has_ended(iter: &mut TreeIter) -> bool {
    iter.next_entry().is_none() && iter.next_entry_back().is_none() && iter.held() == 0
}

/// Whether each step gives its entry, or one is refused for want of memory, and the iterator has ended then.
fn gives_or_ends(iter: &mut TreeIter) -> bool {
    for (end, number) in STEPS {
        let given = match end {
            End::Front => iter.next_entry(),
            End::Back => iter.next_entry_back(),
        };
        match given {
            Some(Ok(entry)) if entry.key.seqno == number => {}
            Some(Err(Error::OutOfMemory)) => return has_ended(iter),
            _ => return false,
        }
    }
    has_ended(iter)
}

/// An iterator over all layers, which are gone. Memory may be refused to any part of it.
fn iter_alone(alloc: Global) -> Result<TreeIter, Error> {
    let layers = make_layers(alloc)?;
    let made = layers.0.iter(20, Some((&layers.1, INDEX + 50)));
    drop(layers);
    made
}

/// This test passes whichever allocation is refused.
#[test]
fn a_refused_step_ends_the_iterator(rt: HostRuntime) {
    if let Ok(mut iter) = iter_alone(rt.alloc()) {
        assert!(rt; gives_or_ends(&mut iter));
    }
}
