// What no contract says: that calls get the lock, succeed where memory is ample, and act on the tree that the lock
// guards; and that a journal is returned.
//
// Helpers borrow the tree, and each test drops it by a call: see the tests of `recorded`.
use crate::samples::{open_recorded, open_shared, share_recorded, shows, text};
use lsm_tree::{
    Config, Error, Guard, Handle, InternalValue, IterGuard, MemStore, Op, Pass, RecordedTree, Tree,
    TreeIter, TreeState, TreeType, Version,
};
use std::alloc::Global;
use std::ops::Bound;
use std::sync::Wait;
use std::test::Fail;
use std::thread;

/// A tree whose counters start at this number.
fn open_from(alloc: Global, number: u64) -> Result<RecordedTree, Error> {
    let core = open_recorded(alloc, Config::new(0, number, number))?;
    Ok(Handle::new(alloc, core)?)
}

/// Sets a key to `x`, under the next sequence number.
fn set(
    rt: &impl Wait,
    alloc: Global,
    tree: &RecordedTree,
    pass: &mut Pass,
    key: &'static str,
) -> Result<u64, Error> {
    tree.write(rt, pass, vec![in alloc; (text(key), Op::Set(text("x")))]?)
}

/// Sets a key and reads it back: whether it is what was written.
fn write_and_read(
    rt: &impl Wait,
    alloc: Global,
    tree: &RecordedTree,
    pass: &mut Pass,
    key: &'static str,
) -> Result<bool, Error> {
    let number = set(rt, alloc, tree, pass, key)?;
    let found = tree.get(rt, pass, key.as_bytes(), number.saturating_add(1))?;
    Ok(found == Some(text("x")))
}

/// Whether a caller reads back what it writes.
fn calls(
    rt: &impl Wait,
    alloc: Global,
    tree: &RecordedTree,
    pass: &mut Pass,
    key: &'static str,
) -> bool {
    matches!(write_and_read(rt, alloc, tree, pass, key), Ok(true))
}

/// One caller's pass, after a write and a read of its own.
fn pass_of(rt: &impl Wait, alloc: Global, tree: &RecordedTree, key: &'static str) -> Pass {
    let mut pass = Pass::new(alloc);
    let _ = calls(rt, alloc, tree, &mut pass, key);
    pass
}

/// A list of one pass. Where there is no room for it, of none.
fn one_pass(alloc: Global, pass: Pass) -> Vec<Pass> {
    let mut passes = Vec::new(alloc);
    let _ = passes.push(pass);
    passes
}

fn two_passes(alloc: Global, first: Pass, second: Pass) -> Vec<Pass> {
    let mut passes = one_pass(alloc, first);
    let _ = passes.push(second);
    passes
}

/// How many entries the journal has that is given out for these passes.
fn closed(rt: &impl Wait, tree: &RecordedTree, passes: Vec<Pass>) -> Option<usize> {
    match tree.close(rt, passes) {
        Ok(closed) => Some(closed.journal.len()),
        Err(_) => None,
    }
}

/// How many passes are given back.
fn given_back(rt: &impl Wait, tree: &RecordedTree, passes: Vec<Pass>) -> Option<usize> {
    match tree.close(rt, passes) {
        Ok(_) => None,
        Err(passes) => Some(passes.len()),
    }
}

#[test]
fn two_threads_share_a_tree(rt: HostRuntime) -> Result<(), Fail> {
    let alloc = rt.alloc();
    let tree = share_recorded(alloc)?;
    let one = tree.clone()?;
    let two = tree.clone()?;
    let first = thread::spawn(&rt, move || pass_of(&rt, alloc, &one, "a"))?;
    let second = thread::spawn(&rt, move || pass_of(&rt, alloc, &two, "b"))?;
    let passes = two_passes(alloc, first.join(&rt), second.join(&rt));
    assert_eq!(rt; closed(&rt, &tree, passes), Some(4));
    drop(tree);
    Ok(())
}

#[test]
fn each_reads_its_own_write(rt: HostRuntime) -> Result<(), Fail> {
    let alloc = rt.alloc();
    let tree = share_recorded(alloc)?;
    let mut pass = Pass::new(alloc);
    assert!(rt; calls(&rt, alloc, &tree, &mut pass, "a"));
    assert_eq!(rt; closed(&rt, &tree, one_pass(alloc, pass)), Some(2));
    drop(tree);
    Ok(())
}

/// A pass with the entries of `pass_of`, at the same places, but of calls on another tree.
fn pass_elsewhere(rt: &impl Wait, alloc: Global) -> Pass {
    match share_recorded(alloc) {
        Ok(tree) => {
            let pass = pass_of(rt, alloc, &tree, "a");
            drop(tree);
            pass
        }
        Err(_) => Pass::new(alloc),
    }
}

/// Appends the entries of `pass_of` to a pass, but for the read's snapshot, which is 0.
fn put_altered(rt: &impl Wait, alloc: Global, tree: &RecordedTree, pass: &mut Pass) -> bool {
    matches!(set(rt, alloc, tree, pass, "a"), Ok(0))
        && matches!(tree.get(rt, pass, b"a", 0), Ok(None))
}

/// A pass with the entries of `pass_of`, of which one is another.
fn altered_pass(rt: &impl Wait, alloc: Global) -> Pass {
    let mut pass = Pass::new(alloc);
    if let Ok(tree) = share_recorded(alloc) {
        let _ = put_altered(rt, alloc, &tree, &mut pass);
        drop(tree);
    }
    pass
}

/// Appends the read of `pass_of` to a pass, and the write before it to one that is dropped.
fn put_read(rt: &impl Wait, alloc: Global, tree: &RecordedTree, pass: &mut Pass) -> bool {
    let mut other = Pass::new(alloc);
    let is_set = matches!(set(rt, alloc, tree, &mut other, "a"), Ok(0));
    drop(other);
    is_set && matches!(tree.get(rt, pass, b"a", 1), Ok(Some(_)))
}

/// A pass with the entries of `pass_of`, the read before the write: of calls on two other trees.
fn reversed_pass(rt: &impl Wait, alloc: Global) -> Pass {
    let mut pass = Pass::new(alloc);
    if let Ok(tree) = share_recorded(alloc) {
        let _ = put_read(rt, alloc, &tree, &mut pass);
        drop(tree);
    }
    if let Ok(tree) = share_recorded(alloc) {
        let _ = set(rt, alloc, &tree, &mut pass, "a");
        drop(tree);
    }
    pass
}

/// Whether a pass has two entries, at these places.
fn has_places(pass: &Pass, places: [u64; 2]) -> bool {
    pass.entries().iter().map(|noted| noted.0).eq(places)
}

#[test]
fn passes_that_list_something_else_are_given_back(rt: HostRuntime) -> Result<(), Fail> {
    let alloc = rt.alloc();
    let tree = share_recorded(alloc)?;
    let pass = pass_of(&rt, alloc, &tree, "a");

    let altered = altered_pass(&rt, alloc);
    assert!(rt; has_places(&altered, [0, 1]));
    assert_eq!(rt; given_back(&rt, &tree, one_pass(alloc, altered)), Some(1));

    let reversed = reversed_pass(&rt, alloc);
    assert!(rt; has_places(&reversed, [1, 0]));
    assert_eq!(rt; given_back(&rt, &tree, one_pass(alloc, reversed)), Some(1));

    let doubled = two_passes(
        alloc,
        pass_elsewhere(&rt, alloc),
        pass_elsewhere(&rt, alloc),
    );
    assert_eq!(rt; given_back(&rt, &tree, doubled), Some(2));

    // The pass of the other calls is missing.
    drop(pass_of(&rt, alloc, &tree, "b"));
    assert_eq!(rt; given_back(&rt, &tree, one_pass(alloc, pass)), Some(1));
    drop(tree);
    Ok(())
}

/// A tombstone of each kind and a value, each under a number of its own.
fn write_three(rt: &impl Wait, tree: &RecordedTree, pass: &mut Pass) -> Result<(u64, u64), Error> {
    tree.insert(rt, pass, text("a"), text("x"), 0)?;
    tree.remove(rt, pass, text("a"), 1)?;
    tree.remove_weak(rt, pass, text("b"), 1)
}

fn writes_three(rt: &impl Wait, tree: &RecordedTree, pass: &mut Pass) -> bool {
    matches!(write_three(rt, tree, pass), Ok((49, 148)))
}

fn appends(rt: &impl Wait, tree: &RecordedTree, pass: &mut Pass) -> bool {
    let entry = InternalValue::new_tombstone(text("c"), 2);
    matches!(tree.append_entry(rt, pass, entry), Ok((49, 197)))
}

#[test]
fn writes_take_numbers_of_their_own(rt: HostRuntime) -> Result<(), Fail> {
    let alloc = rt.alloc();
    let tree = open_from(alloc, 3)?;
    let mut pass = Pass::new(alloc);
    assert!(rt; writes_three(&rt, &tree, &mut pass));
    assert!(rt; appends(&rt, &tree, &mut pass));
    assert!(rt; matches!(tree.rotate_memtable(&rt, &mut pass), Ok(Some(0))));
    assert_eq!(rt; pass.entries().len(), 4);
    drop(pass);
    drop(tree);
    Ok(())
}

/// How many pairs a range and a prefix of a recorded tree list together.
fn count_recorded(rt: &impl Wait, tree: &RecordedTree, pass: &mut Pass) -> Result<usize, Error> {
    let all = (Bound::Unbounded, Bound::Unbounded);
    let range = tree.range(rt, pass, &all, 1)?.as_slice().len();
    let prefix = tree.prefix(rt, pass, &text("a"), 1)?.as_slice().len();
    Ok(range.saturating_add(prefix))
}

#[test]
fn ranges_behind_the_lock_are_listed(rt: HostRuntime) -> Result<(), Fail> {
    let alloc = rt.alloc();
    let tree = share_recorded(alloc)?;
    let mut pass = pass_of(&rt, alloc, &tree, "a");
    assert!(rt; matches!(count_recorded(&rt, &tree, &mut pass), Ok(2)));
    assert_eq!(rt; closed(&rt, &tree, one_pass(alloc, pass)), Some(4));
    drop(tree);
    Ok(())
}

/// A value under a drawn sequence number, made visible.
fn set_next(rt: &impl Wait, tree: &Tree) -> Result<(), Error> {
    let number = tree.next_seqno(rt)?;
    tree.insert(rt, text("a"), text("x"), number)?;
    tree.raise_visible(rt, number.saturating_add(1));
    Ok(())
}

fn sets_next(rt: &impl Wait, tree: &Tree) -> bool {
    matches!(set_next(rt, tree), Ok(()))
}

/// Whether the tree is as `set_next` left it, by its counters and what its active memtable counts.
fn is_left(rt: &impl Wait, tree: &Tree) -> bool {
    tree.visible_number(rt) == 1
        && matches!(tree.next_seqno(rt), Ok(1))
        && matches!(tree.insert(rt, text("b"), text("x"), 1), Ok((50, 100)))
}

#[test]
fn counters_are_those_of_the_tree(rt: HostRuntime) -> Result<(), Fail> {
    let tree = open_shared(rt.alloc())?;
    assert!(rt; matches!(tree.next_seqno(&rt), Ok(0)));
    assert!(rt; matches!(tree.next_seqno(&rt), Ok(1)));
    tree.raise_visible(&rt, 2);
    tree.raise_visible(&rt, 1);
    assert_eq!(rt; tree.visible_number(&rt), 2);
    drop(tree);
    Ok(())
}

#[test]
fn numbers_are_drawn_and_made_visible(rt: HostRuntime) -> Result<(), Fail> {
    let tree = open_shared(rt.alloc())?;
    assert!(rt; sets_next(&rt, &tree));
    assert_eq!(rt; tree.visible_number(&rt), 1);
    assert!(rt; shows(&rt, &tree, 1, "x"));
    assert!(rt; matches!(tree.get_internal_entry(&rt, b"a", 0), Ok(None)));
    assert!(rt; matches!(tree.rotate_memtable(&rt), Ok(Some(0))));
    drop(tree);
    Ok(())
}

/// An operation, and a copy of it, in a batch each.
fn write_twice(rt: &impl Wait, alloc: Global, tree: &Tree) -> Result<u64, Error> {
    let op = Op::Set(text("x"));
    let again = op.copy()?;
    tree.write(rt, vec![in alloc; (text("a"), op)]?)?;
    tree.write(rt, vec![in alloc; (text("b"), again)]?)
}

/// How many entries the tree has that a handle gives back, None where there is another handle.
fn entries_given_back(tree: Tree) -> Option<usize> {
    match tree.into_inner() {
        Ok(core) => Some(core.approximate_len()),
        Err(_) => None,
    }
}

#[test]
fn the_last_handle_gives_the_tree_back(rt: HostRuntime) -> Result<(), Fail> {
    let alloc = rt.alloc();
    let tree = open_shared(alloc)?;
    let other = tree.clone()?;
    assert!(rt; matches!(write_twice(&rt, alloc, &tree), Ok(1)));
    assert_eq!(rt; entries_given_back(tree), None);
    assert_eq!(rt; other.moment(&rt), 0);
    assert_eq!(rt; entries_given_back(other), Some(2));
    Ok(())
}

/// A tombstone of each kind, one of them as an entry, then a batch.
fn write_all(rt: &impl Wait, alloc: Global, tree: &Tree) -> Result<u64, Error> {
    tree.remove(rt, text("a"), 0)?;
    tree.remove_weak(rt, text("b"), 0)?;
    tree.append_entry(rt, InternalValue::new_tombstone(text("c"), 0))?;
    tree.write(rt, Vec::new(alloc))
}

#[test]
fn a_tree_is_written_in_each_way(rt: HostRuntime) -> Result<(), Fail> {
    let tree = open_shared(rt.alloc())?;
    assert!(rt; matches!(write_all(&rt, rt.alloc(), &tree), Ok(0)));
    assert_eq!(rt; tree.visible_number(&rt), 1);
    drop(tree);
    Ok(())
}

/// Whether just a = x is given.
fn gives_a(iter: Result<TreeIter, Error>) -> bool {
    match iter {
        Ok(mut iter) => is_a(iter.next()) && iter.next().is_none(),
        Err(_) => false,
    }
}

/// Whether this is the pair a = x.
fn is_a(pair: Option<Guard>) -> bool {
    match pair {
        Some(guard) => match guard.into_inner() {
            Ok((key, value)) => key == text("a") && value == text("x"),
            Err(_) => false,
        },
        None => false,
    }
}

/// Whether each call for bounds gives a = x.
fn ranges_give_a(rt: &impl Wait, tree: &Tree) -> bool {
    let all = (Bound::Unbounded, Bound::Unbounded);
    gives_a(tree.range(rt, &all, 1, None))
        && gives_a(tree.create_range(rt, &all, 1, None))
        && gives_a(tree.create_internal_range(rt, &all, 1, None))
}

/// Whether each call for all keys, and for a prefix, gives a = x.
fn others_give_a(rt: &impl Wait, tree: &Tree) -> bool {
    gives_a(tree.iter(rt, 1, None))
        && gives_a(tree.create_iter(rt, 1, None))
        && gives_a(tree.prefix(rt, b"a", 1, None))
        && gives_a(tree.create_prefix(rt, b"a", 1, None))
}

#[test]
fn a_shared_tree_lists_its_pairs(rt: HostRuntime) -> Result<(), Fail> {
    let tree = open_shared(rt.alloc())?;
    assert!(rt; sets_next(&rt, &tree));
    assert!(rt; ranges_give_a(&rt, &tree));
    assert!(rt; others_give_a(&rt, &tree));
    assert!(rt; is_left(&rt, &tree));
    drop(tree);
    Ok(())
}

fn has_ends(rt: &impl Wait, tree: &Tree) -> bool {
    matches!(tree.first_key_value(rt, 1, None), Ok(Some(_)))
        && matches!(tree.last_key_value(rt, 1, None), Ok(Some(_)))
}

#[test]
fn a_shared_tree_tells_of_its_pairs(rt: HostRuntime) -> Result<(), Fail> {
    let tree = open_shared(rt.alloc())?;
    assert!(rt; sets_next(&rt, &tree));
    assert!(rt; matches!(tree.len(&rt, 1, None), Ok(1)));
    assert!(rt; matches!(tree.is_empty(&rt, 1, None), Ok(false)));
    assert!(rt; has_ends(&rt, &tree));
    assert!(rt; matches!(tree.contains_key(&rt, b"a", 1), Ok(true)));
    assert!(rt; matches!(tree.size_of(&rt, b"a", 1), Ok(Some(1))));
    assert!(rt; shows(&rt, &tree, 1, "x"));
    assert!(rt; matches!(tree.get_internal_entry(&rt, b"a", 1), Ok(Some(_))));
    assert!(rt; is_left(&rt, &tree));
    drop(tree);
    Ok(())
}

// ---- what is told of a tree

/// A tree of this id.
fn open_named(alloc: Global, id: u64) -> Result<Tree, Error> {
    match TreeState::open(alloc, Config::new(id, 0, 0), MemStore::new(alloc)) {
        Ok(core) => Ok(Handle::new(alloc, core)?),
        Err((error, _)) => Err(error),
    }
}

fn record_named(alloc: Global, id: u64) -> Result<RecordedTree, Error> {
    let core = open_recorded(alloc, Config::new(id, 3, 3))?;
    Ok(Handle::new(alloc, core)?)
}

/// A version's id, and the number from which a log is read.
fn told(version: &Version) -> (u64, u64) {
    (version.id(), version.log_from())
}

#[test]
fn a_shared_tree_tells_of_itself(rt: HostRuntime) -> Result<(), Fail> {
    let tree = open_named(rt.alloc(), 5)?;
    assert_eq!(rt; tree.id(&rt), 5);
    assert_eq!(rt; tree.tree_type(&rt), TreeType::Standard);
    assert_eq!(rt; tree.next_table_id(&rt), 0);
    assert!(rt; matches!(tree.get_next_table_id(&rt), Ok(0)));
    assert_eq!(rt; tree.next_table_id(&rt), 1);
    let version = tree.current_version(&rt, rt.alloc());
    drop(tree);
    assert_eq!(rt; told(&version?), (0, 0));
    Ok(())
}

#[test]
fn a_recorded_tree_tells_of_itself(rt: HostRuntime) -> Result<(), Fail> {
    let tree = record_named(rt.alloc(), 6)?;
    assert_eq!(rt; tree.id(&rt), 6);
    assert_eq!(rt; tree.tree_type(&rt), TreeType::Standard);
    assert_eq!(rt; tree.next_table_id(&rt), 0);
    let mut pass = Pass::new(rt.alloc());
    let cleared = tree.clear(&rt, &mut pass);
    let version = tree.current_version(&rt, rt.alloc());
    drop(tree);
    cleared?;
    assert_eq!(rt; told(&version?), (1, 3));
    Ok(())
}
