// What no contract says: that calls succeed where memory is ample.
//
// Helpers borrow the tree, and each test drops it by a call. A proof takes a tree that is dropped at the end
// of a block to all its pieces, and does so once more for each `?` before it.
use crate::samples::{open_recorded, text};
use lsm_tree::{
    Config, Error, Guard, InternalValue, IterGuard, Op, Pairs, Pass, Recorded, SeqNo, TreeIter,
    UserKey, UserValue,
};
use std::alloc::Global;
use std::ops::Bound;
use std::test::Fail;

fn open(alloc: Global, seqno: SeqNo) -> Result<Recorded, Error> {
    open_recorded(alloc, Config::new(0, seqno, seqno))
}

/// Whether a key is set and counts two bytes and 48, of so many in all.
fn sets(tree: &mut Recorded, pass: &mut Pass, key: &'static str, seqno: SeqNo, total: u64) -> bool {
    match tree.insert(pass, text(key), text("x"), seqno) {
        Ok(sizes) => sizes == (50, total),
        Err(_) => false,
    }
}

fn is_out_of_order(tree: &mut Recorded, pass: &mut Pass, key: &'static str, seqno: SeqNo) -> bool {
    let told = tree.insert(pass, text(key), text("y"), seqno);
    matches!(told, Err(Error::OutOfOrder))
}

#[test]
fn numbers_keep_their_order(rt: HostRuntime) -> Result<(), Fail> {
    let mut tree = open(rt.alloc(), 2)?;
    let mut pass = Pass::new(rt.alloc());
    assert!(rt; sets(&mut tree, &mut pass, "a", 1, 50));
    // Not above the earlier number of the key, or not below the counter.
    assert!(rt; is_out_of_order(&mut tree, &mut pass, "a", 0));
    assert!(rt; is_out_of_order(&mut tree, &mut pass, "a", 1));
    assert!(rt; is_out_of_order(&mut tree, &mut pass, "b", 2));
    assert_eq!(rt; tree.journal().len(), 1);
    assert_eq!(rt; tree.seqno().get(), 2);
    drop(pass);
    drop(tree);
    Ok(())
}

fn removes(tree: &mut Recorded, pass: &mut Pass) -> bool {
    matches!(tree.remove(pass, text("b"), 0), Ok((49, 49)))
}

fn removes_weakly(tree: &mut Recorded, pass: &mut Pass) -> bool {
    matches!(tree.remove_weak(pass, text("c"), 1), Ok((49, 98)))
}

fn appends(tree: &mut Recorded, pass: &mut Pass) -> bool {
    let entry = InternalValue::new_tombstone(text("d"), 0);
    matches!(tree.append_entry(pass, entry), Ok((49, 147)))
}

#[test]
fn keys_are_removed_in_each_way(rt: HostRuntime) -> Result<(), Fail> {
    let mut tree = open(rt.alloc(), 2)?;
    let mut pass = Pass::new(rt.alloc());
    assert!(rt; removes(&mut tree, &mut pass));
    assert!(rt; removes_weakly(&mut tree, &mut pass));
    assert!(rt; appends(&mut tree, &mut pass));
    assert_eq!(rt; tree.journal().len(), 3);
    drop(pass);
    drop(tree);
    Ok(())
}

/// A batch of one write to the key `a`.
fn write_one(alloc: Global, tree: &mut Recorded, pass: &mut Pass, op: Op) -> Result<SeqNo, Error> {
    tree.write(pass, vec![in alloc; (text("a"), op)]?)
}

fn writes(alloc: Global, tree: &mut Recorded, pass: &mut Pass, op: Op, number: SeqNo) -> bool {
    match write_one(alloc, tree, pass, op) {
        Ok(told) => told == number,
        Err(_) => false,
    }
}

fn may_not_set(alloc: Global, tree: &mut Recorded, pass: &mut Pass) -> bool {
    let told = write_one(alloc, tree, pass, Op::Set(text("y")));
    matches!(told, Err(Error::OutOfOrder))
}

#[test]
fn a_weakly_removed_key_has_one_value(rt: HostRuntime) -> Result<(), Fail> {
    let mut tree = open(rt.alloc(), 0)?;
    let mut pass = Pass::new(rt.alloc());
    assert!(rt; writes(rt.alloc(), &mut tree, &mut pass, Op::Weak, 0));
    assert!(rt; writes(rt.alloc(), &mut tree, &mut pass, Op::Set(text("x")), 1));
    assert!(rt; may_not_set(rt.alloc(), &mut tree, &mut pass));
    assert_eq!(rt; tree.visible_seqno().get(), 2);
    drop(pass);
    drop(tree);
    Ok(())
}

fn finds_nothing(tree: &mut Recorded, pass: &mut Pass, snapshot: SeqNo) -> bool {
    matches!(tree.get(pass, b"a", snapshot), Ok(None))
}

fn finds(tree: &mut Recorded, pass: &mut Pass, snapshot: SeqNo) -> bool {
    match tree.get(pass, b"a", snapshot) {
        Ok(value) => value == Some(text("x")),
        Err(_) => false,
    }
}

fn seals(tree: &mut Recorded, pass: &mut Pass) -> bool {
    matches!(tree.rotate_memtable(pass), Ok(Some(0)))
}

/// Whether the entries have places from 0 on, so many.
fn has_places(pass: &Pass, count: u64) -> bool {
    pass.entries().iter().map(|noted| noted.0).eq(0..count)
}

#[test]
fn calls_are_noted_with_their_places(rt: HostRuntime) -> Result<(), Fail> {
    let mut tree = open(rt.alloc(), 1)?;
    let mut pass = Pass::new(rt.alloc());
    assert!(rt; sets(&mut tree, &mut pass, "a", 0, 50));
    assert!(rt; finds_nothing(&mut tree, &mut pass, 0));
    assert!(rt; seals(&mut tree, &mut pass));
    assert!(rt; finds(&mut tree, &mut pass, 1));
    assert_eq!(rt; tree.journal().len(), 3);
    assert!(rt; has_places(&pass, 3));
    drop(pass);
    drop(tree);
    Ok(())
}

/// Whether two keys that begin with `a` and one that doesn't are set.
fn sets_three(tree: &mut Recorded, pass: &mut Pass) -> bool {
    matches!(tree.insert(pass, text("a"), text("x"), 0), Ok(_))
        && matches!(tree.insert(pass, text("ab"), text("y"), 1), Ok(_))
        && matches!(tree.insert(pass, text("b"), text("z"), 2), Ok(_))
}

fn ranges(tree: &mut Recorded, pass: &mut Pass, snapshot: SeqNo, count: usize) -> bool {
    let bounds = (Bound::Included(text("a")), Bound::Excluded(text("b")));
    match tree.range(pass, &bounds, snapshot) {
        Ok(pairs) => pairs.as_slice().len() == count,
        Err(_) => false,
    }
}

fn prefixes(tree: &mut Recorded, pass: &mut Pass, prefix: &'static str, count: usize) -> bool {
    match tree.prefix(pass, &text(prefix), 3) {
        Ok(pairs) => pairs.as_slice().len() == count,
        Err(_) => false,
    }
}

#[test]
fn ranges_and_prefixes_are_noted(rt: HostRuntime) -> Result<(), Fail> {
    let mut tree = open(rt.alloc(), 3)?;
    let mut pass = Pass::new(rt.alloc());
    assert!(rt; sets_three(&mut tree, &mut pass));
    assert!(rt; ranges(&mut tree, &mut pass, 3, 2));
    assert!(rt; ranges(&mut tree, &mut pass, 1, 1));
    assert!(rt; prefixes(&mut tree, &mut pass, "a", 2));
    assert!(rt; prefixes(&mut tree, &mut pass, "", 3));
    assert!(rt; has_places(&pass, 7));
    drop(pass);
    drop(tree);
    Ok(())
}

/// Whether a pair of this key is given.
fn has_key(pair: Option<Guard>, name: &[u8]) -> bool {
    match pair {
        Some(guard) => match guard.key() {
            Ok(key) => key.as_slice() == name,
            Err(_) => false,
        },
        None => false,
    }
}

/// Whether the iterator gives the keys `a` and `ab` alone, the greater first.
fn gives_two(iter: Result<TreeIter, Error>) -> bool {
    match iter {
        Ok(mut iter) => {
            has_key(iter.next_back(), b"ab")
                && has_key(iter.next_back(), b"a")
                && iter.next_back().is_none()
        }
        Err(_) => false,
    }
}

/// Whether a pair of this key is lent.
fn is_of_key(pair: Option<(&UserKey, &UserValue)>, name: &[u8]) -> bool {
    match pair {
        Some((key, _)) => key.as_slice() == name,
        None => false,
    }
}

/// Whether the keys `a` and `ab` alone are lent, the greater first.
fn lends_two(pairs: Result<Pairs<'_>, Error>) -> bool {
    match pairs {
        Ok(mut pairs) => {
            is_of_key(pairs.next_back(), b"ab")
                && is_of_key(pairs.next_back(), b"a")
                && pairs.next_back().is_none()
        }
        Err(_) => false,
    }
}

fn lends(tree: &Recorded) -> bool {
    let bounds = (Bound::Included(text("a")), Bound::Excluded(text("b")));
    gives_two(tree.create_range(&bounds, 3))
        && gives_two(tree.create_prefix(&text("a"), 3))
        && lends_two(tree.pairs(&bounds, 3))
        && lends_two(tree.pairs_with_prefix(&text("a"), 3))
}

#[test]
fn iterators_are_not_noted(rt: HostRuntime) -> Result<(), Fail> {
    let mut tree = open(rt.alloc(), 3)?;
    let mut pass = Pass::new(rt.alloc());
    assert!(rt; sets_three(&mut tree, &mut pass));
    assert!(rt; lends(&tree));
    assert_eq!(rt; tree.journal().len(), 3);
    drop(pass);
    drop(tree);
    Ok(())
}
