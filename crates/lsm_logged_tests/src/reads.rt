// Reads of a logged tree, of a pair in a table and one in memory.
use crate::trees::{flush, fresh, shows, write};
use lsm_iter::{Guard, IterGuard, Pairs, TreeIter};
use lsm_logged::Logged;
use lsm_state::{Error, UserKey, UserValue};
use std::alloc::Global;
use std::ops::Bound;
use std::test::Fail;

/// Puts a = x into a table, under 0, and b = y into memory, under 2.
fn fill(alloc: Global, tree: &mut Logged) -> Result<bool, Error> {
    write(alloc, tree, "a", Some("x"))?;
    let flushed = flush(tree)?;
    write(alloc, tree, "b", Some("y"))?;
    Ok(flushed)
}

/// Whether this is the pair of these.
fn is_pair(pair: Option<Guard>, name: &str, text: &str) -> bool {
    match pair {
        Some(guard) => match guard.into_inner() {
            Ok((key, value)) => {
                key.as_slice() == name.as_bytes() && value.as_slice() == text.as_bytes()
            }
            Err(_) => false,
        },
        None => false,
    }
}

fn is_first(pair: Option<Guard>) -> bool {
    is_pair(pair, "a", "x")
}

fn is_last(pair: Option<Guard>) -> bool {
    is_pair(pair, "b", "y")
}

/// Whether both pairs are given, and no other.
fn gives_both(iter: Result<TreeIter, Error>) -> bool {
    match iter {
        Ok(mut iter) => is_first(iter.next()) && is_last(iter.next()) && iter.next().is_none(),
        Err(_) => false,
    }
}

/// Whether b = y alone is given.
fn gives_last(iter: Result<TreeIter, Error>) -> bool {
    match iter {
        Ok(mut iter) => is_last(iter.next()) && iter.next().is_none(),
        Err(_) => false,
    }
}

/// Whether this is the pair of these, lent.
fn is_lent(pair: Option<(&UserKey, &UserValue)>, name: &str, text: &str) -> bool {
    match pair {
        Some((key, value)) => {
            key.as_slice() == name.as_bytes() && value.as_slice() == text.as_bytes()
        }
        None => false,
    }
}

/// Whether both pairs are lent, and no other.
fn lends_both(pairs: Result<Pairs<'_>, Error>) -> bool {
    match pairs {
        Ok(mut pairs) => {
            is_lent(pairs.next(), "a", "x")
                && is_lent(pairs.next(), "b", "y")
                && pairs.next().is_none()
        }
        Err(_) => false,
    }
}

/// Whether b = y alone is lent.
fn lends_last(pairs: Result<Pairs<'_>, Error>) -> bool {
    match pairs {
        Ok(mut pairs) => is_lent(pairs.next_back(), "b", "y") && pairs.next_back().is_none(),
        Err(_) => false,
    }
}

/// Whether the entry of b is that of its write.
fn decides(tree: &Logged) -> bool {
    match tree.get_internal_entry(b"b", 3) {
        Ok(Some(entry)) => entry.key.seqno == 2,
        Ok(None) => false,
        Err(_) => false,
    }
}

fn reads_keys(tree: &Logged) -> Result<bool, Error> {
    Ok(
        shows(tree, 3, "a", Some("x"))?
            && decides(tree)
            && tree.contains_key(b"a", 1)?
            && !tree.contains_key(b"b", 2)?
            && tree.size_of(b"b", 3)? == Some(1),
    )
}

fn reads_ranges(tree: &Logged) -> bool {
    let all = (Bound::Unbounded, Bound::Unbounded);
    gives_both(tree.range(&all, 3, None))
        && gives_both(tree.create_range(&all, 3, None))
        && gives_both(tree.create_internal_range(&all, 3, None))
        && gives_both(tree.iter(3, None))
        && gives_both(tree.create_iter(3, None))
        && gives_last(tree.prefix(b"b", 3, None))
        && gives_last(tree.create_prefix(b"b", 3, None))
        && lends_both(tree.pairs(&all, 3, None))
        && lends_last(tree.pairs_with_prefix(b"b", 3, None))
}

fn counts_both(tree: &Logged) -> Result<bool, Error> {
    let version = tree.get_version_for_snapshot(3)?;
    Ok(
        tree.len(3, None)? == 2
            && !tree.is_empty(3, None)?
            && is_first(tree.first_key_value(3, None)?)
            && is_last(tree.last_key_value(3, None)?)
            && version.seqno == 1,
    )
}

/// Whether each read is as it is to be.
fn reads(alloc: Global, tree: &mut Logged) -> Result<bool, Error> {
    let flushed = fill(alloc, tree)?;
    Ok(flushed && reads_keys(tree)? && reads_ranges(tree) && counts_both(tree)?)
}

fn read_fresh(alloc: Global) -> Result<bool, Error> {
    let mut tree = fresh(alloc)?;
    let told = reads(alloc, &mut tree);
    drop(tree);
    told
}

#[test]
fn a_logged_tree_is_read_in_each_way(rt: HostRuntime) -> Result<(), Fail> {
    let right = read_fresh(rt.alloc())?;
    assert!(rt; right);
    Ok(())
}
