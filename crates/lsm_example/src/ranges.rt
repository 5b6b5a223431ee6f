//! Iterators over what a snapshot shows: within bounds, from both ends, by prefix, and under an overlay of writes that
//! aren't in the tree yet.

use crate::{open, text};
use anyhow::Result;
use lsm_tree::{Guard, IterGuard, Memtable, Op, SeqNo, TreeState};
use std::alloc::Global;
use std::ops::Bound;

/// Writes five keys. The first three go into a table; reads don't tell where a key stands.
fn fill(alloc: Global, tree: &mut TreeState) -> Result<()> {
    for name in ["apple", "apricot", "banana"] {
        tree.write(vec![in alloc; (text(name), Op::Set(text("fruit")))]?)?;
    }
    tree.flush_active_memtable(0).map_err(|refused| refused.0)?;
    for name in ["beet", "carrot"] {
        tree.write(vec![in alloc; (text(name), Op::Set(text("root")))]?)?;
    }
    Ok(())
}

fn print_pair(rt: &impl Print, pair: Guard) -> Result<()> {
    let (key, value) = pair.into_inner()?;
    println!(rt; "  {key:?} {value:?}")?;
    Ok(())
}

/// The pairs from apricot on and below beet, and those of the keys that begin with ap.
fn show_bounds(rt: &impl Print, tree: &TreeState, now: SeqNo) -> Result<()> {
    println!(rt; "from apricot to beet")?;
    let bounds = (
        Bound::Included(text("apricot")),
        Bound::Excluded(text("beet")),
    );
    for pair in tree.range(&bounds, now, None)? {
        print_pair(rt, pair)?;
    }
    println!(rt; "ap..")?;
    for pair in tree.prefix(b"ap", now, None)? {
        print_pair(rt, pair)?;
    }
    Ok(())
}

/// One iterator, asked at both ends: neither end gives a pair that the other gave.
fn show_ends(rt: &impl Print, tree: &TreeState, now: SeqNo) -> Result<()> {
    let mut pairs = tree.iter(now, None)?;
    let (least, greatest) = (pairs.next(), pairs.next_back());
    println!(rt; "least and greatest")?;
    for pair in [least, greatest] {
        if let Some(pair) = pair {
            print_pair(rt, pair)?;
        }
    }
    println!(rt; "the others, backwards")?;
    for pair in pairs.rev() {
        print_pair(rt, pair)?;
    }
    Ok(())
}

/// An overlay: a memtable beside the tree with writes that no other reader is to see, as those of a transaction. Those
/// below the given sequence number are read as if they were the tree's newest. The tree stays as it is.
fn show_overlay(rt: &impl Print, alloc: Global, tree: &TreeState, now: SeqNo) -> Result<()> {
    let mut own = Memtable::new(alloc, 0);
    own.insert(Op::Del.into_entry(text("banana"), now))?;
    own.insert(Op::Set(text("nut")).into_entry(text("cashew"), now))?;
    println!(rt; "with the overlay")?;
    for pair in tree.iter(now, Some((&own, now.saturating_add(1))))? {
        print_pair(rt, pair)?;
    }
    println!(rt; "without it {} keys", tree.len(now, None)?)?;
    Ok(())
}

fn show(rt: &impl Print, alloc: Global, tree: &mut TreeState) -> Result<()> {
    fill(alloc, tree)?;
    let now = tree.visible_seqno().get();
    show_bounds(rt, tree, now)?;
    show_ends(rt, tree, now)?;
    show_overlay(rt, alloc, tree, now)
}

pub(crate) fn run(rt: &impl Print, alloc: Global) -> Result<()> {
    let mut tree = open(alloc)?;
    let told = show(rt, alloc, &mut tree);
    drop(tree);
    told
}
