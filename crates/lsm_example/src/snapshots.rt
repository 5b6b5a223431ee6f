//! A batch, reads at two snapshots, and a range.

use crate::{open, text};
use anyhow::Result;
use lsm_tree::{IterGuard, Op, TreeState};
use std::alloc::Global;
use std::ops::Bound;

/// Writes, and reads at two snapshots. It borrows the tree, so that `run` alone drops it.
fn show(rt: &impl Print, alloc: Global, tree: &mut TreeState) -> Result<()> {
    let (one, two) = (Op::Set(text("1")), Op::Set(text("2")));
    tree.write(vec![in alloc; (text("a"), one), (text("b"), two)]?)?;
    let before = tree.visible_seqno().get();
    tree.write(vec![in alloc; (text("a"), Op::Del)]?)?;
    let now = tree.visible_seqno().get();

    println!(rt; "a was {:?}", tree.get(b"a", before)?)?;
    println!(rt; "a is {:?}", tree.get(b"a", now)?)?;
    for pair in tree.range(&(Bound::Included(text("a")), Bound::Unbounded), now, None)? {
        let (key, value) = pair.into_inner()?;
        println!(rt; "{key:?} has {value:?}")?;
    }
    Ok(())
}

pub(crate) fn run(rt: &impl Print, alloc: Global) -> Result<()> {
    let mut tree = open(alloc)?;
    let told = show(rt, alloc, &mut tree);
    drop(tree);
    told
}
