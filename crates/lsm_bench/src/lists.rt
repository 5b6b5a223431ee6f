// Workloads that read many keys at a time.
use crate::keys::{RANGE, group_of, user_key};
use crate::workloads::{Span, Way};
use lsm_tree::{Error, Pairs, SeqNo, Store, TreeIter, TreeState, UserKey, UserValue};
use std::alloc::{AllocError, Global};
use std::ops::Bound;

type Bounds = (Bound<UserKey>, Bound<UserKey>);

/// Lists all entries once, or those that belong to each of these ids. The check is the sum of what they weigh.
pub fn list<S: Store>(
    alloc: Global,
    tree: &TreeState<S>,
    way: Way,
    span: Span,
    ids: &[u64],
) -> Result<u64, Error> {
    let snapshot = tree.visible_seqno().get();
    let calls = match span {
        Span::Whole => ids.len().min(1),
        Span::Range | Span::Open | Span::Group => ids.len(),
    };
    let mut sum = 0u64;
    for id in &ids[..calls] {
        let bounds = bounds_of(alloc, span, *id)?;
        let part = match way {
            Way::Iter => sum_copied(tree, span, *id, &bounds, snapshot)?,
            Way::Lent => sum_lent(tree, span, *id, &bounds, snapshot)?,
            Way::Back => sum_back(tree.pairs(&bounds, snapshot, None)?),
        };
        sum = sum.wrapping_add(part);
    }
    Ok(sum)
}

/// The bounds of what one call lists. Those of a group are its prefix.
fn bounds_of(alloc: Global, span: Span, id: u64) -> Result<Bounds, AllocError> {
    Ok(match span {
        Span::Whole | Span::Group => (Bound::Unbounded, Bound::Unbounded),
        Span::Range => (
            Bound::Included(user_key(alloc, id)?),
            Bound::Excluded(user_key(alloc, id.saturating_add(RANGE))?),
        ),
        Span::Open => (Bound::Included(user_key(alloc, id)?), Bound::Unbounded),
    })
}

/// How many entries of a call are taken. Of an open range as many as the other has ids.
fn most_of(span: Span) -> u64 {
    match span {
        Span::Open => RANGE,
        Span::Whole | Span::Range | Span::Group => u64::MAX,
    }
}

fn sum_copied<S: Store>(
    tree: &TreeState<S>,
    span: Span,
    id: u64,
    bounds: &Bounds,
    snapshot: SeqNo,
) -> Result<u64, Error> {
    let most = most_of(span);
    match span {
        Span::Group => sum_entries(tree.prefix(&group_of(id), snapshot, None)?, most),
        _ => sum_entries(tree.range(bounds, snapshot, None)?, most),
    }
}

fn sum_lent<S: Store>(
    tree: &TreeState<S>,
    span: Span,
    id: u64,
    bounds: &Bounds,
    snapshot: SeqNo,
) -> Result<u64, Error> {
    let most = most_of(span);
    let pairs = match span {
        Span::Group => tree.pairs_with_prefix(&group_of(id), snapshot, None)?,
        _ => tree.pairs(bounds, snapshot, None)?,
    };
    Ok(sum_pairs(pairs, most))
}

/// What an entry adds to a sum: the length of its key and the first byte of its value.
fn weight(key: &UserKey, value: &UserValue) -> u64 {
    let first = value.as_slice().first().copied().unwrap_or(0);
    u64::from(first).wrapping_add(key.len() as u64)
}

/// The sum over the first so many entries.
fn sum_entries(mut iter: TreeIter, most: u64) -> Result<u64, Error> {
    let mut sum = 0u64;
    for _ in 0..most {
        let Some(entry) = iter.next_entry() else {
            break;
        };
        let entry = entry?;
        sum = sum.wrapping_add(weight(&entry.key.user_key, &entry.value));
    }
    Ok(sum)
}

/// The sum over the first so many pairs.
fn sum_pairs(mut pairs: Pairs<'_>, most: u64) -> u64 {
    let mut sum = 0u64;
    for _ in 0..most {
        let Some((key, value)) = pairs.next() else {
            break;
        };
        sum = sum.wrapping_add(weight(key, value));
    }
    sum
}

/// The sum over all pairs, from the last one on.
fn sum_back(pairs: Pairs<'_>) -> u64 {
    let mut sum = 0u64;
    for (key, value) in pairs.rev() {
        sum = sum.wrapping_add(weight(key, value));
    }
    sum
}
