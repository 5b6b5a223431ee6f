// What iterators give over memtables, from both ends.
use crate::given::Turn::{Back, BackEntry, Front, FrontEntry};
use crate::given::{Turn, is, listed, takes};
use crate::samples::Edge::{In, Open, Out};
use crate::samples::{Edge, Entry, INDEX, OVER_A_B, add, bounds, filled};
use lsm_state::{
    End, Error, InternalValue, IterGuard, IterState, Memtable, Overlay, SeqNo, TreeIter, Version,
    end_shown, take_ends,
};
use std::alloc::Global;
use std::process::Abort;

/// What is asked of what a snapshot shows, and what is given.
enum Ask {
    /// What is listed within bounds.
    Range(Edge, Edge, &'static str),
    /// What is listed of the keys that begin so.
    Prefix(&'static str, &'static str),
    /// What the steps of an iterator give.
    Steps(&'static [Turn]),
    /// The keys that are taken from these ends, with a dash for none.
    Takes(&'static [End], &'static str),
    /// The numbers of the first and the last entry.
    Ends(Option<SeqNo>, Option<SeqNo>),
}

/// What is shown: the entries of memtables from the newest, and the number below which the index over them counts, or 0
/// for none.
type Shown = (&'static [&'static [Entry]], SeqNo);

/// Rows of what is shown, a snapshot, and what is asked.
type Row = (Shown, SeqNo, Ask);

/// Keys 1, 3 and 5, at 0, 1 and 2.
const ODD: [Entry; 3] = [
    ("1", Some("x"), 0),
    ("3", Some("y"), 1),
    ("5", Some("z"), 2),
];

/// 3 is set at 7, and 5 is removed at 8.
const CHANGED: [Entry; 2] = [("3", Some("w"), 7), ("5", None, 8)];

const A_B: [Entry; 2] = [("a", Some("x"), 0), ("b", Some("y"), 1)];

const ONE: Shown = (&[&ODD], 0);

const BOTH: Shown = (&[&CHANGED, &ODD], 0);

const TWO: Shown = (&[&A_B], 0);

/// Under what the index has, and below it.
const OVER: Shown = (&[&A_B], INDEX + 1);

const BENEATH: Shown = (&[&A_B], INDEX);

const SNAPSHOTS: [Row; 8] = [
    // A snapshot sees what is below it.
    (ONE, 3, Ask::Range(Open, Open, "1x3y5z")),
    (ONE, 2, Ask::Range(Open, Open, "1x3y")),
    (ONE, 0, Ask::Range(Open, Open, "")),
    // The newest source is no matter, but the number is.
    (BOTH, 9, Ask::Range(Open, Open, "1x3w")),
    (BOTH, 8, Ask::Range(Open, Open, "1x3w5z")),
    ((&[&ODD, &CHANGED], 0), 9, Ask::Range(Open, Open, "1x3w")),
    // An index counts below its own number.
    (OVER, 2, Ask::Range(Open, Open, "ao")),
    (BENEATH, 2, Ask::Range(Open, Open, "axby")),
];

const BOUNDS: [Row; 6] = [
    // Bounds take their keys in or leave them out.
    (ONE, 3, Ask::Range(Out(b"1"), In(b"3"), "3y")),
    (ONE, 3, Ask::Range(In(b"1"), Out(b"3"), "1x")),
    (ONE, 3, Ask::Range(In(b"5"), In(b"1"), "")),
    // A prefix lists what begins so.
    (ONE, 3, Ask::Prefix("3", "3y")),
    (ONE, 3, Ask::Prefix("", "1x3y5z")),
    (ONE, 3, Ask::Prefix("33", "")),
];

const ENDS: [Row; 7] = [
    // Both ends of one list meet.
    (
        ONE,
        3,
        Ask::Takes(
            &[End::Front, End::Back, End::Front, End::Front, End::Back],
            "153--",
        ),
    ),
    (
        ONE,
        3,
        Ask::Steps(&[BackEntry(2), FrontEntry(0), Back("3"), Front("")]),
    ),
    // The ends are found alone: the index's where it counts, and those beneath where it doesn't.
    (OVER, 2, Ask::Ends(Some(INDEX), Some(INDEX))),
    (BENEATH, 2, Ask::Ends(Some(0), Some(1))),
    // The ends of nothing are none.
    (TWO, 0, Ask::Ends(None, None)),
    (TWO, 1, Ask::Ends(Some(0), Some(0))),
    (TWO, 2, Ask::Ends(Some(0), Some(1))),
];

// ---- what is shown

fn tables(alloc: Global, lists: &[&[Entry]]) -> Vec<Memtable> {
    let mut tables = Vec::new(alloc);
    for list in lists {
        add(&mut tables, filled(alloc, 0, list));
    }
    tables
}

fn state<'a>(
    alloc: Global,
    version: &'a Version,
    tables: &'a [Memtable],
    index: Overlay<'a>,
) -> Result<IterState<'a>, Error> {
    let mut borrowed = Vec::new(alloc);
    for table in tables {
        borrowed.push(table)?;
    }
    Ok(IterState::new(version, borrowed, index))
}

// ---- what is given

fn taken(alloc: Global, iter: Result<TreeIter, Error>, ends: &[End]) -> Result<Vec<u8>, Error> {
    let mut iter = iter?;
    let mut keys = Vec::new(alloc);
    for pair in take_ends(alloc, &mut iter, ends)? {
        match pair {
            Some(guard) => keys.extend_from_slice(guard.key()?.as_slice())?,
            None => keys.push(b'-')?,
        }
    }
    Ok(keys)
}

/// Whether the entry that is found has this sequence number, or none is.
fn is_numbered(entry: Result<Option<InternalValue>, Error>, seqno: Option<SeqNo>) -> bool {
    match entry {
        Ok(Some(entry)) => Some(entry.key.seqno) == seqno,
        Ok(None) => seqno.is_none(),
        Err(_) => false,
    }
}

fn ends_so(
    alloc: Global,
    state: &IterState<'_>,
    at: SeqNo,
    want: (Option<SeqNo>, Option<SeqNo>),
) -> bool {
    let all = bounds(&Open, &Open);
    is_numbered(end_shown(alloc, state, End::Front, &all, at), want.0)
        && is_numbered(end_shown(alloc, state, End::Back, &all, at), want.1)
}

fn range(
    alloc: Global,
    state: &IterState<'_>,
    snapshot: SeqNo,
    low: &Edge,
    high: &Edge,
) -> Result<TreeIter, Error> {
    TreeIter::create_range(alloc, state, &bounds(low, high), snapshot)
}

fn answers(alloc: Global, state: &IterState<'_>, snapshot: SeqNo, ask: &Ask) -> bool {
    match ask {
        Ask::Range(low, high, text) => {
            is(
                listed(alloc, range(alloc, state, snapshot, low, high)),
                *text,
            )
        }
        Ask::Prefix(name, text) => is(
            listed(
                alloc,
                TreeIter::create_prefix(alloc, state, name.as_bytes(), snapshot),
            ),
            *text,
        ),
        Ask::Steps(turns) => takes(range(alloc, state, snapshot, &Open, &Open), *turns),
        Ask::Takes(ends, text) => is(
            taken(alloc, range(alloc, state, snapshot, &Open, &Open), *ends),
            *text,
        ),
        Ask::Ends(first, last) => ends_so(alloc, state, snapshot, (*first, *last)),
    }
}

fn answers_over(alloc: Global, tables: &[Memtable], index: Overlay<'_>, row: &Row) -> bool {
    let version = Version::new(alloc, 0);
    match state(alloc, &version, tables, index) {
        Ok(state) => answers(alloc, &state, row.1, &row.2),
        Err(_) => false,
    }
}

fn is_right(alloc: Global, row: &Row) -> Result<bool, Error> {
    let index = filled(alloc, 1, &OVER_A_B)?;
    let tables = tables(alloc, row.0.0);
    let over = if row.0.1 > 0 {
        Some((&index, row.0.1))
    } else {
        None
    };
    let right = answers_over(alloc, &tables, over, row);
    drop(tables);
    drop(index);
    Ok(right)
}

fn are_right(rt: &impl Abort, alloc: Global, rows: &[Row]) {
    for (place, row) in rows.iter().enumerate() {
        assert!(rt; matches!(is_right(alloc, row), Ok(true)), "row {place}");
    }
}

#[test]
fn a_snapshot_sees_what_is_below_it(rt: HostRuntime) {
    are_right(&rt, rt.alloc(), &SNAPSHOTS);
}

#[test]
fn both_ends_and_bounds_are_kept(rt: HostRuntime) {
    are_right(&rt, rt.alloc(), &BOUNDS);
    are_right(&rt, rt.alloc(), &ENDS);
}
