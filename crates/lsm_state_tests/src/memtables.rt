// Look-ups, sizes and bounds of a memtable, and how many steps its calls take.
use crate::samples::Edge::{In, Open, Out};
use crate::samples::{Edge, Entry, bounds, filled, item};
use lsm_memtable::Steps;
use lsm_state::{Error, InternalValue, Iter, Memtable, SeqNo};
use std::alloc::Global;
use std::test::Fail;

// ---- look-ups

const TWO_KEYS: [Entry; 5] = [
    ("hello-key-999991", Some("hello-value-999991"), 0),
    ("hello-key-999991", Some("hello-value-999991-2"), 1),
    ("abc", Some(""), 0),
    ("abc", Some(""), 255),
    ("abc", Some(""), 99),
];

/// A key, a snapshot, and the sequence number and value that are found, or nothing.
const LOOKUPS: [(&str, SeqNo, Option<(SeqNo, &str)>); 10] = [
    ("abc", u64::MAX, Some((255, ""))),
    ("abc", 100, Some((99, ""))),
    ("abc", 50, Some((0, ""))),
    ("abc", 0, None),
    (
        "hello-key-999991",
        u64::MAX,
        Some((1, "hello-value-999991-2")),
    ),
    ("hello-key-999991", 1, Some((0, "hello-value-999991"))),
    ("hello-key-999991", 2, Some((1, "hello-value-999991-2"))),
    ("hello-key-99999", u64::MAX, None),
    ("hello-key-99999", 1, None),
    ("hello-key-99999", 2, None),
];

fn finds(table: &Memtable, key: &str, snapshot: SeqNo, want: Option<(SeqNo, &str)>) -> bool {
    match (table.get(key.as_bytes(), snapshot), want) {
        (Some(entry), Some((seqno, value))) => {
            entry.key.seqno == seqno && entry.value.as_slice() == value.as_bytes()
        }
        (None, None) => true,
        _ => false,
    }
}

#[test]
fn finds_the_newest_below_the_snapshot(rt: HostRuntime) -> Result<(), Fail> {
    let table = filled(rt.alloc(), 0, &TWO_KEYS)?;
    for (key, snapshot, want) in LOOKUPS {
        assert!(rt; finds(&table, key, snapshot, want), "{key} at {snapshot}");
    }
    drop(table);
    Ok(())
}

// ---- sizes

/// What is put in, the sizes that are counted for it, and how many entries there are then.
const SIZES: [(Entry, (u64, u64), usize); 3] = [
    (("a", Some("my_value"), 0), (57, 57), 1),
    (("a", None, 1), (49, 106), 2),
    (("a", Some("x"), 1), (50, 156), 2),
];

/// The sequence number of the entry that is lent, if one is.
fn number(entry: Option<&InternalValue>) -> Option<SeqNo> {
    match entry {
        Some(entry) => Some(entry.key.seqno),
        None => None,
    }
}

fn counts(table: &mut Memtable, entry: &Entry, sizes: (u64, u64), len: usize) -> bool {
    match table.insert(item(entry)) {
        Ok(found) => found == sizes && table.len() == len,
        Err(_) => false,
    }
}

#[test]
fn counts_replaced_entries_again(rt: HostRuntime) {
    let mut table = Memtable::new(rt.alloc(), 0);
    for (entry, sizes, len) in SIZES {
        assert!(rt; counts(&mut table, &entry, sizes, len), "{len} entries");
    }
    assert!(rt; table.size() == 156 && table.get_highest_seqno() == Some(1));
    drop(table);
}

#[test]
fn puts_a_housed_entry(rt: HostRuntime) -> Result<(), Fail> {
    let mut table = Memtable::new(rt.alloc(), 0);
    let entry = table.house(item(&("a", Some("x"), 1)));
    let is_empty = table.is_empty();
    let is_taken = matches!(table.insert_housed(entry), Ok((50, 50)));
    let is_found = finds(&table, "a", 2, Some((1, "x")));
    drop(table);
    assert!(rt; is_empty && is_taken && is_found);
    Ok(())
}

// ---- bounds

/// Bounds, how many entries lie within, the first one's number, and how many of these lie within other bounds.
type Cut = ((Edge, Edge), usize, Option<SeqNo>, (Edge, Edge), usize);

const CUTS: [Cut; 5] = [
    ((Open, Open), 3, Some(2), (In(b"a"), Out(b"b")), 2),
    ((In(b"a"), Out(b"b")), 2, Some(2), (In(b"b"), In(b"b")), 0),
    ((In(b"a"), Out(b"b")), 2, Some(2), (Open, Open), 2),
    ((Out(b"a"), In(b"b")), 1, Some(1), (Open, Open), 1),
    ((In(b"b"), In(b"a")), 0, None, (Open, Open), 0),
];

fn batch(alloc: Global) -> Result<Memtable, Error> {
    let mut table = Memtable::new(alloc, 0);
    table.insert_all(vec![in alloc;
        item(&("b", Some(""), 1)),
        item(&("a", Some(""), 1)),
        item(&("a", Some(""), 2)),
    ]?)?;
    Ok(table)
}

fn number_of(entries: Iter<'_>) -> usize {
    let mut count: usize = 0;
    for _ in entries {
        count = count.saturating_add(1);
    }
    count
}

fn cuts(table: &Memtable, cut: &Cut) -> bool {
    let within = bounds(&cut.0.0, &cut.0.1);
    let part = table.span().within(&within);
    number_of(table.range(&within)) == cut.1
        && number(table.range(&within).next()) == cut.2
        && number_of(part.iter()) == cut.1
        && number_of(part.within(&bounds(&cut.3.0, &cut.3.1)).iter()) == cut.4
}

fn ends_with(table: &Memtable, name: &str) -> bool {
    match table.iter().next_back() {
        Some(entry) => entry.key.user_key.as_slice() == name.as_bytes(),
        None => false,
    }
}

#[test]
fn lends_and_cuts_what_lies_within_bounds(rt: HostRuntime) -> Result<(), Fail> {
    let table = batch(rt.alloc())?;
    for (place, cut) in CUTS.iter().enumerate() {
        assert!(rt; cuts(&table, cut), "row {place}");
    }
    assert!(rt; ends_with(&table, "b"));
    drop(table);
    Ok(())
}

// ---- steps

/// Whether each of so many inserts, each before all others, moves at most 64 entries.
fn moves_few(table: &mut Memtable, count: SeqNo) -> bool {
    for seqno in 0..count {
        let mut steps = Steps::new();
        let done = table.insert_counted(item(&("a", Some(""), seqno)), &mut steps);
        if done.is_err() || steps.moved > 64 {
            return false;
        }
    }
    true
}

/// Whether a look-up at each snapshot finds the entry below it with at most so many comparisons, among so many blocks.
fn compares_few(table: &Memtable, count: SeqNo, most: u64, blocks: u64) -> bool {
    for seqno in 0..count {
        let mut steps = Steps::new();
        let found = table.get_counted(b"a", seqno.saturating_add(1), &mut steps);
        if number(found) != Some(seqno) || steps.compared > most || steps.blocks > blocks {
            return false;
        }
    }
    true
}

// A full block of 64 is cut in halves, so 200 entries stand in at most 6 blocks, and 6 has three binary digits.
#[test]
fn takes_few_steps(rt: HostRuntime) {
    let mut table = Memtable::new(rt.alloc(), 0);
    assert!(rt; compares_few(&table, 0, 8, 0));
    assert!(rt; moves_few(&mut table, 200));
    assert!(rt; compares_few(&table, 200, 11, 6) && table.len() == 200);
    drop(table);
    // Counts stop at the greatest number.
    let mut steps = Steps {
        compared: u64::MAX,
        moved: u64::MAX - 1,
        blocks: 0,
    };
    steps.tick_compared();
    steps.tick_moved();
    assert!(rt; steps.compared == u64::MAX && steps.moved == u64::MAX);
}
