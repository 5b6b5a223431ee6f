// What several tests make of rows of data.
use lsm_state::{Error, InternalValue, Memtable, MemtableId, SeqNo, UserKey, ValueType};
use std::alloc::Global;
use std::ops::Bound;

pub type Bounds = (Bound<UserKey>, Bound<UserKey>);

/// All keys.
pub const ALL: Bounds = (Bound::Unbounded, Bound::Unbounded);

/// The number of what an index holds.
pub const INDEX: SeqNo = 9_223_372_036_854_775_808;

/// A key, its value or None for a tombstone, and its number.
pub type Entry = (&'static str, Option<&'static str>, SeqNo);

/// What an index has: a is set and b removed.
pub const OVER_A_B: [Entry; 2] = [("a", Some("o"), INDEX), ("b", None, INDEX)];

/// An end of a range of keys.
pub enum Edge {
    Open,
    /// Included.
    In(&'static [u8]),
    /// Excluded.
    Out(&'static [u8]),
}

/// A key or a value.
pub fn bytes(text: &'static str) -> UserKey {
    UserKey::from_static(text.as_bytes())
}

pub fn item(entry: &Entry) -> InternalValue {
    match entry.1 {
        Some(text) => InternalValue::from_components(
            bytes(entry.0),
            bytes(text),
            entry.2,
            ValueType::Value,
        ),
        None => InternalValue::new_tombstone(bytes(entry.0), entry.2),
    }
}

/// A memtable of these entries.
pub fn filled(alloc: Global, id: MemtableId, entries: &[Entry]) -> Result<Memtable, Error> {
    let mut table = Memtable::new(alloc, id);
    for entry in entries {
        table.insert(item(entry))?;
    }
    Ok(table)
}

/// Adds a memtable. One that memory was refused to is missing then from what is asked of them.
pub fn add(tables: &mut Vec<Memtable>, table: Result<Memtable, Error>) {
    if let Ok(table) = table {
        let _ = tables.push(table);
    }
}

fn bound(edge: &Edge) -> Bound<UserKey> {
    match edge {
        Edge::Open => Bound::Unbounded,
        Edge::In(key) => Bound::Included(UserKey::from_static(*key)),
        Edge::Out(key) => Bound::Excluded(UserKey::from_static(*key)),
    }
}

pub fn bounds(low: &Edge, high: &Edge) -> Bounds {
    (bound(low), bound(high))
}
