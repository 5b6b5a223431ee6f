// What each key is to show: a table of values, by rising key, that knows nothing of a tree.

use lsm_state::{KvPair, Op, UserKey, UserValue};
use std::ops::Bound;

/// How many keys there are.
pub const COUNT: usize = 12;

/// The keys, rising. Some begin others.
pub const KEYS: [&str; COUNT] = [
    "a", "aa", "ab", "b", "ba", "bb", "c", "ca", "cb", "d", "da", "db",
];

/// What a key is to show.
#[derive(Clone, Copy, Debug)]
pub enum Shown {
    /// No value.
    Nothing,
    /// The value that is this number, in eight bytes.
    Value(u64),
    /// Any value or none: its range was dropped, and it wasn't written since.
    Anything,
}

impl Shown {
    /// What is to be shown after an operation.
    fn behind(op: &Op) -> Shown {
        match op {
            Op::Set(value) => match value.as_slice().try_into() {
                Ok(bytes) => Shown::Value(u64::from_be_bytes(bytes)),
                Err(_) => Shown::Anything,
            },
            Op::Del | Op::Weak => Shown::Nothing,
        }
    }

    /// Whether this may be found.
    pub fn allows(self, found: Option<&UserValue>) -> bool {
        match (self, found) {
            (Shown::Nothing, None) | (Shown::Anything, _) => true,
            (Shown::Value(number), Some(value)) => value.as_slice()
                == number.to_be_bytes().as_slice(),
            _ => false,
        }
    }
}

/// Some of the keys.
#[derive(Drop)]
pub enum Part<'a> {
    Between(&'a Bound<UserKey>, &'a Bound<UserKey>),
    Beginning(&'a [u8]),
}

/// All of the keys.
pub const ALL: Part<'static> = Part::Beginning(b"");

impl Part<'_> {
    fn has(&self, key: &[u8]) -> bool {
        match self {
            Part::Between(low, high) => {
                let above = match low {
                    Bound::Included(low) => low.as_slice() <= key,
                    Bound::Excluded(low) => low.as_slice() < key,
                    Bound::Unbounded => true,
                };
                let below = match high {
                    Bound::Included(high) => key <= high.as_slice(),
                    Bound::Excluded(high) => key < high.as_slice(),
                    Bound::Unbounded => true,
                };
                above && below
            }
            Part::Beginning(start) => key.starts_with(start),
        }
    }
}

/// The value of a pair, if it is one of this key.
fn value_of<'a>(pair: Option<&'a KvPair>, key: &str) -> Option<&'a UserValue> {
    match pair {
        Some((found, value)) if found.as_slice() == key.as_bytes() => Some(value),
        _ => None,
    }
}

/// What each of the keys is to show.
#[derive(Clone, Copy, Debug)]
pub struct Table {
    shown: [Shown; COUNT],
}

impl Table {
    /// No key shows a value.
    pub const EMPTY: Table = Table {
        shown: [Shown::Nothing; COUNT],
    };

    /// The table after a batch, all of it.
    pub fn with(self, ops: &[(UserKey, Op)]) -> Table {
        let mut shown = self.shown;
        for (key, op) in ops {
            for (name, place) in KEYS.iter().zip(&mut shown) {
                if name.as_bytes() == key.as_slice() {
                    *place = Shown::behind(op);
                }
            }
        }
        Table { shown }
    }

    /// The table after a drop of tables within these bounds.
    pub fn without(self, part: &Part<'_>) -> Table {
        let mut shown = self.shown;
        for (name, place) in KEYS.iter().zip(&mut shown) {
            if part.has(name.as_bytes()) {
                *place = Shown::Anything;
            }
        }
        Table { shown }
    }

    /// Whether a read of this key may find this.
    pub fn allows(&self, key: &[u8], found: Option<&UserValue>) -> bool {
        for (name, shown) in KEYS.iter().zip(&self.shown) {
            if name.as_bytes() == key {
                return shown.allows(found);
            }
        }
        found.is_none()
    }

    /// Whether a read of these keys may find these pairs: each value that is to be shown, by rising key, and no other pair.
    pub fn lists(&self, part: &Part<'_>, pairs: &[KvPair]) -> bool {
        let mut met: usize = 0;
        for (name, shown) in KEYS.iter().zip(&self.shown) {
            if part.has(name.as_bytes()) {
                let found = value_of(pairs.get(met), *name);
                if !shown.allows(found) {
                    return false;
                }
                if found.is_some() {
                    met = met.saturating_add(1);
                }
            }
        }
        met == pairs.len()
    }
}
