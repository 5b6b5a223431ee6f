// What the layers show, written down from the rule: of each key in the bounds the entry with the greatest number below
// the snapshot, an index's entries below its own number, where that entry is a value.

use crate::layers::INDEX;
use crate::walks::{Shown, Text};
use Asked::{All, Prefix, Range};
use lsm_state::SeqNo;
use std::ops::Bound::{Excluded, Included, Unbounded};

/// Which keys are asked for.
#[derive(Clone, Copy)]
pub enum Asked {
    All,
    Range(Text, Text),
    Prefix(&'static str),
}

/// What is asked for at a snapshot, under an index with the number below which it counts, if there is one, and what is
/// shown.
pub type Row = (Asked, SeqNo, Option<SeqNo>, &'static [Shown]);

/// All keys at snapshots.
pub const SNAPSHOTS: [Row; 10] = [
    (All, 0, None, &[]),
    (All, 1, None, &[("i", 0)]),
    (
        All,
        3,
        None,
        &[("a", 1), ("ab", 2), ("b", 1), ("d", 2), ("i", 2)],
    ),
    (
        All,
        10,
        None,
        &[
            ("a", 8),
            ("ab", 2),
            ("c", 4),
            ("d", 5),
            ("e", 6),
            ("f", 7),
            ("i", 9),
            ("j", 5),
        ],
    ),
    (
        All,
        12,
        None,
        &[("a", 8), ("ab", 2), ("c", 4), ("f", 7), ("i", 11), ("j", 5)],
    ),
    (
        All,
        13,
        None,
        &[
            ("a", 8),
            ("ab", 2),
            ("c", 4),
            ("e", 12),
            ("f", 7),
            ("i", 12),
            ("j", 5),
        ],
    ),
    (
        All,
        19,
        None,
        &[
            ("a", 8),
            ("b", 18),
            ("c", 14),
            ("d", 13),
            ("e", 12),
            ("f", 16),
            ("h", 17),
            ("i", 12),
            ("j", 5),
        ],
    ),
    (
        All,
        20,
        None,
        &[
            ("a", 8),
            ("b", 18),
            ("c", 14),
            ("d", 13),
            ("f", 16),
            ("h", 17),
            ("i", 12),
        ],
    ),
    (
        All,
        22,
        None,
        &[
            ("a", 8),
            ("b", 18),
            ("c", 14),
            ("d", 13),
            ("g", 21),
            ("h", 20),
            ("i", 12),
        ],
    ),
    (
        All,
        31,
        None,
        &[
            ("a", 8),
            ("b", 18),
            ("c", 25),
            ("d", 13),
            ("g", 30),
            ("h", 20),
            ("i", 12),
            ("j", 22),
        ],
    ),
];

/// Bounds at 20.
pub const BOUNDS: [Row; 22] = [
    (
        Range(Included("b"), Included("d")),
        20,
        None,
        &[("b", 18), ("c", 14), ("d", 13)],
    ),
    (
        Range(Included("b"), Excluded("d")),
        20,
        None,
        &[("b", 18), ("c", 14)],
    ),
    (
        Range(Excluded("b"), Included("d")),
        20,
        None,
        &[("c", 14), ("d", 13)],
    ),
    (Range(Excluded("b"), Excluded("d")), 20, None, &[("c", 14)]),
    (
        Range(Unbounded, Included("c")),
        20,
        None,
        &[("a", 8), ("b", 18), ("c", 14)],
    ),
    (
        Range(Unbounded, Excluded("c")),
        20,
        None,
        &[("a", 8), ("b", 18)],
    ),
    (
        Range(Included("h"), Unbounded),
        20,
        None,
        &[("h", 17), ("i", 12)],
    ),
    (Range(Excluded("h"), Unbounded), 20, None, &[("i", 12)]),
    // Bounds that are no key, and one that is hidden or none at this snapshot.
    (
        Range(Included("aa"), Excluded("cc")),
        20,
        None,
        &[("b", 18), ("c", 14)],
    ),
    (Range(Included("ab"), Included("b")), 20, None, &[("b", 18)]),
    (Range(Included("e"), Included("g")), 20, None, &[("f", 16)]),
    (Range(Included("e"), Excluded("f")), 20, None, &[]),
    (Range(Included(""), Included("a")), 20, None, &[("a", 8)]),
    (Range(Included("i"), Included("i")), 20, None, &[("i", 12)]),
    // No room between them.
    (Range(Included("b"), Excluded("b")), 20, None, &[]),
    (Range(Excluded("b"), Included("b")), 20, None, &[]),
    (Range(Excluded("b"), Excluded("b")), 20, None, &[]),
    (Range(Included("d"), Included("b")), 20, None, &[]),
    (Range(Excluded("i"), Excluded("a")), 20, None, &[]),
    // Beyond all keys.
    (Range(Excluded("j"), Unbounded), 20, None, &[]),
    (Range(Unbounded, Excluded("a")), 20, None, &[]),
    (Range(Included("x"), Included("z")), 20, None, &[]),
];

/// All keys under the index.
pub const ALL_UNDER: [Row; 5] = [
    (
        All,
        20,
        Some(INDEX + 50),
        &[
            ("a", 8),
            ("ab", 40),
            ("c", 42),
            ("d", 13),
            ("h", 17),
            ("i", 12),
            ("k", 44),
        ],
    ),
    (
        All,
        20,
        Some(INDEX + 51),
        &[
            ("a", 8),
            ("ab", 40),
            ("c", 42),
            ("d", 13),
            ("e", 50),
            ("h", 17),
            ("i", 12),
            ("k", 44),
        ],
    ),
    (
        All,
        3,
        Some(6),
        &[("a", 5), ("ab", 2), ("b", 1), ("d", 2), ("i", 2)],
    ),
    (
        All,
        3,
        Some(5),
        &[("a", 1), ("ab", 2), ("b", 1), ("d", 2), ("i", 2)],
    ),
    (All, 0, Some(6), &[("a", 5)]),
];

/// Bounds under the index.
pub const UNDER: [Row; 4] = [
    (Range(Unbounded, Excluded("b")), 0, Some(6), &[("a", 5)]),
    (
        Range(Excluded("a"), Excluded("d")),
        20,
        Some(INDEX + 50),
        &[("ab", 40), ("c", 42)],
    ),
    (
        Range(Included("j"), Included("k")),
        20,
        Some(INDEX + 50),
        &[("k", 44)],
    ),
    (
        Range(Included("b"), Included("b")),
        20,
        Some(INDEX + 50),
        &[],
    ),
];

/// Keys that begin so.
pub const PREFIXES: [Row; 7] = [
    (Prefix("a"), 20, None, &[("a", 8)]),
    (Prefix("a"), 10, None, &[("a", 8), ("ab", 2)]),
    (Prefix("ab"), 10, None, &[("ab", 2)]),
    (Prefix("a"), 20, Some(INDEX + 50), &[("a", 8), ("ab", 40)]),
    (Prefix("e"), 20, None, &[]),
    (Prefix("x"), 31, None, &[]),
    (
        Prefix(""),
        3,
        None,
        &[("a", 1), ("ab", 2), ("b", 1), ("d", 2), ("i", 2)],
    ),
];
