// A tree's reads of many keys.
use crate::given::Turn::{Back, Front};
use crate::rows::Row;
use crate::rows::Row::{Counts, Does, Ends, Holds, Prefix, Range, Takes, Under};
use crate::samples::Edge::{In, Out};
use crate::samples::INDEX;
use crate::scripts::Part::Plays;
use crate::scripts::{Script, play_all};
use crate::steps::Step::{Insert, Remove};
use crate::steps::Told::Sizes;

/// Keys 1, 3 and 5, at 0, 1 and 2, each of 1 + 1 + 48 bytes.
const ODD: [Row; 3] = [
    Does(Insert("1", "a", 0), Sizes((50, 50))),
    Does(Insert("3", "b", 1), Sizes((50, 100))),
    Does(Insert("5", "c", 2), Sizes((50, 150))),
];

const COUNTS: [Script; 4] = [
    ("a new tree shows nothing", &[Plays(&[Counts(0, 0)])]),
    (
        "counts keys and finds the ends",
        &[Plays(&ODD), Plays(&[Counts(3, 3), Ends(3, "1", "5")])],
    ),
    // 1 + 8 + 48, and 1 + 48 after it.
    (
        "sizes are counted",
        &[Plays(&[
            Does(Insert("a", "my_value", 0), Sizes((57, 57))),
            Does(Remove("a", 1), Sizes((49, 106))),
            Holds("a", 1, Some(8)),
            Holds("b", 1, None),
            Holds("a", 2, None),
        ])],
    ),
    (
        "both ends meet",
        &[
            Plays(&ODD),
            Plays(&[Takes(3, &[Front("1"), Back("5"), Front("3"), Front("")])]),
        ],
    ),
];

const LISTS: [Script; 3] = [
    (
        "an index lies over the tree",
        &[Plays(&[
            Does(Insert("a", "x", 0), Sizes((50, 50))),
            Does(Insert("b", "y", 1), Sizes((50, 100))),
            Under(INDEX + 1, 2, "ao"),
            Under(INDEX, 2, "axby"),
        ])],
    ),
    (
        "a range keeps its bounds",
        &[
            Plays(&ODD),
            Plays(&[
                Range(In(b"1"), Out(b"5"), 3, "1a3b"),
                Range(Out(b"1"), In(b"5"), 3, "3b5c"),
                Range(In(b"5"), In(b"1"), 3, ""),
            ]),
        ],
    ),
    // Of the keys a begins two, and b one.
    (
        "a prefix takes the keys that begin so",
        &[Plays(&[
            Does(Insert("a", "1", 0), Sizes((50, 50))),
            Does(Insert("ab", "2", 1), Sizes((51, 101))),
            Does(Insert("b", "3", 2), Sizes((50, 151))),
            Prefix("a", 3, "a1ab2"),
            Prefix("ab", 3, "ab2"),
            Prefix("c", 3, ""),
            Prefix("", 3, "a1ab2b3"),
        ])],
    ),
];

#[test]
fn keys_are_counted_and_listed(rt: HostRuntime) {
    play_all(&rt, rt.alloc(), &COUNTS);
    play_all(&rt, rt.alloc(), &LISTS);
}
