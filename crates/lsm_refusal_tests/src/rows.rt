// The rows: calls, what each answers, and what the tree shows then.
use crate::steps::Step::{
    Begin, Del, DropBetween, DropWithin, Finish, Flush, Insert, Leveled, Major, Set,
};
use crate::steps::Told::{Declined, Flushed, Installed, Job, Nothing, Number, Sizes};
use crate::steps::{Step, Told};
use lsm_state::{End, SeqNo, Why};

/// An end of an iterator, and the key and the value that it gives there: no pair where the key is empty.
pub type Turn = (End, &'static str, &'static str);

/// A look at what a tree shows.
#[derive(Clone, Copy)]
pub enum Look {
    /// A key's value at a snapshot, None for none.
    Shows(&'static str, SeqNo, Option<&'static str>),
    /// The snapshot is too old.
    TooOld(&'static str, SeqNo),
    Tables(usize),
    /// The runs of the first level, and the tables of the last one.
    Levels(usize, usize),
    Entries(usize),
    /// What an iterator at a snapshot gives.
    Gives(SeqNo, &'static [Turn]),
    /// The same, under an index with a = o and a tombstone of b, both at 2^63, below a number.
    Under(SeqNo, SeqNo, &'static [Turn]),
}

use Look::{Entries, Gives, Levels, Shows, Tables, TooOld, Under};

/// Calls with their answers, whether a crash and an opening with counters at 10 follow, and what is shown then.
pub type Row = (&'static [(Step, Told)], bool, &'static [Look]);

pub const OVER_A_FLUSH: Row = (
    &[
        (Set("a", "x"), Number(0)),
        (Flush(0), Flushed(50, true)),
        (Del("a"), Number(2)),
    ],
    false,
    &[
        Shows("a", 0, None),
        Shows("a", 1, Some("x")),
        Shows("a", 2, Some("x")),
        Shows("a", 3, None),
    ],
);

pub const EVICTING: Row = (
    &[
        (Set("a", "x"), Number(0)),
        (Flush(0), Flushed(50, true)),
        (Major(0), Installed),
        (Del("a"), Number(3)),
        (Flush(0), Flushed(49, true)),
        (Major(5), Installed),
    ],
    false,
    &[
        TooOld("a", 4),
        Shows("a", 5, None),
        Shows("a", 6, None),
        Tables(0),
    ],
);

pub const OVERTAKEN: Row = (
    &[
        (Set("a", "1"), Number(0)),
        (Flush(0), Flushed(50, true)),
        (Set("a", "2"), Number(2)),
        (Flush(0), Flushed(50, true)),
        (Begin, Job),
        (Set("a", "3"), Number(4)),
        (Flush(0), Flushed(50, true)),
        (Finish, Declined(Why::Order)),
    ],
    false,
    &[Shows("a", 6, Some("3")), Tables(3)],
);

/// b is written after the flush, and lost.
pub const CRASHED: Row = (
    &[
        (Set("a", "x"), Number(0)),
        (Flush(0), Flushed(50, true)),
        (Set("b", "y"), Number(2)),
    ],
    true,
    &[Shows("a", 10, Some("x")), Shows("b", 10, None), Tables(1)],
);

/// It is flushed too, and kept.
pub const CRASHED_LATER: Row = (
    &[
        (Set("a", "x"), Number(0)),
        (Flush(0), Flushed(50, true)),
        (Set("b", "y"), Number(2)),
        (Flush(0), Flushed(50, true)),
    ],
    true,
    &[
        Shows("a", 10, Some("x")),
        Shows("b", 10, Some("y")),
        Tables(2),
    ],
);

pub const LEVELED: Row = (
    &[
        (Set("a", "1"), Number(0)),
        (Flush(0), Flushed(50, true)),
        (Set("a", "2"), Number(2)),
        (Flush(0), Flushed(50, true)),
        (Set("a", "3"), Number(4)),
        (Flush(0), Flushed(50, true)),
        (Leveled(0), Nothing),
        (Set("a", "4"), Number(6)),
        (Flush(0), Flushed(50, true)),
        (Leveled(8), Installed),
    ],
    false,
    &[
        Levels(0, 1),
        Entries(1),
        Shows("a", 9, Some("4")),
        TooOld("a", 7),
    ],
);

pub const DROPPED: Row = (
    &[
        (Set("a", "x"), Number(0)),
        (Flush(0), Flushed(50, true)),
        (Set("b", "x"), Number(2)),
        (Flush(0), Flushed(50, true)),
        (Set("c", "x"), Number(4)),
        (Flush(0), Flushed(50, true)),
        (DropWithin("a", "b"), Installed),
        (DropBetween("b"), Installed),
        (DropWithin("c", "a"), Nothing),
        (Set("b", "z"), Number(8)),
    ],
    false,
    &[
        Tables(1),
        Shows("b", 7, None),
        Shows("c", 7, Some("x")),
        Shows("b", 6, Some("x")),
        Shows("b", 9, Some("z")),
    ],
);

pub const FROM_BOTH_ENDS: Row = (
    &[
        (Insert("1", "x", 0), Sizes(50, 50)),
        (Insert("3", "x", 1), Sizes(50, 100)),
        (Insert("5", "x", 2), Sizes(50, 150)),
    ],
    false,
    &[Gives(
        3,
        &[
            (End::Front, "1", "x"),
            (End::Back, "5", "x"),
            (End::Front, "3", "x"),
            (End::Front, "", ""),
        ],
    )],
);

pub const OVERLAID: Row = (
    &[
        (Insert("a", "x", 0), Sizes(50, 50)),
        (Insert("b", "y", 1), Sizes(50, 100)),
    ],
    false,
    &[
        Under(
            9_223_372_036_854_775_809,
            2,
            &[(End::Front, "a", "o"), (End::Front, "", "")],
        ),
        Under(
            9_223_372_036_854_775_808,
            2,
            &[
                (End::Front, "a", "x"),
                (End::Front, "b", "y"),
                (End::Front, "", ""),
            ],
        ),
    ],
);
