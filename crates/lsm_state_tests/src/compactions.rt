// Compactions of a tree: which are declined and why, what is left of old snapshots, and a store that fails.
use crate::flushes::KEPT;
use crate::rows::Row::{Does, Has, Shows};
use crate::rows::{Count, Row, TOO_OLD};
use crate::samples::Edge;
use crate::scripts::Opening::Failing;
use crate::scripts::Part::{Merge, Plays, Reopen};
use crate::scripts::{Alike, End, Script, play_alike, play_all};
use crate::steps::Step::{Compact, Del, Flush, Set};
use crate::steps::Told::{Declined, Done, Installed, Job, Nothing, Number, Refused};
use crate::works::{Kind, Work};
use lsm_state::{Fault, Why};

/// a = x (0), a flush (1), a major compaction (2), a is removed (3), a flush (4).
const REMOVED: [Row; 5] = [
    Does(Set("a", "x"), Number(0)),
    Does(Flush(0), Done),
    Does(Compact(Work::Major(0)), Installed),
    Does(Del("a"), Number(3)),
    Does(Flush(0), Done),
];

const EVICTIONS: [Script; 3] = [
    (
        "a major compaction evicts below its watermark",
        &[
            Plays(&REMOVED),
            Plays(&[
                Does(Compact(Work::Major(5)), Installed),
                Has(Count::Tables, 0),
                Shows("a", 4, TOO_OLD),
                Shows("a", 5, ""),
                Shows("a", 6, ""),
            ]),
        ],
    ),
    (
        "without a watermark both entries stay",
        &[
            Plays(&REMOVED),
            Plays(&[
                Does(Compact(Work::Major(0)), Installed),
                Has(Count::Tables, 1),
                Has(Count::Entries, 2),
                Shows("a", 6, ""),
                Shows("a", 3, "x"),
            ]),
        ],
    ),
    (
        "newer entries never come below older ones",
        &[Plays(&[
            Does(Set("a", "1"), Number(0)),
            Does(Flush(0), Done),
            Does(Compact(Work::Choose(Kind::Move, &[0], 5)), Installed),
            Does(Set("a", "2"), Number(3)),
            Does(Flush(0), Done),
            Does(
                Compact(Work::Choose(Kind::Move, &[1], 6)),
                Declined(Why::Order),
            ),
            Does(
                Compact(Work::Choose(Kind::Move, &[1], 7)),
                Declined(Why::NoSuchLevel),
            ),
            Shows("a", 5, "2"),
            Shows("a", 2, "1"),
        ])],
    ),
];

// ---- reasons

/// Two values of a, each flushed: tables 0 and 1, of which 1 is the newer.
const TWICE: [Row; 4] = [
    Does(Set("a", "1"), Number(0)),
    Does(Flush(0), Done),
    Does(Set("a", "2"), Number(2)),
    Does(Flush(0), Done),
];

/// The first value of a moved to level 6, and a second one above it.
const BELOW: [Row; 5] = [
    Does(Set("a", "1"), Number(0)),
    Does(Flush(0), Done),
    Does(Compact(Work::Choose(Kind::Move, &[0], 6)), Installed),
    Does(Set("a", "2"), Number(3)),
    Does(Flush(0), Done),
];

/// Keys a, b and c, each in a table of its own.
pub const THREE: [Row; 6] = [
    Does(Set("a", "x"), Number(0)),
    Does(Flush(0), Done),
    Does(Set("b", "x"), Number(2)),
    Does(Flush(0), Done),
    Does(Set("c", "x"), Number(4)),
    Does(Flush(0), Done),
];

/// What is answered to choices of `TWICE`; the counter stays as it was.
const OF_TWICE: Alike = Alike {
    begin: &[Plays(&TWICE)],
    scripts: &[
        (
            "a move of what overlaps",
            &[Plays(&[Does(
                Compact(Work::Choose(Kind::Move, &[0, 1], 6)),
                Declined(Why::Overlap),
            )])],
        ),
        (
            "a move to no level",
            &[Plays(&[Does(
                Compact(Work::Choose(Kind::Move, &[0], 7)),
                Declined(Why::NoSuchLevel),
            )])],
        ),
        (
            "a merge to no level",
            &[Plays(&[Does(
                Compact(Work::Choose(Kind::Merge, &[0], 7)),
                Declined(Why::NoSuchLevel),
            )])],
        ),
        (
            "a move of what isn't there",
            &[Plays(&[Does(
                Compact(Work::Choose(Kind::Move, &[2], 6)),
                Declined(Why::Missing),
            )])],
        ),
        (
            "a drop of what isn't there",
            &[Plays(&[Does(
                Compact(Work::Choose(Kind::Drop, &[2], 0)),
                Declined(Why::Missing),
            )])],
        ),
        (
            "a move below an older table",
            &[Plays(&[Does(
                Compact(Work::Choose(Kind::Move, &[1], 6)),
                Declined(Why::Order),
            )])],
        ),
    ],
    end: &[Plays(&[Has(Count::Next, 4)])],
};

/// Of `BELOW`, likewise.
const OF_BELOW: Alike = Alike {
    begin: &[Plays(&BELOW)],
    scripts: &[
        (
            "a move beside an older table",
            &[Plays(&[Does(
                Compact(Work::Choose(Kind::Move, &[1], 6)),
                Declined(Why::Eviction),
            )])],
        ),
        (
            "a merge beside an older table",
            &[Plays(&[Does(
                Compact(Work::Choose(Kind::Merge, &[1], 6)),
                Declined(Why::Eviction),
            )])],
        ),
        (
            "a merge of both",
            &[Plays(&[Does(Compact(Work::Choose(Kind::Merge, &[0, 1], 6)), Job)])],
        ),
    ],
    end: &[Plays(&[Has(Count::Next, 5)])],
};

/// Of `THREE`, likewise.
const OF_THREE: Alike = Alike {
    begin: &[Plays(&THREE)],
    scripts: &[(
        "a merge around a third",
        &[Plays(&[Does(
            Compact(Work::Choose(Kind::Merge, &[0, 2], 6)),
            Declined(Why::Gap),
        )])],
    )],
    end: &[Plays(&[Has(Count::Next, 6)])],
};

// ---- open merges

/// A third value of a, flushed.
const THIRD: [Row; 2] = [Does(Set("a", "3"), Number(4)), Does(Flush(0), Done)];

const OPEN: [Script; 5] = [
    // What is in use is left alone until the merge is given up.
    (
        "tables of an open merge are hidden",
        &[
            Plays(&BELOW),
            Merge(
                &[0, 1],
                6,
                End::GivenUp(&[
                    Has(Count::Compacting, 1),
                    Does(Compact(Work::Major(0)), Nothing),
                    Does(Compact(Work::DropRange(Edge::Open, Edge::Open)), Nothing),
                    Does(
                        Compact(Work::Choose(Kind::Move, &[0], 6)),
                        Declined(Why::Hidden),
                    ),
                ]),
                Nothing,
            ),
            Plays(&[Has(Count::Compacting, 0), Has(Count::Next, 5)]),
        ],
    ),
    // `Busy`, until the merge is given up.
    (
        "fifo waits for an open merge of its only run",
        &[
            Plays(&KEPT),
            Merge(
                &[0],
                6,
                End::GivenUp(&[Does(Compact(Work::Fifo(1, None, 0)), Refused(16))]),
                Nothing,
            ),
            Plays(&[
                Has(Count::Tables, 1),
                Does(Compact(Work::Fifo(1, None, 0)), Installed),
                Has(Count::Tables, 0),
            ]),
        ],
    ),
    (
        "an overtaken merge into the first level is declined",
        &[
            Plays(&TWICE),
            Merge(&[0, 1], 0, End::Finished(&THIRD, &[]), Declined(Why::Order)),
            Plays(&[Shows("a", 6, "3"), Has(Count::Compacting, 0)]),
        ],
    ),
    (
        "a flush may come above a merge into a lower level",
        &[
            Plays(&TWICE),
            Merge(&[0, 1], 6, End::Finished(&THIRD, &[]), Installed),
            Plays(&[
                Shows("a", 6, "3"),
                Shows("a", 3, "2"),
                Shows("a", 1, "1"),
                Has(Count::Tables, 2),
                Has(Count::Runs, 1),
            ]),
        ],
    ),
    (
        "a job of another tree is unknown",
        &[
            Plays(&TWICE),
            Merge(&[0, 1], 6, End::Elsewhere, Declined(Why::UnknownJob)),
        ],
    ),
];

// ---- faults

/// A merge writes and syncs its table and `v2`, replaces `current`, and removes the file of its input: `AfterCommit`.
const FAILING: [Script; 1] = [(
    "the table that was merged isn't removed",
    &[
        Plays(&KEPT),
        Reopen(Failing(6, Fault::Once), 2),
        Plays(&[
            Does(Compact(Work::Major(0)), Refused(17)),
            Has(Count::Tables, 1),
            Shows("a", 3, "x"),
            Has(Count::Compacting, 0),
        ]),
    ],
)];

#[test]
fn entries_are_kept_as_long_as_needed(rt: HostRuntime) {
    play_all(&rt, rt.alloc(), &EVICTIONS);
    play_all(&rt, rt.alloc(), &OPEN);
}

#[test]
fn the_first_reason_is_told(rt: HostRuntime) {
    play_alike(&rt, rt.alloc(), &OF_TWICE);
    play_alike(&rt, rt.alloc(), &OF_BELOW);
    play_alike(&rt, rt.alloc(), &OF_THREE);
}

#[test]
fn a_merge_whose_store_fails_behind_its_commit_stands(rt: HostRuntime) {
    play_all(&rt, rt.alloc(), &FAILING);
}
