// Flushes of a tree, old snapshots over them, what a crash leaves, and what a store that fails.
use crate::rows::Row::{Does, Has, Reads, Shows};
use crate::rows::{Count, Row, TOO_OLD};
use crate::scripts::Opening::{Before, Crashed, Failing};
use crate::scripts::Part::{Fill, FlushGivenUp, FlushOver, Plays, Reopen};
use crate::scripts::{Alike, Script, play_alike, play_all};
use crate::steps::Step::{BeginFlush, Del, Flush, FlushParts, FlushSized, Rotate, Set, Weak};
use crate::steps::Told::{
    Installed, Job, Nothing, Number, Refused, RefusedSealed, Sealed, Size, Unclean,
};
use lsm_state::Fault;

const SNAPSHOTS: [Script; 3] = [
    (
        "snapshots keep their answers over a flush",
        &[Plays(&[
            Does(Set("a", "x"), Number(0)),
            Does(FlushParts(0), Installed),
            Does(Del("a"), Number(2)),
            Shows("a", 0, ""),
            Shows("a", 1, "x"),
            Shows("a", 2, "x"),
            Shows("a", 3, ""),
        ])],
    ),
    (
        "a snapshot below the watermark is too old",
        &[Plays(&[
            Does(Set("a", "1"), Number(0)),
            Does(FlushParts(0), Installed),
            Does(Set("a", "2"), Number(2)),
            Does(FlushParts(3), Installed),
            Shows("a", 1, TOO_OLD),
            Shows("a", 2, "1"),
            Shows("a", 3, "2"),
            Shows("a", 4, "2"),
        ])],
    ),
    (
        "a weak pair is flushed away",
        &[Plays(&[
            Does(Set("a", "x"), Number(0)),
            Does(Weak("a"), Number(1)),
            Does(FlushSized(2), Size(99)),
            Has(Count::Tables, 0),
            Shows("a", 1, "x"),
            Shows("a", 2, ""),
            Shows("a", 3, ""),
        ])],
    ),
];

const JOBS: [Script; 3] = [
    // `FlushOpen`, until it is given up.
    (
        "a second flush waits for the first",
        &[
            Plays(&[
                Does(BeginFlush, Nothing),
                Does(Set("a", "x"), Number(0)),
                Does(Rotate, Sealed(Some(0))),
            ]),
            FlushGivenUp(&[Does(BeginFlush, Refused(13))]),
            Plays(&[Does(BeginFlush, Job)]),
        ],
    ),
    (
        "what is sealed meanwhile stays sealed",
        &[
            Plays(&[
                Does(Set("a", "x"), Number(0)),
                Does(Rotate, Sealed(Some(0))),
            ]),
            FlushOver(
                &[
                    Does(Set("a", "y"), Number(1)),
                    Does(Rotate, Sealed(Some(1))),
                ],
                &[],
                Installed,
            ),
            Plays(&[
                Reads(u64::MAX, 2, &[1], 1, 2),
                Has(Count::Next, 3),
                Has(Count::Tables, 1),
                Has(Count::Sealed, 1),
                Does(BeginFlush, Job),
                Shows("a", 3, "y"),
                Shows("a", 2, "y"),
                Shows("a", 1, "x"),
            ]),
        ],
    ),
    // `TooManyRuns`, after a rotation that stays.
    (
        "a level takes 255 runs",
        &[
            Fill(255),
            Plays(&[
                Does(Set("a", "w"), Number(510)),
                Does(Flush(0), RefusedSealed(14)),
                Shows("a", 511, "w"),
                Has(Count::Runs, 255),
                Has(Count::Tables, 255),
            ]),
        ],
    ),
];

// ---- crashes

/// a = x, flushed.
pub const KEPT: [Row; 2] = [
    Does(Set("a", "x"), Number(0)),
    Does(FlushParts(0), Installed),
];

/// A flush of b = y is refused for the store's sake (`Store`), and the next one is installed.
const FLUSHED_AGAIN: [Row; 5] = [
    Does(Set("b", "y"), Number(2)),
    Does(FlushParts(0), Refused(2)),
    Has(Count::Tables, 1),
    Does(FlushParts(0), Installed),
    Has(Count::Tables, 2),
];

const CRASHES: [Script; 6] = [
    (
        "a crash leaves what was flushed",
        &[
            Plays(&KEPT),
            Plays(&[Does(Set("b", "y"), Number(2))]),
            Reopen(Crashed, 10),
            Plays(&[Shows("a", 10, "x"), Shows("b", 10, "")]),
        ],
    ),
    // `v2` is written and synced, and `current` is what it was.
    (
        "a crash before a flush replaces current leaves what was flushed before",
        &[
            Plays(&KEPT),
            Reopen(Failing(5, Fault::OnceDone), 2),
            Plays(&[
                Does(Set("b", "y"), Number(2)),
                Does(FlushParts(0), Refused(3)),
            ]),
            Reopen(Before("current"), 10),
            Plays(&[
                Has(Count::Tables, 1),
                Shows("a", 10, "x"),
                Shows("b", 10, ""),
            ]),
        ],
    ),
    (
        "a crash after a flush leaves both",
        &[
            Plays(&KEPT),
            Plays(&[
                Does(Set("b", "y"), Number(2)),
                Does(FlushParts(0), Installed),
            ]),
            Reopen(Crashed, 10),
            Plays(&[Shows("a", 10, "x"), Shows("b", 10, "y")]),
        ],
    ),
    // `CommitUnknown`, and then `Unrecoverable`.
    (
        "nothing is committed behind an unknown outcome",
        &[
            Plays(&KEPT),
            Reopen(Failing(5, Fault::Once), 2),
            Plays(&[
                Does(Set("b", "y"), Number(2)),
                Does(FlushParts(0), Refused(3)),
                Does(BeginFlush, Refused(4)),
                Shows("b", 10, "y"),
            ]),
            Reopen(Crashed, 10),
            Plays(&[Shows("a", 10, "x"), Shows("b", 10, "")]),
        ],
    ),
    // The tree goes on, and nothing is lost.
    (
        "a flush whose replacement is known to have done nothing is flushed again",
        &[
            Plays(&KEPT),
            Reopen(Failing(5, Fault::OnceNothing), 2),
            Plays(&FLUSHED_AGAIN),
            Reopen(Crashed, 10),
            Plays(&[Shows("a", 10, "x"), Shows("b", 10, "y")]),
        ],
    ),
    // The write of `v2` fails.
    (
        "a flush whose version is not written changes nothing",
        &[
            Plays(&KEPT),
            Reopen(Failing(3, Fault::Once), 2),
            Plays(&FLUSHED_AGAIN),
            Reopen(Crashed, 10),
            Plays(&[Shows("b", 10, "y")]),
        ],
    ),
];

// ---- faults

/// `Store` of a flush of a = x whose table isn't on the disk: the flush's number isn't used.
const REFUSED: [Row; 3] = [
    Does(Set("a", "x"), Number(0)),
    Does(Flush(0), RefusedSealed(2)),
    Has(Count::Next, 1),
];

/// `Store` of one whose version isn't: the number is used.
const UNCOMMITTED: [Row; 3] = [
    Does(Set("a", "x"), Number(0)),
    Does(Flush(0), RefusedSealed(2)),
    Has(Count::Next, 2),
];

/// A flush writes and syncs its table and `v1`, replaces `current`, and removes `v0` where no snapshot needs it.
const FAILING: Alike = Alike {
    begin: &[],
    scripts: &[
        (
            "the table isn't written",
            &[Reopen(Failing(1, Fault::Once), 0), Plays(&REFUSED)],
        ),
        (
            "the table isn't synced",
            &[Reopen(Failing(2, Fault::Once), 0), Plays(&REFUSED)],
        ),
        (
            "the version isn't written",
            &[Reopen(Failing(3, Fault::Once), 0), Plays(&UNCOMMITTED)],
        ),
        (
            "the version isn't synced",
            &[Reopen(Failing(4, Fault::Once), 0), Plays(&UNCOMMITTED)],
        ),
    ],
    end: &[Plays(&[
        Shows("a", 1, "x"),
        Has(Count::Sealed, 1),
        Does(FlushParts(0), Installed),
    ])],
};

const FAILING_LATE: [Script; 2] = [
    // `CommitUnknown`.
    (
        "current isn't replaced",
        &[
            Reopen(Failing(5, Fault::Once), 0),
            Plays(&[
                Does(Set("a", "x"), Number(0)),
                Does(Flush(0), RefusedSealed(3)),
                Has(Count::Next, 2),
            ]),
        ],
    ),
    (
        "the old version isn't removed",
        &[
            Reopen(Failing(6, Fault::Once), 0),
            Plays(&[
                Does(Set("a", "x"), Number(0)),
                Does(FlushParts(2), Unclean),
                Has(Count::Next, 2),
                Has(Count::Free, 1),
                Shows("a", 1, "x"),
            ]),
        ],
    ),
];

#[test]
fn flushes_take_what_was_sealed_before(rt: HostRuntime) {
    play_all(&rt, rt.alloc(), &SNAPSHOTS);
    play_all(&rt, rt.alloc(), &JOBS);
}

#[test]
fn a_crash_leaves_what_was_committed(rt: HostRuntime) {
    play_all(&rt, rt.alloc(), &CRASHES);
}

#[test]
fn a_flush_whose_store_fails_says_how_far_it_came(rt: HostRuntime) {
    play_alike(&rt, rt.alloc(), &FAILING);
    play_all(&rt, rt.alloc(), &FAILING_LATE);
}
