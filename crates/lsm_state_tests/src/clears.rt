// Clears of a tree, what comes too late after one, and what is left of one that fails.
use crate::flushes::KEPT;
use crate::rows::Row::{Does, Has, Shows};
use crate::rows::{Count, Row};
use crate::scripts::Opening::{Crashed, Failing};
use crate::scripts::Part::{FlushOver, Major, Plays, Reopen};
use crate::scripts::{Alike, End, Script, play_alike, play_all};
use crate::steps::Step::{Clear, Compact, Flush, Forget, Rotate, Set};
use crate::steps::Told::{Declined, Done, Number, Refused, RefusedSealed, Sealed, Stale};
use crate::works::{Kind, Work};
use lsm_state::{Fault, Why};

/// a = x in a table, b = y sealed, and c = z in the active memtable.
const PLACES: [Row; 5] = [
    Does(Set("a", "x"), Number(0)),
    Does(Flush(0), Done),
    Does(Set("b", "y"), Number(2)),
    Does(Rotate, Sealed(Some(1))),
    Does(Set("c", "z"), Number(3)),
];

const SNAPSHOTS: [Script; 3] = [
    (
        "old snapshots see what they saw, and new ones what was written behind a clear",
        &[
            Plays(&PLACES),
            Plays(&[
                Does(Clear, Number(4)),
                Does(Set("b", "w"), Number(5)),
                Shows("a", 1, "x"),
                Shows("a", 4, "x"),
                Shows("b", 3, "y"),
                Shows("c", 4, "z"),
                Shows("a", 5, ""),
                Shows("b", 5, ""),
                Shows("c", 6, ""),
                Shows("b", 6, "w"),
                Has(Count::Tables, 0),
                Has(Count::Sealed, 0),
                Has(Count::Next, 6),
                Has(Count::Visible, 6),
            ]),
        ],
    ),
    (
        "a flush behind a clear holds what was written behind it",
        &[Plays(&[
            Does(Set("a", "x"), Number(0)),
            Does(Clear, Number(1)),
            Does(Set("b", "y"), Number(2)),
            Does(Flush(0), Done),
            Shows("a", 1, "x"),
            Shows("a", 4, ""),
            Shows("b", 4, "y"),
        ])],
    ),
    (
        "tables are gone when a strategy chooses them",
        &[Plays(&[
            Does(Set("a", "x"), Number(0)),
            Does(Flush(0), Done),
            Does(Clear, Number(2)),
            Does(
                Compact(Work::Ask(Kind::Move, &[0], 6)),
                Declined(Why::Missing),
            ),
            Shows("a", 2, "x"),
            Shows("a", 3, ""),
            Has(Count::Tables, 0),
            Has(Count::Next, 3),
        ])],
    ),
];

const FORGOTTEN: [Script; 3] = [
    (
        "what isn't flushed is forgotten",
        &[
            Plays(&PLACES),
            Plays(&[
                Does(Forget, Done),
                Shows("a", 1, "x"),
                Shows("a", 4, "x"),
                Shows("b", 4, ""),
                Shows("c", 4, ""),
            ]),
        ],
    ),
    (
        "nothing is forgotten where nothing was written",
        &[Plays(&[
            Does(Set("b", "y"), Number(0)),
            Does(Rotate, Sealed(Some(0))),
            Does(Forget, Done),
            Shows("b", 1, "y"),
        ])],
    ),
    (
        "what is forgotten takes no memory",
        &[Plays(&[
            Does(Set("b", "y"), Number(0)),
            Has(Count::Active, 0),
            Does(Forget, Done),
            Does(Forget, Done),
            Has(Count::Active, 1),
            Has(Count::Sealed, 0),
            Has(Count::Memory, 0),
            Has(Count::Free, 0),
        ])],
    ),
];

// ---- jobs that come too late

/// b = y (0), sealed.
const SEALED: [Row; 2] = [
    Does(Set("b", "y"), Number(0)),
    Does(Rotate, Sealed(Some(0))),
];

const LATE: [Script; 3] = [
    (
        "a merge over a clear is stale",
        &[
            Plays(&[Does(Set("a", "x"), Number(0)), Does(Flush(0), Done)]),
            Major(
                End::Finished(&[], &[Does(Clear, Number(2))]),
                Declined(Why::Stale),
            ),
            Plays(&[
                Has(Count::Compacting, 0),
                Has(Count::Tables, 0),
                Has(Count::Next, 3),
            ]),
        ],
    ),
    (
        "a flush over a clear is stale",
        &[
            Plays(&SEALED),
            FlushOver(
                &[],
                &[Does(Set("c", "z"), Number(1)), Does(Clear, Number(2))],
                Stale,
            ),
            Plays(&[
                Has(Count::Tables, 0),
                Has(Count::Next, 3),
                Shows("b", 2, "y"),
                Shows("b", 3, ""),
            ]),
        ],
    ),
    (
        "a flush of what was forgotten is stale",
        &[
            Plays(&SEALED),
            FlushOver(
                &[],
                &[Does(Set("c", "z"), Number(1)), Does(Forget, Done)],
                Stale,
            ),
            Plays(&[
                Has(Count::Tables, 0),
                Has(Count::Next, 2),
                Shows("b", 2, ""),
            ]),
        ],
    ),
];

// ---- faults

/// `Store`; the number is used, and nothing else changes.
const REFUSED: [Row; 4] = [
    Does(Clear, Refused(2)),
    Has(Count::Next, 3),
    Has(Count::Tables, 1),
    Shows("a", 3, "x"),
];

/// `CommitUnknown`; likewise.
const UNKNOWN: [Row; 4] = [
    Does(Clear, Refused(3)),
    Has(Count::Next, 3),
    Has(Count::Tables, 1),
    Shows("a", 3, "x"),
];

/// A clear writes `v2`, syncs it, and replaces `current`. Of these a crash leaves nothing.
const FAILING: Alike = Alike {
    begin: &[Plays(&KEPT)],
    scripts: &[
        (
            "the version isn't written",
            &[Reopen(Failing(1, Fault::Once), 2), Plays(&REFUSED)],
        ),
        (
            "the version is written, and the call fails",
            &[Reopen(Failing(1, Fault::OnceDone), 2), Plays(&REFUSED)],
        ),
        (
            "the version isn't synced",
            &[Reopen(Failing(2, Fault::Once), 2), Plays(&REFUSED)],
        ),
        (
            "current isn't replaced",
            &[Reopen(Failing(3, Fault::Once), 2), Plays(&UNKNOWN)],
        ),
    ],
    end: &[Reopen(Crashed, 10), Plays(&[Shows("a", 10, "x")])],
};

/// These stand after a crash.
const FAILING_CLEARED: Alike = Alike {
    begin: &[Plays(&KEPT)],
    scripts: &[
        (
            "current is known not to be replaced",
            &[
                Reopen(Failing(3, Fault::OnceNothing), 2),
                Plays(&REFUSED),
                Plays(&[Does(Clear, Number(3))]),
            ],
        ),
        (
            "current is replaced, and the call fails",
            &[Reopen(Failing(3, Fault::OnceDone), 2), Plays(&UNKNOWN)],
        ),
        // `Unrecoverable` from then on.
        (
            "behind an unknown clear nothing is committed",
            &[
                Reopen(Failing(3, Fault::OnceDone), 2),
                Plays(&[
                    Does(Clear, Refused(3)),
                    Does(Set("b", "y"), Number(3)),
                    Does(Flush(0), RefusedSealed(4)),
                    Does(Clear, Refused(4)),
                    Shows("a", 3, "x"),
                    Shows("b", 4, "y"),
                    Has(Count::Next, 4),
                ]),
            ],
        ),
    ],
    end: &[
        Reopen(Crashed, 10),
        Plays(&[Shows("a", 10, ""), Shows("b", 10, "")]),
    ],
};

#[test]
fn snapshots_see_what_a_clear_leaves(rt: HostRuntime) {
    play_all(&rt, rt.alloc(), &SNAPSHOTS);
    play_all(&rt, rt.alloc(), &FORGOTTEN);
    play_all(&rt, rt.alloc(), &LATE);
}

#[test]
fn a_clear_that_fails_uses_its_number(rt: HostRuntime) {
    play_alike(&rt, rt.alloc(), &FAILING);
    play_alike(&rt, rt.alloc(), &FAILING_CLEARED);
}
