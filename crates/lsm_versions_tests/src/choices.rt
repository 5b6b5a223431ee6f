// Why a choice of tables is declined.
use crate::samples::{Row, hidden, ids, table, version};
use lsm_below::TableId;
use lsm_checks::{Kind, Why, first_reason, last_reason};
use lsm_versions::Version;
use std::alloc::Global;
use std::process::Abort;
use std::test::Fail;

/// Tables of one key: the newer one above.
const STACKED: [Row; 2] = [(0, 1, "a"), (5, 0, "a")];

/// Two runs of level 0 that share a key.
const TWICE: [Row; 2] = [(0, 1, "a"), (0, 0, "a")];

/// An older table of the key in the last level.
const OVER_THE_LAST: [Row; 2] = [(0, 1, "a"), (6, 0, "a")];

/// What is to be done, with which tables, to which level, and why it is declined.
type Choice = (Kind, &'static [TableId], usize, Option<Why>);

/// Whether each choice is declined for its reason, where table 9 is hidden.
fn are_declined(alloc: Global, version: &Version, choices: &[Choice]) -> Result<bool, Fail> {
    let hidden = hidden(alloc, &[9])?;
    for (kind, list, to, why) in choices {
        let ids = ids(alloc, list)?;
        if first_reason(alloc, *kind, &ids, *to, &hidden, version)? != *why {
            return Ok(false);
        }
    }
    Ok(true)
}

/// Tables, and what is chosen of them.
const ROWS: [(&[Row], &[Choice]); 3] = [
    // Newer entries stay above.
    (
        &STACKED,
        &[
            (Kind::Move, &[1], 6, Some(Why::Order)),
            (Kind::Merge, &[1], 6, Some(Why::Order)),
            (Kind::Move, &[1], 7, Some(Why::NoSuchLevel)),
            (Kind::Merge, &[666], 6, Some(Why::Missing)),
            (Kind::Merge, &[1, 9], 6, Some(Why::Hidden)),
            (Kind::Merge, &[0, 1], 6, None),
            (Kind::Move, &[1], 4, None),
            (Kind::Drop, &[1], 0, None),
            (Kind::Drop, &[2], 0, Some(Why::Missing)),
        ],
    ),
    // A move keeps tables apart.
    (
        &TWICE,
        &[
            (Kind::Move, &[0, 1], 6, Some(Why::Overlap)),
            (Kind::Merge, &[0, 1], 6, None),
            (Kind::Merge, &[0], 0, Some(Why::Order)),
        ],
    ),
    // Tombstones stay over older tables.
    (
        &OVER_THE_LAST,
        &[
            (Kind::Move, &[1], 6, Some(Why::Eviction)),
            (Kind::Merge, &[1], 6, Some(Why::Eviction)),
            (Kind::Merge, &[0, 1], 6, None),
        ],
    ),
];

#[test]
fn choices_are_declined_for_their_reasons(rt: HostRuntime) -> Result<(), Fail> {
    for (rows, choices) in ROWS {
        let version = version(&rt, rt.alloc(), 5, rows)?;
        let declined = are_declined(rt.alloc(), &version, choices);
        drop(version);
        assert!(rt; declined?, "{rows:?}");
    }
    Ok(())
}

/// The reason at the end of a merge into level 0 of table 0, made of this entry.
fn ends(rt: &impl Abort, alloc: Global, rows: &[Row], seqno: u64) -> Result<Option<Why>, Fail> {
    let ids = ids(alloc, &[0])?;
    let input = vec![in alloc; table(rt, alloc, 0, "a", (seqno, 0))?]?;
    let version = version(rt, alloc, 5, rows)?;
    let why = last_reason(alloc, &input, &ids, 0, &version);
    drop(input);
    drop(version);
    Ok(why?)
}

#[test]
fn a_merge_is_checked_when_it_ends(rt: HostRuntime) -> Result<(), Fail> {
    let rows: [(&[Row], u64, Option<Why>); 4] = [
        (&[(0, 0, "a")], 0, None),
        (&TWICE, 0, Some(Why::Order)),
        (&[(0, 0, "a")], 7, Some(Why::Stale)),
        (&[], 0, Some(Why::Stale)),
    ];
    for (tables, seqno, wanted) in rows {
        assert_eq!(rt; ends(&rt, rt.alloc(), tables, seqno)?, wanted);
    }
    Ok(())
}
