// Next versions: new, merged, moved and dropped tables, and when there is no next version.
use crate::samples::{Row, THREE, hidden, ids, table, version};
use lsm_below::{Error, TableId, is_run};
use lsm_checks::{Kind, first_reason, pick_run_indexes};
use lsm_tables::Table;
use lsm_versions::{Version, ids_are_own};
use std::alloc::Global;
use std::process::Abort;
use std::test::Fail;

/// What is done with some tables. A merge makes table 3 of key a.
#[derive(Clone, Copy)]
enum Change {
    Merge(&'static [TableId], usize),
    Move(&'static [TableId], usize),
    Drop(&'static [TableId]),
}

/// A version's id and its runs, each by its level and its tables; or the number of an error.
type Wanted = Result<(u64, &'static [(usize, &'static [TableId])]), u8>;

/// The id and the tables of a version, what is done, and what comes of it.
type Next = (u64, &'static [Row], Change, Wanted);

const ROWS: [Next; 6] = [
    (
        5,
        &THREE,
        Change::Merge(&[1, 0], 6),
        Ok((6, &[(0, &[2]), (6, &[3])])),
    ),
    (
        5,
        &THREE,
        Change::Merge(&[1, 2], 0),
        Ok((6, &[(0, &[3]), (6, &[0])])),
    ),
    (
        5,
        &THREE,
        Change::Move(&[1, 2], 5),
        Ok((6, &[(5, &[1, 2]), (6, &[0])])),
    ),
    (5, &THREE, Change::Drop(&[2, 0]), Ok((6, &[(0, &[1])]))),
    (u64::MAX - 1, &[], Change::Drop(&[]), Ok((u64::MAX, &[]))),
    (u64::MAX, &[], Change::Drop(&[]), Err(9)),
];

/// The next version with a new table, in place of some tables or in front of all.
fn with_table(
    rt: &impl Abort,
    alloc: Global,
    version: &Version,
    new: (TableId, &'static str),
    place: Option<(&[TableId], usize)>,
) -> Result<Result<Version, Error>, Fail> {
    let (list, to) = place.unwrap_or((&[], 0));
    assert!(rt; to < 7);
    let ids = ids(alloc, list)?;
    let tables = vec![in alloc; table(rt, alloc, new.0, new.1, (new.0, 0))?]?;
    assert!(rt; is_run(&tables));
    let own = ids_are_own(alloc, &tables, version.levels())?;
    assert!(rt; own);
    let next = match place {
        Some(_) => version.with_merge(alloc, &ids, &tables, to),
        None => version.with_new_l0_run(alloc, &tables, 0),
    };
    drop(tables);
    Ok(next)
}

/// The next version with these tables in another level. The move isn't declined.
fn moved(
    rt: &impl Abort,
    alloc: Global,
    version: &Version,
    list: &[TableId],
    to: usize,
) -> Result<Result<Version, Error>, Fail> {
    let ids = ids(alloc, list)?;
    let why = first_reason(alloc, Kind::Move, &ids, to, &hidden(alloc, &[])?, version)?;
    assert!(rt; why.is_none());
    Ok(version.with_moved(alloc, &ids, to))
}

/// What comes of a change.
fn changed(
    rt: &impl Abort,
    alloc: Global,
    version: &Version,
    change: &Change,
) -> Result<Result<Version, Error>, Fail> {
    match change {
        Change::Merge(list, to) => { with_table(rt, alloc, version, (3, "a"), Some((*list, *to))) }
        Change::Move(list, to) => moved(rt, alloc, version, *list, *to),
        Change::Drop(list) => Ok(version.with_dropped(alloc, &ids(alloc, *list)?)),
    }
}

/// Whether just these are tables.
fn are(tables: &[Table], list: &[TableId]) -> bool {
    if tables.len() != list.len() {
        return false;
    }
    for at in 0..list.len() {
        if tables[at].id() != list[at] {
            return false;
        }
    }
    true
}

/// Whether the version has just these runs.
fn has_runs(version: &Version, wanted: &[(usize, &[TableId])]) -> bool {
    let mut seen: usize = 0;
    let levels = version.levels();
    for at in 0..levels.len() {
        for run in levels[at].as_slice() {
            match wanted.get(seen) {
                Some((level, list)) if *level == at && are(run.as_slice(), *list) => {}
                _ => return false,
            }
            seen = seen.saturating_add(1);
        }
    }
    seen == wanted.len()
}

/// Whether this is what is wanted.
fn is_as(next: &Result<Version, Error>, wanted: &Wanted) -> bool {
    match (next, wanted) {
        (Ok(next), Ok((id, runs))) => next.id() == *id && has_runs(next, *runs),
        (Err(error), Err(number)) => error.number() == *number,
        _ => false,
    }
}

#[test]
fn next_versions_have_their_runs(rt: HostRuntime) -> Result<(), Fail> {
    for at in 0..ROWS.len() {
        let (id, rows, change, wanted) = &ROWS[at];
        let version = version(&rt, rt.alloc(), *id, *rows)?;
        let next = changed(&rt, rt.alloc(), &version, change);
        drop(version);
        let next = next?;
        let well = is_as(&next, wanted);
        drop(next);
        assert!(rt; well, "{at}");
    }
    Ok(())
}

/// How many runs level 0 has once table 300 is in front of so many of its key, each a run of its own, or the error's
/// number.
fn runs_after(rt: &impl Abort, alloc: Global, count: u64) -> Result<Result<usize, u8>, Fail> {
    let mut rows = Vec::new(alloc);
    for id in 0..count {
        rows.push((0, id, "a"))?;
    }
    let version = version(rt, alloc, 5, &rows)?;
    let next = with_table(rt, alloc, &version, (300, "a"), None);
    drop(version);
    Ok(
        next?
            .map(|next| next.l0().run_count())
            .map_err(|error| error.number()),
    )
}

/// A level has at most 255 runs.
#[test]
fn a_run_too_many_is_refused(rt: HostRuntime) -> Result<(), Fail> {
    assert!(rt; runs_after(&rt, rt.alloc(), 254)? == Ok(255));
    assert!(rt; runs_after(&rt, rt.alloc(), 255)? == Err(14));
    Ok(())
}

/// Some ids, and their places in a run of tables 0, 1 and 2.
const PLACES: [(&[TableId], Option<(usize, usize)>); 4] = [
    (&[0, 1, 2], Some((0, 2))),
    (&[0], Some((0, 0))),
    (&[2], Some((2, 2))),
    (&[4], None),
];

/// Whether the ids have these places in the first run.
fn are_picked(alloc: Global, version: &Version) -> Result<bool, Fail> {
    let Some(run) = version.l0().first_run() else {
        return Ok(false);
    };
    for (list, wanted) in PLACES {
        if pick_run_indexes(run, &ids(alloc, list)?) != wanted {
            return Ok(false);
        }
    }
    Ok(true)
}

/// Tables of three keys, each of its own flush: one run.
#[test]
fn new_runs_are_joined(rt: HostRuntime) -> Result<(), Fail> {
    let mut version = Version::new(rt.alloc(), 0);
    for new in [(0, "a"), (1, "b"), (2, "c")] {
        let next = with_table(&rt, rt.alloc(), &version, new, None);
        drop(version);
        version = next??;
    }
    let picked = are_picked(rt.alloc(), &version);
    let joined = version.id() == 3 && has_runs(&version, &[(0, &[0, 1, 2])]);
    drop(version);
    assert!(rt; picked? && joined);
    Ok(())
}
