// Merges outside a tree.
use crate::samples::{THREE, hidden, ids, version};
use lsm_below::{SeqNo, TableId};
use lsm_checks::{Kind, first_reason};
use lsm_compaction::{CompactionJob, MergeSettings, MergedCompaction, OpenMerges, chosen_inputs};
use lsm_tables::Table;
use lsm_versions::Version;
use std::alloc::Global;
use std::process::Abort;
use std::test::Fail;

fn settings(watermark: SeqNo) -> MergeSettings {
    MergeSettings {
        dest_level: 6,
        target_size: 1,
        watermark,
        made_at: 7,
    }
}

/// The job of this number that merges these tables of a version into the last level, at a watermark.
fn job(
    rt: &impl Abort,
    alloc: Global,
    version: &Version,
    number: u64,
    list: &[TableId],
    watermark: SeqNo,
) -> Result<CompactionJob, Fail> {
    let ids = ids(alloc, list)?;
    let why = first_reason(alloc, Kind::Merge, &ids, 6, &hidden(alloc, &[])?, version)?;
    assert!(rt; why.is_none());
    version.facts();
    let inputs = chosen_inputs(alloc, &ids, version.levels())?;
    Ok(CompactionJob::new(alloc, number, ids, inputs, settings(watermark)))
}

/// What such a job makes.
fn merged(
    rt: &impl Abort,
    alloc: Global,
    version: &Version,
    list: &[TableId],
    watermark: SeqNo,
) -> Result<MergedCompaction, Fail> {
    match job(rt, alloc, version, 3, list, watermark)?.run() {
        Ok(merged) => Ok(merged),
        Err((error, job)) => {
            drop(job.keep());
            Err(error.into())
        }
    }
}

/// Whether tables have these ids and sizes of their files, and were made at 7.
fn are(tables: &[Table], wanted: &[(TableId, u64)]) -> bool {
    tables
        .iter()
        .map(|table| (table.id(), table.file_size()))
        .eq(wanted.iter().copied())
        && tables.iter().all(|table| table.created_at() == 7)
}

#[test]
fn a_merge_keeps_what_a_snapshot_may_read(rt: HostRuntime) -> Result<(), Fail> {
    for (list, watermark, wanted) in [
        ([1, 0].as_slice(), 2, [(8, 37)].as_slice()),
        ([1, 0].as_slice(), 0, [(8, 54)].as_slice()),
        ([0, 1, 2].as_slice(), 3, [(8, 37), (9, 37)].as_slice()),
        ([].as_slice(), 3, [].as_slice()),
    ] {
        let version = version(&rt, rt.alloc(), 5, &THREE)?;
        let merged = merged(&rt, rt.alloc(), &version, list, watermark);
        drop(version);
        let merged = merged?;
        let given = &[8, 9][..wanted.len()];
        assert!(&rt; merged.files().len() == given.len());
        let tables = merged.tables(given);
        drop(merged.keep());
        let tables = tables?;
        let well = are(&tables, wanted);
        drop(tables);
        assert!(rt; well);
    }
    Ok(())
}

/// The number, the tables and the watermark of a job, and whether it is open.
type Asked = (u64, &'static [TableId], SeqNo, bool);

/// Whether each job is open or not, as it says.
fn are_open(
    rt: &impl Abort,
    alloc: Global,
    merges: &OpenMerges,
    asked: &[Asked],
) -> Result<bool, Fail> {
    for (number, list, watermark, open) in asked {
        let version = version(rt, alloc, 5, &THREE)?;
        let job = job(rt, alloc, &version, *number, list, *watermark);
        drop(version);
        let job = job?;
        let is_open = merges.is_open(&job);
        drop(job.keep());
        if is_open != *open {
            return Ok(false);
        }
    }
    Ok(true)
}

/// Whether of the tables exactly these are in use.
fn hides(merges: &OpenMerges, list: &[TableId]) -> bool {
    let hidden = merges.compaction_state().hidden_set();
    (0..3).all(|id| hidden.is_hidden(id) == list.contains(&id))
        && merges.is_compacting() == !list.is_empty()
}

#[test]
fn a_merge_is_open_until_it_ends(rt: HostRuntime) -> Result<(), Fail> {
    let first = ids(rt.alloc(), &[1, 0])?;
    let second = ids(rt.alloc(), &[2])?;
    assert!(rt; second.is_disjoint(&first));
    let mut merges = OpenMerges::new(rt.alloc());
    assert!(rt; hides(&merges, &[]));
    assert_eq!(rt; merges.open(&first, settings(2))?, 0);
    assert_eq!(rt; merges.open(&second, settings(0))?, 1);
    assert!(rt; hides(&merges, &[0, 1, 2]));
    let asked: &[Asked] = &[
        (0, &[0, 1], 2, true),
        (1, &[2], 0, true),
        (1, &[0, 1], 2, false),
        (0, &[0, 1], 1, false),
        (0, &[0, 1, 2], 2, false),
        (0, &[], 2, false),
    ];
    assert!(&rt; are_open(&rt, rt.alloc(), &merges, asked)?);
    merges.close(0);
    assert!(rt; hides(&merges, &[2]));
    let asked: &[Asked] = &[(0, &[0, 1], 2, false), (1, &[2], 0, true)];
    assert!(&rt; are_open(&rt, rt.alloc(), &merges, asked)?);
    merges.close(0);
    merges.close(1);
    assert!(rt; hides(&merges, &[]));
    Ok(())
}
