// What a version tells of its tables.
use crate::samples::{THREE, hidden, version};
use lsm_below::TableId;
use lsm_versions::Version;
use std::alloc::Global;
use std::test::Fail;

/// The ids of a version's tables, in their order, are these.
fn has_ids(version: &Version, list: &[TableId]) -> bool {
    version
        .iter_tables()
        .map(|table| table.id())
        .eq(list.iter().copied())
}

/// Levels, and the first and the last key of their tables, if there are any.
const ENDS: [(usize, Option<(&str, &str)>); 3] = [
    (0, Some(("a", "b"))),
    (1, None),
    (6, Some(("a", "a"))),
];

/// Whether the levels have their ranges.
fn span(alloc: Global, version: &Version) -> Result<bool, Fail> {
    for (at, ends) in ENDS {
        let Some(level) = version.level(at) else {
            return Ok(false);
        };
        let range = level.aggregate_key_range(alloc)?;
        let range = range
            .as_ref()
            .map(|range| (range.min().as_slice(), range.max().as_slice()));
        if range != ends.map(|ends| (ends.0.as_bytes(), ends.1.as_bytes())) {
            return Ok(false);
        }
    }
    Ok(true)
}

fn tells(alloc: Global, version: &Version) -> Result<bool, Fail> {
    let hidden = hidden(alloc, &[0])?;
    let l0 = version.l0();
    Ok(
        version.table_count() == 3
            && version.level_count() == 7
            && l0.run_count() == 2
            && l0.size() == 74
            && has_ids(version, &[2, 1, 0])
            && version.level_is_busy(6, &hidden)
            && !version.level_is_busy(0, &hidden)
            && !version.level_is_busy(7, &hidden)
            && span(alloc, version)?,
    )
}

#[test]
fn what_it_tells(rt: HostRuntime) -> Result<(), Fail> {
    let version = version(&rt, rt.alloc(), 5, &THREE)?;
    let tells = tells(rt.alloc(), &version);
    drop(version);
    assert!(rt; tells?);
    Ok(())
}
