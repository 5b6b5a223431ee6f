// Streams over chosen tables.
ghost use Rattle.std.specs.Iterator.{IsFinite};

use crate::samples::{THREE, ids, version};
use lsm_below::{AsEntry, Error, SeqNo, TableId};
use lsm_compaction::create_compaction_stream;
use lsm_versions::Version;
use std::alloc::Global;
use std::test::Fail;

/// How many entries a stream gives.
fn count_of<E: AsEntry, I: Iterator<Item = Result<E, Error>>>(stream: I) -> Result<usize, Error>
    requires { I.can_next stream × IsFinite (I.remaining stream) }
{
    let mut count: usize = 0;
    for entry in stream {
        drop(entry?);
        count = count.saturating_add(1);
    }
    Ok(count)
}

/// How many entries a stream over these tables gives, or None where there is none.
fn count(
    alloc: Global,
    version: &Version,
    list: &[TableId],
    watermark: SeqNo,
) -> Result<Option<usize>, Error> {
    let ids = ids(alloc, list)?;
    match create_compaction_stream(alloc, version, &ids, watermark)? {
        Some(stream) => Ok(Some(count_of(stream)?)),
        None => Ok(None),
    }
}

/// The tables of a stream, its watermark, and how many entries it gives, or None where there is none.
const ROWS: [(&[TableId], SeqNo, Option<usize>); 6] = [
    (&[0, 1], 0, Some(2)),
    (&[0, 1], 2, Some(1)),
    (&[2], 0, Some(1)),
    (&[], 0, Some(0)),
    (&[666], 0, None),
    (&[0, 666], 0, None),
];

fn are_counted(alloc: Global, version: &Version) -> Result<bool, Error> {
    for (list, watermark, wanted) in ROWS {
        if count(alloc, version, list, watermark)? != wanted {
            return Ok(false);
        }
    }
    Ok(true)
}

#[test]
fn a_stream_reads_the_tables_that_are_named(rt: HostRuntime) -> Result<(), Fail> {
    let version = version(&rt, rt.alloc(), 5, &THREE)?;
    let counted = are_counted(rt.alloc(), &version);
    drop(version);
    assert!(rt; counted?);
    Ok(())
}
