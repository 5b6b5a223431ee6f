// Where entries are cut into tables.

use crate::samples::{V, entry};
use bytes::Bytes;
use lsm_below::InternalValue;
use lsm_tables::{MultiWriter, Table};
use std::alloc::{AllocError, Global};
use std::process::Abort;
use std::test::Fail;

fn write(
    rt: &impl Abort,
    writer: &mut MultiWriter,
    entry: InternalValue,
) -> Result<(), AllocError> {
    assert!(rt; writer.may_write(&entry));
    Ok(writer.write(entry)?)
}

/// Two entries of the key a and one of the key b.
fn write_three(rt: &impl Abort, writer: &mut MultiWriter) -> Result<(), AllocError> {
    write(rt, writer, entry(b"a", 2, V))?;
    write(rt, writer, entry(b"a", 1, V))?;
    write(rt, writer, entry(b"b", 1, V))
}

/// The images of the tables into which they are cut.
fn images_of(rt: &impl Abort, alloc: Global, target: u64) -> Result<Vec<Vec<u8>>, AllocError> {
    let mut writer = MultiWriter::new(alloc, target, 0);
    match write_three(rt, &mut writer) {
        Ok(()) => writer.finish(),
        Err(error) => Err(error),
    }
}

/// How many entries the image of a table has.
fn count(alloc: Global, image: Vec<u8>) -> Result<usize, Fail> {
    let table = Table::recover(alloc, 0, Bytes::from_vec(image)?)?;
    Ok(table.item_count())
}

/// How many entries stand in each table.
fn counts(rt: &impl Abort, alloc: Global, target: u64) -> Result<Vec<usize>, Fail> {
    let mut counts = Vec::new(alloc);
    for image in images_of(rt, alloc, target)? {
        counts.push(count(alloc, image)?)?;
    }
    Ok(counts)
}

/// A key is never cut, and a table ends as soon as it has the target.
#[test]
fn where_tables_end(rt: HostRuntime) -> Result<(), Fail> {
    for (target, wanted) in [
        (0, [2, 1].as_slice()),
        (17, [2, 1].as_slice()),
        (34, [2, 1].as_slice()),
        (35, [3].as_slice()),
    ] {
        assert_eq!(rt;
            counts(&rt, rt.alloc(), target)?.as_slice(),
            wanted,
            "{target}"
        );
    }
    Ok(())
}

#[test]
fn nothing_written(rt: HostRuntime) -> Result<(), Fail> {
    let writer = MultiWriter::new(rt.alloc(), 1, 0);
    assert!(rt; writer.finish()?.is_empty());
    Ok(())
}

fn may_write(writer: &MultiWriter, entry: InternalValue) -> bool {
    let may = writer.may_write(&entry);
    drop(entry);
    may
}

#[test]
fn what_may_not_be_written(rt: HostRuntime) -> Result<(), Fail> {
    let mut writer = MultiWriter::new(rt.alloc(), 1, 0);
    write(&rt, &mut writer, entry(b"b", 1, V))?;
    assert!(rt; !may_write(&writer, entry(b"b", 1, V)));
    assert!(rt; !may_write(&writer, entry(b"a", 2, V)));
    assert!(rt; may_write(&writer, entry(b"b", 0, V)));
    drop(writer);
    Ok(())
}
