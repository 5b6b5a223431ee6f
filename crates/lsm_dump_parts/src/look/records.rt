// Records of a log that are looked at, one at a time.
ghost use Rattle.lsm_store.specs.World.{Same};

use crate::look::Damage;
use crate::look::reading::{ReadFile, read_record};
use lsm_below::{Error, SeqNo};
use lsm_log::{LogName, Record, kind_of, record_name};
use lsm_model::Op;
use lsm_store::Store;
use serde::Serialize;
use std::alloc::{AllocError, Global};

/// What is counted of a batch.
#[derive(Clone, Copy, Serialize)]
pub struct Writes {
    #[serde(rename = "writes")]
    pub count: usize,
    /// How many remove their key, weakly or not.
    pub removals: usize,
    /// How many remove it weakly.
    pub weak: usize,
}

/// A record that was looked at.
#[derive(Drop, Serialize)]
pub struct RecordLook {
    /// The number that its name has.
    #[serde(rename = "record")]
    pub number: SeqNo,
    pub bytes: u64,
    #[serde(flatten)]
    pub writes: Option<Writes>,
    /// What is wrong with its file.
    #[serde(skip)]
    pub fault: Option<String>,
}

/// The numbers of the records among names, rising.
pub(crate) fn numbers_among(alloc: Global, names: &[String]) -> Result<Vec<SeqNo>, AllocError> {
    let mut numbers = Vec::new(alloc);
    for name in names {
        if let LogName::RecordFile(number) = kind_of(name.as_bytes()) {
            numbers.push(number)?;
        }
    }
    numbers.sort_unstable();
    Ok(numbers)
}

fn count(record: &Record) -> Writes {
    let ops = record.ops.as_slice();
    Writes {
        count: ops.len(),
        removals: ops
            .iter()
            .filter(|(_, op)| !matches!(op, Op::Set(_)))
            .count(),
        weak: ops.iter().filter(|(_, op)| matches!(op, Op::Weak)).count(),
    }
}

fn look_at_record<S: Store>(
    alloc: Global,
    store: &mut S,
    number: SeqNo,
) -> Result<RecordLook, Error>
    ensures { S.tells → Same (S.world store.old) (S.world store.new) }
{
    let ReadFile { bytes, content, .. } = read_record(alloc, store, number)?;
    let (writes, fault) = match content {
        Ok(record) => (Some(count(&record)), None),
        Err(fault) => (None, Some(fault)),
    };
    Ok(RecordLook {
        number,
        bytes,
        writes,
        fault,
    })
}

/// Looks at the records of these numbers, of which one is in memory at a time.
pub(crate) fn look_at_records<S: Store>(
    alloc: Global,
    store: &mut S,
    numbers: &[SeqNo],
) -> Result<Vec<RecordLook>, Error>
    ensures { S.tells → Same (S.world store.old) (S.world store.new) }
{
    let mut records = Vec::new(alloc);
    for number in numbers {
        records.push(look_at_record(alloc, store, *number)?)?;
    }
    Ok(records)
}

/// What is wrong with the files of records.
pub(crate) fn put_records_damage(
    alloc: Global,
    out: &mut Vec<Damage>,
    records: &[RecordLook],
) -> Result<(), AllocError> {
    for record in records {
        if let Some(fault) = &record.fault {
            let name = record_name(record.number);
            out.push(Damage::new(alloc, name.as_str(), fault.clone()?)?)?;
        }
    }
    Ok(())
}
