// The entries of a table, and the writes of a record.
use crate::arguments::Slice;
use crate::shown::ShownBytes;
use bytes::Bytes;
use lsm_below::{InternalValue, SeqNo, TableId, UserKey, ValueType};
use lsm_log::Record;
use lsm_model::Op;
use lsm_tables::Table;
use serde::Serialize;
use std::alloc::{AllocError, Global};
use std::ops::Bound;

/// Which part of a table is listed.
#[derive(Drop)]
pub struct Bounds {
    pub from: Bound<UserKey>,
    pub to: Bound<UserKey>,
    pub limit: u64,
}

/// The key that a word gives: the bytes in hex after `0x`, else the word itself. None where these are no hex.
fn key_of(alloc: Global, word: &str) -> Result<Option<UserKey>, AllocError> {
    match word.strip_prefix("0x") {
        Some(digits) => match hex::decode(alloc, digits) {
            Ok(bytes) => Ok(Some(Bytes::from_vec(bytes)?)),
            Err(_) => Ok(None),
        },
        None => Ok(Some(Bytes::copy_from_slice(alloc, word.as_bytes())?)),
    }
}

fn bound_of(
    alloc: Global,
    word: Option<&str>,
    is_start: bool,
) -> Result<Option<Bound<UserKey>>, AllocError> {
    let Some(word) = word else {
        return Ok(Some(Bound::Unbounded));
    };
    Ok(match key_of(alloc, word)? {
        Some(key) if is_start => Some(Bound::Included(key)),
        Some(key) => Some(Bound::Excluded(key)),
        None => None,
    })
}

/// The bounds that words give. None where a key isn't the hex that it is to be.
pub fn bounds_of(alloc: Global, slice: &Slice<'_>) -> Result<Option<Bounds>, AllocError> {
    let from = bound_of(alloc, slice.from, true)?;
    let to = bound_of(alloc, slice.to, false)?;
    let limit = slice.limit.unwrap_or(u64::MAX);
    match (from, to) {
        (Some(from), Some(to)) => Ok(Some(Bounds { from, to, limit })),
        _ => Ok(None),
    }
}

/// An entry of a table, or a write of a record, which has no number of its own.
#[derive(Drop, Serialize)]
pub(crate) struct Row {
    #[serde(skip_serializing_if = "Option::is_none")]
    number: Option<SeqNo>,
    key: ShownBytes,
    #[serde(rename = "type")]
    kind: &'static str,
    #[serde(skip_serializing_if = "Option::is_none")]
    value: Option<ShownBytes>,
}

/// What is listed.
#[derive(Drop, Serialize)]
#[serde(untagged)]
pub(crate) enum Listing {
    Table {
        table: TableId,
        entries: Vec<Row>,
        /// What is wrong with its file, of which these entries were read all the same.
        #[serde(skip_serializing_if = "Option::is_none")]
        fault: Option<String>,
    },
    Record {
        record: SeqNo,
        writes: Vec<Row>,
    },
}

impl Listing {
    /// What is wrong with the file that is listed.
    pub(crate) fn fault(&self) -> Option<&str> {
        match self {
            Listing::Table { fault, .. } => fault.as_ref().map(|fault| fault.as_str()),
            Listing::Record { .. } => None,
        }
    }
}

fn entry_row(alloc: Global, entry: &InternalValue) -> Result<Row, AllocError> {
    let (kind, value) = match entry.key.value_type {
        ValueType::Value => (
            "value",
            Some(ShownBytes::new(alloc, entry.value.as_slice())?),
        ),
        ValueType::Tombstone => ("tombstone", None),
        ValueType::WeakTombstone => ("weak tombstone", None),
    };
    Ok(Row {
        number: Some(entry.key.seqno),
        key: ShownBytes::new(alloc, entry.key.user_key.as_slice())?,
        kind,
        value,
    })
}

/// The entries of a table in the bounds, and what is wrong with its file.
pub(crate) fn list_table(
    alloc: Global,
    table: &Table,
    fault: Option<String>,
    bounds: &Bounds,
) -> Result<Listing, AllocError> {
    let entries = table.range(&bounds.from, &bounds.to).iter();
    let mut rows = Vec::new(alloc);
    for entry in entries.take(bounds.limit as usize) {
        rows.push(entry_row(alloc, entry)?)?;
    }
    Ok(Listing::Table {
        table: table.id(),
        entries: rows,
        fault,
    })
}

fn write_row(alloc: Global, key: &UserKey, op: &Op) -> Result<Row, AllocError> {
    let (kind, value) = match op {
        Op::Set(value) => ("value", Some(ShownBytes::new(alloc, value.as_slice())?)),
        Op::Del => ("tombstone", None),
        Op::Weak => ("weak tombstone", None),
    };
    Ok(Row {
        number: None,
        key: ShownBytes::new(alloc, key.as_slice())?,
        kind,
        value,
    })
}

/// The writes of a record.
pub(crate) fn list_record(alloc: Global, record: &Record) -> Result<Listing, AllocError> {
    let mut writes = Vec::new(alloc);
    for (key, op) in record.ops.as_slice() {
        writes.push(write_row(alloc, key, op)?)?;
    }
    Ok(Listing::Record {
        record: record.number,
        writes,
    })
}

fn push_row(out: &mut String, row: &Row) -> Result<(), AllocError> {
    if let Some(number) = row.number {
        write!(out, "{number}\t")?;
    }
    let (key, kind) = (&row.key, row.kind);
    match &row.value {
        Some(value) => write!(out, "{key}\t{value}\n"),
        None => write!(out, "{key}\t{kind}\n"),
    }
}

/// Appends a row for each entry or write: its number, its key, and its value or what kind of tombstone it is.
pub(crate) fn push_listing(out: &mut String, listing: &Listing) -> Result<(), AllocError> {
    let (Listing::Table { entries: rows, .. } | Listing::Record { writes: rows, .. }) = listing;
    for row in rows {
        push_row(out, row)?;
    }
    Ok(())
}
