// What is asked of a store: names and contents, and nothing that changes it.
ghost use Rattle.lsm_store.specs.World.{Same};

use crate::flaws::{RECORD, TABLE, file_fault, sound_front};
use bytes::Bytes;
use lsm_below::{Error, SeqNo, TableId, share};
use lsm_log::{Record, RecordError, decode, record_name};
use lsm_manifest::table_name;
use lsm_store::{Store, StoreError};
use lsm_tables::{Checksum, Table, TableError};
use std::alloc::{AllocError, Global};

/// A file that was read: its bytes and, of a table's that is there, their sum; what it holds, or what is wrong with it.
#[derive(Drop)]
pub(crate) struct ReadFile<T> {
    pub(crate) bytes: u64,
    pub(crate) sum: Option<Checksum>,
    pub(crate) content: Result<T, String>,
}

/// The error of a store call that failed.
fn error_of(error: StoreError) -> Error {
    match error {
        StoreError::OutOfMemory => Error::OutOfMemory,
        StoreError::Fault | StoreError::NothingDone => Error::Store,
    }
}

/// All names of a store.
pub(crate) fn names_of<S: Store>(alloc: Global, store: &mut S) -> Result<Vec<String>, Error>
    ensures { S.tells → Same (S.world store.old) (S.world store.new) }
{
    match store.list(alloc) {
        Ok(names) => Ok(names),
        Err(error) => Err(error_of(error)),
    }
}

/// The content of a name. None where it is absent.
fn content_of<S: Store>(alloc: Global, store: &mut S, name: &str) -> Result<Option<Bytes>, Error>
    ensures { S.tells → Same (S.world store.old) (S.world store.new) }
{
    match store.read(alloc, name) {
        Ok(Some(content)) => Ok(Some(Bytes::from_vec(content)?)),
        Ok(None) => Ok(None),
        Err(error) => Err(error_of(error)),
    }
}

fn missing<T>(alloc: Global) -> Result<ReadFile<T>, AllocError> {
    Ok(ReadFile {
        bytes: 0,
        sum: None,
        content: Err(String::from_str(alloc, "is missing")?),
    })
}

/// The table of these bytes. Their sum is taken once.
fn table_of(alloc: Global, id: TableId, bytes: Bytes) -> Result<ReadFile<Table>, Error> {
    let len = bytes.len() as u64;
    let (sum, content) = match Table::recover(alloc, id, share(&bytes)?) {
        Ok(table) => (table.checksum(), Ok(table)),
        Err(TableError::OutOfMemory) => return Err(Error::OutOfMemory),
        Err(TableError::BadTable) => (
            Checksum::of(bytes.as_slice()),
            Err(file_fault(alloc, bytes.as_slice(), &TABLE)?),
        ),
    };
    Ok(ReadFile {
        bytes: len,
        sum: Some(sum),
        content,
    })
}

/// The table of this id. Nothing else is read.
pub(crate) fn read_table<S: Store>(
    alloc: Global,
    store: &mut S,
    id: TableId,
) -> Result<ReadFile<Table>, Error>
    ensures { S.tells → Same (S.world store.old) (S.world store.new) }
{
    match content_of(alloc, store, table_name(id).as_str())? {
        Some(content) => table_of(alloc, id, content),
        None => Ok(missing(alloc)?),
    }
}

/// The table of the entries that stand in these bytes before the first one that is damaged. None where there are none.
fn front_of(alloc: Global, id: TableId, bytes: &[u8]) -> Result<Option<Table>, Error> {
    let Some(front) = sound_front(alloc, bytes)? else {
        return Ok(None);
    };
    match Table::recover(alloc, id, Bytes::from_vec(front)?) {
        Ok(table) => Ok(Some(table)),
        Err(TableError::OutOfMemory) => Err(Error::OutOfMemory),
        Err(TableError::BadTable) => Ok(None),
    }
}

/// The entries that stand in the table's file of this id before the first one that is damaged. None where there are none.
pub(crate) fn read_front<S: Store>(
    alloc: Global,
    store: &mut S,
    id: TableId,
) -> Result<Option<Table>, Error>
    ensures { S.tells → Same (S.world store.old) (S.world store.new) }
{
    match content_of(alloc, store, table_name(id).as_str())? {
        Some(content) => front_of(alloc, id, content.as_slice()),
        None => Ok(None),
    }
}

/// The record of this number that these bytes are.
fn record_of(alloc: Global, number: SeqNo, bytes: Bytes) -> Result<ReadFile<Record>, Error> {
    let len = bytes.len() as u64;
    let content = match decode(alloc, share(&bytes)?) {
        Ok(record) if record.number == number => Ok(record),
        Ok(record) => Err(format!(in alloc; "is the record of number {}", record.number)?),
        Err(RecordError::OutOfMemory) => return Err(Error::OutOfMemory),
        Err(RecordError::BadRecord) => Err(file_fault(alloc, bytes.as_slice(), &RECORD)?),
    };
    Ok(ReadFile {
        bytes: len,
        sum: None,
        content,
    })
}

/// The record of this number. Nothing else is read.
pub(crate) fn read_record<S: Store>(
    alloc: Global,
    store: &mut S,
    number: SeqNo,
) -> Result<ReadFile<Record>, Error>
    ensures { S.tells → Same (S.world store.old) (S.world store.new) }
{
    match content_of(alloc, store, record_name(number).as_str())? {
        Some(content) => record_of(alloc, number, content),
        None => Ok(missing(alloc)?),
    }
}
