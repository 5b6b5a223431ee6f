// What tests make entries, ranges and runs by.

use bytes::Bytes;
use lsm_below::{
    InternalValue, KeyRange, Ranged, Run, SeqNo, UserKey, UserValue, ValueType, is_run,
};
use lsm_store::{Store, StoreError};
use std::process::Abort;

pub const V: ValueType = ValueType::Value;

pub const T: ValueType = ValueType::Tombstone;

pub const W: ValueType = ValueType::WeakTombstone;

/// An entry whose value is x, where it has one: of a key of one byte it takes 17 bytes in an image.
pub fn entry(key: &'static [u8], seqno: SeqNo, value_type: ValueType) -> InternalValue {
    let value = UserValue::from_static(b"x");
    InternalValue::from_components(UserKey::from_static(key), value, seqno, value_type)
}

/// The range between these ends, which stand in order.
pub fn range(rt: &impl Abort, min: &'static [u8], max: &'static [u8]) -> KeyRange {
    assert!(rt; min.cmp(max).is_le());
    KeyRange::new((UserKey::from_static(min), UserKey::from_static(max)))
}

/// The run of these tables.
pub fn run_of<T: Ranged + Drop>(rt: &impl Abort, tables: Vec<T>) -> Run<T> {
    assert!(rt; is_run(&tables));
    match Run::new(tables) {
        Some(run) => run,
        None => panic!(rt; "no table"),
    }
}

/// A call of a store: on a name, or one that settles all.
#[derive(Clone, Copy)]
pub enum Call {
    Write(&'static str, &'static [u8]),
    /// A write of bytes that the store may share.
    Share(&'static str, &'static [u8]),
    Sync(&'static str),
    Replace(&'static str, &'static [u8]),
    Remove(&'static str),
    Settle,
}

/// Makes a call.
pub fn answer(store: &mut impl Store, call: Call) -> Result<(), StoreError> {
    match call {
        Call::Write(name, bytes) => store.write(name, bytes),
        Call::Share(name, bytes) => store.write_shared(name, &Bytes::from_static(bytes)),
        Call::Sync(name) => store.sync(name),
        Call::Replace(name, bytes) => store.replace(name, bytes),
        Call::Remove(name) => store.remove(name),
        Call::Settle => store.settle(),
    }
}

/// Whether the call was answered; a refusal for memory is handed on.
pub fn make(store: &mut impl Store, call: Call) -> Result<bool, StoreError> {
    match answer(store, call) {
        Ok(()) => Ok(true),
        Err(StoreError::Fault | StoreError::NothingDone) => Ok(false),
        Err(StoreError::OutOfMemory) => Err(StoreError::OutOfMemory),
    }
}

/// Makes these calls. Whether each was answered.
pub fn make_each(store: &mut impl Store, calls: &[Call]) -> Result<bool, StoreError> {
    let mut all = true;
    for call in calls {
        all = make(store, *call)? && all;
    }
    Ok(all)
}
