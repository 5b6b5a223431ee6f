// The bytes of records.

use bytes::Bytes;
use lsm_log::{RecordError, decode, encode};
use lsm_state::{Op, UserKey};
use std::alloc::{AllocError, Global};
use std::test::Fail;

/// The record of a = x, numbered 0.
const FIRST: [u8; 25] = [
    0x4c, 0x53, 0x4d, 0x4c, 0, 0, 0, 0, 0, 0, 0, 0, 1, 0, 0, 0, 1, 0, 0, 1, 0, 0, 0, 0x61, 0x78,
];

/// That of b = y and a removal of a, numbered 1.
const SECOND: [u8; 33] = [
    0x4c, 0x53, 0x4d, 0x4c, 1, 0, 0, 0, 0, 0, 0, 0, 2, 0, 0, 0, 1, 0, 0, 1, 0, 0, 0, 0x62, 0x79, 1,
    0, 1, 0, 0, 0, 0, 0x61,
];

fn text(alloc: Global, letters: &[u8]) -> Result<Bytes, AllocError> {
    Bytes::copy_from_slice(alloc, letters)
}

fn is_text(bytes: &Bytes, letters: &[u8]) -> bool {
    bytes.as_slice() == letters
}

/// Whether an operation sets a key so.
fn sets(operation: &(UserKey, Op), key: &[u8], value: &[u8]) -> bool {
    match &operation.1 {
        Op::Set(set) => is_text(&operation.0, key) && is_text(set, value),
        Op::Del => false,
        Op::Weak => false,
    }
}

/// Whether bytes are read as a record; else they are refused as none.
fn is_read(alloc: Global, bytes: &[u8]) -> Result<bool, RecordError> {
    match decode(alloc, text(alloc, bytes)?) {
        Ok(_) => Ok(true),
        Err(RecordError::BadRecord) => Ok(false),
        Err(error) => Err(error),
    }
}

#[test]
fn one_operation_is_read(rt: HostRuntime) -> Result<(), Fail> {
    let record = decode(rt.alloc(), text(rt.alloc(), &FIRST)?)?;
    let ops = record.ops.as_slice();
    let well = record.number == 0 && ops.len() == 1 && sets(&ops[0], b"a", b"x");
    drop(record);
    assert!(rt; well);
    Ok(())
}

#[test]
fn two_operations_are_read(rt: HostRuntime) -> Result<(), Fail> {
    let record = decode(rt.alloc(), text(rt.alloc(), &SECOND)?)?;
    let ops = record.ops.as_slice();
    let well = record.number == 1 && ops.len() == 2 && sets(&ops[0], b"b", b"y");
    drop(record);
    assert!(rt; well);
    Ok(())
}

/// Whether a record with another byte at this place is one still: the number, keys and values may be others, and the
/// removal of a is a value of no bytes.
fn may_be(place: usize, byte: u8) -> bool {
    match place {
        4..=11 | 23 | 24 | 32 => true,
        27 => byte == 0,
        _ => false,
    }
}

/// How many places of a record are told, each with a cut there and with two other bytes, up to the first that isn't.
fn count_told(alloc: Global, record: &[u8]) -> Result<usize, RecordError> {
    let mut bytes = record.to_vec(alloc)?;
    for place in 0..bytes.len() {
        let mut is_well = !is_read(alloc, &bytes[..place])?;
        for mask in [1, 255] {
            let byte = bytes[place] ^ mask;
            bytes[place] = byte;
            is_well = is_read(alloc, &bytes)? == may_be(place, byte) && is_well;
            bytes[place] = byte ^ mask;
        }
        if !is_well {
            return Ok(place);
        }
    }
    Ok(bytes.len())
}

#[test]
fn cuts_and_changed_bytes_are_refused(rt: HostRuntime) -> Result<(), Fail> {
    assert!(rt; count_told(rt.alloc(), &FIRST)? == 25);
    assert!(rt; count_told(rt.alloc(), &SECOND)? == 33);
    Ok(())
}

/// The letters of a table, a weak removal with a value, and a byte after the last operation.
#[test]
fn others_are_refused(rt: HostRuntime) -> Result<(), Fail> {
    for (place, byte) in [(3, 0x54), (18, 2)] {
        let mut bytes = FIRST;
        bytes[place] = byte;
        let read = is_read(rt.alloc(), &bytes)?;
        assert!(rt; !read);
    }
    let mut longer = FIRST.to_vec(rt.alloc())?;
    longer.push(0)?;
    let read = is_read(rt.alloc(), &longer)?;
    assert!(rt; !read);
    Ok(())
}

#[test]
fn a_key_that_comes_twice_is_refused(rt: HostRuntime) -> Result<(), Fail> {
    let mut doubled = SECOND;
    doubled[32] = b'b';
    let read = is_read(rt.alloc(), &doubled)?;
    assert!(rt; !read);
    Ok(())
}

#[test]
fn what_is_read_is_written(rt: HostRuntime) -> Result<(), Fail> {
    let record = decode(rt.alloc(), text(rt.alloc(), &SECOND)?)?;
    let again = encode(rt.alloc(), record.number, record.ops.as_slice())?;
    let well = again.as_slice() == SECOND.as_slice();
    drop(record);
    assert!(rt; well);
    Ok(())
}
