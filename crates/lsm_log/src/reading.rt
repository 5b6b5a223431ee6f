// Reading a record.
ghost use Rattle.std.specs.Prelude.{◌≡◌, ℕ, List, ◌++◌, IfOk, IfErr};
ghost use Rattle.lsm_tables.specs.Reading.{many};
ghost use Rattle.lsm_log.specs.Records.{Ops, IsRecordOf, IsNoRecord};
ghost use Rattle.lsm_log.specs.RecordReading.{Gives, op_of, spelled_at, contents, record_at};
ghost use Rattle.lsm_log.specs.declared.record_error.RecordError.TheVariants.{BadRecord};

use crate::layout::{
    COUNT_PLACE, DEL_CODE, FRONT_LEN, HEAD_LEN, MAGIC, NUMBER_PLACE, SET_CODE, TYPE_PLACE,
    VALUE_LEN_PLACE, WEAK_CODE,
};
use crate::{Record, RecordError};
use byteorder::{ByteOrder, LittleEndian};
use bytes::Bytes;
use lsm_below::{UserKey, UserValue, slices_hold_bytes};
use lsm_model::{Op, Ops, has_repeats};
use std::alloc::Global;

/// What an operation of this type does, whose value has these bytes.
fn op_of(code: u8, value: UserValue) -> Result<Op, RecordError>
    ensures { Gives (λ x. x) result (op_of code value) }
{
    match code {
        SET_CODE => Ok(Op::Set(value)),
        DEL_CODE if value.is_empty() => Ok(Op::Del),
        WEAK_CODE if value.is_empty() => Ok(Op::Weak),
        _ => Err(RecordError::BadRecord),
    }
}

/// An operation, cut from the front of the bytes.
#[tactic(auto, unfolding(crate::specs::RecordReading::spelled_at, crate::specs::RecordReading::body_at))]
fn operation_of(bytes: &mut Bytes) -> Result<(UserKey, Op), RecordError>
    ensures { Gives (λ p. (p, bytes.new)) result (spelled_at bytes.old) }
{
    if bytes.len() < HEAD_LEN {
        return Err(RecordError::BadRecord);
    }
    let head = bytes.as_slice();
    let key_len = LittleEndian::read_u16(head) as usize;
    let code = head[TYPE_PLACE];
    let value_len = LittleEndian::read_u32(&head[VALUE_LEN_PLACE..]) as usize;
    bytes.advance(HEAD_LEN);
    if bytes.len() < key_len + value_len {
        return Err(RecordError::BadRecord);
    }
    let key = bytes.split_to(key_len)?;
    let value = bytes.split_to(value_len)?;
    let op = op_of(code, value)?;
    Ok((key, op))
}

/// How many operations there can be, so that room is made once, and none for a count that is too great.
fn room_for(count: u32, bytes: &Bytes) -> usize {
    let most = bytes.len() / HEAD_LEN;
    (count as usize).min(most)
}

/// So many operations, cut from the front of the bytes.
fn operations_of(
    alloc: Global,
    count: u32,
    bytes: &mut Bytes,
) -> Result<Vec<(UserKey, Op)>, RecordError>
    ensures { Gives (λ v. (v.items, bytes.new)) result (many spelled_at count bytes.old) }
{
    let mut ops = Vec::with_capacity(alloc, room_for(count, bytes))?;
    for _ in 0..count {
        let op = operation_of(bytes)?;
        ops.push(op)?;
    }
    Ok(ops)
}

#[tactic(auto, unfolding(crate::specs::RecordReading::record_at))]
fn read_record(alloc: Global, bytes: Bytes) -> Result<Record, RecordError>
    ensures { Gives (λ r. contents r.number r.ops) result (record_at bytes) }
{
    let mut bytes = bytes;
    if bytes.len() < FRONT_LEN {
        return Err(RecordError::BadRecord);
    }
    let front = bytes.as_slice();
    if LittleEndian::read_u32(front) != MAGIC {
        return Err(RecordError::BadRecord);
    }
    let number = LittleEndian::read_u64(&front[NUMBER_PLACE..]);
    let count = LittleEndian::read_u32(&front[COUNT_PLACE..]);
    bytes.advance(FRONT_LEN);
    let ops = operations_of(alloc, count, &mut bytes)?;
    let doubled = has_repeats(alloc, &ops)?;
    if !bytes.is_empty() || doubled {
        return Err(RecordError::BadRecord);
    }
    Ok(Record {
        number,
        ops: Ops::new(ops),
    })
}

/// The batch that a record tells, and the sequence number of its writes. Keys and values share the record's bytes.
/// The cost is linear in the bytes, beside that of sorting the keys.
///
/// # Errors
///
/// `BadRecord` where the bytes are no record, and only there; `OutOfMemory` where a growth was refused.
pub fn decode(alloc: Global, bytes: Bytes) -> Result<Record, RecordError>
    ensures read { IfOk result (λ r. IsRecordOf r.number r.ops bytes) }
    ensures bad { IfErr result (λ e. e ≡ BadRecord → IsNoRecord bytes) }
{
    slices_hold_bytes(bytes.as_slice());
    read_record(alloc, bytes)
}

/// No record begins another one, so a batch has one record alone.
pub fn no_record_begins_another()
    ensures { (m n : ℕ) (ops others : Ops) (a b x y : List ℕ) → IsRecordOf m ops a → IsRecordOf n others b
        → a ++ x ≡ b ++ y → (m ≡ n) × (ops ≡ others) × (x ≡ y) }
{}
