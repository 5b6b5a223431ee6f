// Writing a record.
ghost use Rattle.std.specs.Prelude.{◌≡◌, ◌++◌, false, OnOk, IfOk};
ghost use Rattle.std.specs.List.{AllByRecursion};
ghost use Rattle.lsm_tables.specs.Image.{Fits};
ghost use Rattle.lsm_model.specs.Ops.{op_entries, op_value, keys_of, repeats};
ghost use Rattle.lsm_log.specs.Records.{IsRecordOf, code_of, head, front, spelled, OpFits};

use crate::layout::{
    COUNT_PLACE, DEL_CODE, FRONT_LEN, HEAD_LEN, MAGIC, NUMBER_PLACE, SET_CODE, TYPE_PLACE,
    VALUE_LEN_PLACE, WEAK_CODE,
};
use byteorder::{ByteOrder, LittleEndian};
use lsm_below::{SeqNo, UserKey};
use lsm_model::Op;
use std::alloc::{AllocError, Global};

/// The most operations of a record: their count takes four bytes.
const MOST: usize = 4_294_967_295;

fn code_of(op: &Op) -> u8
    ensures { result ≡ code_of op.now }
{
    match op {
        Op::Set(_) => SET_CODE,
        Op::Del => DEL_CODE,
        Op::Weak => WEAK_CODE,
    }
}

/// The bytes of the value that is set.
fn value_of(op: &Op) -> &[u8]
    ensures { result.now ≡ op_value op.now }
{
    match op {
        Op::Set(value) => value.as_slice(),
        Op::Del => &[],
        Op::Weak => &[],
    }
}

#[tactic(auto, unfolding(crate::specs::Records::head))]
fn head_of(key_len: u16, code: u8, value_len: u32) -> [u8; HEAD_LEN]
    ensures { result ≡ head key_len code value_len }
{
    let mut out = [0u8; HEAD_LEN];
    LittleEndian::write_u16(&mut out, key_len);
    out[TYPE_PLACE] = code;
    LittleEndian::write_u32(&mut out[VALUE_LEN_PLACE..], value_len);
    out
}

#[tactic(auto, unfolding(crate::specs::Records::front))]
fn front_of(number: SeqNo, count: u32) -> [u8; FRONT_LEN]
    ensures { result ≡ front number count }
{
    let mut out = [0u8; FRONT_LEN];
    LittleEndian::write_u32(&mut out, MAGIC);
    LittleEndian::write_u64(&mut out[NUMBER_PLACE..], number);
    LittleEndian::write_u32(&mut out[COUNT_PLACE..], count);
    out
}

fn put_operation(out: &mut Vec<u8>, operation: &(UserKey, Op)) -> Result<(), AllocError>
    requires { OpFits operation.now }
    ensures { OnOk result (out.new.items ≡ out.old.items ++ spelled operation.now) }
{
    let key = operation.0.as_slice();
    let value = value_of(&operation.1);
    let head = head_of(key.len() as u16, code_of(&operation.1), value.len() as u32);
    out.extend_from_slice(&head)?;
    out.extend_from_slice(key)?;
    out.extend_from_slice(value)
}

/// How many bytes the record has, so that room is made once.
fn size_of(ops: &[(UserKey, Op)]) -> usize {
    let mut size = FRONT_LEN;
    for (key, op) in ops {
        size = size
            .saturating_add(HEAD_LEN)
            .saturating_add(key.len())
            .saturating_add(value_of(op).len());
    }
    size
}

/// The record of a batch, under the sequence number of its writes.
///
/// Keys have at most `MAX_KEY_LEN` bytes, values at most `MAX_VALUE_LEN`, and no key comes twice. The cost is linear in
/// the bytes.
///
/// # Errors
///
/// Refused for want of memory, also where there are 2^32 operations or more, which no record counts.
pub fn encode(alloc: Global, number: SeqNo, ops: &[(UserKey, Op)]) -> Result<Vec<u8>, AllocError>
    requires each { AllByRecursion Fits (op_entries number ops.now) }
    requires once { repeats (keys_of ops.now) ≡ false }
    ensures { IfOk result (λ v. IsRecordOf number ops.now v.items) }
{
    if ops.len() > MOST {
        return Err(AllocError);
    }
    let mut out = Vec::with_capacity(alloc, size_of(ops))?;
    out.extend_from_slice(&front_of(number, ops.len() as u32))?;
    for operation in ops {
        put_operation(&mut out, operation)?;
    }
    Ok(out)
}
