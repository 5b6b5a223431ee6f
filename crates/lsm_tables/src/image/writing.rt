// Writing the content of a table's file.
ghost use Rattle.std.specs.Prelude.{◌≡◌, ◌++◌, ◌≤◌, length, OnOk, IfOk};
ghost use Rattle.lsm_tables.specs.Image.{Fits, IsTable, type_code, head, front, spelled, image};

use super::layout::{
    COUNT_PLACE, FRONT_LEN, HEAD_LEN, MADE_AT_PLACE, MAGIC, SEQNO_PLACE, TOMBSTONE_CODE,
    TYPE_PLACE, VALUE_CODE, VALUE_LEN_PLACE, WEAK_TOMBSTONE_CODE,
};
use crate::Entries;
use byteorder::{ByteOrder, LittleEndian};
use lsm_below::{InternalValue, SeqNo, ValueType};
use std::alloc::{AllocError, Global};

fn code_of(value_type: ValueType) -> u8
    ensures { result ≡ type_code value_type }
{
    match value_type {
        ValueType::Value => VALUE_CODE,
        ValueType::Tombstone => TOMBSTONE_CODE,
        ValueType::WeakTombstone => WEAK_TOMBSTONE_CODE,
    }
}

#[tactic(auto, unfolding(crate::specs::Image::head))]
fn head_of(key_len: u16, seqno: SeqNo, value_type: ValueType, value_len: u32) -> [u8; HEAD_LEN]
    ensures { result ≡ head key_len seqno value_type value_len }
{
    let mut out = [0u8; HEAD_LEN];
    LittleEndian::write_u16(&mut out, key_len);
    LittleEndian::write_u64(&mut out[SEQNO_PLACE..], seqno);
    out[TYPE_PLACE] = code_of(value_type);
    LittleEndian::write_u32(&mut out[VALUE_LEN_PLACE..], value_len);
    out
}

#[tactic(auto, unfolding(crate::specs::Image::front))]
pub(super) fn front_of(made_at: u64, count: u64) -> [u8; FRONT_LEN]
    ensures { result ≡ front made_at count }
{
    let mut out = [0u8; FRONT_LEN];
    LittleEndian::write_u32(&mut out, MAGIC);
    LittleEndian::write_u64(&mut out[MADE_AT_PLACE..], made_at);
    LittleEndian::write_u64(&mut out[COUNT_PLACE..], count);
    out
}

pub(super) fn put_entry(out: &mut Vec<u8>, entry: &InternalValue) -> Result<(), AllocError>
    requires { Fits entry.now }
    ensures spelled { OnOk result (out.new.items ≡ out.old.items ++ spelled entry.now) }
    ensures grows { length out.old.items ≤ length out.new.items }
{
    let head = head_of(
        entry.key.user_key.len() as u16,
        entry.key.seqno,
        entry.key.value_type,
        entry.value.len() as u32,
    );
    out.extend_from_slice(&head)?;
    out.extend_from_slice(entry.key.user_key.as_slice())?;
    out.extend_from_slice(entry.value.as_slice())
}

/// The content of the file of a table of these entries, made at this moment (in nanoseconds). It is made of them where
/// they stand. `held` is the bytes that they take, as `split_table` counts them: room for so many is made at once.
///
/// The entries rise, at least one; keys have at most `MAX_KEY_LEN` bytes, values at most
/// `MAX_VALUE_LEN`, and tombstones none. The cost is linear in the bytes.
///
/// # Errors
///
/// Refused only for want of memory.
pub fn encode_parts(
    alloc: Global,
    made_at: u64,
    entries: &Entries<'_>,
    held: u64,
) -> Result<Vec<u8>, AllocError>
    requires { IsTable entries.now }
    ensures { IfOk result (λ v. v.items ≡ image made_at entries.now) }
{
    let mut out = Vec::with_capacity(alloc, FRONT_LEN.saturating_add(held as usize))?;
    out.extend_from_slice(&front_of(made_at, entries.len() as u64))?;
    let mut rest = entries.copy();
    while let Some((entry, behind)) = rest.split_first() {
        put_entry(&mut out, entry)?;
        rest = behind;
    }
    Ok(out)
}

/// `encode_parts`, of entries that stand in one slice; room is made as it is needed.
pub fn encode(alloc: Global, made_at: u64, entries: &[InternalValue]) -> Result<Vec<u8>, AllocError>
    requires { IsTable entries.now }
    ensures { IfOk result (λ v. v.items ≡ image made_at entries.now) }
{
    encode_parts(alloc, made_at, &Entries::of(entries), 0)
}
