// Reading the content of a table's file.
ghost use Rattle.std.specs.Prelude.{◌≡◌, ℕ, List, ◌≤◌, ◌<◌, ◌++◌, length, IfOk, IfErr};
ghost use Rattle.lsm_below.specs.Entries.{Entry};
ghost use Rattle.lsm_below.specs.Heads.{AreHeads};
ghost use Rattle.lsm_tables.specs.Reading.{many};
ghost use Rattle.lsm_tables.specs.Image.{IsImageOf, IsNoImage};
ghost use Rattle.lsm_tables.specs.ImageReading.{Gives, type_of, header_at, may_have, spelled_at, follows, rises, contents, image_at};
ghost use Rattle.lsm_tables.specs.declared.table_error.TableError.TheVariants.{BadTable};

use super::layout::{
    COUNT_PLACE, FRONT_LEN, HEAD_LEN, MADE_AT_PLACE, MAGIC, SEQNO_PLACE, TOMBSTONE_CODE,
    TYPE_PLACE, VALUE_CODE, VALUE_LEN_PLACE, WEAK_TOMBSTONE_CODE,
};
use crate::TableError;
use byteorder::{ByteOrder, LittleEndian};
use bytes::Bytes;
use lsm_below::{
    Headed, InternalKey, InternalValue, SeqNo, ValueType, entries_are_ordered, head_of,
    slices_hold_bytes,
};
use std::alloc::Global;

/// What comes before an entry's key.
#[derive(Drop)]
struct Header {
    key_len: u16,
    seqno: SeqNo,
    value_type: ValueType,
    value_len: u32,
}

fn type_at(code: u8) -> Result<ValueType, TableError>
    ensures { Gives (λ x. x) result (type_of code) }
{
    match code {
        VALUE_CODE => Ok(ValueType::Value),
        TOMBSTONE_CODE => Ok(ValueType::Tombstone),
        WEAK_TOMBSTONE_CODE => Ok(ValueType::WeakTombstone),
        _ => Err(TableError::BadTable),
    }
}

#[tactic(auto, unfolding(crate::specs::ImageReading::header_at))]
fn header_of(bytes: &[u8]) -> Result<Header, TableError>
    requires { 15 ≤ length bytes.now }
    ensures { Gives (λ x. x) result (header_at bytes.now) }
{
    let value_type = type_at(bytes[TYPE_PLACE])?;
    Ok(Header {
        key_len: LittleEndian::read_u16(bytes),
        seqno: LittleEndian::read_u64(&bytes[SEQNO_PLACE..]),
        value_type,
        value_len: LittleEndian::read_u32(&bytes[VALUE_LEN_PLACE..]),
    })
}

fn may_have_value(value_type: ValueType, len: usize) -> bool
    ensures { result ≡ may_have value_type len }
{
    match value_type {
        ValueType::Value => true,
        ValueType::Tombstone | ValueType::WeakTombstone => len == 0,
    }
}

/// An entry, cut from the front of the bytes.
#[tactic(auto, unfolding(crate::specs::ImageReading::spelled_at, crate::specs::ImageReading::body_at))]
fn entry_of(bytes: &mut Bytes) -> Result<InternalValue, TableError>
    ensures { Gives (λ e. (e, bytes.new)) result (spelled_at bytes.old) }
{
    if bytes.len() < HEAD_LEN {
        return Err(TableError::BadTable);
    }
    let header = header_of(bytes.as_slice())?;
    let key_len = header.key_len as usize;
    let value_len = header.value_len as usize;
    bytes.advance(HEAD_LEN);
    if bytes.len() < key_len + value_len {
        return Err(TableError::BadTable);
    }
    if !may_have_value(header.value_type, value_len) {
        return Err(TableError::BadTable);
    }
    let user_key = bytes.split_to(key_len)?;
    let value = bytes.split_to(value_len)?;
    Ok(InternalValue {
        key: InternalKey {
            user_key,
            seqno: header.seqno,
            value_type: header.value_type,
        },
        value,
    })
}

/// Whether the last of the entries comes before an entry.
pub(super) fn may_follow(entries: &[InternalValue], entry: &InternalValue) -> bool
    ensures { result ≡ follows entries.now entry.now }
{
    match entries.last() {
        None => true,
        Some(last) => last.key.cmp(&entry.key).is_lt(),
    }
}

/// How many entries there can be, so that room is made once, and none for a count that is too great.
fn room_for(count: u64, bytes: &Bytes) -> usize {
    let most = bytes.len() / HEAD_LEN;
    if count < most as u64 {
        count as usize
    } else {
        most
    }
}

/// `may_follow`, by heads.
fn follows_headed(heads: &[u128], entries: &[InternalValue], next: &Headed<'_>) -> bool
    requires { AreHeads heads.now entries.now }
    ensures { result ≡ follows entries.now next.now }
{
    if entries.is_empty() {
        return true;
    }
    Headed::at(heads, entries, entries.len() - 1).stands_before(next)
}

/// So many entries, cut from the front of the bytes, with the heads of their keys, and whether they rise. A head is made
/// while its key is at hand.
fn entries_of(
    alloc: Global,
    count: u64,
    bytes: &mut Bytes,
) -> Result<(Vec<InternalValue>, Vec<u128>, bool), TableError>
    ensures read { Gives (λ x. (x.0.items, bytes.new)) result (many spelled_at count bytes.old) }
    ensures heads { IfOk result (λ x. AreHeads x.1.items x.0.items) }
    ensures rising { IfOk result (λ x. x.2 ≡ rises x.0.items) }
{
    let room = room_for(count, bytes);
    let mut entries = Vec::with_capacity(alloc, room)?;
    let mut heads = Vec::with_capacity(alloc, room)?;
    let mut rising = true;
    for _ in 0..count {
        let entry = entry_of(bytes)?;
        let head = head_of(entry.key.user_key.as_slice());
        rising = rising && follows_headed(&heads, &entries, &Headed::new(&entry, head));
        heads.push(head)?;
        entries.push(entry)?;
    }
    Ok((entries, heads, rising))
}

#[tactic(auto, unfolding(crate::specs::ImageReading::image_at))]
fn read_image(
    alloc: Global,
    bytes: Bytes,
) -> Result<(u64, Vec<InternalValue>, Vec<u128>), TableError>
    ensures read { Gives (λ x. contents x.0 x.1.items) result (image_at bytes) }
    ensures heads { IfOk result (λ x. AreHeads x.2.items x.1.items) }
{
    let mut bytes = bytes;
    if bytes.len() < FRONT_LEN {
        return Err(TableError::BadTable);
    }
    let front = bytes.as_slice();
    if LittleEndian::read_u32(front) != MAGIC {
        return Err(TableError::BadTable);
    }
    let made_at = LittleEndian::read_u64(&front[MADE_AT_PLACE..]);
    let count = LittleEndian::read_u64(&front[COUNT_PLACE..]);
    bytes.advance(FRONT_LEN);
    let (entries, heads, rising) = entries_of(alloc, count, &mut bytes)?;
    if !bytes.is_empty() || entries.is_empty() || !rising {
        return Err(TableError::BadTable);
    }
    Ok((made_at, entries, heads))
}

/// Made-at (in nanoseconds) and the entries of a table's file, whose keys and values share its bytes.
/// The cost is linear in the bytes.
///
/// # Errors
///
/// `BadTable` where the bytes are the content of no table's file, and only there; `OutOfMemory` where a
/// growth was refused.
pub fn decode(alloc: Global, bytes: Bytes) -> Result<(u64, Vec<InternalValue>), TableError>
    ensures read { IfOk result (λ x. IsImageOf x.0 x.1.items bytes) }
    ensures bad { IfErr result (λ e. e ≡ BadTable → IsNoImage bytes) }
{
    match decode_headed(alloc, bytes) {
        Ok((made_at, entries, _)) => Ok((made_at, entries)),
        Err(error) => Err(error),
    }
}

/// `decode`, with the heads of the entries' keys.
pub(crate) fn decode_headed(
    alloc: Global,
    bytes: Bytes,
) -> Result<(u64, Vec<InternalValue>, Vec<u128>), TableError>
    ensures read { IfOk result (λ x. IsImageOf x.0 x.1.items bytes) }
    ensures heads { IfOk result (λ x. AreHeads x.2.items x.1.items) }
    ensures bad { IfErr result (λ e. e ≡ BadTable → IsNoImage bytes) }
{
    slices_hold_bytes(bytes.as_slice());
    entries_are_ordered();
    read_image(alloc, bytes)
}

/// No table's content begins another one's, so a table has one content alone.
pub fn no_image_begins_another()
    ensures { (m n : ℕ) (es fs : List Entry) (a b x y : List ℕ) → IsImageOf m es a → IsImageOf n fs b
        → a ++ x ≡ b ++ y → (m ≡ n) × (es ≡ fs) × (x ≡ y) }
{}
