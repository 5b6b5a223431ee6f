// The newest write of each key.
use lsm_below::{SeqNo, UserKey, UserValue, share};
use lsm_log::Record;
use lsm_model::Op;
use lsm_tables::Table;
use std::alloc::AllocError;
use std::collections::BTreeMap;

/// A write of a key.
#[derive(Drop)]
pub(crate) struct Newest {
    number: SeqNo,
    /// None where it removes the key.
    pub(crate) value: Option<UserValue>,
}

/// The newest write of each key. Keys and values share the bytes of the files.
pub(crate) type NewestWrites = BTreeMap<UserKey, Newest>;

/// Notes a write, where none is known of its key that is newer.
fn note(
    writes: &mut NewestWrites,
    key: &UserKey,
    number: SeqNo,
    value: Option<&UserValue>,
) -> Result<(), AllocError> {
    if writes.get(key).is_some_and(|known| known.number > number) {
        return Ok(());
    }
    let value = match value {
        Some(value) => Some(share(value)?),
        None => None,
    };
    writes.insert(share(key)?, Newest { number, value })?;
    Ok(())
}

/// Notes the entries of a table.
pub(crate) fn note_table(writes: &mut NewestWrites, table: &Table) -> Result<(), AllocError> {
    for entry in table.entries() {
        let value = if entry.is_tombstone() {
            None
        } else {
            Some(&entry.value)
        };
        note(writes, &entry.key.user_key, entry.key.seqno, value)?;
    }
    Ok(())
}

/// Notes the writes of a record.
pub(crate) fn note_record(writes: &mut NewestWrites, record: &Record) -> Result<(), AllocError> {
    for (key, op) in record.ops.as_slice() {
        let value = match op {
            Op::Set(value) => Some(value),
            Op::Del | Op::Weak => None,
        };
        note(writes, key, record.number, value)?;
    }
    Ok(())
}

/// The number after all that were noted, 0 where none was.
pub(crate) fn after_all(writes: &NewestWrites) -> SeqNo {
    let mut after: SeqNo = 0;
    for newest in writes.values() {
        after = after.max(newest.number.saturating_add(1));
    }
    after
}
