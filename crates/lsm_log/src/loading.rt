// Records are read from a store.
ghost use Rattle.std.specs.Prelude.{◌≡◌, ◌⊎◌, ◌≤◌, ◌<◌, Some, None, length, take, drop, IfOk, IfErr, OnOk, IsErrOf};
ghost use Rattle.std.specs.List.{All};
ghost use Rattle.std.specs.List.Sorted.{IsStrictlyIncreasing};
ghost use Rattle.lsm_store.specs.World.{Same};
ghost use Rattle.lsm_log.specs.LogNames.{record_name};
ghost use Rattle.lsm_log.specs.Records.{Ops, IsRecordOf};
ghost use Rattle.lsm_commit.specs.Stored.{CountsFaults};
ghost use Rattle.lsm_log.specs.Logs.{IsRecordAt, IsNoRecordAt, HasEach, LacksOne, IsLogAt, IsBadLog};

use crate::listing::record_numbers;
use crate::{LogNumbers, Record, RecordError, decode, no_record_begins_another, record_name};
use bytes::Bytes;
use lsm_below::{Error, SeqNo};
use lsm_store::{Store, StoreError};
use std::alloc::{AllocError, Global};

/// The content of a record's file, which has to be there.
fn content_of<S: Store>(alloc: Global, store: &mut S, number: SeqNo) -> Result<Vec<u8>, Error>
    ensures found { S.tells → IfOk result (λ v. (S.world store.old).gives (record_name number) ≡ Some v.items) }
    ensures absent { S.tells → IsErrOf result Error.Unrecoverable → (S.world store.old).gives (record_name number) ≡ None }
    ensures only { IfErr result (λ e. ((e ≡ Error.OutOfMemory) ⊎ (e ≡ Error.Store)) ⊎ (e ≡ Error.Unrecoverable)) }
    ensures same { S.tells → Same (S.world store.old) (S.world store.new) }
    ensures counts { CountsFaults (S.world store.old) (S.world store.new) result }
{
    match store.read(alloc, record_name(number).as_str()) {
        Ok(Some(bytes)) => Ok(bytes),
        Ok(None) => Err(Error::Unrecoverable),
        Err(StoreError::OutOfMemory) => Err(Error::OutOfMemory),
        Err(StoreError::Fault | StoreError::NothingDone) => Err(Error::Store),
    }
}

/// The record of these bytes, which must have this number.
fn record_of(alloc: Global, number: SeqNo, content: Vec<u8>) -> Result<Record, Error>
    ensures read { IfOk result (λ r. IsRecordOf number r.ops content.items × (r.number ≡ number)) }
    ensures bad { IsErrOf result Error.Unrecoverable → (ops : Ops) → IsRecordOf number ops content.items → ⊥ }
    ensures only { IfErr result (λ e. (e ≡ Error.OutOfMemory) ⊎ (e ≡ Error.Unrecoverable)) }
{
    no_record_begins_another();
    let record = match decode(alloc, Bytes::from_vec(content)?) {
        Ok(record) => record,
        Err(RecordError::OutOfMemory) => return Err(Error::OutOfMemory),
        Err(RecordError::BadRecord) => return Err(Error::Unrecoverable),
    };
    if record.number != number {
        return Err(Error::Unrecoverable);
    }
    Ok(record)
}

/// The record of this number, which has to be there. It changes nothing. The cost is linear in the record's bytes.
///
/// # Errors
///
/// `Unrecoverable` where there is no file of that name, or it is no record of this number; `OutOfMemory` where a growth
/// was refused, `Store` where a store call failed.
pub fn read_record<S: Store>(alloc: Global, store: &mut S, number: SeqNo) -> Result<Record, Error>
    ensures read { S.tells → IfOk result (IsRecordAt (S.world store.old).gives number) }
    ensures number { IfOk result (λ r. r.number ≡ number) }
    ensures bad { S.tells → IsErrOf result Error.Unrecoverable → IsNoRecordAt (S.world store.old).gives number }
    ensures only { IfErr result (λ e. ((e ≡ Error.OutOfMemory) ⊎ (e ≡ Error.Store)) ⊎ (e ≡ Error.Unrecoverable)) }
    ensures same { S.tells → Same (S.world store.old) (S.world store.new) }
    ensures counts { CountsFaults (S.world store.old) (S.world store.new) result }
{
    let content = content_of(alloc, store, number)?;
    record_of(alloc, number, content)
}

/// Reads the record of each of these numbers, and lets it go before the next.
fn check_each<S: Store>(alloc: Global, store: &mut S, numbers: &[SeqNo]) -> Result<(), Error>
    ensures read { S.tells → OnOk result (HasEach (S.world store.old).gives numbers.now) }
    ensures bad { S.tells → IsErrOf result Error.Unrecoverable → LacksOne (S.world store.old).gives numbers.now }
    ensures only { IfErr result (λ e. ((e ≡ Error.OutOfMemory) ⊎ (e ≡ Error.Store)) ⊎ (e ≡ Error.Unrecoverable)) }
    ensures same { S.tells → Same (S.world store.old) (S.world store.new) }
    ensures counts { CountsFaults (S.world store.old) (S.world store.new) result }
{
    for number in numbers {
        let record = read_record(alloc, store, *number)?;
        drop(record);
    }
    Ok(())
}

/// The place of the first number that isn't below this one, or the length where all are. The numbers rise. The cost is
/// linear in the numbers before that place.
pub fn first_from(numbers: &[SeqNo], from: SeqNo) -> usize
    requires { IsStrictlyIncreasing numbers.now }
    ensures within { result ≤ length numbers.now }
    ensures before { All (λ k. k < from) (take result numbers.now) }
    ensures behind { All (λ k. from ≤ k) (drop result numbers.now) }
{
    for i in 0..numbers.len() {
        if numbers[i] >= from {
            return i;
        }
    }
    numbers.len()
}

/// The numbers from a place on.
fn behind(alloc: Global, numbers: &[SeqNo], at: usize) -> Result<Vec<SeqNo>, AllocError>
    requires { at ≤ length numbers.now }
    ensures { IfOk result (λ v. v.items ≡ drop at numbers.now) }
{
    let mut copy = Vec::new(alloc);
    copy.extend_from_slice(numbers.split_at(at).1)?;
    Ok(copy)
}

/// Checks a log from this number on: the numbers of the records from it on, each of which was read and let go, and the
/// numbers of those below it, which are ignored unread. Names `.DS_Store` and those that begin with `._` are passed over;
/// all names are looked at before any record is read. It changes nothing. One record is in memory at a time. The cost is
/// linear in the names of the store and in the bytes of the records, beside that of sorting the numbers.
///
/// # Errors
///
/// `Unrecoverable` where another name in the folder `log` isn't a number below 2^63 in plain decimal, or what is read
/// is no record under the number of its name; `OutOfMemory` where a growth was refused, `Store` where a store call
/// failed.
pub fn check_log<S: Store>(alloc: Global, store: &mut S, from: SeqNo) -> Result<LogNumbers, Error>
    ensures read { S.tells → IfOk result (λ l. IsLogAt (S.world store.old).gives from l.passed.items l.numbers.items) }
    ensures bad { S.tells → IsErrOf result Error.Unrecoverable → IsBadLog (S.world store.old).gives from }
    ensures only { IfErr result (λ e. ((e ≡ Error.OutOfMemory) ⊎ (e ≡ Error.Store)) ⊎ (e ≡ Error.Unrecoverable)) }
    ensures same { S.tells → Same (S.world store.old) (S.world store.new) }
    ensures counts { CountsFaults (S.world store.old) (S.world store.new) result }
{
    let mut passed = record_numbers(alloc, store)?;
    let at = first_from(&passed, from);
    let numbers = behind(alloc, &passed, at)?;
    check_each(alloc, store, &numbers)?;
    passed.truncate(at);
    Ok(LogNumbers { passed, numbers })
}
