// The tree's writes.
ghost use Rattle.std.specs.Prelude.{◌≡◌, ◌<◌, ◌⊎◌, Some, None, IfOk, IfErr, OnOk, OnErr};
ghost use Rattle.std.specs.List.{AllByRecursion, list_any};
ghost use Rattle.lsm_below.specs.Entries.{plain};
ghost use Rattle.lsm_tables.specs.Image.{Fits};
ghost use Rattle.lsm_model.specs.Ops.{op_entry, op_entries, op_value};
ghost use Rattle.lsm_state.specs.Refusals.{entry_refusal, batch_refusal, is_long_key, is_long_value};
ghost use Rattle.lsm_model.specs.declared.op.Op.TheVariants.{Set, Del, Weak};
ghost use Rattle.lsm_parts.specs.Held.{put_all_first};
ghost use Rattle.lsm_state.specs.Calls.{Appends, WritesBatch};

use crate::TreeState;
use lsm_below::{InternalValue, MAX_KEY_LEN, MAX_VALUE_LEN, SeqNo, UserKey, UserValue};
use lsm_model::{Op, has_repeats};
use lsm_parts::{Error, LIMIT, Memtables};
use lsm_store::Store;
use std::alloc::{AllocError, Global};

fn is_key_too_long(key: &UserKey) -> bool
    ensures { result ≡ is_long_key key.now }
{
    key.len() > MAX_KEY_LEN
}

fn is_value_too_long(op: &Op) -> bool
    ensures { result ≡ is_long_value (op_value op.now) }
{
    match op {
        Op::Set(value) => value.len() > MAX_VALUE_LEN,
        Op::Del => false,
        Op::Weak => false,
    }
}

/// Why an entry is refused.
fn refusal_of(entry: &InternalValue) -> Option<Error>
    ensures { result ≡ entry_refusal entry.now }
{
    if is_key_too_long(&entry.key.user_key) {
        return Some(Error::KeyTooLong);
    }
    if entry.value.len() > MAX_VALUE_LEN {
        return Some(Error::ValueTooLong);
    }
    if entry.key.seqno >= LIMIT {
        return Some(Error::NumberTooGreat);
    }
    None
}

fn has_long_key(ops: &[(UserKey, Op)]) -> bool
    ensures { result ≡ list_any (λ p. is_long_key p.0) ops.now }
{
    ops.iter().any(|op| is_key_too_long(&op.0))
}

fn has_long_value(ops: &[(UserKey, Op)]) -> bool
    ensures { result ≡ list_any (λ p. is_long_value (op_value p.1)) ops.now }
{
    ops.iter().any(|op| is_value_too_long(&op.1))
}

/// Why a batch is refused under a sequence number.
pub(crate) fn check_batch(alloc: Global, number: SeqNo, ops: &[(UserKey, Op)]) -> Result<(), Error>
    ensures ok { OnOk result (batch_refusal number ops.now ≡ None) }
    ensures err { IfErr result (λ e. (batch_refusal number ops.now ≡ Some e) ⊎ (e ≡ Error.OutOfMemory)) }
{
    if number >= LIMIT {
        return Err(Error::OutOfNumbers);
    }
    if has_long_key(ops) {
        return Err(Error::KeyTooLong);
    }
    if has_long_value(ops) {
        return Err(Error::ValueTooLong);
    }
    if has_repeats(alloc, ops)? {
        return Err(Error::DuplicateKey);
    }
    Ok(())
}

/// The entries of a batch.
pub(crate) fn make_entries(
    alloc: Global,
    number: SeqNo,
    ops: Vec<(UserKey, Op)>,
) -> Result<Vec<InternalValue>, AllocError>
    ensures { IfOk result (λ entries. entries.items ≡ op_entries number ops.items) }
{
    let mut entries = Vec::with_capacity(alloc, ops.len())?;
    for (key, op) in ops {
        entries.push(op.into_entry(key, number))?;
    }
    Ok(entries)
}

/// Puts the entries of a batch, which fit files, into the active memtable, or none. One alone needs no list of them, and nothing by
/// which it is taken back. Refused only for want of memory, and then nothing changes.
fn put_batch(
    memtables: &mut Memtables,
    alloc: Global,
    number: SeqNo,
    mut ops: Vec<(UserKey, Op)>,
) -> Result<(), Error>
    requires { AllByRecursion Fits (op_entries number ops.items) }
    ensures ok { OnOk result (memtables.new ≡ put_all_first (op_entries number ops.items) memtables.old) }
    ensures err { OnErr result (memtables.new ≡ memtables.old) }
    ensures memory { IfErr result (λ e. e ≡ Error.OutOfMemory) }
{
    if ops.len() != 1 {
        return memtables.insert_all(make_entries(alloc, number, ops)?);
    }
    if let Some((key, op)) = ops.pop() {
        memtables.insert(op.into_entry(key, number))?;
    }
    Ok(())
}

impl<S: Store> TreeState<S> {
    /// Sets a key under a sequence number, in whatever order they come. For who draws numbers of their own: it moves no
    /// counter, so draw the number by `seqno_mut`, and after the insert raise `visible_seqno_mut` to the number + 1.
    /// `write` does all that.
    ///
    /// Returns the bytes that the entry counts (its key's, its value's and 48) and those of the active
    /// memtable. A write of the same key and sequence number is replaced. `KeyTooLong` above 65,535 bytes,
    /// `ValueTooLong` above 2^32 - 1, `NumberTooGreat` from 2^63 on; of several the first is told. `OutOfMemory`.
    /// Refused, it changes nothing.
    pub fn insert(
        &mut self,
        key: UserKey,
        value: UserValue,
        seqno: SeqNo,
    ) -> Result<(u64, u64), Error>
        ensures appends { Appends (op_entry key seqno (Set value)) result self.old.core self.new.core }
        ensures store { self.new.store ≡ self.old.store }
    {
        self.append_entry(Op::Set(value).into_entry(key, seqno))
    }

    /// Removes a key under a sequence number. Returns and refuses as `insert`.
    pub fn remove(&mut self, key: UserKey, seqno: SeqNo) -> Result<(u64, u64), Error>
        ensures appends { Appends (op_entry key seqno Del) result self.old.core self.new.core }
        ensures store { self.new.store ≡ self.old.store }
    {
        self.append_entry(Op::Del.into_entry(key, seqno))
    }

    /// Removes a key, of which at most one value was ever written: of more, an older one may show again. Returns and
    /// refuses as `insert`.
    pub fn remove_weak(&mut self, key: UserKey, seqno: SeqNo) -> Result<(u64, u64), Error>
        ensures appends { Appends (op_entry key seqno Weak) result self.old.core self.new.core }
        ensures store { self.new.store ≡ self.old.store }
    {
        self.append_entry(Op::Weak.into_entry(key, seqno))
    }

    /// Writes an entry under its own sequence number; a tombstone's value is dropped. Returns and refuses as `insert`.
    pub fn append_entry(&mut self, entry: InternalValue) -> Result<(u64, u64), Error>
        ensures appends { Appends (plain entry) result self.old.core self.new.core }
        ensures store { self.new.store ≡ self.old.store }
    {
        let entry = self.house(entry);
        self.append_housed(entry)
    }

    /// An entry with its bytes where a write puts them: a key and value of up to 1,024 bytes together are copied into a
    /// chunk of the active memtable. Copies that are made of it before `append_housed` writes it share these bytes with the
    /// tree, so who keeps one keeps no bytes of its own. The tree stays; an entry that is not written takes its place in
    /// the chunk all the same.
    pub fn house(&mut self, entry: InternalValue) -> InternalValue
        ensures same { result ≡ entry }
        ensures stays { self.new ≡ self.old }
    {
        self.memtables.house(entry)
    }

    /// `append_entry`, of an entry that `house` gave: its bytes are copied no more. Returns and refuses as `insert`.
    pub fn append_housed(&mut self, entry: InternalValue) -> Result<(u64, u64), Error>
        ensures appends { Appends (plain entry) result self.old.core self.new.core }
        ensures store { self.new.store ≡ self.old.store }
    {
        let entry = entry.into_plain();
        if let Some(error) = refusal_of(&entry) {
            return Err(error);
        }
        self.memtables.insert_housed(entry)
    }

    /// Writes a batch under the next sequence number, all of it or none, makes it visible, and returns it.
    /// An empty batch uses a sequence number too.
    ///
    /// `OutOfNumbers` where the counter stands at 2^63 or above, `KeyTooLong` and `ValueTooLong` as
    /// `insert`, `DuplicateKey` where a key comes twice; of several the first is told, or `OutOfMemory`.
    /// Refused, it changes nothing and uses no sequence number; the batch is dropped (`Op::copy`).
    pub fn write(&mut self, ops: Vec<(UserKey, Op)>) -> Result<SeqNo, Error>
        ensures writes { WritesBatch ops.items result self.old.core self.new.core }
        ensures store { self.new.store ≡ self.old.store }
    {
        let number = self.seqno.get();
        check_batch(self.alloc, number, &ops)?;
        put_batch(&mut self.memtables, self.alloc, number, ops)?;
        self.seqno.set(number + 1);
        self.visible_seqno.fetch_max(number + 1);
        Ok(number)
    }
}

mod recording;
