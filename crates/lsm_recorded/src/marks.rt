// What was written to each key so far, by which a write in order is told without the journal.
ghost use Rattle.std.specs.Prelude.{◌≡◌, ◌+◌, ◌^◌, ◌<◌, ◌↔◌, ◌⊎◌, false, OnOk, IfOk, IfErr, IsErrOf, ◌&&◌, if◌then◌else◌};
ghost use Rattle.lsm_below.specs.Keys.{Bytes};
ghost use Rattle.std.specs.List.{list_all};
ghost use Rattle.lsm_recorded.specs.Marks.{mark_of, marked, mark_allows, next_mark, op_type, op_allowed};

use crate::marked_key::MarkedKey;
use lsm_below::{Error, SeqNo, UserKey, ValueType, share};
use lsm_model::Op;
use std::alloc::AllocError;
use std::collections::BTreeMap;

/// What was written to a key so far: the least sequence number above, how many values (2 for more),
/// and whether it was removed weakly.
#[derive(Clone, Copy)]
pub struct Mark {
    pub next: SeqNo,
    pub sets: u8,
    pub is_weak: bool,
}

/// The mark of a key to which nothing was written. It allows every write.
pub(crate) const NOTHING: Mark = Mark {
    next: 0,
    sets: 0,
    is_weak: false,
};

/// The mark of a key, of which nothing may be noted yet.
pub(crate) fn read_mark(marks: &BTreeMap<MarkedKey, Mark>, key: &MarkedKey) -> Mark
    ensures { result ≡ mark_of marks.now key.now }
{
    match marks.get(key) {
        Some(mark) => *mark,
        None => NOTHING,
    }
}

/// `read_mark`, mark by mark, where there is no memory for another handle on the key.
fn walk_to_mark(marks: &BTreeMap<MarkedKey, Mark>, key: &UserKey) -> Mark
    ensures { result ≡ mark_of marks.now key.now }
{
    for (marked, mark) in marks {
        if marked.key() == key {
            return *mark;
        }
    }
    NOTHING
}

/// The key, or the key that is marked, if one is equal: so a journal keeps no bytes of its own for each read of a key.
pub(crate) fn share_marked(
    marks: &BTreeMap<MarkedKey, Mark>,
    key: UserKey,
) -> Result<UserKey, AllocError>
    ensures { IfOk result (λ shared. shared ≡ key) }
{
    let own = MarkedKey::new(key);
    match marks.get_key_value(&own) {
        Some((marked, _)) => share(marked.key()),
        None => Ok(own.into_key()),
    }
}

/// Sets a key's mark.
pub(crate) fn set_mark(
    marks: &mut BTreeMap<MarkedKey, Mark>,
    key: MarkedKey,
    mark: Mark,
) -> Result<(), AllocError>
    ensures { OnOk result ((q : Bytes) → mark_of marks.new q ≡ marked (mark_of marks.old) key mark q) }
{
    let _ = marks.insert(key, mark)?;
    Ok(())
}

/// Whether a write of this sequence number and type keeps the order of its key.
pub(crate) fn is_allowed(mark: Mark, number: SeqNo, kind: ValueType) -> bool
    ensures { result ≡ mark_allows mark number kind }
{
    mark.next <= number
        && match kind {
            ValueType::Value => !mark.is_weak || mark.sets == 0,
            ValueType::Tombstone => true,
            ValueType::WeakTombstone => mark.sets < 2,
        }
}

/// The mark after a write of this sequence number and type.
pub(crate) fn mark_after(mark: Mark, number: SeqNo, kind: ValueType) -> Mark
    requires { number + 1 < 2 ^ 64 }
    ensures { result ≡ next_mark mark number kind }
{
    let next = mark.next.max(number + 1);
    match kind {
        ValueType::Value => Mark {
            next,
            sets: if mark.sets < 2 { mark.sets + 1 } else { 2 },
            is_weak: mark.is_weak,
        },
        ValueType::Tombstone => Mark {
            next,
            sets: mark.sets,
            is_weak: mark.is_weak,
        },
        ValueType::WeakTombstone => Mark {
            next,
            sets: mark.sets,
            is_weak: true,
        },
    }
}

/// The key of a write, for its mark; the two share their bytes. Where there is no memory for it, the order still comes
/// first: `OutOfOrder` exactly where a write of this sequence number and type breaks the order of the key.
pub(crate) fn share_key(
    marks: &BTreeMap<MarkedKey, Mark>,
    key: &UserKey,
    number: SeqNo,
    kind: ValueType,
) -> Result<MarkedKey, Error>
    ensures ok { IfOk result (λ shared. shared ≡ key.now) }
    ensures err { IfErr result (λ e. e ≡ (if mark_allows (mark_of marks.now key.now) number kind then Error.OutOfMemory else Error.OutOfOrder)) }
{
    if let Ok(shared) = share(key) {
        return Ok(MarkedKey::new(shared));
    }
    if is_allowed(walk_to_mark(marks, key), number, kind) {
        return Err(Error::OutOfMemory);
    }
    Err(Error::OutOfOrder)
}

/// The type of the entry that a write makes.
pub(crate) fn type_of(op: &Op) -> ValueType
    ensures { result ≡ op_type op.now }
{
    match op {
        Op::Set(_) => ValueType::Value,
        Op::Del => ValueType::Tombstone,
        Op::Weak => ValueType::WeakTombstone,
    }
}

/// `OutOfOrder`, before all else, exactly where a write breaks the order of its key, or of installs and clears. `OutOfMemory` where
/// there is no memory for another handle on its key.
fn admit(
    marks: &BTreeMap<MarkedKey, Mark>,
    floor: SeqNo,
    number: SeqNo,
    key: &UserKey,
    op: &Op,
) -> Result<(), Error>
    ensures out_of_order { IsErrOf result Error.OutOfOrder ↔ (op_allowed (mark_of marks.now) floor number (key.now, op.now) ≡ false) }
    ensures only { IfErr result (λ e. (e ≡ Error.OutOfOrder) ⊎ (e ≡ Error.OutOfMemory)) }
{
    if number < floor {
        return Err(Error::OutOfOrder);
    }
    let kind = type_of(op);
    let shared = share_key(marks, key, number, kind)?;
    if !is_allowed(read_mark(marks, &shared), number, kind) {
        return Err(Error::OutOfOrder);
    }
    Ok(())
}

/// `OutOfOrder`, before all else, exactly where one of the writes of a batch breaks the order.
pub(crate) fn admit_all(
    marks: &BTreeMap<MarkedKey, Mark>,
    floor: SeqNo,
    number: SeqNo,
    ops: &[(UserKey, Op)],
) -> Result<(), Error>
    ensures out_of_order { IsErrOf result Error.OutOfOrder ↔ (list_all (op_allowed (mark_of marks.now) floor number) ops.now ≡ false) }
    ensures only { IfErr result (λ e. (e ≡ Error.OutOfOrder) ⊎ (e ≡ Error.OutOfMemory)) }
{
    let mut is_short = false;
    for (key, op) in ops {
        match admit(marks, floor, number, key, op) {
            Ok(()) => {}
            Err(Error::OutOfMemory) => is_short = true,
            Err(error) => return Err(error),
        }
    }
    if is_short {
        return Err(Error::OutOfMemory);
    }
    Ok(())
}
