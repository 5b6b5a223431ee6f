// Marks of a batch, raised before the tree's call and taken back where that is refused, so that each is looked up once.
ghost use Rattle.std.specs.Prelude.{◌≡◌, ◌+◌, ◌^◌, ◌<◌, ◌≤◌, ◌++◌, ◌∷◌, [], true, false, length, vec_len, vec_capacity, ◌⊎◌, ◌↔◌, Ok, IfOk, IfErr, OnErr, IsErrOf, IsSome};
ghost use Rattle.std.specs.BTreeMap as tree;
ghost use Rattle.std.specs.List.{list_all};
ghost use Rattle.lsm_below.specs.Keys.{Bytes};
ghost use Rattle.lsm_model.specs.Ops.{op_entries, keys_of, repeats};
ghost use Rattle.lsm_recorded.specs.Headed.{headed_cmp};
ghost use Rattle.lsm_recorded.specs.Marks.{mark_of, marked, marked_all, next_mark, op_type, op_allowed};
ghost use Rattle.lsm_recorded.specs.Raising.{restored, AreThere};

use crate::marked_key::MarkedKey;
use crate::marks::{Mark, NOTHING, admit_all, is_allowed, mark_after, type_of};
use lsm_below::{Error, SeqNo, UserKey, share};
use lsm_model::Op;
use lsm_parts::LIMIT;
use std::alloc::AllocError;
use std::collections::BTreeMap;

/// Raises the mark of the key of a write, where that is in order, and notes what it was. There is room for the note.
fn raise(
    marks: &mut BTreeMap<MarkedKey, Mark>,
    floor: SeqNo,
    number: SeqNo,
    key: &UserKey,
    op: &Op,
    raised: &mut Vec<(MarkedKey, Mark)>,
) -> Result<bool, AllocError>
    requires room { vec_len raised.old < vec_capacity raised.old }
    requires fits { number + 1 < 2 ^ 64 }
    ensures allowed { IfOk result (λ b. b ≡ op_allowed (mark_of marks.old) floor number (key.now, op.now)) }
    ensures marks { result ≡ Ok true → (q : Bytes) → mark_of marks.new q ≡ marked (mark_of marks.old) key.now (next_mark (mark_of marks.old key.now) number (op_type op.now)) q }
    ensures raised { result ≡ Ok true → raised.new.items ≡ raised.old.items ++ (key.now, mark_of marks.old key.now) ∷ [] }
    ensures there { result ≡ Ok true → IsSome (tree.get headed_cmp marks.new key.now) }
    ensures unmarked { (result ≡ Ok true → ⊥) → (q : Bytes) → mark_of marks.new q ≡ mark_of marks.old q }
    ensures unraised { (result ≡ Ok true → ⊥) → raised.new.items ≡ raised.old.items }
    ensures kept { (q : Bytes) → IsSome (tree.get headed_cmp marks.old q) → IsSome (tree.get headed_cmp marks.new q) }
    ensures len { vec_len raised.new ≤ vec_len raised.old + 1 }
    ensures capacity { vec_capacity raised.old ≤ vec_capacity raised.new }
{
    if number < floor {
        return Ok(false);
    }
    let kind = type_of(op);
    let own = MarkedKey::new(share(key)?);
    let noted = MarkedKey::new(share(key)?);
    let mark = marks.entry(own)?.or_insert(NOTHING);
    if !is_allowed(*mark, number, kind) {
        return Ok(false);
    }
    let Ok(()) = raised.push((noted, *mark)) else {
        unreachable!()
    };
    *mark = mark_after(*mark, number, kind);
    Ok(true)
}

/// Raises the marks of the keys of a batch, and notes what each was, up to one that can't be raised. False where the number is too
/// great, or where a write is out of order, as one is after another of its key. There is room for the notes.
fn raise_all(
    marks: &mut BTreeMap<MarkedKey, Mark>,
    floor: SeqNo,
    number: SeqNo,
    ops: &[(UserKey, Op)],
    raised: &mut Vec<(MarkedKey, Mark)>,
) -> Result<bool, AllocError>
    requires none { raised.old.items ≡ [] }
    requires room { vec_len raised.old + length ops.now ≤ vec_capacity raised.old }
    ensures allowed { result ≡ Ok true → list_all (op_allowed (mark_of marks.old) floor number) ops.now ≡ true }
    ensures marks { result ≡ Ok true → (q : Bytes) → mark_of marks.new q ≡ marked_all (op_entries number ops.now) (mark_of marks.old) q }
    ensures twice { result ≡ Ok false → number < 2 ^ 63 → list_all (op_allowed (mark_of marks.old) floor number) ops.now ≡ true → repeats (keys_of ops.now) ≡ true }
    ensures raised { (q : Bytes) → restored raised.new.items (mark_of marks.new) q ≡ mark_of marks.old q }
    ensures there { AreThere marks.new raised.new.items }
{
    if number >= LIMIT {
        return Ok(false);
    }
    for (key, op) in ops {
        if !raise(marks, floor, number, key, op, raised)? {
            return Ok(false);
        }
    }
    Ok(true)
}

/// Sets the mark of a key that has one.
fn reset(marks: &mut BTreeMap<MarkedKey, Mark>, key: &MarkedKey, mark: Mark)
    requires { IsSome (tree.get headed_cmp marks.old key.now) }
    ensures is { (q : Bytes) → mark_of marks.new q ≡ marked (mark_of marks.old) key.now mark q }
    ensures kept { (q : Bytes) → IsSome (tree.get headed_cmp marks.old q) → IsSome (tree.get headed_cmp marks.new q) }
{
    if let Some(place) = marks.get_mut(key) {
        *place = mark;
    }
}

/// Takes marks back to what they were, from the one that was raised last.
pub(crate) fn take_back(marks: &mut BTreeMap<MarkedKey, Mark>, raised: &mut Vec<(MarkedKey, Mark)>)
    requires { AreThere marks.old raised.old.items }
    ensures is { (q : Bytes) → mark_of marks.new q ≡ restored raised.old.items (mark_of marks.old) q }
    ensures none { raised.new.items ≡ [] }
{
    while let Some((key, mark)) = raised.pop() {
        reset(marks, &key, mark);
    }
}

/// Raises the marks of the keys of a batch, for which there is room, or none. `OutOfOrder`, before all else, exactly where
/// one of its writes breaks the order. False where the number is too great, or where a key comes twice: then the tree
/// refuses the batch.
pub(crate) fn raise_batch(
    marks: &mut BTreeMap<MarkedKey, Mark>,
    floor: SeqNo,
    number: SeqNo,
    ops: &[(UserKey, Op)],
    raised: &mut Vec<(MarkedKey, Mark)>,
) -> Result<bool, Error>
    requires none { raised.old.items ≡ [] }
    requires room { vec_len raised.old + length ops.now ≤ vec_capacity raised.old }
    ensures out_of_order { IsErrOf result Error.OutOfOrder ↔ (list_all (op_allowed (mark_of marks.old) floor number) ops.now ≡ false) }
    ensures only { IfErr result (λ e. (e ≡ Error.OutOfOrder) ⊎ (e ≡ Error.OutOfMemory)) }
    ensures marks { result ≡ Ok true → (q : Bytes) → mark_of marks.new q ≡ marked_all (op_entries number ops.now) (mark_of marks.old) q }
    ensures twice { result ≡ Ok false → number < 2 ^ 63 → repeats (keys_of ops.now) ≡ true }
    ensures unmarked { OnErr result ((q : Bytes) → mark_of marks.new q ≡ mark_of marks.old q) }
    ensures raised { (q : Bytes) → restored raised.new.items (mark_of marks.new) q ≡ mark_of marks.old q }
    ensures there { AreThere marks.new raised.new.items }
{
    let refused = match raise_all(marks, floor, number, ops, raised) {
        Ok(true) => return Ok(true),
        Ok(false) => Ok(false),
        Err(_) => Err(Error::OutOfMemory),
    };
    take_back(marks, raised);
    admit_all(marks, floor, number, ops)?;
    refused
}
