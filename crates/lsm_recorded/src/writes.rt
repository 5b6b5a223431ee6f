// Writes to a tree that are noted: in the marks of their keys, in a journal and in a pass.
ghost use Rattle.std.specs.Prelude.{◌≡◌, ◌⊎◌, ◌↔◌, ◌+◌, ◌^◌, ◌<◌, ◌≤◌, ◌∷◌, [], false, Err, map, length, vec_len, vec_capacity, OnOk, OnErr, IfOk, IsErrOf};
ghost use Rattle.std.specs.List.{list_all};
ghost use Rattle.lsm_below.specs.Keys.{Bytes};
ghost use Rattle.lsm_below.specs.Entries.{plain};
ghost use Rattle.lsm_model.specs.Ops.{op_entries};
ghost use Rattle.lsm_model.specs.declared.journal.JournalEntry.TheVariants.{Write as WriteEntry};
ghost use Rattle.lsm_state.specs.Calls.{Appends, WritesBatch};
ghost use Rattle.lsm_recorded.specs.Marks.{mark_of, mark_allows, marked_by, marked_all, entry_allowed, op_allowed};
ghost use Rattle.lsm_recorded.specs.Passes.{Notes};
ghost use Rattle.lsm_recorded.specs.Recorded.{OwnOr};

use crate::copies::{Copies, share_batch};
use crate::marked_key::MarkedKey;
use crate::marks::{Mark, NOTHING, admit_all, is_allowed, mark_after, share_key};
use crate::noting::put_all;
use crate::pass::{make_room, put_entry};
use crate::raising::{raise_batch, take_back};
use crate::shared_entry::SharedEntry;
use lsm_below::{InternalValue, SeqNo, UserKey};
use lsm_journal::write_entry;
use lsm_model::Op;
use lsm_parts::{Error, LIMIT};
use lsm_state::TreeState;
use lsm_store::Store;
use std::alloc::{AllocError, Global};
use std::collections::BTreeMap;

/// Writes an entry that `TreeState::house` gave, as `TreeState::append_entry`, and appends it to a journal and a pass, which
/// share its bytes with the tree. Refused, it changes nothing.
fn append_noted<S: Store>(
    alloc: Global,
    core: &mut TreeState<S>,
    journal: &mut Vec<SharedEntry>,
    pass: &mut Vec<(u64, SharedEntry)>,
    entry: InternalValue,
) -> Result<(u64, u64), Error>
    ensures in_order { IsErrOf result Error.OutOfOrder → ⊥ }
    ensures core { (result ≡ Err Error.OutOfMemory) ⊎ Appends (plain entry) result core.old.core core.new.core }
    ensures noted { OnOk result (Notes (WriteEntry (plain entry) ∷ []) journal.old.items journal.new.items pass.old.items pass.new.items) }
    ensures store { core.new.store ≡ core.old.store }
    ensures err { OnErr result ((core.new ≡ core.old) × (journal.new.items ≡ journal.old.items) × (pass.new.items ≡ pass.old.items)) }
{
    let note = SharedEntry::new(alloc, write_entry(&entry)?)?;
    let copy = note.copy()?;
    make_room(journal, pass, 1)?;
    let sizes = core.append_housed(entry)?;
    put_entry(journal, pass, note, copy);
    Ok(sizes)
}

/// Writes an entry that `TreeState::house` gave, as `append_noted`, and notes it in the mark of its key, which is looked up
/// once. `OutOfOrder`, before all else, exactly where the mark tells that it breaks the order. Refused, it changes nothing but
/// the room that there is.
fn append_at_mark<S: Store>(
    alloc: Global,
    core: &mut TreeState<S>,
    marks: &mut BTreeMap<MarkedKey, Mark>,
    journal: &mut Vec<SharedEntry>,
    pass: &mut Vec<(u64, SharedEntry)>,
    entry: InternalValue,
) -> Result<(u64, u64), Error>
    requires { entry.key.seqno + 1 < 2 ^ 64 }
    ensures out_of_order { IsErrOf result Error.OutOfOrder ↔ (mark_allows (mark_of marks.old entry.key.user_key) entry.key.seqno entry.key.value_type ≡ false) }
    ensures core { OwnOr result (Appends (plain entry) result core.old.core core.new.core) }
    ensures marks { OnOk result ((q : Bytes) → mark_of marks.new q ≡ marked_by entry (mark_of marks.old) q) }
    ensures noted { OnOk result (Notes (WriteEntry (plain entry) ∷ []) journal.old.items journal.new.items pass.old.items pass.new.items) }
    ensures unmarked { OnErr result ((q : Bytes) → mark_of marks.new q ≡ mark_of marks.old q) }
    ensures store { core.new.store ≡ core.old.store }
    ensures err { OnErr result ((core.new ≡ core.old) × (journal.new.items ≡ journal.old.items) × (pass.new.items ≡ pass.old.items)) }
{
    let number = entry.key.seqno;
    let kind = entry.key.value_type;
    let key = share_key(marks, &entry.key.user_key, number, kind)?;
    let mark = marks.entry(key)?.or_insert(NOTHING);
    if !is_allowed(*mark, number, kind) {
        return Err(Error::OutOfOrder);
    }
    let sizes = append_noted(alloc, core, journal, pass, entry)?;
    *mark = mark_after(*mark, number, kind);
    Ok(sizes)
}

/// Writes an entry under its own sequence number, and notes it in the mark of its key, in a journal and in a pass.
/// `OutOfOrder`, before all else, exactly where its mark, the floor or the counter tells that it breaks the order. Refused, it
/// changes nothing but the room that there is.
pub(crate) fn append_marked<S: Store>(
    alloc: Global,
    core: &mut TreeState<S>,
    marks: &mut BTreeMap<MarkedKey, Mark>,
    floor: SeqNo,
    journal: &mut Vec<SharedEntry>,
    pass: &mut Vec<(u64, SharedEntry)>,
    entry: InternalValue,
) -> Result<(u64, u64), Error>
    ensures out_of_order { IsErrOf result Error.OutOfOrder ↔ (entry_allowed (mark_of marks.old) floor core.old.core.seqno entry ≡ false) }
    ensures core { OwnOr result (Appends (plain entry) result core.old.core core.new.core) }
    ensures marks { OnOk result ((q : Bytes) → mark_of marks.new q ≡ marked_by entry (mark_of marks.old) q) }
    ensures noted { OnOk result (Notes (WriteEntry (plain entry) ∷ []) journal.old.items journal.new.items pass.old.items pass.new.items) }
    ensures unmarked { OnErr result ((q : Bytes) → mark_of marks.new q ≡ mark_of marks.old q) }
    ensures store { core.new.store ≡ core.old.store }
    ensures err { OnErr result ((core.new ≡ core.old) × (journal.new.items ≡ journal.old.items) × (pass.new.items ≡ pass.old.items)) }
{
    let number = entry.key.seqno;
    if number < floor || core.seqno().get() <= number {
        return Err(Error::OutOfOrder);
    }
    let entry = core.house(entry);
    append_at_mark(alloc, core, marks, journal, pass, entry)
}

/// Writes a batch of one, as `write_marked`: its entry is made once, its bytes are copied once.
fn write_one<S: Store>(
    alloc: Global,
    core: &mut TreeState<S>,
    marks: &mut BTreeMap<MarkedKey, Mark>,
    floor: SeqNo,
    journal: &mut Vec<SharedEntry>,
    pass: &mut Vec<(u64, SharedEntry)>,
    mut ops: Vec<(UserKey, Op)>,
) -> Result<SeqNo, Error>
    requires { length ops.items ≡ 1 }
    ensures out_of_order { IsErrOf result Error.OutOfOrder ↔ (list_all (op_allowed (mark_of marks.old) floor core.old.core.seqno) ops.items ≡ false) }
    ensures core { OwnOr result (WritesBatch ops.items result core.old.core core.new.core) }
    ensures marks { OnOk result ((q : Bytes) → mark_of marks.new q ≡ marked_all (op_entries core.old.core.seqno ops.items) (mark_of marks.old) q) }
    ensures noted { OnOk result (Notes (map WriteEntry (op_entries core.old.core.seqno ops.items)) journal.old.items journal.new.items pass.old.items pass.new.items) }
    ensures unmarked { OnErr result ((q : Bytes) → mark_of marks.new q ≡ mark_of marks.old q) }
    ensures store { core.new.store ≡ core.old.store }
    ensures err { OnErr result ((core.new ≡ core.old) × (journal.new.items ≡ journal.old.items) × (pass.new.items ≡ pass.old.items)) }
{
    let number = core.seqno().get();
    if number >= LIMIT {
        admit_all(marks, floor, number, &ops)?;
        return Err(Error::OutOfNumbers);
    }
    if number < floor {
        return Err(Error::OutOfOrder);
    }
    let Some((key, op)) = ops.pop() else {
        unreachable!()
    };
    let entry = core.house(op.into_entry(key, number));
    append_at_mark(alloc, core, marks, journal, pass, entry)?;
    core.seqno_mut().set(number + 1);
    core.visible_seqno_mut().fetch_max(number + 1);
    Ok(number)
}

/// What a batch of several needs beside the tree.
#[derive(Drop)]
struct Prepared {
    /// Its entries, twice.
    copies: Copies,
    /// Room for what its marks are before they are raised.
    raised: Vec<(MarkedKey, Mark)>,
}

/// What a batch of several needs beside the tree, with room for it in a journal and a pass.
fn prepare(
    alloc: Global,
    journal: &mut Vec<SharedEntry>,
    pass: &mut Vec<(u64, SharedEntry)>,
    number: SeqNo,
    ops: &[(UserKey, Op)],
) -> Result<Prepared, AllocError>
    ensures entries { IfOk result (λ p. p.copies.journal.items ≡ map WriteEntry (op_entries number ops.now)) }
    ensures copies { IfOk result (λ p. p.copies.pass.items ≡ p.copies.journal.items) }
    ensures none { IfOk result (λ p. p.raised.items ≡ []) }
    ensures room { IfOk result (λ p. vec_len p.raised + length ops.now ≤ vec_capacity p.raised) }
    ensures journal { journal.new.items ≡ journal.old.items }
    ensures pass { pass.new.items ≡ pass.old.items }
    ensures journal_room { IfOk result (λ p. vec_len journal.new + vec_len p.copies.pass ≤ vec_capacity journal.new) }
    ensures pass_room { IfOk result (λ p. vec_len pass.new + vec_len p.copies.pass ≤ vec_capacity pass.new) }
{
    let raised = Vec::with_capacity(alloc, ops.len())?;
    let copies = share_batch(alloc, number, ops)?;
    make_room(journal, pass, ops.len())?;
    Ok(Prepared { copies, raised })
}

/// Writes a batch of several, as `write_marked`, for which each mark is looked up once.
fn write_several<S: Store>(
    core: &mut TreeState<S>,
    marks: &mut BTreeMap<MarkedKey, Mark>,
    floor: SeqNo,
    journal: &mut Vec<SharedEntry>,
    pass: &mut Vec<(u64, SharedEntry)>,
    ops: Vec<(UserKey, Op)>,
    prepared: Prepared,
) -> Result<SeqNo, Error>
    requires entries { prepared.copies.journal.items ≡ map WriteEntry (op_entries core.old.core.seqno ops.items) }
    requires copies { prepared.copies.pass.items ≡ prepared.copies.journal.items }
    requires none { prepared.raised.items ≡ [] }
    requires room { vec_len prepared.raised + length ops.items ≤ vec_capacity prepared.raised }
    requires journal_room { vec_len journal.old + vec_len prepared.copies.pass ≤ vec_capacity journal.old }
    requires pass_room { vec_len pass.old + vec_len prepared.copies.pass ≤ vec_capacity pass.old }
    ensures out_of_order { IsErrOf result Error.OutOfOrder ↔ (list_all (op_allowed (mark_of marks.old) floor core.old.core.seqno) ops.items ≡ false) }
    ensures core { OwnOr result (WritesBatch ops.items result core.old.core core.new.core) }
    ensures marks { OnOk result ((q : Bytes) → mark_of marks.new q ≡ marked_all (op_entries core.old.core.seqno ops.items) (mark_of marks.old) q) }
    ensures noted { OnOk result (Notes (map WriteEntry (op_entries core.old.core.seqno ops.items)) journal.old.items journal.new.items pass.old.items pass.new.items) }
    ensures unmarked { OnErr result ((q : Bytes) → mark_of marks.new q ≡ mark_of marks.old q) }
    ensures store { core.new.store ≡ core.old.store }
    ensures err { OnErr result ((core.new ≡ core.old) × (journal.new.items ≡ journal.old.items) × (pass.new.items ≡ pass.old.items)) }
{
    let number = core.seqno().get();
    let Prepared { copies, mut raised } = prepared;
    // Where none is raised, the tree refuses the batch.
    let _ = raise_batch(marks, floor, number, &ops, &mut raised)?;
    match core.write(ops) {
        Ok(number) => {
            put_all(journal, pass, copies.journal, copies.pass);
            Ok(number)
        }
        Err(error) => {
            take_back(marks, &mut raised);
            Err(error)
        }
    }
}

/// Writes a batch under the next sequence number, and notes it in the marks of its keys, in a journal and in a pass.
/// `OutOfOrder`, before all else, exactly where a mark or the floor tells that one of its writes breaks the order. Refused, it
/// changes nothing but the room that there is.
pub(crate) fn write_marked<S: Store>(
    alloc: Global,
    core: &mut TreeState<S>,
    marks: &mut BTreeMap<MarkedKey, Mark>,
    floor: SeqNo,
    journal: &mut Vec<SharedEntry>,
    pass: &mut Vec<(u64, SharedEntry)>,
    ops: Vec<(UserKey, Op)>,
) -> Result<SeqNo, Error>
    ensures out_of_order { IsErrOf result Error.OutOfOrder ↔ (list_all (op_allowed (mark_of marks.old) floor core.old.core.seqno) ops.items ≡ false) }
    ensures core { OwnOr result (WritesBatch ops.items result core.old.core core.new.core) }
    ensures marks { OnOk result ((q : Bytes) → mark_of marks.new q ≡ marked_all (op_entries core.old.core.seqno ops.items) (mark_of marks.old) q) }
    ensures noted { OnOk result (Notes (map WriteEntry (op_entries core.old.core.seqno ops.items)) journal.old.items journal.new.items pass.old.items pass.new.items) }
    ensures unmarked { OnErr result ((q : Bytes) → mark_of marks.new q ≡ mark_of marks.old q) }
    ensures store { core.new.store ≡ core.old.store }
    ensures err { OnErr result ((core.new ≡ core.old) × (journal.new.items ≡ journal.old.items) × (pass.new.items ≡ pass.old.items)) }
{
    if ops.len() == 1 {
        return write_one(alloc, core, marks, floor, journal, pass, ops);
    }
    let number = core.seqno().get();
    let Ok(prepared) = prepare(alloc, journal, pass, number, &ops) else {
        admit_all(marks, floor, number, &ops)?;
        return Err(Error::OutOfMemory);
    };
    write_several(core, marks, floor, journal, pass, ops, prepared)
}
