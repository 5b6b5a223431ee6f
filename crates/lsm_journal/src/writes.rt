// Writes, and what is noted of them.
ghost use Rattle.std.specs.Prelude.{◌≡◌, ◌<◌, ◌∷◌, ◌++◌, [], map, length, take, vec_len, vec_capacity, IfOk, OnOk, OnErr};
ghost use Rattle.lsm_below.specs.Entries.{plain};
ghost use Rattle.lsm_model.specs.declared.journal.JournalEntry.TheVariants.{Write};
ghost use Rattle.lsm_model.specs.Ops.{op_entries};
ghost use Rattle.lsm_state.specs.Calls.{Appends};
ghost use Rattle.lsm_journal.specs.NotedWrites.{WritesNoted};

use crate::lists::cut;
use lsm_below::{InternalValue, SeqNo, UserKey};
use lsm_model::{JournalEntry, Op};
use lsm_parts::Error;
use lsm_state::TreeState;
use lsm_store::Store;
use std::alloc::{AllocError, Global};

/// What is noted of a write of this entry, where it is answered. It shares the bytes.
pub fn write_entry(entry: &InternalValue) -> Result<JournalEntry, AllocError>
    ensures { IfOk result (λ note. note ≡ Write (plain entry.now)) }
{
    Ok(JournalEntry::Write(entry.copy()?.into_plain()))
}

/// What is noted of a batch that is answered under this number. The entries share the bytes of its keys and values.
pub fn batch_entries(
    alloc: Global,
    number: SeqNo,
    ops: &[(UserKey, Op)],
) -> Result<Vec<JournalEntry>, AllocError>
    ensures { IfOk result (λ list. list.items ≡ map Write (op_entries number ops.now)) }
{
    let mut list = Vec::with_capacity(alloc, ops.len())?;
    for (key, op) in ops {
        list.push(JournalEntry::Write(op.entry(key, number)?))?;
    }
    Ok(list)
}

/// Appends a note for which there is room.
fn put(history: &mut Vec<JournalEntry>, note: JournalEntry)
    requires { vec_len history.old < vec_capacity history.old }
    ensures { history.new.items ≡ history.old.items ++ note ∷ [] }
{
    let Ok(()) = history.push(note) else {
        unreachable!()
    };
}

/// Writes an entry, as `TreeState::append_entry`, and appends to a history with room what is noted of it: the write, where it is
/// answered. The cost and the errors are those of the tree's call.
pub fn append_noting<S: Store>(
    tree: &mut TreeState<S>,
    entry: InternalValue,
    note: JournalEntry,
    history: &mut Vec<JournalEntry>,
) -> Result<(u64, u64), Error>
    requires note { note ≡ Write (plain entry) }
    requires room { vec_len history.old < vec_capacity history.old }
    ensures appends { Appends (plain entry) result tree.old.core tree.new.core }
    ensures told { OnOk result (history.new.items ≡ history.old.items ++ Write (plain entry) ∷ []) }
    ensures untold { OnErr result (history.new.items ≡ history.old.items) }
    ensures store { tree.new.store ≡ tree.old.store }
{
    let sizes = tree.append_entry(entry)?;
    put(history, note);
    Ok(sizes)
}

/// Writes a batch, as `TreeState::write`, and answers beside it what a journal notes of it: its writes, where it is answered. The
/// cost and the errors are those of the tree's call.
pub fn write_noting<S: Store>(
    tree: &mut TreeState<S>,
    ops: Vec<(UserKey, Op)>,
    entries: Vec<JournalEntry>,
) -> (Result<SeqNo, Error>, Vec<JournalEntry>)
    requires { entries.items ≡ map Write (op_entries tree.old.core.seqno ops.items) }
    ensures writes { WritesNoted ops.items result.0 result.1.items tree.old.core tree.new.core }
    // Copies that were made before can be cut to what is noted.
    ensures front { result.1.items ≡ take (length result.1.items) entries.items }
    ensures store { tree.new.store ≡ tree.old.store }
{
    match tree.write(ops) {
        Ok(number) => (Ok(number), entries),
        Err(error) => (Err(error), cut(entries, 0)),
    }
}
