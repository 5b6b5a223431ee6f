// What one caller's calls add to a journal.
ghost use Rattle.std.specs.Prelude.{◌≡◌, [], ◌<◌, ◌≤◌, ◌+◌, ◌++◌, ◌∷◌, length, vec_len, vec_capacity, OnOk, OnErr};
ghost use Rattle.lsm_recorded.specs.Passes.{Notes};

use crate::shared_entry::SharedEntry;
use lsm_model::JournalEntry;
use std::alloc::{AllocError, Global};
use std::marker::Model;

/// The entries that one caller's calls added to a journal, each with its place there, counted from 0.
///
/// A written entry, an answered read, and each mark, clear and install of a flush or a compaction add 16 bytes, and an
/// entry that it shares with the journal. A refused write or read adds none, nor does a rotation or a part of a flush
/// before its end. A caller who will never ask for the journal may use a new pass for each call.
///
/// # Examples
///
/// ```text
/// let mut pass = Pass::new(alloc);
/// let number = tree.write(&mut pass, ops)?;
/// for (place, entry) in pass.entries() {
///     if let JournalEntry::Write(written) = entry.as_entry() { .. }
/// }
/// ```
#[derive(Drop)]
pub struct Pass {
    pub(crate) entries: Vec<(u64, SharedEntry)>,
}

impl Model for Pass {
    ghost use Rattle.std.specs.Prelude.{List, ℕ};
    ghost use Rattle.lsm_model.specs.declared.journal.JournalEntry.{JournalEntry};

    ghost Value = { List (ℕ × JournalEntry) };

    ghost view = { λ p. p.entries.items };
}

impl Pass {
    /// An empty list.
    pub fn new(alloc: Global) -> Pass
        ensures { result ≡ [] }
    {
        Pass {
            entries: Vec::new(alloc),
        }
    }

    /// The entries with their places.
    pub fn entries(&self) -> &[(u64, SharedEntry)]
        ensures { result.now ≡ self.now }
    {
        &self.entries
    }
}

/// Makes room for entries in a journal and in a pass.
pub(crate) fn make_room(
    journal: &mut Vec<SharedEntry>,
    pass: &mut Vec<(u64, SharedEntry)>,
    count: usize,
) -> Result<(), AllocError>
    ensures journal { journal.new.items ≡ journal.old.items }
    ensures pass { pass.new.items ≡ pass.old.items }
    ensures journal_room { OnOk result (vec_len journal.new + count ≤ vec_capacity journal.new) }
    ensures pass_room { OnOk result (vec_len pass.new + count ≤ vec_capacity pass.new) }
{
    journal.try_reserve(count)?;
    pass.try_reserve(count)
}

/// Appends an entry to a journal, and a copy with its place to a pass. There is room.
pub(crate) fn put_entry(
    journal: &mut Vec<SharedEntry>,
    pass: &mut Vec<(u64, SharedEntry)>,
    entry: SharedEntry,
    copy: SharedEntry,
)
    requires journal_room { vec_len journal.old < vec_capacity journal.old }
    requires pass_room { vec_len pass.old < vec_capacity pass.old }
    ensures journal { journal.new.items ≡ journal.old.items ++ entry ∷ [] }
    ensures pass { pass.new.items ≡ pass.old.items ++ (length journal.old.items, copy) ∷ [] }
    ensures journal_len { vec_len journal.new ≡ vec_len journal.old + 1 }
    ensures pass_len { vec_len pass.new ≡ vec_len pass.old + 1 }
    ensures journal_capacity { vec_capacity journal.old ≤ vec_capacity journal.new }
    ensures pass_capacity { vec_capacity pass.old ≤ vec_capacity pass.new }
{
    let place = journal.len() as u64;
    let Ok(()) = pass.push((place, copy)) else {
        unreachable!()
    };
    let Ok(()) = journal.push(entry) else {
        unreachable!()
    };
}

/// Appends an entry to a journal, and a copy with its place to a pass. Refused, it changes neither.
pub(crate) fn note_entry(
    alloc: Global,
    journal: &mut Vec<SharedEntry>,
    pass: &mut Vec<(u64, SharedEntry)>,
    entry: JournalEntry,
) -> Result<(), AllocError>
    ensures ok { OnOk result (Notes (entry ∷ []) journal.old.items journal.new.items pass.old.items pass.new.items) }
    ensures err { OnErr result ((journal.new.items ≡ journal.old.items) × (pass.new.items ≡ pass.old.items)) }
{
    let entry = SharedEntry::new(alloc, entry)?;
    let copy = entry.copy()?;
    make_room(journal, pass, 1)?;
    put_entry(journal, pass, entry, copy);
    Ok(())
}
