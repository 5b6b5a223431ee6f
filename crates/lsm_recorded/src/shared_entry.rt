// Entries that a journal and a pass share.
ghost use Rattle.std.specs.Prelude.{◌≡◌, IfOk};

use lsm_model::JournalEntry;
use std::alloc::{AllocError, Global};
use std::marker::Model;
use std::sync::Arc;

/// An entry of a journal, seen as the entry. Copies share it: a journal and the pass that notes it hold one.
///
/// # Examples
///
/// ```text
/// for noted in tree.journal() {
///     if let JournalEntry::Write(entry) = noted.as_entry() { .. }
/// }
/// ```
#[derive(Drop, Debug)]
pub struct SharedEntry {
    entry: Arc<JournalEntry>,
}

impl Model for SharedEntry {
    ghost use Rattle.std.specs.Arc.{arc_value};
    ghost use Rattle.lsm_model.specs.declared.journal.JournalEntry.{JournalEntry};

    ghost Value = { JournalEntry };

    ghost view = { λ e. arc_value e.entry };
}

impl SharedEntry {
    /// This entry. Refused only for want of memory.
    pub fn new(alloc: Global, entry: JournalEntry) -> Result<SharedEntry, AllocError>
        ensures { IfOk result (λ shared. shared ≡ entry) }
    {
        Ok(SharedEntry {
            entry: Arc::new(alloc, entry)?,
        })
    }

    /// The entry.
    pub fn as_entry(&self) -> &JournalEntry
        ensures { result.now ≡ self.now }
    {
        &self.entry
    }

    /// Another handle on the same entry. Refused only for want of memory.
    pub fn copy(&self) -> Result<SharedEntry, AllocError>
        ensures { IfOk result (λ copy. copy ≡ self.now) }
    {
        Ok(SharedEntry {
            entry: Arc::try_clone(&self.entry)?,
        })
    }
}

/// A list of these entries, which it shares.
pub(crate) fn copy_list(
    alloc: Global,
    entries: &[SharedEntry],
) -> Result<Vec<SharedEntry>, AllocError>
    ensures { IfOk result (λ copy. copy.items ≡ entries.now) }
{
    let mut copies = Vec::with_capacity(alloc, entries.len())?;
    for entry in entries {
        copies.push(entry.copy()?)?;
    }
    Ok(copies)
}
