// Entries made before the tree's call, for a journal and for a pass.
ghost use Rattle.std.specs.Prelude.{◌≡◌, ◌++◌, ◌∷◌, [], map, IfOk, OnOk};
ghost use Rattle.lsm_model.specs.Ops.{op_entries};
ghost use Rattle.lsm_model.specs.declared.journal.JournalEntry.TheVariants.{Write};

use crate::shared_entry::SharedEntry;
use lsm_below::{SeqNo, UserKey};
use lsm_journal::copy_entry;
use lsm_model::{JournalEntry, Op};
use std::alloc::{AllocError, Global};

/// Two lists of the same entries, which they share.
#[derive(Drop)]
pub(crate) struct Copies {
    pub journal: Vec<SharedEntry>,
    pub pass: Vec<SharedEntry>,
}

impl Copies {
    fn with_capacity(alloc: Global, count: usize) -> Result<Copies, AllocError>
        ensures journal { IfOk result (λ copies. copies.journal.items ≡ []) }
        ensures pass { IfOk result (λ copies. copies.pass.items ≡ []) }
    {
        Ok(Copies {
            journal: Vec::with_capacity(alloc, count)?,
            pass: Vec::with_capacity(alloc, count)?,
        })
    }

    fn push(&mut self, alloc: Global, entry: JournalEntry) -> Result<(), AllocError>
        ensures journal { OnOk result (self.new.journal.items ≡ self.old.journal.items ++ entry ∷ []) }
        ensures pass { OnOk result (self.new.pass.items ≡ self.old.pass.items ++ entry ∷ []) }
    {
        let shared = SharedEntry::new(alloc, entry)?;
        self.pass.push(shared.copy()?)?;
        self.journal.push(shared)?;
        Ok(())
    }
}

/// These entries, which share their bytes and lists.
pub(crate) fn share_entries(alloc: Global, entries: &[JournalEntry]) -> Result<Copies, AllocError>
    ensures journal { IfOk result (λ copies. copies.journal.items ≡ entries.now) }
    ensures pass { IfOk result (λ copies. copies.pass.items ≡ entries.now) }
{
    let mut copies = Copies::with_capacity(alloc, entries.len())?;
    for entry in entries {
        copies.push(alloc, copy_entry(alloc, entry)?)?;
    }
    Ok(copies)
}

/// The writes of a batch under this number, which share the bytes of its keys and values.
pub(crate) fn share_batch(
    alloc: Global,
    number: SeqNo,
    ops: &[(UserKey, Op)],
) -> Result<Copies, AllocError>
    ensures journal { IfOk result (λ copies. copies.journal.items ≡ map Write (op_entries number ops.now)) }
    ensures pass { IfOk result (λ copies. copies.pass.items ≡ map Write (op_entries number ops.now)) }
{
    let mut copies = Copies::with_capacity(alloc, ops.len())?;
    for (key, op) in ops {
        copies.push(alloc, JournalEntry::Write(op.entry(key, number)?))?;
    }
    Ok(copies)
}
