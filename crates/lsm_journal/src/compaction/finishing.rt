// How a merge ends, and what is noted of that.
ghost use Rattle.std.specs.Prelude.{◌≡◌, ◌∷◌, [], Ok, IfOk, length, take};
ghost use Rattle.lsm_model.specs.declared.journal.JournalEntry.TheVariants.{Install};
ghost use Rattle.lsm_state.specs.Commits.{Upholds};
ghost use Rattle.lsm_state.specs.Core.{Core};
ghost use Rattle.lsm_state.specs.CompactionReads.{TellsMerge};
ghost use Rattle.lsm_state.specs.Files.{FinishesFiles};
ghost use Rattle.lsm_journal.specs.Noted.{EndsNoted};

use crate::lists::one_entry;
use lsm_below::SeqNo;
use lsm_compaction::MergedCompaction;
use lsm_model::JournalEntry;
use lsm_parts::Error;
use lsm_state::{Finished, TreeState};
use lsm_store::Store;
use std::alloc::{AllocError, Global};

/// What is noted of the end of a merge that is installed while the counter stands at this number.
pub fn finish_entries(alloc: Global, number: SeqNo) -> Result<Vec<JournalEntry>, AllocError>
    ensures { IfOk result (λ list. list.items ≡ Install number ∷ []) }
{
    one_entry(alloc, JournalEntry::Install(number))
}

/// That of it that came to be.
fn told(entries: Vec<JournalEntry>, finished: &Result<Finished, Error>) -> Vec<JournalEntry>
    ensures tells { (c : Core) → entries.items ≡ Install c.seqno ∷ [] → TellsMerge finished.now c result.items }
    ensures front { result.items ≡ take (length result.items) entries.items }
{
    let mut entries = entries;
    match finished {
        Ok(Finished::Installed) | Err(Error::AfterCommit) => {}
        _ => entries.clear(),
    }
    entries
}

/// Ends a merge, as `TreeState::finish_compaction`, and answers beside it what a journal notes of it: the install, where it is
/// installed. The cost and the errors are those of the tree's call.
pub fn finish_noting<S: Store>(
    tree: &mut TreeState<S>,
    merged: MergedCompaction,
    entries: Vec<JournalEntry>,
) -> (Result<Finished, Error>, Vec<JournalEntry>)
    requires { entries.items ≡ Install tree.old.core.seqno ∷ [] }
    ensures ends { EndsNoted merged.job result.0 result.1.items tree.old.core tree.new.core }
    // Copies that were made before can be cut to what is noted.
    ensures front { result.1.items ≡ take (length result.1.items) entries.items }
    // What a crash leaves, and what the call does to files.
    ensures upholds { S.tells → Upholds (S.world tree.old.store) (S.world tree.new.store) tree.old.core tree.new.core }
    ensures files { FinishesFiles result.0 S.tells S.world tree.old tree.new }
{
    let finished = tree.finish_compaction(merged);
    let entries = told(entries, &finished);
    (finished, entries)
}
