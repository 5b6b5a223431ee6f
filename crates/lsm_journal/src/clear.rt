// A clear, and what is noted of it.
ghost use Rattle.std.specs.Prelude.{◌≡◌, ◌∷◌, [], length, take, IfOk};
ghost use Rattle.lsm_model.specs.declared.journal.JournalEntry.TheVariants.{Clear};
ghost use Rattle.lsm_state.specs.Commits.{Upholds};
ghost use Rattle.lsm_state.specs.Files.{ClearsFiles};
ghost use Rattle.lsm_journal.specs.NotedClears.{ClearsNoted};

use crate::lists::{cut, one_entry};
use lsm_below::SeqNo;
use lsm_model::JournalEntry;
use lsm_parts::Error;
use lsm_state::TreeState;
use lsm_store::Store;
use std::alloc::{AllocError, Global};

/// What is noted of a clear that is answered while the counter stands at this number.
pub fn clear_entries(alloc: Global, number: SeqNo) -> Result<Vec<JournalEntry>, AllocError>
    ensures { IfOk result (λ list. list.items ≡ Clear number ∷ []) }
{
    one_entry(alloc, JournalEntry::Clear(number))
}

/// Clears a tree, as `TreeState::clear`, and answers beside it what a journal notes of it: the clear, where it is answered. The
/// cost and the errors are those of the tree's call.
pub fn clear_noting<S: Store>(
    tree: &mut TreeState<S>,
    entries: Vec<JournalEntry>,
) -> (Result<SeqNo, Error>, Vec<JournalEntry>)
    requires { entries.items ≡ Clear tree.old.core.seqno ∷ [] }
    ensures clears { ClearsNoted result.0 result.1.items tree.old.core tree.new.core }
    // Copies that were made before can be cut to what is noted.
    ensures front { result.1.items ≡ take (length result.1.items) entries.items }
    // What a crash leaves, and what the call does to files.
    ensures upholds { S.tells → Upholds (S.world tree.old.store) (S.world tree.new.store) tree.old.core tree.new.core }
    ensures files { ClearsFiles result.0 S.tells S.world tree.old tree.new }
{
    match tree.clear() {
        Ok(number) => (Ok(number), entries),
        Err(error) => (Err(error), cut(entries, 0)),
    }
}
