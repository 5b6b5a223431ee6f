// A compaction in one call, and what is noted of it.
ghost use Rattle.std.specs.Prelude.{◌≡◌, IsSome, Ok, length, take};
ghost use Rattle.lsm_commit.specs.Causes.{Blames};
ghost use Rattle.lsm_state.specs.Commits.{Upholds};
ghost use Rattle.lsm_state.specs.WholeCompactions.{as_begun};
ghost use Rattle.lsm_state.specs.Files.{CompactsFiles};
ghost use Rattle.lsm_journal.specs.Noted.{noted_of, kept_of, CompactsAnswer};

use crate::Chosen;
use crate::lists::cut;
use lsm_model::JournalEntry;
use lsm_parts::Error;
use lsm_state::{Finished, Options, TreeState};
use lsm_store::Store;

/// How many of the entries of a choice came to be: all where it is installed, all but the install where that is unknown, else
/// the mark.
fn count_done(all: usize, done: &Result<Option<Finished>, Error>) -> usize
    ensures { result ≡ kept_of (as_begun done.now) all }
{
    match done {
        Ok(Some(Finished::Installed)) | Err(Error::AfterCommit) => all,
        Err(Error::CommitUnknown) => all.saturating_sub(1),
        _ => 1,
    }
}

/// Compacts as was chosen, in one call, as `TreeState::compact_choice`. It answers beside it what
/// a journal notes of it: what `begin_chosen` answers, and after that the install of a merge. The cost is that of the parts.
///
/// # Errors
///
/// Those of `TreeState::compact_choice`, and the refusal of the strategy; then nothing changes but for the mark.
pub fn compact_chosen<S: Store>(
    tree: &mut TreeState<S>,
    chosen: Chosen,
    options: Options,
) -> (Result<Option<Finished>, Error>, Vec<JournalEntry>)
    requires { chosen.entries.items ≡ noted_of chosen.answer options.mvcc_gc_watermark tree.old.core }
    ensures compacts { CompactsAnswer chosen.answer options (as_begun result.0) result.1.items tree.old.core tree.new.core }
    // Copies that were made before can be cut to what is noted.
    ensures front { result.1.items ≡ take (length result.1.items) chosen.entries.items }
    // What a crash leaves, and what the call does to files.
    ensures upholds { S.tells → Upholds (S.world tree.old.store) (S.world tree.new.store) tree.old.core tree.new.core }
    ensures files { (Blames chosen.answer → ⊥) → CompactsFiles (as_begun result.0) S.tells S.world tree.old tree.new }
    ensures no_call { IsSome tree.old.core.lost → tree.new.store ≡ tree.old.store }
{
    tree.is_upheld();
    let Chosen { answer, entries } = chosen;
    match answer {
        Ok(choice) => {
            let done = tree.compact_choice(choice, options);
            let kept = count_done(entries.len(), &done);
            (done, cut(entries, kept))
        }
        Err(error) => (Err(error), entries),
    }
}
