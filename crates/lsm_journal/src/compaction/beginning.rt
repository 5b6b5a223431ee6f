// How a choice begins, and what is noted of that.
ghost use Rattle.std.specs.Prelude.{◌≡◌, ℕ, IsSome, Ok, length, take};
ghost use Rattle.lsm_pick.specs.declared.choice.Choice.{Choice as ChoiceOf};
ghost use Rattle.lsm_commit.specs.Causes.{Blames};
ghost use Rattle.lsm_state.specs.Commits.{Upholds};
ghost use Rattle.lsm_state.specs.Core.{Core};
ghost use Rattle.lsm_state.specs.CompactionReads.{TellsChoice};
ghost use Rattle.lsm_state.specs.Files.{BeginsFiles};
ghost use Rattle.lsm_journal.specs.Noted.{noted_of, kept_of, BeginsAnswer};

use crate::Chosen;
use lsm_model::JournalEntry;
use lsm_parts::Error;
use lsm_state::{Begun, Options, TreeState};
use lsm_store::Store;

/// How many of the entries of a choice came to be: all where it is installed, all but the install where that is unknown, else
/// the mark.
fn count_kept(all: usize, begun: &Result<Begun, Error>) -> usize
    ensures { result ≡ kept_of begun.now all }
{
    match begun {
        Ok(Begun::Installed) | Err(Error::AfterCommit) => all,
        Err(Error::CommitUnknown) => all.saturating_sub(1),
        _ => 1,
    }
}

/// Those of the entries of a choice that came to be.
pub(crate) fn told(entries: Vec<JournalEntry>, begun: &Result<Begun, Error>) -> Vec<JournalEntry>
    ensures tells { (choice : ChoiceOf) (w : ℕ) (c : Core) → entries.items ≡ noted_of (Ok choice) w c → TellsChoice choice w begun.now c result.items }
    ensures kept { result.items ≡ take (kept_of begun.now (length entries.items)) entries.items }
    ensures front { result.items ≡ take (length result.items) entries.items }
{
    let mut entries = entries;
    let kept = count_kept(entries.len(), begun);
    entries.truncate(kept);
    entries
}

/// Begins what was chosen, as `TreeState::begin_choice`, and answers beside it what a journal notes of it: the mark, whatever
/// is answered, what a drop tells where it is installed or may be, and the install where it is installed. The cost is that of
/// the tree's call.
///
/// # Errors
///
/// Those of `TreeState::begin_choice`, and the refusal of the strategy; then nothing changes but for the mark.
pub fn begin_chosen<S: Store>(
    tree: &mut TreeState<S>,
    chosen: Chosen,
    options: Options,
) -> (Result<Begun, Error>, Vec<JournalEntry>)
    requires { chosen.entries.items ≡ noted_of chosen.answer options.mvcc_gc_watermark tree.old.core }
    ensures begins { BeginsAnswer chosen.answer options result.0 result.1.items tree.old.core tree.new.core }
    // Copies that were made before can be cut to what is noted.
    ensures front { result.1.items ≡ take (length result.1.items) chosen.entries.items }
    // What a crash leaves, and what the call does to files.
    ensures upholds { S.tells → Upholds (S.world tree.old.store) (S.world tree.new.store) tree.old.core tree.new.core }
    ensures files { (Blames chosen.answer → ⊥) → BeginsFiles result.0 S.tells S.world tree.old tree.new }
    ensures no_call { IsSome tree.old.core.lost → tree.new.store ≡ tree.old.store }
{
    tree.is_upheld();
    let Chosen { answer, entries } = chosen;
    match answer {
        Ok(choice) => {
            let begun = tree.begin_choice(choice, options);
            let entries = told(entries, &begun);
            (begun, entries)
        }
        Err(error) => (Err(error), entries),
    }
}
