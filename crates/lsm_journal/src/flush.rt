// Flushes, and what is noted of them.
ghost use Rattle.std.specs.Prelude.{◌≡◌, ◌∷◌, [], ℕ, None, length, take, IfOk};
ghost use Rattle.lsm_model.specs.declared.journal.JournalEntry.TheVariants.{Mark, Install};
ghost use Rattle.lsm_state.specs.Commits.{Upholds};
ghost use Rattle.lsm_state.specs.WholeFlushes.{answer_behind};
ghost use Rattle.lsm_state.specs.FlushReads.{register_events, flush_events};
ghost use Rattle.lsm_state.specs.Files.{RegistersFiles, FlushesFiles, FlushesActiveFiles};
ghost use Rattle.lsm_journal.specs.NotedFlushes.{RegistersNoted, FlushesNoted, FlushesActiveNoted};

use crate::lists::{cut, one_entry};
use lsm_below::{MemtableId, SeqNo};
use lsm_flush::{Registered, WrittenFlush};
use lsm_model::JournalEntry;
use lsm_parts::Error;
use lsm_state::TreeState;
use lsm_store::Store;
use std::alloc::{AllocError, Global};

/// What is noted of a flush at a watermark that is installed while the counter stands at this number: the mark, and the install.
pub fn flush_entries(
    alloc: Global,
    watermark: SeqNo,
    number: SeqNo,
) -> Result<Vec<JournalEntry>, AllocError>
    ensures { IfOk result (λ list. list.items ≡ Mark watermark ∷ (Install number ∷ [])) }
{
    let mut list = one_entry(alloc, JournalEntry::Mark(watermark))?;
    list.push(JournalEntry::Install(number))?;
    Ok(list)
}

// ---- what came to be

/// How many of the two entries of a job that is registered came to be.
fn count_registered(registered: &Result<Registered, Error>) -> usize
    ensures { (w n : ℕ) → take result (Mark w ∷ (Install n ∷ [])) ≡ register_events w n registered.now }
{
    match registered {
        Ok(registered) => { if registered.installed { 2 } else { 1 } }
        Err(_) => 1,
    }
}

/// How many of the two entries of a flush in one call did, which came to register a job or not.
fn count_flushed(marked: bool, flushed: &Result<Option<(u64, Registered)>, Error>) -> usize
    ensures { (w n : ℕ) → take result (Mark w ∷ (Install n ∷ [])) ≡ flush_events w n marked flushed.now }
{
    if !marked {
        return 0;
    }
    match flushed {
        Ok(_) => 2,
        Err(_) => 1,
    }
}

// ---- calls

/// Installs the tables of a job, as `TreeState::register_tables`, and answers beside it what a journal notes of it: the mark,
/// whatever is answered, and the install where it is installed. The cost and the errors are those of the tree's call.
pub fn register_noting<S: Store>(
    tree: &mut TreeState<S>,
    job: WrittenFlush,
    entries: Vec<JournalEntry>,
) -> (Result<Registered, Error>, Vec<JournalEntry>)
    requires { entries.items ≡ Mark job.watermark ∷ (Install tree.old.core.seqno ∷ []) }
    ensures registers { RegistersNoted job result.0 result.1.items tree.old.core tree.new.core }
    // Copies that were made before can be cut to what is noted.
    ensures front { result.1.items ≡ take (length result.1.items) entries.items }
    // What a crash leaves, and what the call does to files.
    ensures upholds { S.tells → Upholds (S.world tree.old.store) (S.world tree.new.store) tree.old.core tree.new.core }
    ensures files { RegistersFiles job result.0 S.tells S.world tree.old tree.new }
{
    let registered = tree.register_tables(job);
    let count = count_registered(&registered);
    (registered, cut(entries, count))
}

/// Flushes all sealed memtables, as `TreeState::flush`, and answers beside it what a journal notes of it: the mark, where it comes
/// to register a job, and the install where it is answered. The cost and the errors are those of the tree's call.
pub fn flush_noting<S: Store>(
    tree: &mut TreeState<S>,
    watermark: SeqNo,
    entries: Vec<JournalEntry>,
) -> (Result<Option<(u64, Registered)>, Error>, Vec<JournalEntry>)
    requires { entries.items ≡ Mark watermark ∷ (Install tree.old.core.seqno ∷ []) }
    ensures flushes { FlushesNoted watermark result.0 result.1.items tree.old.core tree.new.core }
    // Copies that were made before can be cut to what is noted.
    ensures front { result.1.items ≡ take (length result.1.items) entries.items }
    // What a crash leaves, and what the call does to files.
    ensures upholds { S.tells → Upholds (S.world tree.old.store) (S.world tree.new.store) tree.old.core tree.new.core }
    ensures files { FlushesFiles result.0 S.tells S.world tree.old tree.new }
{
    let (flushed, marked) = tree.flush_with_mark(watermark);
    let count = count_flushed(marked, &flushed);
    (flushed, cut(entries, count))
}

/// What a flush after a rotation answers.
fn behind(
    sealed: Option<MemtableId>,
    flushed: Result<Option<(u64, Registered)>, Error>,
) -> Result<(Option<MemtableId>, Option<(u64, Registered)>), (Error, Option<MemtableId>)>
    ensures { result ≡ answer_behind sealed flushed }
{
    match flushed {
        Ok(flushed) => Ok((sealed, flushed)),
        Err(error) => Err((error, sealed)),
    }
}

/// Seals the active memtable and flushes all sealed ones, as `TreeState::flush_active_memtable`, and answers beside it what a
/// journal notes of it: what `flush_noting` does, and nothing where the rotation is refused. The cost and the errors are those of
/// the tree's call.
pub fn flush_active_noting<S: Store>(
    tree: &mut TreeState<S>,
    watermark: SeqNo,
    entries: Vec<JournalEntry>,
) -> (
    Result<(Option<MemtableId>, Option<(u64, Registered)>), (Error, Option<MemtableId>)>,
    Vec<JournalEntry>,
)
    requires { entries.items ≡ Mark watermark ∷ (Install tree.old.core.seqno ∷ []) }
    ensures flushes { FlushesActiveNoted watermark result.0 result.1.items tree.old.core tree.new.core }
    // Copies that were made before can be cut to what is noted.
    ensures front { result.1.items ≡ take (length result.1.items) entries.items }
    // What a crash leaves, and what the call does to files.
    ensures upholds { S.tells → Upholds (S.world tree.old.store) (S.world tree.new.store) tree.old.core tree.new.core }
    ensures files { FlushesActiveFiles result.0 S.tells S.world tree.old tree.new }
{
    tree.is_upheld();
    let sealed = match tree.rotate_memtable() {
        Ok(sealed) => sealed,
        Err(error) => return (Err((error, None)), cut(entries, 0)),
    };
    let (flushed, entries) = flush_noting(tree, watermark, entries);
    (behind(sealed, flushed), entries)
}
