// A clear, and how unflushed entries are forgotten, as steps.
ghost use Rattle.std.specs.Prelude.{◌≡◌, IfOk, OnErr};
ghost use Rattle.lsm_runs.specs.Clearing.{TakesClear, TakesForget, told_clear};
ghost use Rattle.lsm_runs.specs.Files.{TouchesFiles};

use super::{refused, silent};
use crate::{Outcome, Reply};
use lsm_below::SeqNo;
use lsm_journal::{clear_entries, clear_noting};
use lsm_model::JournalEntry;
use lsm_parts::Error;
use lsm_state::TreeState;
use lsm_store::Store;
use std::alloc::{AllocError, Global};

/// The outcome of a clear.
fn of_clear(entries: Vec<JournalEntry>, cleared: Result<SeqNo, Error>) -> Outcome
    ensures { result ≡ told_clear entries.items cleared }
{
    let reply = match cleared {
        Ok(number) => Reply::Cleared(number),
        Err(error) => Reply::Refused(error),
    };
    Outcome { reply, entries }
}

pub(super) fn clear<S: Store>(
    alloc: Global,
    state: &mut TreeState<S>,
) -> Result<Outcome, AllocError>
    ensures ok { IfOk result (λ told. TakesClear told.reply told.entries state.old.core state.new.core) }
    ensures err { OnErr result (state.new ≡ state.old) }
    ensures files { TouchesFiles result S.tells S.world state.old state.new }
{
    state.is_upheld();
    let entries = clear_entries(alloc, state.seqno().get())?;
    let (cleared, entries) = clear_noting(state, entries);
    Ok(of_clear(entries, cleared))
}

pub(super) fn clear_active_memtable<S: Store>(alloc: Global, state: &mut TreeState<S>) -> Outcome
    ensures takes { TakesForget result.reply result.entries state.old.core state.new.core }
    ensures store { state.new.store ≡ state.old.store }
{
    match state.clear_active_memtable() {
        Ok(()) => silent(alloc, Reply::Done),
        Err(error) => refused(alloc, error),
    }
}
