// The outcomes of calls that write: what they reply, and what they add to the journal.
ghost use Rattle.std.specs.Prelude.{◌≡◌, []};
ghost use Rattle.lsm_runs.specs.Runs.{told_entry, told_batch};

use crate::{Outcome, Reply};
use lsm_below::SeqNo;
use lsm_model::JournalEntry;
use lsm_parts::Error;
use std::alloc::Global;

pub(crate) fn refused(alloc: Global, error: Error) -> Outcome
    ensures { result ≡ record { reply = Reply.Refused error; entries = [] } }
{
    silent(alloc, Reply::Refused(error))
}

/// An outcome that adds nothing to the journal.
pub(crate) fn silent(alloc: Global, reply: Reply) -> Outcome
    ensures { result ≡ record { reply = reply; entries = [] } }
{
    Outcome {
        reply,
        entries: Vec::new(alloc),
    }
}

/// The outcome of a write of one entry, beside which this is noted.
pub(crate) fn of_entry(entries: Vec<JournalEntry>, written: Result<(u64, u64), Error>) -> Outcome
    ensures { result ≡ told_entry entries.items written }
{
    let reply = match written {
        Ok((size, total)) => Reply::Sizes(size, total),
        Err(error) => Reply::Refused(error),
    };
    Outcome { reply, entries }
}

/// The outcome of a batch, beside which this is noted.
pub(crate) fn of_batch(entries: Vec<JournalEntry>, written: Result<SeqNo, Error>) -> Outcome
    ensures { result ≡ told_batch entries.items written }
{
    let reply = match written {
        Ok(number) => Reply::Number(number),
        Err(error) => Reply::Refused(error),
    };
    Outcome { reply, entries }
}
