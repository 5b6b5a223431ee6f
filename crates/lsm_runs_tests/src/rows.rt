// A table of calls, of what each answers and of what it notes.
use crate::calls::{Call, step_of};
use crate::strategies::outcomes;
use lsm_runs::{Outcome, Step};
use lsm_state::{Error, JournalEntry, SeqNo};
use std::alloc::{AllocError, Global};
use std::fmt::Debug;

/// What is noted.
pub(crate) enum Note {
    Write(SeqNo),
    Read(SeqNo),
    Mark(SeqNo),
    Dropped(SeqNo),
    Install(SeqNo),
    Clear(SeqNo),
    /// A read at a snapshot whose answer is spelled so.
    Listed(SeqNo, &'static str),
}

/// A call, its reply as it is spelled, and what the call notes.
pub(crate) type Row = (Call, &'static str, &'static [Note]);

/// Of a flush that seals the active memtable of an id, which counts 50 bytes.
pub(crate) const FLUSHED_0: &str =
    "FlushedActive(Some(0), Some((50, Registered { installed: true, cleaned: true })))";

pub(crate) const FLUSHED_1: &str =
    "FlushedActive(Some(1), Some((50, Registered { installed: true, cleaned: true })))";

pub(crate) const FLUSHED_2: &str =
    "FlushedActive(Some(2), Some((50, Registered { installed: true, cleaned: true })))";

pub(crate) const FLUSHED_3: &str =
    "FlushedActive(Some(3), Some((50, Registered { installed: true, cleaned: true })))";

pub(crate) const FLUSHED_4: &str =
    "FlushedActive(Some(4), Some((50, Registered { installed: true, cleaned: true })))";

pub(crate) fn steps_of(alloc: Global, rows: &[Row]) -> Result<Vec<Step>, AllocError> {
    let mut steps = Vec::new(alloc);
    for row in rows {
        steps.push(step_of(alloc, &row.0)?)?;
    }
    Ok(steps)
}

fn is_spelled<T: Debug>(alloc: Global, value: &T, spelled: &str) -> bool {
    match format!(in alloc; "{value:?}") {
        Ok(told) => told.as_str() == spelled,
        Err(_) => false,
    }
}

fn is_noted(alloc: Global, entry: &JournalEntry, note: &Note) -> bool {
    match (note, entry) {
        (Note::Write(wanted), JournalEntry::Write(entry)) => entry.key.seqno == *wanted,
        (Note::Read(wanted), JournalEntry::Read(snapshot, _, _)) => snapshot == wanted,
        (Note::Mark(wanted), JournalEntry::Mark(watermark)) => watermark == wanted,
        (Note::Dropped(wanted), JournalEntry::Dropped(_, number)) => number == wanted,
        (Note::Install(wanted), JournalEntry::Install(number)) => number == wanted,
        (Note::Clear(wanted), JournalEntry::Clear(number)) => number == wanted,
        (Note::Listed(wanted, spelled), JournalEntry::Read(snapshot, _, answer)) => {
            snapshot == wanted && is_spelled(alloc, answer, *spelled)
        }
        _ => false,
    }
}

fn are_noted(alloc: Global, entries: &[JournalEntry], notes: &[Note]) -> bool {
    for (entry, note) in entries.iter().zip(notes) {
        if !is_noted(alloc, entry, note) {
            return false;
        }
    }
    entries.len() == notes.len()
}

fn is_row(alloc: Global, outcome: &Outcome, row: &Row) -> bool {
    is_spelled(alloc, outcome.reply(), row.1) && are_noted(alloc, outcome.entries(), row.2)
}

/// The first row that isn't answered so, or how many rows there are.
pub(crate) fn first_wrong(alloc: Global, told: &[Outcome], rows: &[Row]) -> usize {
    let mut right: usize = 0;
    for (outcome, row) in told.iter().zip(rows) {
        if !is_row(alloc, outcome, row) {
            break;
        }
        right = right.saturating_add(1);
    }
    right
}

/// The first row that a new tree doesn't answer so, or how many rows there are.
pub(crate) fn run_rows(alloc: Global, rows: &[Row]) -> Result<usize, Error> {
    let steps = steps_of(alloc, rows)?;
    let told = outcomes(alloc, &steps)?;
    drop(steps);
    let right = first_wrong(alloc, &told, rows);
    drop(told);
    Ok(right)
}
