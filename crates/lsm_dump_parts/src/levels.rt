// The levels, drawn with characters: a line for each run, on which its tables stand by their keys.
use crate::look::{Look, TableLook};
use crate::shown::ShownBytes;
use std::alloc::{AllocError, Global};

/// How many characters a line has for keys.
const COLUMNS: usize = 72;

/// A run as it is drawn.
#[derive(Drop)]
struct DrawnRun<'a> {
    level: usize,
    /// Which run of its level it is, from 0 on.
    place: usize,
    /// The first and the last key of each table that is drawn.
    spans: Vec<(&'a [u8], &'a [u8])>,
    /// How many tables there are, their bytes, and how many aren't drawn, since they are damaged.
    tables: usize,
    bytes: u64,
    damaged: usize,
}

/// Where a first or a last key stands on a line, at even distances: `keys` are those of all tables, rising, each once.
fn column_of(keys: &[&[u8]], key: &[u8]) -> usize {
    let place = keys.partition_point(|other| *other < key);
    let distances = keys.len().saturating_sub(1);
    let product = place.saturating_mul(COLUMNS - 1);
    product.checked_div(distances).unwrap_or(0)
}

fn set(line: &mut [u8], at: usize, byte: u8) {
    if let Some(place) = line.get_mut(at) {
        *place = byte;
    }
}

/// Draws a table: `[==]` from its first key to its last one, `|` where both stand at one character.
fn draw(line: &mut [u8], from: usize, to: usize) {
    if from == to {
        set(line, from, b'|');
        return;
    }
    for at in from..to {
        set(line, at, b'=');
    }
    set(line, from, b'[');
    set(line, to, b']');
}

fn push_run(
    alloc: Global,
    out: &mut String,
    keys: &[&[u8]],
    run: &DrawnRun<'_>,
) -> Result<(), AllocError> {
    let mut line = vec![in alloc; b' '; COLUMNS]?;
    for (first, last) in &run.spans {
        draw(&mut line, column_of(keys, first), column_of(keys, last));
    }
    let line = str::from_utf8(&line).unwrap_or_default();
    let (level, place, tables, bytes) = (run.level, run.place, run.tables, run.bytes);
    write!(
        out,
        "L{level} {place:>3} |{line}| {tables} tables, {bytes} bytes"
    )?;
    if run.damaged > 0 {
        write!(out, ", {} damaged", run.damaged)?;
    }
    out.push('\n')
}

/// Appends the keys at both ends.
fn push_ends(alloc: Global, out: &mut String, keys: &[&[u8]]) -> Result<(), AllocError> {
    let (Some(low), Some(high)) = (keys.first(), keys.last()) else {
        return Ok(());
    };
    let (low, high) = (ShownBytes::new(alloc, low)?, ShownBytes::new(alloc, high)?);
    write!(out, "keys    {low} .. {high}\n")
}

/// Appends a line for each run, and one with the keys at both ends.
fn push_runs(alloc: Global, out: &mut String, runs: &[DrawnRun<'_>]) -> Result<(), AllocError> {
    let mut keys = Vec::new(alloc);
    for run in runs {
        for (first, last) in &run.spans {
            keys.push(*first)?;
            keys.push(*last)?;
        }
    }
    keys.sort_unstable();
    keys.dedup();
    for run in runs {
        push_run(alloc, out, &keys, run)?;
    }
    push_ends(alloc, out, &keys)
}

/// The last run, or a new one of this place behind it.
fn run_at<'r, 'a>(
    runs: &'r mut Vec<DrawnRun<'a>>,
    level: usize,
    place: usize,
) -> Result<Option<&'r mut DrawnRun<'a>>, AllocError> {
    if !matches!(runs.last(), Some(run) if run.level == level && run.place == place) {
        let alloc = *runs.allocator();
        runs.push(DrawnRun {
            level,
            place,
            spans: Vec::new(alloc),
            tables: 0,
            bytes: 0,
            damaged: 0,
        })?;
    }
    Ok(runs.last_mut())
}

/// Appends a table to a run.
fn put_table<'a>(run: &mut DrawnRun<'a>, table: &'a TableLook) -> Result<(), AllocError> {
    run.tables = run.tables.saturating_add(1);
    run.bytes = run.bytes.saturating_add(table.bytes);
    match table.whole() {
        Some(entries) => run.spans.push((&entries.first.0, &entries.last.0))?,
        None => run.damaged = run.damaged.saturating_add(1),
    }
    Ok(())
}

/// Appends a line for each run, and one for the log.
pub(crate) fn push_levels(alloc: Global, out: &mut String, look: &Look) -> Result<(), AllocError> {
    let mut runs = Vec::new(alloc);
    for table in &look.tables {
        if let Some((level, place)) = table.run()
            && let Some(run) = run_at(&mut runs, level, place)?
        {
            put_table(run, table)?;
        }
    }
    push_runs(alloc, out, &runs)?;
    let (records, passed, from) = (look.records.len(), look.passed.len(), look.log_from);
    write!(
        out,
        "log     {records} records from {from} on, {passed} below\n"
    )
}
