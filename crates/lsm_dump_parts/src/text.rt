// A look as rows of words, with tabs between them.
use crate::look::{Damage, Entries, Look, RecordLook, TableLook};
use crate::shown::ShownBytes;
use std::alloc::{AllocError, Global};

const TABLE_HEADS: &str =
    "\nlevel\trun\ttable\tentries\ttombstones\tweak\tbytes\tnumbers\tmade at\tchecksum\tsum\tkeys\n";

const RECORD_HEADS: &str = "\nrecord\twrites\tremovals\tbytes\tstate\n";

/// Appends what is counted of a table: the entries, the tombstones, the weak ones, the bytes, the numbers and the moment.
fn push_counts(out: &mut String, bytes: u64, entries: &Entries) -> Result<(), AllocError> {
    let (count, tombstones, weak) = (entries.count, entries.tombstones, entries.weak);
    let (lowest, highest, moment) = (entries.lowest, entries.highest, entries.created_at);
    write!(
        out,
        "{count}\t{tombstones}\t{weak}\t{bytes}\t{lowest}..{highest}\t{moment}\t"
    )
}

/// Appends the sum that is stored, or else that of the file, and whether both are the same.
fn push_sum(out: &mut String, table: &TableLook) -> Result<(), AllocError> {
    match (table.place, table.sum) {
        (None, None) => out.push_str("-\t-\t"),
        (Some(place), None) => write!(out, "{}\t-\t", place.stored),
        (None, Some(sum)) => write!(out, "{sum}\tunknown\t"),
        (Some(place), Some(sum)) if place.stored == sum => write!(out, "{sum}\tright\t"),
        (Some(place), Some(_)) => write!(out, "{}\tdiffers\t", place.stored),
    }
}

/// Appends the first and the last key, or what is wrong with the file.
fn push_keys(alloc: Global, out: &mut String, table: &TableLook) -> Result<(), AllocError> {
    if let Some(entries) = &table.entries {
        let first = ShownBytes::new(alloc, &entries.first.0)?;
        let last = ShownBytes::new(alloc, &entries.last.0)?;
        write!(out, "{first} .. {last}")?;
    }
    if let Some(fault) = &table.fault {
        out.push_str(fault.as_str())?;
    }
    out.push('\n')
}

fn push_table(alloc: Global, out: &mut String, table: &TableLook) -> Result<(), AllocError> {
    let (id, bytes) = (table.id, table.bytes);
    match table.run() {
        Some((level, run)) => write!(out, "{level}\t{run}\t{id}\t")?,
        None => write!(out, "-\t-\t{id}\t")?,
    }
    match &table.entries {
        Some(entries) => push_counts(out, bytes, entries)?,
        None => write!(out, "-\t-\t-\t{bytes}\t-\t-\t")?,
    }
    push_sum(out, table)?;
    push_keys(alloc, out, table)
}

fn push_tables(alloc: Global, out: &mut String, tables: &[TableLook]) -> Result<(), AllocError> {
    if tables.is_empty() {
        return Ok(());
    }
    out.push_str(TABLE_HEADS)?;
    for table in tables {
        push_table(alloc, out, table)?;
    }
    Ok(())
}

fn push_record(out: &mut String, record: &RecordLook) -> Result<(), AllocError> {
    let (number, bytes) = (record.number, record.bytes);
    match (&record.writes, &record.fault) {
        (Some(writes), _) => write!(
            out,
            "{number}\t{}\t{}\t{bytes}\twhole\n",
            writes.count, writes.removals
        ),
        (None, Some(fault)) => write!(out, "{number}\t-\t-\t{bytes}\t{fault}\n"),
        (None, None) => Ok(()),
    }
}

fn push_records(out: &mut String, look: &Look) -> Result<(), AllocError> {
    if look.passed.is_empty() && look.records.is_empty() {
        return Ok(());
    }
    out.push_str(RECORD_HEADS)?;
    for number in &look.passed {
        write!(out, "{number}\t-\t-\t-\tbelow log_from, not read\n")?;
    }
    for record in &look.records {
        push_record(out, record)?;
    }
    Ok(())
}

fn push_others(out: &mut String, look: &Look) -> Result<(), AllocError> {
    if look.orphans.is_empty() && look.others.is_empty() {
        return Ok(());
    }
    out.push('\n')?;
    for name in &look.orphans {
        write!(out, "orphan\t{name}\n")?;
    }
    for name in &look.others {
        write!(out, "other\t{name}\n")?;
    }
    Ok(())
}

/// Appends a line for each thing that is wrong.
pub(crate) fn push_damage(out: &mut String, damage: &[Damage]) -> Result<(), AllocError> {
    for found in damage {
        let (file, fault) = (&found.file, &found.fault);
        write!(out, "{file}: {fault}\n")?;
    }
    Ok(())
}

fn push_version(out: &mut String, look: &Look) -> Result<(), AllocError> {
    let from = look.log_from;
    match (look.version, look.format) {
        (Some(id), Some(format)) => {
            write!(out, "version {id}, format {format}, log_from {from}\n")
        }
        _ if look.is_new => out.push_str("no version: opening makes a new tree\n"),
        _ => out.push_str("the version isn't read\n"),
    }
}

fn push_totals(out: &mut String, look: &Look) -> Result<(), AllocError> {
    let total = &look.total;
    let (tables, runs, entries) = (total.tables, total.runs, total.entries);
    let (tombstones, weak, bytes) = (total.tombstones, total.weak, total.bytes);
    write!(
        out,
        "\ntotal\t{tables} tables in {runs} runs, {entries} entries, {tombstones} tombstones, {weak} of them weak, {bytes} bytes\n"
    )?;
    let (records, writes, bytes) = (total.records, total.writes, total.record_bytes);
    let (passed, orphans, faults) = (look.passed.len(), look.orphans.len(), look.faults.len());
    write!(
        out,
        "total\t{records} records, {writes} writes, {bytes} bytes; {passed} records below log_from; {orphans} orphans; {faults} faults\n"
    )
}

/// Appends what a store holds.
pub(crate) fn push_look(alloc: Global, out: &mut String, look: &Look) -> Result<(), AllocError> {
    push_version(out, look)?;
    push_tables(alloc, out, &look.tables)?;
    push_records(out, look)?;
    push_others(out, look)?;
    if !look.faults.is_empty() {
        out.push('\n')?;
        push_damage(out, &look.faults)?;
    }
    push_totals(out, look)
}
