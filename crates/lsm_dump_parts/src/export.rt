// All pairs that a store shows now, and their lines.
ghost use Rattle.lsm_store.specs.World.{Same};

use crate::look::{
    Damage, ReadFile, Wanted, find_tables, first_in_log, names_of, numbers_among, other_sum,
    read_record, read_table, sum_fault,
};
use crate::newest::{NewestWrites, after_all, note_record, note_table};
use crate::shown::Sum;
use lsm_below::{Error, SeqNo};
use lsm_log::{Record, record_name};
use lsm_manifest::table_name;
use lsm_store::Store;
use lsm_tables::Table;
use std::alloc::{AllocError, Global};
use std::collections::BTreeMap;
use std::io::{self, BufWriter, Write};

/// What stands before the pairs.
const HEADER: &str = "VERSION=3\nformat=bytevalue\ntype=btree\nHEADER=END\n";

/// What stands behind them.
const END: &str = "DATA=END\n";

/// What is said of a file that the store doesn't give.
const UNREAD: &str = "can't be read";

/// The pairs that a store shows now: of each key the newest value, unless it was removed since.
#[derive(Drop)]
pub struct Export {
    writes: NewestWrites,
    /// The files of which nothing is in it, though they may count, and what is wrong with each.
    pub left_out: Vec<Damage>,
}

impl Export {
    /// Writes the pairs, by rising key, as lines that `mdb_load` reads.
    ///
    /// # Errors
    ///
    /// What the output answers, or `OutOfMemory`.
    pub fn write_to<W: Write>(&self, alloc: Global, output: &mut W) -> io::Result<()> {
        let mut out = BufWriter::new(alloc, output)?;
        out.write_all(HEADER.as_bytes())?;
        for (key, newest) in self.writes.iter() {
            if let Some(value) = &newest.value {
                write_bytes(alloc, &mut out, key.as_slice())?;
                write_bytes(alloc, &mut out, value.as_slice())?;
            }
        }
        out.write_all(END.as_bytes())?;
        out.flush()
    }

    /// Leaves a file out, for this reason.
    fn leave_out(&mut self, alloc: Global, name: &str, fault: String) -> Result<(), AllocError> {
        self.left_out.push(Damage::new(alloc, name, fault)?)?;
        Ok(())
    }
}

/// Writes bytes as a line of an export.
fn write_bytes<W: Write>(alloc: Global, out: &mut W, bytes: &[u8]) -> io::Result<()> {
    let digits = hex::encode(alloc, bytes)?;
    out.write_all(b" ")?;
    out.write_all(digits.as_bytes())?;
    out.write_all(b"\n")
}

/// What a file holds, or what is wrong with it: a store that doesn't give it is no error.
fn content_of<T: Drop>(
    alloc: Global,
    read: Result<ReadFile<T>, Error>,
) -> Result<(Option<Sum>, Result<T, String>), Error> {
    match read {
        Ok(ReadFile { sum, content, .. }) => Ok((sum.map(Sum), content)),
        Err(Error::Store) => Ok((None, Err(String::from_str(alloc, UNREAD)?))),
        Err(error) => Err(error),
    }
}

/// The table that is wanted, or why it is left out.
fn sound_table<S: Store>(
    alloc: Global,
    store: &mut S,
    wanted: Wanted,
) -> Result<Result<Table, String>, Error>
    ensures { S.tells → Same (S.world store.old) (S.world store.new) }
{
    let (sum, content) = content_of(alloc, read_table(alloc, store, wanted.id))?;
    match other_sum(wanted.place, sum) {
        Some((stored, sum)) if content.is_ok() => Ok(Err(sum_fault(alloc, stored, sum)?)),
        _ => Ok(content),
    }
}

fn export_table<S: Store>(
    alloc: Global,
    store: &mut S,
    out: &mut Export,
    wanted: Wanted,
) -> Result<(), Error>
    ensures { S.tells → Same (S.world store.old) (S.world store.new) }
{
    match sound_table(alloc, store, wanted)? {
        Ok(table) => note_table(&mut out.writes, &table)?,
        Err(fault) => out.leave_out(alloc, table_name(wanted.id).as_str(), fault)?,
    }
    Ok(())
}

fn export_tables<S: Store>(
    alloc: Global,
    store: &mut S,
    out: &mut Export,
    wanted: &[Wanted],
) -> Result<(), Error>
    ensures { S.tells → Same (S.world store.old) (S.world store.new) }
{
    for one in wanted {
        export_table(alloc, store, out, *one)?;
    }
    Ok(())
}

/// The record of this number, or why it is left out.
fn sound_record<S: Store>(
    alloc: Global,
    store: &mut S,
    number: SeqNo,
) -> Result<Result<Record, String>, Error>
    ensures { S.tells → Same (S.world store.old) (S.world store.new) }
{
    let (_, content) = content_of(alloc, read_record(alloc, store, number))?;
    Ok(content)
}

fn export_record<S: Store>(
    alloc: Global,
    store: &mut S,
    out: &mut Export,
    number: SeqNo,
) -> Result<(), Error>
    ensures { S.tells → Same (S.world store.old) (S.world store.new) }
{
    match sound_record(alloc, store, number)? {
        Ok(record) => note_record(&mut out.writes, &record)?,
        Err(fault) => out.leave_out(alloc, record_name(number).as_str(), fault)?,
    }
    Ok(())
}

fn export_records<S: Store>(
    alloc: Global,
    store: &mut S,
    out: &mut Export,
    numbers: &[SeqNo],
) -> Result<(), Error>
    ensures { S.tells → Same (S.world store.old) (S.world store.new) }
{
    for number in numbers {
        export_record(alloc, store, out, *number)?;
    }
    Ok(())
}

/// The pairs that a store shows now: those of the version's tables and of the records from `log_from` on. Where no version is
/// read, of all tables and records that are there. A file that is damaged, or that the store doesn't give, is left out. It changes
/// nothing.
///
/// # Errors
///
/// `OutOfMemory` where a growth was refused, `Store` where the names couldn't be listed. Damage is no error.
#[tactic(auto, using(lsm_store::specs::Moments::same_then))]
pub fn export_pairs<S: Store>(alloc: Global, store: &mut S) -> Result<Export, Error>
    ensures { S.tells → Same (S.world store.old) (S.world store.new) }
{
    let names = names_of(alloc, store)?;
    let mut named = find_tables(alloc, store, &names)?;
    let mut out = Export {
        writes: BTreeMap::new(alloc),
        left_out: Vec::new(alloc),
    };
    out.left_out.append(&mut named.damage)?;
    export_tables(alloc, store, &mut out, &named.tables)?;
    let from = first_in_log(&named, after_all(&out.writes));
    let numbers = numbers_among(alloc, &names)?;
    let below = numbers.partition_point(|number| *number < from);
    export_records(
        alloc,
        store,
        &mut out,
        numbers.get(below..).unwrap_or_default(),
    )?;
    Ok(out)
}
