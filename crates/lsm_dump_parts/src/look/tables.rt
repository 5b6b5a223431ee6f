// Tables that are looked at, one at a time: what is counted of each, or what is wrong with its file.
ghost use Rattle.lsm_store.specs.World.{Same};

use crate::look::Damage;
use crate::look::reading::{ReadFile, read_table};
use crate::look::version::{Place, Wanted, other_sum, sum_fault};
use crate::shown::{ShownBytes, Sum};
use lsm_below::{Error, Ranged, SeqNo, TableId};
use lsm_manifest::table_name;
use lsm_store::Store;
use lsm_tables::Table;
use serde::{Described, Serialize, Serializer};
use std::alloc::{AllocError, Global};

/// From this sequence number on a tree isn't opened.
const LIMIT: SeqNo = 9_223_372_036_854_775_808;

/// A key of a table.
#[derive(Drop)]
pub struct Key(pub Vec<u8>);

impl Described for Key {}

impl Serialize for Key {
    fn serialize<S: Serializer>(&self, out: &mut S) -> Result<(), S::Error> {
        match ShownBytes::new(*self.0.allocator(), &self.0) {
            Ok(shown) => shown.serialize(out),
            Err(_) => Err(out.custom("a growth was refused")),
        }
    }
}

/// What is counted of a table's entries.
#[derive(Drop, Serialize)]
pub struct Entries {
    #[serde(rename = "entries")]
    pub count: usize,
    /// How many remove their key, weakly or not.
    pub tombstones: usize,
    /// How many remove it weakly.
    pub weak: usize,
    /// The sequence numbers, from the least to the greatest.
    pub lowest: SeqNo,
    pub highest: SeqNo,
    #[serde(rename = "made_at")]
    pub created_at: u64,
    /// The keys, from the first to the last.
    pub first: Key,
    pub last: Key,
}

/// A table that was looked at.
#[derive(Drop, Serialize)]
pub struct TableLook {
    #[serde(rename = "table")]
    pub id: TableId,
    /// None where no version is read.
    #[serde(flatten)]
    pub place: Option<Place>,
    /// The bytes of its file and their sum, which is None where it isn't there.
    pub bytes: u64,
    #[serde(skip_serializing_if = "Option::is_none")]
    pub sum: Option<Sum>,
    #[serde(flatten)]
    pub entries: Option<Entries>,
    /// Why the file is no table's.
    #[serde(skip)]
    pub fault: Option<String>,
}

impl TableLook {
    /// What is counted, where the file is a table's and has the stored sum.
    pub fn whole(&self) -> Option<&Entries> {
        if self.other_sum().is_some() {
            return None;
        }
        self.entries.as_ref()
    }

    /// The stored sum and that of the file, where they differ.
    pub fn other_sum(&self) -> Option<(Sum, Sum)> {
        other_sum(self.place, self.sum)
    }

    /// The level and the run that it stands in.
    pub fn run(&self) -> Option<(usize, usize)> {
        let place = self.place?;
        Some((place.level, place.run))
    }
}

/// What is counted of a table. Its keys are copied, so that the table's bytes can go.
fn count(alloc: Global, table: &Table) -> Result<Entries, AllocError> {
    let range = table.key_range();
    let numbers = table.entries().iter().map(|entry| entry.key.seqno);
    Ok(Entries {
        count: table.item_count(),
        tombstones: table.tombstone_count(),
        weak: table.weak_tombstone_count(),
        lowest: numbers.fold(SeqNo::MAX, |lowest, number| lowest.min(number)),
        highest: table.get_highest_seqno(),
        created_at: table.created_at(),
        first: Key(Vec::from_slice(alloc, range.min().as_slice())?),
        last: Key(Vec::from_slice(alloc, range.max().as_slice())?),
    })
}

fn look_at_table<S: Store>(alloc: Global, store: &mut S, wanted: Wanted) -> Result<TableLook, Error>
    ensures { S.tells → Same (S.world store.old) (S.world store.new) }
{
    let ReadFile {
        bytes,
        sum,
        content,
    } = read_table(alloc, store, wanted.id)?;
    let (entries, fault) = match content {
        Ok(table) => (Some(count(alloc, &table)?), None),
        Err(fault) => (None, Some(fault)),
    };
    Ok(TableLook {
        id: wanted.id,
        place: wanted.place,
        bytes,
        sum: sum.map(Sum),
        entries,
        fault,
    })
}

/// Looks at these tables, of which one is in memory at a time.
pub(crate) fn look_at_tables<S: Store>(
    alloc: Global,
    store: &mut S,
    wanted: &[Wanted],
) -> Result<Vec<TableLook>, Error>
    ensures { S.tells → Same (S.world store.old) (S.world store.new) }
{
    let mut tables = Vec::new(alloc);
    for one in wanted {
        tables.push(look_at_table(alloc, store, *one)?)?;
    }
    Ok(tables)
}

fn put_table_damage(
    alloc: Global,
    out: &mut Vec<Damage>,
    table: &TableLook,
) -> Result<(), AllocError> {
    let name = table_name(table.id);
    if let Some((stored, sum)) = table.other_sum() {
        let fault = sum_fault(alloc, stored, sum)?;
        out.push(Damage::new(alloc, name.as_str(), fault)?)?;
    }
    let fault = match (&table.fault, &table.entries) {
        (Some(fault), _) => fault.clone()?,
        (None, Some(entries)) if entries.highest >= LIMIT => {
            format!(in alloc;
                "has the sequence number {}, above 2^63 - 1",
                entries.highest
            )?
        }
        _ => return Ok(()),
    };
    out.push(Damage::new(alloc, name.as_str(), fault)?)?;
    Ok(())
}

/// What is wrong with the files of tables.
pub(crate) fn put_tables_damage(
    alloc: Global,
    out: &mut Vec<Damage>,
    tables: &[TableLook],
) -> Result<(), AllocError> {
    for table in tables {
        put_table_damage(alloc, out, table)?;
    }
    Ok(())
}

/// Where two tables that follow each other in a run aren't in order: the level and the run.
fn disorder(first: &TableLook, second: &TableLook) -> Option<(usize, usize)> {
    let (left, right) = (first.whole()?, second.whole()?);
    if first.run() != second.run() || left.last.0 < right.first.0 {
        return None;
    }
    first.run()
}

/// What is wrong with the runs of a version, whose file has this name.
pub(crate) fn put_runs_damage(
    alloc: Global,
    out: &mut Vec<Damage>,
    name: &str,
    tables: &[TableLook],
) -> Result<(), AllocError> {
    for (first, second) in tables.iter().zip(tables.iter().skip(1)) {
        if let Some((level, run)) = disorder(first, second) {
            let (below, above) = (first.id, second.id);
            let fault = format!(in alloc;
                "level {level}, run {run}: table {below} isn't below table {above}"
            )?;
            out.push(Damage::new(alloc, name, fault)?)?;
        }
    }
    Ok(())
}
