// What a store holds of a tree and its log, each file looked at once, also after the first one that is damaged.
ghost use Rattle.lsm_store.specs.World.{Same};

mod others;
mod readable;
mod reading;
mod records;
mod tables;
mod version;

use crate::totals::{Totals, totals_of};
use lsm_below::{Error, SeqNo};
use lsm_manifest::version_name;
use lsm_store::Store;
use lsm_versions::VersionId;
pub(crate) use others::folder_faults;
use others::sort_names;
pub(crate) use readable::{Readable, find_readable};
pub(crate) use reading::{ReadFile, names_of, read_record, read_table};
pub(crate) use records::numbers_among;
pub use records::{RecordLook, Writes};
use records::{look_at_records, put_records_damage};
use serde::Serialize;
use std::alloc::{AllocError, Global};
pub use tables::{Entries, Key, TableLook};
use tables::{look_at_tables, put_runs_damage, put_tables_damage};
pub use version::Place;
use version::look_at_version;
pub(crate) use version::{Named, Wanted, find_tables, other_sum, sum_fault};

/// A file that is damaged, and one thing that is wrong with it.
#[derive(Drop, Serialize)]
pub struct Damage {
    pub file: String,
    pub fault: String,
}

impl Damage {
    pub(crate) fn new(alloc: Global, name: &str, fault: String) -> Result<Damage, AllocError> {
        Ok(Damage {
            file: String::from_str(alloc, name)?,
            fault,
        })
    }
}

/// What a store holds of a tree and its log.
#[derive(Drop, Serialize)]
pub struct Look {
    /// The version that `current` names, None where it isn't read.
    #[serde(skip_serializing_if = "Option::is_none")]
    pub version: Option<VersionId>,
    /// The format of its file: 4 tells from which number the log is read, 3 doesn't.
    #[serde(skip_serializing_if = "Option::is_none")]
    pub format: Option<u8>,
    /// Whether there is no `current`: opening makes a new tree.
    pub is_new: bool,
    /// From which number the log is read.
    pub log_from: SeqNo,
    /// The tables, in the order of the levels. Where no version is read, those whose files are there.
    pub tables: Vec<TableLook>,
    /// The records from `log_from` on.
    pub records: Vec<RecordLook>,
    /// The numbers of the records below it, which opening doesn't read.
    pub passed: Vec<SeqNo>,
    /// Files of versions and tables that the version doesn't name. Opening removes them.
    pub orphans: Vec<String>,
    /// Names that are none of a tree's, which opening leaves alone.
    pub others: Vec<String>,
    /// What is wrong, in the order in which opening looks.
    pub faults: Vec<Damage>,
    pub total: Totals,
}

/// The number after all that whole tables hold, 0 where there is none.
fn after_all(tables: &[TableLook]) -> SeqNo {
    let mut after: SeqNo = 0;
    for table in tables {
        if let Some(entries) = table.whole() {
            after = after.max(entries.highest.saturating_add(1));
        }
    }
    after
}

/// From which number a log is read: where the version's file doesn't tell it, from the one after all that its tables hold. Where
/// no version tells which tables count, from the first one.
pub(crate) fn first_in_log(named: &Named, after: SeqNo) -> SeqNo {
    match (named.log_from, named.id) {
        (Some(number), _) => number,
        (None, Some(_)) => after,
        (None, None) => 0,
    }
}

/// Looks at the log: the numbers below this one, and the records from it on.
fn look_at_log<S: Store>(
    alloc: Global,
    store: &mut S,
    names: &[String],
    from: SeqNo,
) -> Result<(Vec<SeqNo>, Vec<RecordLook>), Error>
    ensures { S.tells → Same (S.world store.old) (S.world store.new) }
{
    let mut numbers = numbers_among(alloc, names)?;
    let below = numbers.partition_point(|number| *number < from);
    let records = look_at_records(alloc, store, numbers.get(below..).unwrap_or_default())?;
    numbers.truncate(below);
    Ok((numbers, records))
}

/// All that is wrong, after what is wrong with names, and with `current` and the file that it names.
fn put_damage(
    alloc: Global,
    damage: &mut Vec<Damage>,
    id: Option<VersionId>,
    tables: &[TableLook],
    records: &[RecordLook],
) -> Result<(), AllocError> {
    put_tables_damage(alloc, damage, tables)?;
    if let Some(id) = id {
        put_runs_damage(alloc, damage, version_name(id).as_str(), tables)?;
    }
    put_records_damage(alloc, damage, records)
}

/// Looks at the tables, and at the log.
#[tactic(auto, using(lsm_store::specs::Moments::same_then))]
fn look_behind<S: Store>(
    alloc: Global,
    store: &mut S,
    names: &[String],
    mut named: Named,
) -> Result<Look, Error>
    ensures { S.tells → Same (S.world store.old) (S.world store.new) }
{
    let tables = look_at_tables(alloc, store, &named.tables)?;
    let log_from = first_in_log(&named, after_all(&tables));
    let (passed, records) = look_at_log(alloc, store, names, log_from)?;
    let mut others = sort_names(alloc, names, &named)?;
    others.damage.append(&mut named.damage)?;
    put_damage(alloc, &mut others.damage, named.id, &tables, &records)?;
    Ok(Look {
        version: named.id,
        format: named
            .id
            .map(|_| if named.log_from.is_some() { 4 } else { 3 }),
        is_new: named.is_new,
        log_from,
        total: totals_of(&tables, &records),
        tables,
        records,
        passed,
        orphans: others.orphans,
        others: others.foreign,
        faults: others.damage,
    })
}

#[tactic(auto, using(lsm_store::specs::Moments::same_then))]
fn look_listed<S: Store>(alloc: Global, store: &mut S, names: &[String]) -> Result<Look, Error>
    ensures { S.tells → Same (S.world store.old) (S.world store.new) }
{
    let named = look_at_version(alloc, store, names)?;
    look_behind(alloc, store, names, named)
}

/// What a store holds of a tree and its log. Each file that counts is read once, and one of them is in memory at a time;
/// `current` is read again where it or the version's file is damaged. It changes nothing.
///
/// # Errors
///
/// `OutOfMemory` where a growth was refused, `Store` where a store call failed. Damage is no error.
#[tactic(auto, using(lsm_store::specs::Moments::same_then))]
pub fn look_into<S: Store>(alloc: Global, store: &mut S) -> Result<Look, Error>
    ensures { S.tells → Same (S.world store.old) (S.world store.new) }
{
    let names = names_of(alloc, store)?;
    look_listed(alloc, store, &names)
}
