// The version that `current` names, or what is wrong with it.
ghost use Rattle.lsm_store.specs.World.{Same};

use crate::look::Damage;
use crate::shown::Sum;
use lsm_below::{Error, SeqNo, TableId};
use lsm_manifest::{NameKind, Recovery, get_current_version, kind_of, recover, version_name};
use lsm_store::{Store, missing_current};
use lsm_versions::VersionId;
use serde::Serialize;
use std::alloc::{AllocError, Global};

/// Where a version names a table, and with which sum.
#[derive(Clone, Copy, Serialize)]
pub struct Place {
    pub level: usize,
    pub run: usize,
    #[serde(rename = "checksum")]
    pub stored: Sum,
}

/// The stored sum and that of the file, where they differ.
pub(crate) fn other_sum(place: Option<Place>, sum: Option<Sum>) -> Option<(Sum, Sum)> {
    match (place, sum) {
        (Some(place), Some(sum)) if place.stored != sum => Some((place.stored, sum)),
        _ => None,
    }
}

/// What is wrong with a file that has another sum than is stored.
pub(crate) fn sum_fault(alloc: Global, stored: Sum, sum: Sum) -> Result<String, AllocError> {
    format!(in alloc; "the sum differs: stored {stored}, is {sum}")
}

/// A table that is looked at.
#[derive(Clone, Copy)]
pub(crate) struct Wanted {
    pub(crate) id: TableId,
    /// None where no version is read, so that nothing is known of the table but its file.
    pub(crate) place: Option<Place>,
}

/// What `current` leads to.
#[derive(Drop)]
pub(crate) struct Named {
    /// Whether there is no `current`: opening makes a new tree.
    pub(crate) is_new: bool,
    pub(crate) id: Option<VersionId>,
    /// From which number the log is read, where the version's file tells it.
    pub(crate) log_from: Option<SeqNo>,
    pub(crate) tables: Vec<Wanted>,
    pub(crate) damage: Vec<Damage>,
}

fn named_by(alloc: Global, recovery: &Recovery) -> Result<Named, AllocError> {
    let mut tables = Vec::new(alloc);
    for (level, runs) in recovery.table_ids.iter().enumerate() {
        for (run, named) in runs.iter().enumerate() {
            for table in named {
                let stored = Sum(table.checksum);
                let place = Some(Place { level, run, stored });
                tables.push(Wanted {
                    id: table.id,
                    place,
                })?;
            }
        }
    }
    Ok(Named {
        is_new: false,
        id: Some(recovery.curr_version_id),
        log_from: recovery.log_from,
        tables,
        damage: Vec::new(alloc),
    })
}

/// The tables whose files are there, where no version tells which count.
fn tables_among(alloc: Global, names: &[String]) -> Result<Vec<Wanted>, AllocError> {
    let mut tables = Vec::new(alloc);
    for name in names {
        if let NameKind::TableFile(id) = kind_of(name.as_bytes()) {
            tables.push(Wanted { id, place: None })?;
        }
    }
    tables.sort_unstable_by_key(|table| table.id);
    Ok(tables)
}

fn has_name(names: &[String], wanted: &str) -> bool {
    names.iter().any(|name| name.as_str() == wanted)
}

/// The damage of a file that is refused with this error.
fn damage_of(
    alloc: Global,
    names: &[String],
    name: &str,
    why: &Error,
) -> Result<Damage, AllocError> {
    let fault = match why {
        _ if !has_name(names, name) => String::from_str(alloc, "is missing")?,
        Error::Unrecoverable | Error::InvalidHeader(_) => {
            String::from_str(alloc, "isn't of its form")?
        }
        _ => format!(in alloc; "{why}")?,
    };
    Damage::new(alloc, name, fault)
}

/// The tables that are there, where no version is read for this damage.
fn all_tables(alloc: Global, names: &[String], damage: Damage) -> Result<Named, AllocError> {
    Ok(Named {
        is_new: false,
        id: None,
        log_from: None,
        tables: tables_among(alloc, names)?,
        damage: vec![in alloc; damage]?,
    })
}

/// The tables that are there where `current`, or the file that it names, is refused with this error.
fn unnamed<S: Store>(
    alloc: Global,
    store: &mut S,
    names: &[String],
    why: &Error,
) -> Result<Named, Error>
    ensures { S.tells → Same (S.world store.old) (S.world store.new) }
{
    let damaged = match get_current_version(alloc, store) {
        Ok(id) => damage_of(alloc, names, version_name(id).as_str(), why)?,
        Err(Error::OutOfMemory) => return Err(Error::OutOfMemory),
        Err(Error::Store) => return Err(Error::Store),
        Err(_) => damage_of(alloc, names, "current", why)?,
    };
    Ok(all_tables(alloc, names, damaged)?)
}

/// What `current` leads to. Both files are read once, and `current` again where one of them is damaged.
#[tactic(auto, using(lsm_store::specs::Moments::same_then))]
pub(crate) fn look_at_version<S: Store>(
    alloc: Global,
    store: &mut S,
    names: &[String],
) -> Result<Named, Error>
    ensures { S.tells → Same (S.world store.old) (S.world store.new) }
{
    if !has_name(names, "current") {
        return Ok(Named {
            is_new: true,
            id: None,
            log_from: None,
            tables: Vec::new(alloc),
            damage: Vec::new(alloc),
        });
    }
    match recover(alloc, store) {
        Ok(recovery) => Ok(named_by(alloc, &recovery)?),
        Err(Error::OutOfMemory) => Err(Error::OutOfMemory),
        Err(Error::Store) => Err(Error::Store),
        Err(why) => unnamed(alloc, store, names, &why),
    }
}

/// What `current` leads to, or all tables that are there: also where `current` is lost, or can't be read.
#[tactic(auto, using(lsm_store::specs::Moments::same_then))]
pub(crate) fn find_tables<S: Store>(
    alloc: Global,
    store: &mut S,
    names: &[String],
) -> Result<Named, Error>
    ensures { S.tells → Same (S.world store.old) (S.world store.new) }
{
    if let Some(beside) = missing_current(names) {
        let fault = format!(in alloc; "is missing beside {beside}")?;
        let damage = Damage::new(alloc, "current", fault)?;
        return Ok(all_tables(alloc, names, damage)?);
    }
    match look_at_version(alloc, store, names) {
        Err(Error::Store) => {
            let fault = String::from_str(alloc, "leads to no version that can be read")?;
            let damage = Damage::new(alloc, "current", fault)?;
            Ok(all_tables(alloc, names, damage)?)
        }
        told => told,
    }
}
