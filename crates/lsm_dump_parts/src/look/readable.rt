// What can be read of a table, also where its file is damaged.
ghost use Rattle.lsm_store.specs.World.{Same};

use crate::look::reading::{ReadFile, names_of, read_front, read_table};
use crate::look::version::{Place, look_at_version, other_sum, sum_fault};
use crate::shown::Sum;
use lsm_below::{Error, TableId};
use lsm_store::Store;
use lsm_tables::Table;
use std::alloc::{AllocError, Global};

/// A table whose file may be damaged.
#[derive(Drop)]
pub(crate) struct Readable {
    /// The table; where its file is none, the entries that stand before the first one that is damaged, if there are any.
    pub(crate) table: Option<Table>,
    /// What is wrong with the file.
    pub(crate) fault: Option<String>,
}

/// Where the version names a table. None where it doesn't, or where no version is read.
#[tactic(auto, using(lsm_store::specs::Moments::same_then))]
fn place_of<S: Store>(alloc: Global, store: &mut S, id: TableId) -> Result<Option<Place>, Error>
    ensures { S.tells → Same (S.world store.old) (S.world store.new) }
{
    let names = names_of(alloc, store)?;
    let named = look_at_version(alloc, store, &names)?;
    let mut tables = named.tables.iter();
    Ok(
        tables
            .find(|table| table.id == id)
            .and_then(|table| table.place),
    )
}

/// What is wrong with a table whose file has this sum.
fn stored_fault(
    alloc: Global,
    place: Option<Place>,
    sum: Option<Sum>,
) -> Result<Option<String>, AllocError> {
    match other_sum(place, sum) {
        Some((stored, sum)) => Ok(Some(sum_fault(alloc, stored, sum)?)),
        None => Ok(None),
    }
}

/// What can be read of the table of this id, and what is wrong with its file, which is read again where it is no table's.
#[tactic(auto, using(lsm_store::specs::Moments::same_then))]
pub(crate) fn find_readable<S: Store>(
    alloc: Global,
    store: &mut S,
    id: TableId,
) -> Result<Readable, Error>
    ensures { S.tells → Same (S.world store.old) (S.world store.new) }
{
    let place = place_of(alloc, store, id)?;
    let ReadFile { sum, content, .. } = read_table(alloc, store, id)?;
    match content {
        Ok(table) => Ok(Readable {
            table: Some(table),
            fault: stored_fault(alloc, place, sum.map(Sum))?,
        }),
        Err(fault) => Ok(Readable {
            table: read_front(alloc, store, id)?,
            fault: Some(fault),
        }),
    }
}
