// What strategies ask of tables and levels.
ghost use Rattle.std.specs.Prelude.{◌≡◌, ◌-◌, ◌*◌, ◌^◌, ◌≤◌, [], ◌∷◌, cond, length, IfOk, OnOk};
ghost use Rattle.lsm_versions.specs.Levels.{bytes_of, is_busy};
ghost use Rattle.lsm_checks.specs.Choices.{AreIdsOf};
ghost use Rattle.lsm_pick.specs.Tables.{is_upto, is_any_hidden, AddsIds};

use lsm_below::{TableId, UserKey};
use lsm_tables::Table;
use lsm_versions::{HiddenSet, Level};
use std::alloc::{AllocError, Global};
use std::cmp::Ordering;
use std::collections::HashSet;

/// Whether the first key is at most the second.
pub(crate) fn key_is_upto(left: &UserKey, right: &UserKey) -> bool
    ensures { result ≡ is_upto left.now right.now }
{
    match left.as_slice().cmp(right.as_slice()) {
        Ordering::Less | Ordering::Equal => true,
        Ordering::Greater => false,
    }
}

/// Whether one of the tables is hidden.
pub(crate) fn has_hidden(hidden: &HiddenSet, tables: &[Table]) -> bool
    ensures { result ≡ is_any_hidden hidden.now tables.now }
{
    tables.iter().any(|table| hidden.is_hidden(table.id()))
}

/// Whether a table of a level is hidden.
pub(crate) fn is_level_busy(hidden: &HiddenSet, level: &Level) -> bool
    ensures { result ≡ is_busy hidden.now level.now }
{
    let runs = level.as_slice();
    runs.iter().any(|run| has_hidden(hidden, run.as_slice()))
}

/// The bytes of the tables' files.
pub(crate) fn total_bytes(tables: &[Table]) -> u128
    ensures sum { result ≡ bytes_of tables.now }
    ensures bound { result ≤ length tables.now * (2 ^ 64 - 1) }
{
    let mut total: u128 = 0;
    for table in tables {
        total += u128::from(table.file_size());
    }
    total
}

/// Adds the ids of tables to others.
pub(crate) fn push_ids(ids: &mut HashSet<TableId>, tables: &[Table]) -> Result<(), AllocError>
    ensures { OnOk result (AddsIds tables.now ids.old.keys ids.new.keys) }
{
    for table in tables {
        ids.insert(table.id())?;
    }
    Ok(())
}

/// Adds the id of a table to others, or not.
pub(crate) fn push_if(
    ids: &mut HashSet<TableId>,
    table: &Table,
    is_taken: bool,
) -> Result<(), AllocError>
    ensures { OnOk result (AddsIds (cond is_taken (table.now ∷ []) []) ids.old.keys ids.new.keys) }
{
    if is_taken {
        ids.insert(table.id())?;
    }
    Ok(())
}

/// The ids of tables.
pub(crate) fn ids_of(alloc: Global, tables: &[Table]) -> Result<HashSet<TableId>, AllocError>
    ensures { IfOk result (λ ids. AreIdsOf ids.keys tables.now) }
{
    let mut ids = HashSet::new(alloc);
    push_ids(&mut ids, tables)?;
    Ok(ids)
}
