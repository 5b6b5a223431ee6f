// Look-ups of a version's tables by their ids.
ghost use Rattle.std.specs.Prelude.{◌≡◌, ℕ, ◌++◌, map, IfOk, IsTrue, ◌↔◌};
ghost use Rattle.lsm_model.specs.Steps.{among};
ghost use Rattle.lsm_versions.specs.Levels.{all_of, HasOwnIds};

use crate::tables::tables_before;
use crate::{Level, Tables, tables_in};
use lsm_below::TableId;
use lsm_tables::Table;
use std::alloc::{AllocError, Global};
use std::collections::HashSet;

/// The ids of tables. Refused only for want of memory.
pub(crate) fn ids_of(alloc: Global, tables: Tables<'_>) -> Result<HashSet<TableId>, AllocError>
    ensures { IfOk result (λ ids. (i : ℕ) → among ids.keys i ≡ among (map (λ t. t.id) tables.entry) i) }
{
    let mut ids = HashSet::new(alloc);
    for table in tables {
        ids.insert(table.id())?;
    }
    Ok(ids)
}

/// The ids of all tables. Refused only for want of memory.
pub fn ids_of_levels(alloc: Global, levels: &[Level]) -> Result<HashSet<TableId>, AllocError>
    ensures { IfOk result (λ ids. (i : ℕ) → among ids.keys i ≡ among (map (λ t. t.id) (all_of levels.now)) i) }
{
    ids_of(alloc, tables_in(levels))
}

/// Copies of all tables, which share their entries. Refused only for want of memory.
pub fn all_tables(alloc: Global, levels: &[Level]) -> Result<Vec<Table>, AllocError>
    ensures { IfOk result (λ v. v.items ≡ all_of levels.now) }
{
    let mut all = Vec::new(alloc);
    for table in tables_in(levels) {
        all.push(table.copy()?)?;
    }
    Ok(all)
}

/// Whether no id stands twice among tables.
fn own_ids(alloc: Global, tables: Tables<'_>) -> Result<bool, AllocError>
    ensures { IfOk result (λ b. IsTrue b ↔ HasOwnIds tables.entry) }
{
    let mut seen = HashSet::new(alloc);
    for table in tables {
        let is_new = seen.insert(table.id())?;
        if !is_new {
            return Ok(false);
        }
    }
    Ok(true)
}

/// Whether no id stands twice among tables and those of levels, as a version asks it of its levels
/// (with no tables beside), and a next version of the tables that come to it. The cost is linear.
///
/// # Errors
///
/// Refused only for want of memory.
pub fn ids_are_own(alloc: Global, tables: &[Table], levels: &[Level]) -> Result<bool, AllocError>
    ensures { IfOk result (λ b. IsTrue b ↔ HasOwnIds (tables.now ++ all_of levels.now)) }
{
    own_ids(alloc, tables_before(tables, levels))
}
