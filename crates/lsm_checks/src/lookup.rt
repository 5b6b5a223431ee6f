// Whether the inputs of a merge are still there.
ghost use Rattle.std.specs.Prelude.{◌≡◌, nat_eq, List, IfOk, IsTrue, ◌↔◌};
ghost use Rattle.std.specs.HashMap.{get};
ghost use Rattle.std.specs.List.{list_all};
ghost use Rattle.lsm_tables.specs.Tables.{SeenTable};
ghost use Rattle.lsm_model.specs.Steps.{among};
ghost use Rattle.lsm_versions.specs.Levels.{all_of, HasOwnIds};
ghost use Rattle.lsm_checks.specs.Choices.{IsIndex, IsAmong, AllStand, AreOneById};

use lsm_below::{TableId, have_same_parts};
use lsm_tables::Table;
use lsm_versions::{Level, all_tables, has_id, ids_of_levels};
use std::alloc::{AllocError, Global};
use std::collections::{HashMap, HashSet};

/// The tables by their ids.
fn index(alloc: Global, tables: &[Table]) -> Result<HashMap<TableId, Table>, AllocError>
    ensures { IfOk result (λ m. IsIndex tables.now (λ i. get nat_eq m i)) }
{
    let mut by_id = HashMap::new(alloc);
    for table in tables {
        by_id.insert(table.id(), table.copy()?)?;
    }
    Ok(by_id)
}

/// Whether the table of this one's id has its entries.
fn has_same(by_id: &HashMap<TableId, Table>, table: &Table) -> bool
    ensures { (ts : List SeenTable) → IsIndex ts (λ i. get nat_eq by_id.now i) → HasOwnIds ts → (IsTrue result ↔ IsAmong ts table.now) }
{
    match by_id.get(&table.id()) {
        Some(found) => have_same_parts(found.entries(), table.entries()),
        None => false,
    }
}

/// Whether each of the inputs is among the tables of levels, with its entries. The cost is linear in
/// the tables, and in the entries of the inputs.
pub(crate) fn all_stand(
    alloc: Global,
    inputs: &[Table],
    levels: &[Level],
) -> Result<bool, AllocError>
    requires { HasOwnIds (all_of levels.now) }
    ensures { IfOk result (λ b. IsTrue b ↔ AllStand levels.now inputs.now) }
{
    let by_id = index(alloc, &all_tables(alloc, levels)?)?;
    for input in inputs {
        if !has_same(&by_id, input) {
            return Ok(false);
        }
    }
    Ok(true)
}

fn are_there(there: &HashSet<TableId>, inputs: &[Table]) -> bool
    ensures { result ≡ list_all (λ t. among there.now.keys t.id) inputs.now }
{
    inputs.iter().all(|input| has_id(there, input.id()))
}

/// Whether each of the inputs is among the tables of levels, where an id names one table. The cost is
/// linear in the tables.
pub(crate) fn ids_stand(
    alloc: Global,
    inputs: &[Table],
    levels: &[Level],
) -> Result<bool, AllocError>
    requires { AreOneById inputs.now levels.now }
    ensures { IfOk result (λ b. IsTrue b ↔ AllStand levels.now inputs.now) }
{
    let there = ids_of_levels(alloc, levels)?;
    let stands = are_there(&there, inputs);
    Ok(stands)
}
