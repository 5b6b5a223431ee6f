// The tables of a choice, run by run.
ghost use Rattle.std.specs.Prelude.{◌≡◌, ◌++◌, IfOk, OnOk};
ghost use Rattle.lsm_below.specs.Optimizes.{tables_of};
ghost use Rattle.lsm_versions.specs.Levels.{all_of, chosen_from, HasOwnIds};
ghost use Rattle.lsm_versions.specs.Chosen.{AreThere, AreIdsOf};
ghost use Rattle.lsm_compaction.specs.Merges.{inputs_in};

use lsm_below::{Run, TableId};
use lsm_tables::Table;
use lsm_versions::{Level, copies_chosen, push_run, tables_in_runs};
use std::alloc::{AllocError, Global};
use std::collections::HashSet;

/// Copies of the tables of runs, run by run.
pub(crate) fn tables_of_runs(alloc: Global, runs: &[Run<Table>]) -> Result<Vec<Table>, AllocError>
    ensures { IfOk result (λ v. v.items ≡ tables_of runs.now) }
{
    let mut copies = Vec::new(alloc);
    for table in tables_in_runs(runs) {
        copies.push(table.copy()?)?;
    }
    Ok(copies)
}

/// Appends what runs have of the tables of these ids.
fn push_chosen(
    alloc: Global,
    ids: &HashSet<TableId>,
    runs: &[Run<Table>],
    inputs: &mut Vec<Run<Table>>,
) -> Result<(), AllocError>
    ensures { OnOk result (inputs.new.items ≡ inputs.old.items ++ inputs_in ids.now.keys runs.now) }
{
    for run in runs {
        run.facts();
        let chosen = copies_chosen(alloc, ids, run.as_slice())?;
        push_run(inputs, chosen)?;
    }
    Ok(())
}

/// The tables of these ids as the inputs of a merge: what each run of the levels has of them, the newest run first. The
/// tables are shared. Where each of the ids is there, and none stands twice in the levels, a job can be made of them. The cost
/// is linear in the tables of the levels.
///
/// # Errors
///
/// Refused only for want of memory.
pub fn chosen_inputs(
    alloc: Global,
    ids: &HashSet<TableId>,
    levels: &[Level],
) -> Result<Vec<Run<Table>>, AllocError>
    ensures runs { IfOk result (λ v. v.items ≡ inputs_in ids.now.keys (tables_of levels.now)) }
    ensures tables { IfOk result (λ v. tables_of v.items ≡ chosen_from ids.now.keys levels.now) }
    ensures ids { IfOk result (λ v. AreThere levels.now ids.now.keys → AreIdsOf ids.now.keys (tables_of v.items)) }
    ensures own_ids { IfOk result (λ v. HasOwnIds (all_of levels.now) → HasOwnIds (tables_of v.items)) }
{
    let mut inputs = Vec::new(alloc);
    for level in levels {
        push_chosen(alloc, ids, level.as_slice(), &mut inputs)?;
    }
    Ok(inputs)
}
