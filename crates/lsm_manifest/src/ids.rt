// The ids that a version's file names.
ghost use Rattle.std.specs.Prelude.{◌≡◌, ◌↔◌, ◌+◌, ◌-◌, ◌++◌, IfOk, OnOk, IsTrue};
ghost use Rattle.std.specs.List.Sorted.{IsStrictlyIncreasing};
ghost use Rattle.lsm_manifest.specs.Spelling.{runs_in, levels_in, ids_of_run, ids_of_level, ids_of, distinct};
ghost use Rattle.lsm_manifest.specs.Opening.{next_id};

use crate::RecoveredTable;
use lsm_below::TableId;
use std::alloc::{AllocError, Global};

fn put_ids_of_run(out: &mut Vec<TableId>, run: &[RecoveredTable]) -> Result<(), AllocError>
    ensures { OnOk result (out.new.items ≡ out.old.items ++ ids_of_run run.now) }
{
    for table in run {
        out.push(table.id)?;
    }
    Ok(())
}

fn put_ids_of_level(out: &mut Vec<TableId>, level: &[Vec<RecoveredTable>]) -> Result<(), AllocError>
    ensures { OnOk result (out.new.items ≡ out.old.items ++ ids_of_level (runs_in level.now)) }
{
    for run in level {
        put_ids_of_run(out, run)?;
    }
    Ok(())
}

/// The ids of the tables, in the order of the levels.
pub(crate) fn ids_of(
    alloc: Global,
    levels: &[Vec<Vec<RecoveredTable>>],
) -> Result<Vec<TableId>, AllocError>
    ensures { IfOk result (λ v. v.items ≡ ids_of (levels_in levels.now)) }
{
    let mut out = Vec::new(alloc);
    for level in levels {
        put_ids_of_level(&mut out, level)?;
    }
    Ok(out)
}

/// Whether each id is below the one after it.
fn rise(ids: &[TableId]) -> bool
    ensures { IsTrue result ↔ IsStrictlyIncreasing ids.now }
{
    for i in 1..ids.len() {
        if ids[i - 1] >= ids[i] {
            return false;
        }
    }
    true
}

/// Whether no id stands twice. They are sorted for it.
pub(crate) fn are_distinct(ids: Vec<TableId>) -> bool
    ensures { result ≡ distinct ids.items }
{
    let mut ids = ids;
    ids.sort_unstable();
    rise(&ids)
}

/// The id of the next table: above each of these, as long as there is one.
pub(crate) fn next_id(ids: &[TableId]) -> TableId
    ensures { result ≡ next_id ids.now }
{
    let mut greatest = 0u64;
    for id in ids {
        greatest = greatest.max(*id);
    }
    greatest.saturating_add(1)
}
