// Gaps in what a choice takes of a run.
ghost use Rattle.std.specs.Prelude.{◌≡◌};
ghost use Rattle.std.specs.List.{list_any};
ghost use Rattle.lsm_checks.specs.Choices.{resumes, has_gap, any_gap};

use lsm_below::{Run, TableId};
use lsm_tables::Table;
use lsm_versions::{Level, has_id, run_has};
use std::collections::HashSet;

/// Whether a chosen table comes after one that isn't.
fn run_resumes(ids: &HashSet<TableId>, tables: &[Table]) -> bool
    ensures { result ≡ resumes ids.now.keys tables.now }
{
    let mut rest = tables;
    while let [table, behind @ ..] = rest {
        if !has_id(ids, table.id()) {
            return run_has(ids, behind);
        }
        rest = behind;
    }
    false
}

/// Whether a table that isn't chosen stands between two that are. One walk over the run.
fn run_has_gap(ids: &HashSet<TableId>, tables: &[Table]) -> bool
    ensures { result ≡ has_gap ids.now.keys tables.now }
{
    let mut rest = tables;
    while let [table, behind @ ..] = rest {
        if has_id(ids, table.id()) {
            return run_resumes(ids, behind);
        }
        rest = behind;
    }
    false
}

fn level_has_gap(ids: &HashSet<TableId>, runs: &[Run<Table>]) -> bool
    ensures { result ≡ list_any (has_gap ids.now.keys) runs.now }
{
    runs.iter().any(|run| run_has_gap(ids, run.as_slice()))
}

/// Whether some run has a gap.
pub(crate) fn levels_have_gap(ids: &HashSet<TableId>, levels: &[Level]) -> bool
    ensures { result ≡ any_gap ids.now.keys levels.now }
{
    levels
        .iter()
        .any(|level| level_has_gap(ids, level.as_slice()))
}
