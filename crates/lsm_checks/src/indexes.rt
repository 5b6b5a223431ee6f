// What a compaction takes of a run.
ghost use Rattle.std.specs.Prelude.{◌<◌, MatchOption};
ghost use Rattle.lsm_below.specs.Runs.{IsSpan};
ghost use Rattle.lsm_model.specs.Steps.{among};
ghost use Rattle.lsm_checks.specs.Choices.{HasNone, IsFirstOf, IsLastOf};

use lsm_below::{Run, TableId};
use lsm_tables::Table;
use lsm_versions::has_id;
use std::collections::HashSet;

/// The first place of a table of these ids.
fn first_place(ids: &HashSet<TableId>, tables: &[Table]) -> Option<usize>
    ensures { MatchOption result (HasNone ids.now.keys tables.now) (IsFirstOf ids.now.keys tables.now) }
{
    for i in 0..tables.len() {
        if has_id(ids, tables[i].id()) {
            return Some(i);
        }
    }
    None
}

/// The last place of a table of these ids.
fn last_place(ids: &HashSet<TableId>, tables: &[Table]) -> Option<usize>
    ensures { MatchOption result (HasNone ids.now.keys tables.now) (IsLastOf ids.now.keys tables.now) }
{
    let mut end = tables.len();
    while end > 0 {
        if has_id(ids, tables[end - 1].id()) {
            return Some(end - 1);
        }
        end -= 1;
    }
    None
}

/// The first and the last place in a run of a table whose id is one of these; None where there is none.
/// The cost is linear in the run.
pub fn pick_run_indexes(run: &Run<Table>, ids: &HashSet<TableId>) -> Option<(usize, usize)>
    ensures { MatchOption result (HasNone ids.now.keys run.now) (λ at. IsSpan (λ t. among ids.now.keys t.id) run.now at.0 at.1) }
{
    let first = first_place(ids, run.as_slice())?;
    let last = last_place(ids, run.as_slice())?;
    Some((first, last))
}
