// What the rule of levels asks of them.
ghost use Rattle.std.specs.Prelude.{◌≡◌, ℕ, ◌<◌, ◌≤◌, ◌↔◌, [], length, nat_eq, IfOk, IsTrue};
ghost use Rattle.lsm_below.specs.Optimizes.{tables_of};
ghost use Rattle.lsm_pick.specs.Tables.{runs_at};
ghost use Rattle.lsm_pick.specs.Leveled.{shown_size, unhidden_bytes, GoesLast, IsFirstFull};

use crate::level_hull::are_apart;
use lsm_below::Run;
use lsm_tables::Table;
use lsm_versions::{HiddenSet, Level, tables_in_runs};
use std::alloc::{AllocError, Global};

/// The bytes of a table's file, 0 where it is hidden.
fn shown_size(hidden: &HiddenSet, table: &Table) -> u64
    ensures { result ≡ shown_size hidden.now table.now }
{
    if hidden.is_hidden(table.id()) {
        return 0;
    }
    table.file_size()
}

/// The bytes of the unhidden tables of several runs; a sum past 2^64 - 1 stands there.
pub(crate) fn unhidden_bytes(hidden: &HiddenSet, runs: &[Run<Table>]) -> u64
    ensures { result ≡ unhidden_bytes hidden.now (tables_of runs.now) }
{
    let mut total: u64 = 0;
    for table in tables_in_runs(runs) {
        total = total.saturating_add(shown_size(hidden, table));
    }
    total
}

/// The first level with a table, after the first; 6 where there is none.
pub(crate) fn first_full(levels: &[Level]) -> usize
    requires { length levels.now ≡ 7 }
    ensures { IsFirstFull levels.now result }
{
    for i in 1..6 {
        if !levels[i].is_empty() {
            return i;
        }
    }
    6
}

fn are_middle_empty(levels: &[Level]) -> bool
    requires { length levels.now ≡ 7 }
    ensures { IsTrue result ↔ ((i : ℕ) → 1 ≤ i → i < 6 → runs_at levels.now i ≡ []) }
{
    for i in 1..6 {
        if !levels[i].is_empty() {
            return false;
        }
    }
    true
}

/// Whether a level is one run.
pub(crate) fn is_one_run(level: &Level) -> bool
    ensures { result ≡ nat_eq (length level.now) 1 }
{
    level.run_count() == 1
}

/// Whether the first level goes to the last one as it is.
pub(crate) fn goes_last(alloc: Global, levels: &[Level]) -> Result<bool, AllocError>
    requires { length levels.now ≡ 7 }
    ensures { IfOk result (λ b. IsTrue b ↔ GoesLast levels.now) }
{
    if !is_one_run(&levels[0]) || !are_middle_empty(levels) {
        return Ok(false);
    }
    are_apart(alloc, &levels[0], &levels[6])
}
